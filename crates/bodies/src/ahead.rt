//! A shelf whose bodies are read, and hashed, before they are asked for.
ghost use Rattle.std.specs.Prelude.{◌≡◌};

use crate::fault::BodyFault;
use crate::hint::{Bond, Hint, HintedClose, HintedFile};
use crate::lending::Lends;
use crate::shelf::Shelf;
use crate::whole::{Unread, Whole, Wholes, read_hinted};
use std::alloc::Global;
use std::collections::VecDeque;
use std::thread::{self, JoinHandle, Threads};
use std::{io, vec};
use upload_bytes::{Body, Front, Spool, SyncedFile};
use upload_names::UploadRef;

/// The stack of a thread that reads, in bytes.
const STACK: usize = 262_144;

/// Bodies that a thread reads. It is let go once the thread has ended: what a thread has read stays in memory if nobody
/// takes it.
struct UnderWay<'a, R: Threads> {
    rt: &'a R,
    hint: Hint,
    /// How many of its files were asked for.
    asked: usize,
    /// How many bytes the others have.
    left: u64,
    /// None once it was joined.
    thread: Option<JoinHandle<Option<Wholes>>>,
    /// What is left of what it has read.
    read: Option<Wholes>,
}

impl<'a, R: Threads> Drop for UnderWay<'a, R> {
    fn drop(self) {
        let Self {
            rt,
            hint: _hint,
            asked: _asked,
            left: _left,
            thread,
            read: _read,
        } = self;
        if let Some(thread) = thread {
            let _ = thread.join(rt);
        }
    }
}

impl<'a, R: Threads> UnderWay<'a, R> {
    /// The file that is asked for next.
    fn next(&self) -> Option<&HintedFile> {
        self.hint.files.get(self.asked)
    }

    /// The close for which what the upload has received is asked for next.
    fn next_close(&self) -> Option<&HintedClose> {
        match &self.hint.bond {
            Bond::OneUpload(close) if !close.has_file && self.next().is_none() => Some(close),
            _ => None,
        }
    }

    /// The place of what is asked for next. Behind the last there is none.
    fn place(&self) -> Option<u64> {
        match self.next() {
            Some(file) => Some(file.place),
            None => self.next_close().map(|close| close.place),
        }
    }

    /// Whether it has one body in several files.
    fn is_joined(&self) -> bool {
        matches!(self.hint.bond, Bond::OneBody)
    }

    /// Whether the file of this number is asked for next.
    fn starts_with(&self, number: u64) -> bool {
        self.next().is_some_and(|file| file.number == number)
    }

    /// Whether what this upload has received is asked for next.
    fn closes(&self, at: &UploadRef) -> bool {
        self.next_close().is_some_and(|close| close.at.same(at))
    }

    /// What its thread has read. It is waited for.
    fn read(&mut self) -> Option<&mut Wholes> {
        if let Some(thread) = self.thread.take() {
            self.read = thread.join(self.rt);
        }
        self.read.as_mut()
    }

    /// The next body.
    fn take(&mut self) -> Option<Whole> {
        let len = self.next().map_or(0, |file| file.len);
        self.left = self.left.saturating_sub(len);
        self.asked = self.asked.saturating_add(1);
        self.read()?.bodies.pop_front()
    }

    /// The body in several files.
    fn take_joined(&mut self) -> Option<Body> {
        self.read()?.joined.take()
    }

    /// What the upload has received.
    fn take_front(&mut self) -> Option<Front> {
        self.read()?.front.take()
    }
}

/// A shelf whose bodies are read before they are asked for, by threads: each reads one body, or those of one upload.
/// There are so many threads at a time as there are processors, and as many whose bodies wait to be asked for. No more
/// are begun while these have as many bytes as they may.
#[derive(Drop)]
pub struct AheadShelf<'a, R: Threads, S: Lends> {
    rt: &'a R,
    alloc: Global,
    inner: S,
    /// What is likely to be asked for, and isn't begun.
    hints: vec::IntoIter<Hint>,
    under_way: VecDeque<UnderWay<'a, R>>,
    /// So many may be under way.
    most: usize,
    /// No more are begun while they have so many bytes.
    most_ahead: u64,
}

impl<'a, R: Threads, S: Lends> AheadShelf<'a, R, S> {
    ghost use Rattle.bodies.specs.AheadShelf.{inner_of};

    /// Reads ahead what the hints tell, in the order of their first files: bodies of up to `most_ahead` bytes
    /// together, and those of one more hint. Others are read as they are asked for.
    pub fn new(
        rt: &'a R,
        alloc: Global,
        inner: S,
        hints: Vec<Hint>,
        most_ahead: u64,
    ) -> AheadShelf<'a, R, S>
        ensures { inner_of result ≡ inner }
    {
        let processors = thread::available_parallelism(rt).map_or(1, |count| count.get());
        AheadShelf {
            rt,
            alloc,
            inner,
            hints: hints.into_iter(),
            under_way: VecDeque::new(alloc),
            most: processors.saturating_mul(2),
            most_ahead,
        }
    }

    /// The shelf that it read. No thread reads any more.
    pub fn into_inner(self) -> S
        ensures { result ≡ inner_of self.entry }
    {
        let mut shelf = self;
        shelf.forget();
        shelf.inner
    }

    /// How many bytes are under way.
    fn ahead(&self) -> u64 {
        let mut ahead: u64 = 0;
        for it in self.under_way.iter() {
            ahead = ahead.saturating_add(it.left);
        }
        ahead
    }

    /// Begins as many hints as may be under way.
    fn read_on(&mut self)
        ensures { inner_of self.new ≡ inner_of self.old }
    {
        for _ in self.under_way.len()..self.most {
            if self.ahead() >= self.most_ahead {
                return;
            }
            let Some(hint) = self.hints.next() else {
                return;
            };
            self.begin(hint);
        }
    }

    /// The files of a hint, which are to be read.
    fn lend(&self, files: &[HintedFile]) -> io::Result<Vec<Unread>> {
        let mut unread = Vec::with_capacity(self.alloc, files.len())?;
        for file in files {
            let reader = self.inner.lend(file.number)?;
            unread.push(Unread { reader })?;
        }
        Ok(unread)
    }

    /// Begins a hint. Without a thread or memory its bodies are read as they are asked for.
    fn begin(&mut self, hint: Hint)
        ensures { inner_of self.new ≡ inner_of self.old }
    {
        let Ok(files) = self.lend(hint.files.as_slice()) else {
            return;
        };
        let alloc = self.alloc;
        let bond = hint.bond;
        let hashed = hint.hashed;
        let read = move || -> Option<Wholes> { read_hinted(files, bond, hashed, alloc) };
        let Ok(thread) = thread::Builder::new()
            .stack_size(STACK)
            .spawn(self.rt, read)
        else {
            return;
        };
        let _ = self.under_way.push_back(UnderWay {
            rt: self.rt,
            left: hint.len(),
            hint,
            asked: 0,
            thread: Some(thread),
            read: None,
        });
    }

    /// Lets go of all that is under way, and of all hints.
    fn forget(&mut self)
        ensures { inner_of self.new ≡ inner_of self.old }
    {
        self.hints = Vec::new(self.alloc).into_iter();
        self.under_way.clear();
    }

    /// What is under way of which this place is asked for next. What was to be asked for before is let go.
    fn take_out(&mut self, place: u64) -> Option<UnderWay<'a, R>>
        ensures { inner_of self.new ≡ inner_of self.old }
    {
        let mut found = None;
        for _ in 0..self.under_way.len() {
            let it = self.under_way.pop_front()?;
            match it.place() {
                Some(mine) if mine == place => found = Some(it),
                Some(mine) if mine > place => {
                    let _ = self.under_way.push_back(it);
                }
                _ => {}
            }
        }
        found
    }

    /// What a thread has read of this number.
    fn take(&mut self, number: u64) -> Option<Whole>
        ensures { inner_of self.new ≡ inner_of self.old }
    {
        let mut under_way = self.under_way.iter();
        let found = under_way.find(|it| it.starts_with(number) && !it.is_joined());
        let place = found?.place()?;
        let mut it = self.take_out(place)?;
        let whole = it.take()?;
        if it.place().is_some() {
            let _ = self.under_way.push_back(it);
        }
        Some(whole)
    }

    /// What a thread has read of the body whose first file has this number.
    fn take_joined(&mut self, number: u64) -> Option<Body>
        ensures { inner_of self.new ≡ inner_of self.old }
    {
        let mut under_way = self.under_way.iter();
        let found = under_way.find(|it| it.starts_with(number) && it.is_joined());
        let place = found?.place()?;
        self.take_out(place)?.take_joined()
    }

    /// What an upload has received, as a thread has read it for a close without a file.
    fn take_front(&mut self, at: &UploadRef) -> Option<Front>
        ensures { inner_of self.new ≡ inner_of self.old }
    {
        let mut under_way = self.under_way.iter();
        let found = under_way.find(|it| it.closes(at));
        let place = found?.place()?;
        self.take_out(place)?.take_front()
    }
}

impl<'a, R: Threads, S: Lends> Shelf for AheadShelf<'a, R, S> {
    type File = S::File;

    ghost held = { λ shelf. S.Shelf.held shelf.inner };

    ghost may_leave = { λ shelf. S.Shelf.may_leave shelf.inner };

    ghost is_usable = { λ shelf. S.Shelf.is_usable shelf.inner };

    ghost IsClean = { λ shelf. S.Shelf.IsClean shelf.inner };

    ghost faults = { λ shelf. S.Shelf.faults shelf.inner };

    fn may_be_used(&self) -> bool {
        self.inner.may_be_used()
    }

    fn make(&mut self, number: u64) -> Result<S::File, BodyFault> {
        self.inner.make(number)
    }

    fn close(&mut self, number: u64, file: S::File) -> io::Result<()> {
        self.inner.close(number, file)
    }

    fn sync(&mut self, number: u64) -> io::Result<()> {
        self.inner.sync(number)
    }

    fn spool(&self) -> Option<Spool> {
        self.inner.spool()
    }

    fn name(&mut self, number: u64, file: &SyncedFile) -> Result<(), BodyFault> {
        self.inner.name(number, file)
    }

    fn read_at(&mut self, number: u64, at: usize, buf: &mut [u8]) -> Result<usize, BodyFault> {
        self.inner.read_at(number, at, buf)
    }

    fn remove(&mut self, number: u64) -> Result<(), BodyFault> {
        // What was lent of it is let go, so that nothing is noted of it later.
        self.forget();
        self.inner.remove(number)
    }

    fn take_hints(&mut self, hints: Vec<Hint>) {
        self.forget();
        self.hints = hints.into_iter();
    }

    fn ready(&mut self, number: u64) -> Option<Body> {
        self.read_on();
        let whole = self.take(number)?;
        if whole.reader.number() != number {
            return None;
        }
        self.inner.take_back(whole.reader);
        Some(whole.body)
    }

    fn joined(&mut self, first: u64) -> Option<Body> {
        self.read_on();
        self.take_joined(first)
    }

    fn front(&mut self, at: &UploadRef) -> Option<Front> {
        self.take_front(at)
    }

    fn numbers(&mut self, alloc: Global) -> Result<Vec<u64>, BodyFault> {
        self.inner.numbers(alloc)
    }
}
