//! The file of a body, read apart from its shelf.
ghost use Rattle.std.specs.Prelude.{◌≡◌, ◌≤◌, ◌<◌, ◌++◌, ◌↔◌, [], false, length, take, reverse};
ghost use Rattle.std.specs.Prelude.{IfOk, OnErr, IsTrue};

use crate::counter::Counter;
use journal_file::Notes;
use std::io::{self, Read};
use std::{fs, mem};
use upload_bytes::{BodyBuilder, Spool};

/// Where a file stands that is read from its front to its end.
#[derive(Drop)]
enum Source {
    /// It isn't open yet, and has this path.
    At(String),
    Open(fs::File),
    /// Its end was found, and it is closed.
    Over,
}

impl Source {
    /// Reads the next bytes. Who reads first opens it.
    fn read(&mut self, rt: &HostRuntime, buf: &mut [u8]) -> io::Result<usize>
        ensures { IfOk result (λ n. n ≤ length buf.old) }
    {
        if let Source::At(path) = self {
            let file = fs::File::open(rt, path.as_str())?;
            *self = Source::Open(file);
        }
        match self {
            Source::Open(file) => file.read(buf),
            Source::At(_) | Source::Over => Ok(0),
        }
    }
}

/// The file of a body, which is read from its front to its end, in any thread. It is open from the first read until its
/// end is found.
#[derive(Drop)]
pub struct BodyReader {
    rt: HostRuntime,
    number: u64,
    source: Source,
    counter: Counter,
    /// That of its shelf, if what is read of the file may be kept there alone.
    spool: Option<Spool>,
    /// What came, the last byte first.
    came: Notes<u64>,
    is_over: bool,
}

/// Notes of bytes, behind those before them.
fn noted(came: Notes<u64>, bytes: &[u8]) -> Notes<u64>
    ensures { result ≡ reverse bytes.now ++ came }
{
    let mut came = came;
    for byte in bytes {
        came = came.and(&u64::from(*byte));
    }
    came
}

impl BodyReader {
    ghost use Rattle.bodies.specs.Reader.{number_of, bytes_of, is_over};

    /// The file of this number, at this path, of which nothing was read.
    pub(crate) fn new(
        rt: &HostRuntime,
        number: u64,
        path: String,
        counter: Counter,
        spool: Option<Spool>,
    ) -> BodyReader
        ensures new { (number_of result ≡ number) × (bytes_of result ≡ []) }
        ensures begins { is_over result ≡ false }
    {
        BodyReader {
            rt: *rt,
            number,
            source: Source::At(path),
            counter,
            spool,
            came: Notes::none(),
            is_over: false,
        }
    }

    pub fn number(&self) -> u64
        ensures { result ≡ number_of self.now }
    {
        self.number
    }

    /// Notes that what came last of a body is all of this file, so that a blob of it may be kept in the file.
    pub(crate) fn note_end(&self, body: &mut BodyBuilder)
        ensures { body.new ≡ body.old }
    {
        if let Some(spool) = &self.spool {
            body.note_file(spool, self.number);
        }
    }

    /// What came, as it is noted.
    pub(crate) fn into_came(self) -> Notes<u64>
        ensures { reverse result ≡ bytes_of self }
    {
        self.came
    }

    /// Reads the next bytes into the front of `buf`, and says how many: none is the end, if there is room for any. Any
    /// error is one of the system, and nothing came then.
    pub fn read(&mut self, buf: &mut [u8]) -> io::Result<usize>
        ensures count { IfOk result (λ n. n ≤ length buf.old) }
        ensures came { IfOk result (λ n.
            bytes_of self.new ≡ bytes_of self.old ++ take n buf.new) }
        ensures over { IfOk result (λ n.
            IsTrue (is_over self.new) ↔ ((n ≡ 0) × (0 < length buf.old))) }
        ensures number { number_of self.new ≡ number_of self.old }
        ensures err { OnErr result ((bytes_of self.new ≡ bytes_of self.old)
            × (is_over self.new ≡ is_over self.old)) }
    {
        let room = buf.len();
        let n = match self.source.read(&self.rt, buf) {
            Ok(n) => n,
            Err(error) => return Err(error),
        };
        self.counter.add(n);
        let came = mem::replace(&mut self.came, Notes::none());
        self.came = noted(came, &buf[..n]);
        self.is_over = n == 0 && room > 0;
        if self.is_over {
            self.source = Source::Over;
        }
        Ok(n)
    }
}
