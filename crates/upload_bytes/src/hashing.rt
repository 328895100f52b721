//! A hash by either algorithm, which takes parts in here, or in a thread of its own.
ghost use Rattle.std.specs.Prelude.{◌≡◌, ◌++◌, ℕ, List, IfOk, IfErr, IfSome, []};
ghost use Rattle.std.specs.List.{concat};
ghost use Rattle.upload_names.specs.declared.digest.Algorithm.{Algorithm as By};
ghost use Rattle.upload_bytes.specs.Running.{HoldsBy};
ghost use Rattle.upload_bytes.specs.Hashing.{StandsBy};
ghost use Rattle.upload_bytes.specs.Spools.{HasIfAny};

use crate::filing::PrefixFile;
use crate::part::{Part, share_all, take_in};
use crate::segments::size_of;
use crate::shares::Shares;
use crate::spool::{Spool, SyncedFile};
use crate::thread_end::ThreadEnd;
use sha2::{Digest, Sha256, Sha512};
use std::alloc::{AllocError, Global};
use std::snapshot::Snapshot;
use std::thread::{Promise, PromisedHandle, Threads};
use std::{io, thread};
use upload_names::Algorithm;

/// A hash by either algorithm.
#[derive(Drop)]
pub enum Running {
    Sha256(Sha256),
    Sha512(Sha512),
}

impl Running {
    /// A hash of no bytes by this algorithm.
    pub fn new(algorithm: Algorithm) -> Running
        ensures { HoldsBy algorithm result [] }
    {
        match algorithm {
            Algorithm::Sha256 => Running::Sha256(Sha256::new()),
            Algorithm::Sha512 => Running::Sha512(Sha512::new()),
        }
    }

    /// A copy. It takes no memory.
    pub fn copy(&self) -> Running
        ensures { result ≡ self.now }
    {
        match self {
            Running::Sha256(hash) => match hash.clone() {
                Ok(copy) => Running::Sha256(copy),
                Err(_) => unreachable!(),
            },
            Running::Sha512(hash) => match hash.clone() {
                Ok(copy) => Running::Sha512(copy),
                Err(_) => unreachable!(),
            },
        }
    }

    /// The hash with parts taken in.
    pub fn with_parts(self, parts: &[Part]) -> Running
        ensures { (by : By) (before : List ℕ) → HoldsBy by self before
            → HoldsBy by result (before ++ concat parts.now) }
    {
        match self {
            Running::Sha256(mut hash) => {
                take_in(&mut hash, parts);
                Running::Sha256(hash)
            }
            Running::Sha512(mut hash) => {
                take_in(&mut hash, parts);
                Running::Sha512(hash)
            }
        }
    }

    /// The hash with a piece taken in.
    pub fn with(self, piece: &[u8]) -> Running
        ensures { (by : By) (before : List ℕ) → HoldsBy by self before
            → HoldsBy by result (before ++ piece.now) }
    {
        match self {
            Running::Sha256(mut hash) => {
                hash.update(piece);
                Running::Sha256(hash)
            }
            Running::Sha512(mut hash) => {
                hash.update(piece);
                Running::Sha512(hash)
            }
        }
    }
}

/// The fewest bytes that are worth a thread.
const WORTH_A_THREAD: u64 = 262_144;

/// The stack of a thread that hashes, in bytes.
const STACK: usize = 131_072;

/// What a thread promises: its hash holds these parts behind what the hash held that it was given.
#[derive(Drop)]
pub struct Behind {
    pub before: Snapshot<Running>,
    pub parts: Snapshot<Vec<Part>>,
}

impl Promise<Running> for Behind {
    ghost use Rattle.std.specs.Prelude.{List, ℕ, ◌++◌};
    ghost use Rattle.std.specs.List.{concat};
    ghost use Rattle.upload_names.specs.declared.digest.Algorithm.{Algorithm as By};
    ghost use Rattle.upload_bytes.specs.Running.{HoldsBy};

    ghost kept_by = { λ p hash. (by : By) (before : List ℕ) → HoldsBy by p.before.value before
        → HoldsBy by hash (before ++ concat p.parts.value.items) };
}

/// A thread that hashes. One that nobody joins runs to its end, and lets go of its parts there.
#[derive(Drop)]
pub struct Away {
    pub thread: PromisedHandle<Running, Behind>,
    end: ThreadEnd,
}

/// A hash that takes parts in, here or in a thread of its own.
#[derive(Drop)]
pub enum Hashing {
    Here(Running),
    Away(Away),
}

impl Hashing {
    /// Whether a thread is still hashing: who joined it would wait.
    pub fn is_at_work(&self) -> bool {
        match self {
            Hashing::Here(_) => false,
            Hashing::Away(away) => !away.end.is_over(),
        }
    }

    /// The end of the thread that is still hashing, if one is.
    pub fn end(&self) -> Option<ThreadEnd> {
        match self {
            Hashing::Away(away) if !away.end.is_over() => away.end.share().ok(),
            _ => None,
        }
    }
}

/// Where parts are hashed: here, or in threads. Bodies may be written there too, as they come.
pub trait HashPlace {
    /// The hash, once its thread has ended. An `Err` hands one back whose thread can't be joined here.
    fn join(&self, hash: Hashing) -> Result<Running, Hashing>
        ensures ok { IfOk result
            (λ home. (by : By) (bytes : List ℕ) → StandsBy by hash bytes → HoldsBy by home bytes) }
        ensures err { IfErr result (λ back. back ≡ hash) };

    /// Has a hash take parts in.
    fn take_in(&self, alloc: Global, hash: Running, parts: &[Part]) -> Hashing
        ensures { (by : By) (bytes : List ℕ) → HoldsBy by hash bytes
            → StandsBy by result (bytes ++ concat parts.now) };

    /// Has the file of a body take in the parts that came whole, and makes one if there is none. A place that writes
    /// nothing has none.
    fn write(&self, alloc: Global, file: Option<PrefixFile>, parts: &[Part]) -> Option<PrefixFile>
        requires { HasIfAny file parts.now }
        ensures { HasIfAny result parts.now }
    {
        let _ = alloc;
        let _ = parts;
        file
    }

    /// The file of a body that came whole, with all parts and what came behind them, on the disk; or why it can't be
    /// written. None if there is none: a short body may stay without.
    fn put_down(
        &self,
        alloc: Global,
        file: Option<PrefixFile>,
        parts: &[Part],
        last: &[u8],
    ) -> Option<io::Result<SyncedFile>>
        requires { HasIfAny file parts.now }
        ensures { IfSome result (λ written.
            IfOk written (λ file. file ≡ concat parts.now ++ last.now)) }
    {
        let _ = alloc;
        drop(file);
        let _ = parts;
        let _ = last;
        None
    }

    /// Lets shares of parts go, and their bytes if nobody else owns them.
    fn let_go(&self, shares: Shares) {
        drop(shares);
    }
}

/// Here, at once.
#[derive(Clone, Copy, Debug, Default)]
pub struct InPlace;

impl HashPlace for InPlace {
    fn join(&self, hash: Hashing) -> Result<Running, Hashing> {
        match hash {
            Hashing::Here(hash) => Ok(hash),
            Hashing::Away(away) => Err(Hashing::Away(away)),
        }
    }

    fn take_in(&self, _alloc: Global, hash: Running, parts: &[Part]) -> Hashing {
        Hashing::Here(hash.with_parts(parts))
    }
}

/// In a thread that shares the parts, while its caller goes on. Few bytes aren't worth one, and are hashed here; so are
/// all if there is no memory for the shares, or no thread can be made.
#[derive(Clone, Copy)]
pub struct InThreads<'a, R: Threads>(pub &'a R);

impl<'a, R: Threads> HashPlace for InThreads<'a, R> {
    fn join(&self, hash: Hashing) -> Result<Running, Hashing> {
        match hash {
            Hashing::Here(hash) => Ok(hash),
            Hashing::Away(away) => {
                let Away { thread, .. } = away;
                Ok(thread.join(self.0))
            }
        }
    }

    fn take_in(&self, alloc: Global, hash: Running, parts: &[Part]) -> Hashing {
        if size_of(parts) < WORTH_A_THREAD {
            return Hashing::Here(hash.with_parts(parts));
        }
        match share_all(alloc, parts) {
            Ok(shares) => hash_beside(self.0, alloc, hash, shares),
            Err(AllocError) => Hashing::Here(hash.with_parts(parts)),
        }
    }

    fn let_go(&self, shares: Shares) {
        if shares.are_worth_a_thread() {
            let thread = thread::Builder::new().stack_size(STACK);
            // Without a thread they have gone here.
            let _ = thread.spawn(self.0, move || drop(shares));
        }
    }
}

/// In threads, while bodies are written here, into files of a spool if there is one.
#[derive(Clone, Copy)]
pub struct Spooling<'a, R: Threads> {
    rt: &'a R,
    spool: Option<&'a Spool>,
}

/// A body of no more bytes gets no file.
const MOST_WITHOUT: usize = 65_536;

impl<'a, R: Threads> Spooling<'a, R> {
    /// In threads, and in files of this spool.
    pub fn new(rt: &'a R, spool: Option<&'a Spool>) -> Spooling<'a, R> {
        Spooling { rt, spool }
    }
}

impl<'a, R: Threads> HashPlace for Spooling<'a, R> {
    fn join(&self, hash: Hashing) -> Result<Running, Hashing> {
        InThreads(self.rt).join(hash)
    }

    fn take_in(&self, alloc: Global, hash: Running, parts: &[Part]) -> Hashing {
        InThreads(self.rt).take_in(alloc, hash, parts)
    }

    fn write(&self, alloc: Global, file: Option<PrefixFile>, parts: &[Part]) -> Option<PrefixFile> {
        let file = match file {
            Some(file) => file,
            None => PrefixFile::new(self.spool?.make(alloc)),
        };
        Some(file.catch_up(parts))
    }

    fn put_down(
        &self,
        alloc: Global,
        file: Option<PrefixFile>,
        parts: &[Part],
        last: &[u8],
    ) -> Option<io::Result<SyncedFile>> {
        let file = match file {
            Some(file) => file,
            None if parts.is_empty() && last.len() <= MOST_WITHOUT => return None,
            None => PrefixFile::new(self.spool?.make(alloc)),
        };
        Some(file.finish(parts, last))
    }
}

/// Starts a thread that has a hash take parts in.
fn hash_beside<R: Threads>(rt: &R, alloc: Global, hash: Running, parts: Vec<Part>) -> Hashing
    ensures { (by : By) (bytes : List ℕ) → HoldsBy by hash bytes
        → StandsBy by result (bytes ++ concat parts.items) }
{
    let Ok((end, told)) = ends(alloc) else {
        return Hashing::Here(hash.with_parts(parts.as_slice()));
    };
    let promise = Behind {
        before: Snapshot::of(&hash),
        parts: Snapshot::of(&parts),
    };
    let thread = thread::Builder::new().stack_size(STACK);
    match thread.spawn_with(rt, promise, move || hash_there(hash, parts, told)) {
        Ok(thread) => Hashing::Away(Away { thread, end }),
        Err(refused) => Hashing::Here((refused.value)()),
    }
}

/// The end of a thread, for who waits for it and for the thread.
fn ends(alloc: Global) -> Result<(ThreadEnd, ThreadEnd), AllocError> {
    let end = ThreadEnd::new(alloc)?;
    let told = end.share()?;
    Ok((end, told))
}

/// What the thread does. Its shares of the parts are let go.
fn hash_there(hash: Running, parts: Vec<Part>, end: ThreadEnd) -> Running
    ensures { (by : By) (before : List ℕ) → HoldsBy by hash before
        → HoldsBy by result (before ++ concat parts.items) }
{
    let hash = hash.with_parts(parts.as_slice());
    end.tell();
    hash
}
