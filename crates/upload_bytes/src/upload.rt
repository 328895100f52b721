//! What an upload received, whether or not its bytes are held.
ghost use Rattle.std.specs.Prelude.{◌≡◌, ◌↔◌, ◌+◌, ◌<◌, ◌^◌, ◌++◌, [], length, IsTrue, IfOk, IfSome, OnOk, OnErr, IfNone};
ghost use Rattle.upload_names.specs.Digest.{HasDigest};
ghost use Rattle.upload_bytes.specs.Uploads.{bytes_of};

use crate::body::Body;
use crate::digested::Digested;
use crate::front::Front;
use crate::hashing::HashPlace;
use crate::received::Received;
use crate::shared::BlobBytes;
use crate::shares::Shares;
use crate::thread_end::ThreadEnd;
use std::alloc::{AllocError, Global};
use std::marker::Model;
use std::mem;
use upload_names::{Algorithm, BlobDigest};

/// What is kept of what an upload received: its bytes, or what is left of them.
#[derive(Drop)]
pub enum Content {
    Held(Received),
    Gone(Digested),
}

/// What an upload received, seen as its bytes. They may be let go for others (`give_way`): what needs them finds no
/// memory from then on, and what only tells of them goes on.
#[derive(Drop)]
pub struct Upload {
    content: Content,
    /// Its bytes are to be let go once its hashes hold them.
    leaves: bool,
    /// Those that files have are to leave memory once its hashes hold them.
    evicts: bool,
}

impl Model for Upload {
    ghost use Rattle.std.specs.Prelude.{List, ℕ};
    ghost use Rattle.std.specs.Coded.{coded_ℕ, coded_list};

    ghost Value = { List ℕ };

    ghost coded = { coded_list coded_ℕ };

    ghost use Rattle.upload_bytes.specs.Uploads.{bytes_of};

    ghost view = { λ a. bytes_of a.content };
}

impl Upload {
    /// No bytes. It takes no memory.
    pub fn new(alloc: Global) -> Upload
        ensures { result ≡ [] }
    {
        Upload::of(Received::new(alloc))
    }

    /// These bytes.
    pub fn of(received: Received) -> Upload
        ensures { result ≡ received }
    {
        Upload {
            content: Content::Held(received),
            leaves: false,
            evicts: false,
        }
    }

    /// How many bytes there are.
    pub fn len(&self) -> u64
        ensures { result ≡ length self.now }
    {
        match &self.content {
            Content::Held(received) => received.len(),
            Content::Gone(digested) => digested.len(),
        }
    }

    /// Takes a body in behind the others (`Received::append`). An `Err` changes nothing; it also says that the bytes
    /// were let go.
    pub fn append(&mut self, body: Body) -> Result<(), AllocError>
        requires { length self.old + length body < 2 ^ 64 }
        ensures ok { OnOk result (self.new ≡ self.old ++ body) }
        ensures err { OnErr result (self.new ≡ self.old) }
    {
        self.leaves = false;
        match &mut self.content {
            Content::Held(received) => received.append(body),
            Content::Gone(_) => Err(AllocError),
        }
    }

    /// Takes bytes in that are in files, if it has none yet. An `Err` says that it has some, and changes nothing.
    pub fn restore(&mut self, received: Received) -> Result<(), AllocError>
        ensures ok { OnOk result ((self.old ≡ []) × (self.new ≡ received)) }
        ensures err { OnErr result (self.new ≡ self.old) }
    {
        if self.len() > 0 {
            return Err(AllocError);
        }
        *self = Upload::of(received);
        Ok(())
    }

    /// Has the hash by an algorithm catch up with the bytes, at a place (`Received::catch_up`). Nothing that is seen
    /// changes.
    pub fn catch_up<P: HashPlace>(
        &mut self,
        place: &P,
        alloc: Global,
        algorithm: Algorithm,
    ) -> Option<ThreadEnd>
        ensures { self.new ≡ self.old }
    {
        match &mut self.content {
            Content::Held(received) => received.catch_up(place, alloc, algorithm),
            Content::Gone(_) => None,
        }
    }

    /// How many bytes the hash by an algorithm lacks, and no thread is at work to take in (`Received::lacks`).
    pub fn lacks(&self, algorithm: Algorithm) -> u64 {
        match &self.content {
            Content::Held(received) => received.lacks(algorithm),
            Content::Gone(_) => 0,
        }
    }

    /// Has the hash by an algorithm back from a thread that has ended (`Received::take_back`), and has the bytes go, or
    /// leave memory, if they are to and no thread is at work for them. Nothing that is seen changes.
    pub fn take_back<P: HashPlace>(
        &mut self,
        place: &P,
        alloc: Global,
        algorithm: Algorithm,
    ) -> Option<ThreadEnd>
        ensures { self.new ≡ self.old }
    {
        let end = match &mut self.content {
            Content::Held(received) => received.take_back(place, algorithm),
            Content::Gone(_) => None,
        };
        if self.leaves {
            self.let_go(place, alloc);
        } else if self.evicts {
            self.evict(place, alloc);
        }
        end
    }

    /// Whether it has bytes that aren't to be let go.
    pub fn stays(&self) -> bool {
        match &self.content {
            Content::Held(received) => {
                !self.leaves && !received.is_evicted() && received.len() > 0
            }
            Content::Gone(_) => false,
        }
    }

    /// Whether it has bytes in memory that files have too.
    pub fn may_evict(&self) -> bool {
        match &self.content {
            Content::Held(received) => received.may_evict(),
            Content::Gone(_) => false,
        }
    }

    /// Whether some of its bytes left memory, and it goes on as before.
    pub fn has_evicted(&self) -> bool {
        match &self.content {
            Content::Held(received) => received.has_evicted(),
            Content::Gone(_) => false,
        }
    }

    /// Has the bytes leave memory that files have (`Received::evict`): at once, or else once no thread is at work for
    /// them (`take_back`). Nothing that is seen changes, and all goes on as before.
    pub fn evict<P: HashPlace>(&mut self, place: &P, alloc: Global)
        ensures { self.new ≡ self.old }
    {
        if let Content::Held(received) = &mut self.content {
            received.evict(place, alloc);
            self.evicts = received.may_evict();
        }
    }

    /// Has the bytes go, so that there is room for others: at once if its hashes hold them, or else once they do
    /// (`take_back`). Both catch up at a place. Bytes that files have are evicted (`evict`), and all goes on as before.
    /// Of others nothing that is seen changes; from then on nothing can be appended, and the bytes can't be had, which
    /// is told as want of memory.
    pub fn give_way<P: HashPlace>(&mut self, place: &P, alloc: Global)
        ensures { self.new ≡ self.old }
    {
        self.leaves = true;
        let _ = self.catch_up(place, alloc, Algorithm::Sha256);
        let _ = self.catch_up(place, alloc, Algorithm::Sha512);
        self.let_go(place, alloc);
    }

    /// Has shares of its parts kept, if it has bytes.
    pub fn keep_in(&self, shares: &mut Shares) {
        match &self.content {
            Content::Held(received) => received.keep_in(shares),
            Content::Gone(_) => {}
        }
    }

    /// Lets the bytes go at a place, unless a thread is at work for them.
    fn let_go<P: HashPlace>(&mut self, place: &P, alloc: Global)
        ensures { self.new ≡ self.old }
    {
        let Content::Held(received) = &mut self.content else {
            return;
        };
        received.evict(place, alloc);
        if received.is_evicted() {
            self.leaves = false;
            return;
        }
        let received = mem::replace(received, Received::new(alloc));
        self.content = match received.let_go(place, alloc) {
            Ok(digested) => Content::Gone(digested),
            Err(received) => Content::Held(received),
        };
    }

    /// The bytes with their hash by an algorithm (`Received::front`). None also says that they were let go. Nothing
    /// that is seen changes.
    pub fn front<P: HashPlace>(
        &mut self,
        place: &P,
        alloc: Global,
        algorithm: Algorithm,
    ) -> Option<Front>
        ensures front { IfSome result (λ front. front ≡ self.old) }
        ensures same { self.new ≡ self.old }
    {
        match &mut self.content {
            Content::Held(received) => received.front(place, alloc, algorithm),
            Content::Gone(_) => None,
        }
    }

    /// Whether the bytes and a last body have a digest, by the algorithm of that digest (`Received::has_digest`).
    /// Nothing that is seen changes.
    pub fn has_digest<P: HashPlace>(&mut self, place: &P, digest: &BlobDigest, body: &Body) -> bool
        ensures is { IsTrue result ↔ HasDigest (self.old ++ body.now) digest.now }
        ensures same { self.new ≡ self.old }
    {
        match &mut self.content {
            Content::Held(received) => received.has_digest(place, digest, body),
            Content::Gone(digested) => digested.has_digest(digest, body),
        }
    }

    /// The bytes, which are shared (`Received::share`). An `Err` also says that they were let go.
    pub fn share(&self, alloc: Global) -> Result<BlobBytes, AllocError>
        ensures { IfOk result (λ bytes. bytes ≡ self.now) }
    {
        match &self.content {
            Content::Held(received) => received.share(alloc),
            Content::Gone(_) => Err(AllocError),
        }
    }

    /// Moves the bytes out, so that it has none. None says that they were let go, and changes nothing.
    pub fn take(&mut self, alloc: Global) -> Option<Received>
        ensures some { IfSome result (λ received. (received ≡ self.old) × (self.new ≡ [])) }
        ensures none { IfNone result (self.new ≡ self.old) }
    {
        match &mut self.content {
            Content::Held(received) => Some(mem::replace(received, Received::new(alloc))),
            Content::Gone(_) => None,
        }
    }
}
