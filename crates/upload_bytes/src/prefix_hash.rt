//! A running hash that holds a prefix of a session's segments, and catches up with them.
ghost use Rattle.std.specs.Prelude.{◌≡◌, ◌≤◌, ◌^◌, ◌-◌, ◌++◌, ℕ, List, [], length, min, drop, IfSome};
ghost use Rattle.upload_names.specs.declared.digest.Algorithm.{Algorithm as By};
ghost use Rattle.upload_bytes.specs.Running.{HoldsBy};
ghost use Rattle.std.specs.List.{concat};
ghost use Rattle.upload_bytes.specs.Prefixes.{HoldsPrefix};

use crate::hashing::{HashPlace, Hashing, Running};
use crate::part::Part;
use crate::segments::size_of;
use crate::thread_end::ThreadEnd;
use std::alloc::Global;
use std::mem;
use upload_names::Algorithm;

/// A running hash, and how many of the segments that stay as they are it holds. Each call is given these segments, of
/// which the hash holds a prefix before the call and after it.
#[derive(Drop)]
pub struct PrefixHash {
    running: Hashing,
    held: usize,
}

impl PrefixHash {
    /// A hash of no segments by this algorithm.
    pub fn new(algorithm: Algorithm) -> PrefixHash
        ensures { (settled : List (List ℕ)) → HoldsPrefix algorithm [] settled result }
    {
        PrefixHash::behind(Running::new(algorithm))
    }

    /// A hash of no segments behind what it holds.
    pub fn behind(hash: Running) -> PrefixHash
        ensures { (by : By) (base : List ℕ) (settled : List (List ℕ)) → HoldsBy by hash base
            → HoldsPrefix by base settled result }
    {
        PrefixHash {
            running: Hashing::Here(hash),
            held: 0,
        }
    }

    /// A hash that holds all these segments behind others.
    pub fn of_all(hash: Running, settled: &[Part]) -> PrefixHash
        ensures { (by : By) (base : List ℕ) → HoldsBy by hash (base ++ concat settled.now)
            → HoldsPrefix by base settled.now result }
    {
        PrefixHash {
            running: Hashing::Here(hash),
            held: settled.len(),
        }
    }

    /// How many bytes of these segments the hash lacks, and no thread is at work to take in.
    pub fn lacks(&self, settled: &[Part]) -> u64
        requires { self.now.held ≤ length settled.now }
        ensures { result ≡ min (length (concat (drop self.now.held settled.now))) (2 ^ 64 - 1) }
    {
        size_of(&settled[self.held..])
    }

    /// Takes all segments in at a place. While a thread is at work this does nothing, and nor does it if the thread
    /// can't be joined at that place. Gives the end of the thread that is at work, if one is.
    pub fn catch_up<P: HashPlace>(
        &mut self,
        place: &P,
        alloc: Global,
        settled: &[Part],
    ) -> Option<ThreadEnd>
        requires { self.old.held ≤ length settled.now }
        ensures { (by : By) (base : List ℕ) → HoldsPrefix by base settled.now self.old
            → HoldsPrefix by base settled.now self.new }
    {
        if !self.running.is_at_work() {
            let before = mem::replace(self, PrefixHash::new(Algorithm::Sha256));
            *self = before.with_all(place, alloc, settled);
        }
        self.running.end()
    }

    /// Has the hash back from a thread that has ended, if it can be joined at this place. Nobody waits. Gives the end
    /// of the thread that is at work, if one is.
    pub fn take_back<P: HashPlace>(&mut self, place: &P) -> Option<ThreadEnd>
        ensures { (by : By) (base : List ℕ) (settled : List (List ℕ)) → HoldsPrefix by base settled self.old
            → HoldsPrefix by base settled self.new }
    {
        if !self.running.is_at_work() {
            let before = mem::replace(self, PrefixHash::new(Algorithm::Sha256));
            *self = before.at_home(place);
        }
        self.running.end()
    }

    /// The same hash, without its thread if that can be joined at this place. It is waited for.
    fn at_home<P: HashPlace>(self, place: &P) -> PrefixHash
        ensures { (by : By) (base : List ℕ) (settled : List (List ℕ)) → HoldsPrefix by base settled self
            → HoldsPrefix by base settled result }
    {
        let PrefixHash { running, held } = self;
        let running = match place.join(running) {
            Ok(hash) => Hashing::Here(hash),
            Err(running) => running,
        };
        PrefixHash { running, held }
    }

    /// The hash with all segments taken in, if its thread can be joined at this place. It is waited for.
    fn with_all<P: HashPlace>(self, place: &P, alloc: Global, settled: &[Part]) -> PrefixHash
        requires { self.held ≤ length settled.now }
        ensures { (by : By) (base : List ℕ) → HoldsPrefix by base settled.now self
            → HoldsPrefix by base settled.now result }
    {
        let PrefixHash { running, held } = self;
        match place.join(running) {
            Ok(hash) => PrefixHash {
                running: place.take_in(alloc, hash, &settled[held..]),
                held: settled.len(),
            },
            Err(running) => PrefixHash { running, held },
        }
    }

    /// A hash of all segments, if its thread can be joined at this place. It is waited for.
    pub fn into_hash<P: HashPlace>(self, place: &P, settled: &[Part]) -> Option<Running>
        requires { self.held ≤ length settled.now }
        ensures { IfSome result (λ hash. (by : By) (base : List ℕ) → HoldsPrefix by base settled.now self
            → HoldsBy by hash (base ++ concat settled.now)) }
    {
        let PrefixHash { running, held } = self;
        let Ok(hash) = place.join(running) else {
            return None;
        };
        Some(hash.with_parts(&settled[held..]))
    }

    /// A hash of all segments: a copy of the running one, which catches up before. If that is away in a thread which
    /// can't be joined at this place, all is hashed anew behind what another hash holds.
    pub fn of_settled<P: HashPlace>(
        &mut self,
        place: &P,
        gone: &Running,
        settled: &[Part],
    ) -> Running
        requires { self.old.held ≤ length settled.now }
        ensures hash { (by : By) (base : List ℕ) → HoldsBy by gone.now base
            → HoldsPrefix by base settled.now self.old
            → HoldsBy by result (base ++ concat settled.now) }
        ensures prefix { (by : By) (base : List ℕ) → HoldsBy by gone.now base
            → HoldsPrefix by base settled.now self.old → HoldsPrefix by base settled.now self.new }
    {
        let before = mem::replace(self, PrefixHash::behind(gone.copy()));
        let hash = match before.into_hash(place, settled) {
            Some(hash) => hash,
            None => gone.copy().with_parts(settled),
        };
        *self = PrefixHash::of_all(hash.copy(), settled);
        hash
    }
}
