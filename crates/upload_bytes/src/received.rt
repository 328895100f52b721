//! What a session received, with its running hashes.
ghost use Rattle.std.specs.Prelude.{◌≡◌, ◌↔◌, ◌+◌, ◌<◌, ◌^◌, ◌++◌, [], length, IsTrue, IfOk, IfErr, IfSome, OnOk, OnErr};
ghost use Rattle.sha2.specs.Sha256.{sha256};
ghost use Rattle.sha2.specs.Sha512.{sha512};
ghost use Rattle.upload_names.specs.Digest.{HasDigest};
ghost use Rattle.upload_names.specs.declared.digest.Algorithm.TheVariants.{Sha256 as BySha256, Sha512 as BySha512};
ghost use Rattle.std.specs.List.{concat};
ghost use Rattle.upload_bytes.specs.Running.{HoldsBy};
ghost use Rattle.upload_bytes.specs.Segments.{whole};

use crate::before::share_segments;
use crate::body::Body;
use crate::digested::Digested;
use crate::front::Front;
use crate::hashing::{HashPlace, Running};
use crate::in_files::InFiles;
use crate::part::share_all;
use crate::prefix_hash::PrefixHash;
use crate::segments::Segments;
use crate::shared::BlobBytes;
use crate::shares::Shares;
use crate::thread_end::ThreadEnd;
use http_wire::Given;
use sha2::Digest;
use std::alloc::{AllocError, Global};
use std::marker::Model;
use upload_names::{Algorithm, BlobDigest};

/// The bytes that a session received, and two hashes that each hold a prefix of them. `catch_up` has one take in
/// what came since, so that a close has little left to hash. The SHA-512 catches up only if a close by it is to come:
/// both at once would cost each chunk twice.
#[derive(Drop)]
pub struct Received {
    segments: Segments,
    sha256: PrefixHash,
    sha512: PrefixHash,
    /// Hashes of just what left memory.
    gone_256: Running,
    gone_512: Running,
}

impl Model for Received {
    ghost use Rattle.std.specs.Prelude.{List, ℕ};
    ghost use Rattle.std.specs.Coded.{coded_ℕ, coded_list};

    ghost Value = { List ℕ };

    ghost coded = { coded_list coded_ℕ };

    ghost use Rattle.upload_bytes.specs.Segments.{whole};
    ghost use Rattle.upload_bytes.specs.Prefixes.{AreRunning};

    ghost view = { λ a. whole a.segments };

    ghost invariant = { λ a. AreRunning a.segments a.sha256 a.sha512 a.gone_256 a.gone_512 };
}

impl Received {
    /// No bytes. It takes no memory.
    pub fn new(alloc: Global) -> Received
        ensures { result ≡ [] }
    {
        Received {
            segments: Segments::new(alloc),
            sha256: PrefixHash::new(Algorithm::Sha256),
            sha512: PrefixHash::new(Algorithm::Sha512),
            gone_256: Running::new(Algorithm::Sha256),
            gone_512: Running::new(Algorithm::Sha512),
        }
    }

    /// Bytes that are in files, and not in memory: what these were given, so many bytes, with hashes that hold them.
    pub(crate) fn of_files(
        alloc: Global,
        files: InFiles,
        given: Given,
        len: u64,
        sha256: Running,
        sha512: Running,
    ) -> Received
        requires files { files ≡ given }
        requires len { len ≡ length given }
        requires sha256 { HoldsBy BySha256 sha256 given }
        requires sha512 { HoldsBy BySha512 sha512 given }
        ensures { result ≡ given }
    {
        Received {
            segments: Segments::of_files(alloc, files, given, len),
            sha256: PrefixHash::behind(sha256.copy()),
            sha512: PrefixHash::behind(sha512.copy()),
            gone_256: sha256,
            gone_512: sha512,
        }
    }

    /// How many bytes there are.
    pub fn len(&self) -> u64
        ensures { result ≡ length self.now }
    {
        self.segments.total()
    }

    /// Takes a body in behind the others, and hashes nothing yet: of a first body it takes over the hash that the
    /// body carries. An `Err` changes nothing.
    pub fn append(&mut self, body: Body) -> Result<(), AllocError>
        requires { length self.old + length body < 2 ^ 64 }
        ensures ok { OnOk result (self.new ≡ self.old ++ body) }
        ensures err { OnErr result (self.new ≡ self.old) }
    {
        let first = self.segments.total() == 0;
        let carried = body.sha256();
        self.segments.append(body)?;
        if let Some(hash) = carried {
            if first && self.segments.tail().is_empty() {
                let hash = Running::Sha256(hash);
                self.sha256 = PrefixHash::of_all(hash, self.segments.settled());
            }
        }
        Ok(())
    }

    /// Has the hash by an algorithm take in the segments that stay as they are, at a place. While a thread is at that
    /// already nothing is done: what is behind is for the next thread. Gives the end of the thread that is at work, if
    /// one is. Nothing that is seen changes.
    pub fn catch_up<P: HashPlace>(
        &mut self,
        place: &P,
        alloc: Global,
        algorithm: Algorithm,
    ) -> Option<ThreadEnd>
        ensures { self.new ≡ self.old }
    {
        let settled = self.segments.settled();
        match algorithm {
            Algorithm::Sha256 => self.sha256.catch_up(place, alloc, settled),
            Algorithm::Sha512 => self.sha512.catch_up(place, alloc, settled),
        }
    }

    /// How many bytes the hash by an algorithm lacks of the segments that stay as they are, and no thread is at work to
    /// take in.
    pub fn lacks(&self, algorithm: Algorithm) -> u64 {
        let settled = self.segments.settled();
        match algorithm {
            Algorithm::Sha256 => self.sha256.lacks(settled),
            Algorithm::Sha512 => self.sha512.lacks(settled),
        }
    }

    /// Has the hash by an algorithm back from a thread that has ended, whose stack goes with that, if the thread can be
    /// joined at this place. Nobody waits, and nothing that is seen changes. Gives the end of the thread that is at
    /// work, if one is.
    pub fn take_back<P: HashPlace>(&mut self, place: &P, algorithm: Algorithm) -> Option<ThreadEnd>
        ensures { self.new ≡ self.old }
    {
        match algorithm {
            Algorithm::Sha256 => self.sha256.take_back(place),
            Algorithm::Sha512 => self.sha512.take_back(place),
        }
    }

    /// What was received, with its hash by an algorithm, for who hashes a last body behind it (`Body::hashed_behind`).
    /// None if there is no memory for it, or if some of it left memory. A thread that hashes for that is waited for, if
    /// the place has threads. Nothing that is seen changes.
    pub fn front<P: HashPlace>(
        &mut self,
        place: &P,
        alloc: Global,
        algorithm: Algorithm,
    ) -> Option<Front>
        ensures front { IfSome result (λ front. front ≡ self.old) }
        ensures same { self.new ≡ self.old }
    {
        if self.segments.has_gone() {
            return None;
        }
        let settled = self.segments.settled();
        let hash = match algorithm {
            Algorithm::Sha256 => self.sha256.of_settled(place, &self.gone_256, settled),
            Algorithm::Sha512 => self.sha512.of_settled(place, &self.gone_512, settled),
        };
        let shares = share_all(alloc, settled).ok()?;
        let tail = Vec::from_slice(alloc, self.segments.tail()).ok()?;
        Some(Front::of(shares, tail, self.segments.total(), hash))
    }

    /// Whether memory comes back as its segments leave it (`evict`).
    pub fn may_evict(&self) -> bool {
        self.segments.may_evict()
    }

    /// Whether some of the bytes left memory.
    pub fn has_evicted(&self) -> bool {
        self.segments.has_gone()
    }

    /// Whether all that stays as it is left memory, so that little would come back if the bytes were let go.
    pub fn is_evicted(&self) -> bool {
        self.segments.has_gone() && self.segments.settled().is_empty()
    }

    /// Has the segments leave memory that stay as they are, if files have some of them: both hashes take in at a place
    /// what they lack. While a thread is at work for one of these nothing is done. Nothing that is seen changes.
    pub fn evict<P: HashPlace>(&mut self, place: &P, alloc: Global)
        ensures { self.new ≡ self.old }
    {
        if !self.may_evict() {
            return;
        }
        let first = self.take_back(place, Algorithm::Sha256);
        let second = self.take_back(place, Algorithm::Sha512);
        if first.is_some() || second.is_some() {
            return;
        }
        let settled = self.segments.settled();
        let sha256 = self.sha256.of_settled(place, &self.gone_256, settled);
        let sha512 = self.sha512.of_settled(place, &self.gone_512, settled);
        let Some(parts) = self.segments.evict() else {
            return;
        };
        self.sha256 = PrefixHash::behind(sha256.copy());
        self.sha512 = PrefixHash::behind(sha512.copy());
        self.gone_256 = sha256;
        self.gone_512 = sha512;
        let mut shares = Shares::none(alloc);
        shares.add(parts.as_slice());
        drop(parts);
        place.let_go(shares);
    }

    /// Whether what was received and a last body have a digest, by the algorithm of that digest. A thread that hashes
    /// for that is waited for, if the place has threads. The body is hashed into a copy, so nothing that is seen
    /// changes.
    pub fn has_digest<P: HashPlace>(&mut self, place: &P, digest: &BlobDigest, body: &Body) -> bool
        ensures is { IsTrue result ↔ HasDigest (self.old ++ body.now) digest.now }
        ensures same { self.new ≡ self.old }
    {
        match digest.algorithm() {
            Algorithm::Sha256 => {
                let sum = self.sha256_with(place, body);
                sum.as_slice() == digest.as_bytes()
            }
            Algorithm::Sha512 => {
                let sum = self.sha512_with(place, body);
                sum.as_slice() == digest.as_bytes()
            }
        }
    }

    /// The SHA-256 of what was received and a last body. The hash takes in the segments that stay as they are; the
    /// last one, which is small, goes into a copy with the body. If the body is all, and carries its hash, nothing is
    /// hashed again.
    fn sha256_with<P: HashPlace>(&mut self, place: &P, body: &Body) -> [u8; 32]
        ensures digest { result ≡ sha256 (self.old ++ body.now) }
        ensures same { self.new ≡ self.old }
    {
        if self.segments.total() == 0 {
            if let Some(hash) = body.sha256() {
                return hash.finalize();
            }
        }
        if let Some(Running::Sha256(hash)) = body.behind(&self.segments) {
            return hash.finalize();
        }
        let settled = self.segments.settled();
        match self.sha256.of_settled(place, &self.gone_256, settled) {
            Running::Sha256(hash) => finish(hash, &self.segments, body),
            Running::Sha512(_) => unreachable!(),
        }
    }

    /// The SHA-512 of the same, in the same way.
    fn sha512_with<P: HashPlace>(&mut self, place: &P, body: &Body) -> [u8; 64]
        ensures digest { result ≡ sha512 (self.old ++ body.now) }
        ensures same { self.new ≡ self.old }
    {
        if self.segments.total() == 0 {
            if let Some(hash) = body.sha512() {
                return hash.finalize();
            }
        }
        if let Some(Running::Sha512(hash)) = body.behind(&self.segments) {
            return hash.finalize();
        }
        let settled = self.segments.settled();
        match self.sha512.of_settled(place, &self.gone_512, settled) {
            Running::Sha512(hash) => finish(hash, &self.segments, body),
            Running::Sha256(_) => unreachable!(),
        }
    }

    /// Its bytes, in the parts that it has, which are shared and not copied. The last segment, which is small, is a
    /// copy.
    pub fn share(&self, alloc: Global) -> Result<BlobBytes, AllocError>
        ensures { IfOk result (λ bytes. bytes ≡ self.now) }
    {
        Ok(BlobBytes::of_stretches(share_segments(alloc, &self.segments)?))
    }

    /// Has shares of its parts kept, of those that stay as they are.
    pub(crate) fn keep_in(&self, shares: &mut Shares) {
        shares.add(self.segments.settled());
    }

    /// Lets the bytes go at a place: what is left has their length and their hashes, which take in here what they
    /// lack. An `Err` gives the bytes back: a thread is at work for one of the hashes.
    pub fn let_go<P: HashPlace>(self, place: &P, alloc: Global) -> Result<Digested, Received>
        ensures ok { IfOk result (λ left. left ≡ self) }
        ensures err { IfErr result (λ back. back ≡ self) }
    {
        let mut received = self;
        let first = received.take_back(place, Algorithm::Sha256);
        let second = received.take_back(place, Algorithm::Sha512);
        if first.is_some() || second.is_some() {
            return Err(received);
        }
        let sha256 = received.hash(place, Algorithm::Sha256);
        let sha512 = received.hash(place, Algorithm::Sha512);
        let digested = Digested::of(&received, sha256, sha512);
        let mut shares = Shares::none(alloc);
        received.keep_in(&mut shares);
        drop(received);
        place.let_go(shares);
        Ok(digested)
    }

    /// A hash by an algorithm that holds all the bytes. Nothing that is seen changes.
    fn hash<P: HashPlace>(&mut self, place: &P, algorithm: Algorithm) -> Running
        ensures hash { HoldsBy algorithm result self.old }
        ensures same { self.new ≡ self.old }
    {
        let settled = self.segments.settled();
        let tail = self.segments.tail();
        match algorithm {
            Algorithm::Sha256 => {
                let hash = self.sha256.of_settled(place, &self.gone_256, settled);
                hash.with(tail)
            }
            Algorithm::Sha512 => {
                let hash = self.sha512.of_settled(place, &self.gone_512, settled);
                hash.with(tail)
            }
        }
    }

    /// The segments alone.
    pub(crate) fn into_segments(self) -> Segments
        ensures { whole result ≡ self }
    {
        self.segments
    }
}

/// The digest of the segments and a last body, by a hash that holds the segments that stay as they are.
fn finish<H: Digest>(mut hash: H, segments: &Segments, body: &Body) -> H::Output
    requires { H.holds hash (segments.now.base ++ concat segments.now.settled) }
    ensures { H.digest_of (whole segments.now ++ body.now) result }
{
    hash.update(segments.tail());
    body.hash_into(&mut hash);
    hash.finalize()
}
