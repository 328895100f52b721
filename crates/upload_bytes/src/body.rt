//! Bodies of requests, in the parts that they were read in, and what a body is read into.
ghost use Rattle.std.specs.Prelude.{◌≡◌, ◌++◌, List, ℕ, length, Some, None, IfOk, IfErr, IfSome, [], OnOk, OnErr};
ghost use Rattle.std.specs.Prelude.{box_value};
ghost use Rattle.sha2.specs.Hashers.{Holds256, Holds512};
ghost use Rattle.upload_names.specs.Digest.{content_digest};
ghost use Rattle.upload_bytes.specs.Body.{bytes_in, IsBody};
ghost use Rattle.std.specs.List.{concat};
ghost use Rattle.upload_bytes.specs.Running.{HoldsIfCarried};
ghost use Rattle.upload_bytes.specs.Prefixes.{HoldsIfAny};
ghost use Rattle.upload_bytes.specs.Spools.{HasIfAny};
ghost use Rattle.upload_bytes.specs.Segments.{whole};

use crate::filed::FilePart;
use crate::filing::PrefixFile;
use crate::front::Front;
use crate::granted::Granted;
use crate::hashing::{HashPlace, Running};
use crate::in_files::{InFiles, Reading};
use crate::part::{Part, share_all, take_in};
use crate::prefix_hash::PrefixHash;
use crate::room::{Grant, Room};
use crate::segments::Segments;
use crate::shares::Shares;
use crate::spool::{Spool, SyncedFile};
use sha2::{Digest, Sha256, Sha512};
use std::alloc::{AllocError, Global};
use std::marker::Model;
use std::{io, mem};
use upload_names::{Algorithm, BlobDigest};

/// The pieces of a body: parts that have come whole, and what came behind them.
#[derive(Drop)]
pub struct Pieces {
    pub parts: Vec<Part>,
    pub last: Granted,
}

/// A hash that holds what an upload had received, and the bytes of a body behind it.
#[derive(Drop)]
pub struct Behind {
    pub front: Front,
    pub hash: Running,
}

/// The body of a request, seen as its list of bytes. It may carry a hash that holds just these bytes, so that who takes
/// it need not hash them again.
#[derive(Drop)]
pub struct Body {
    pieces: Pieces,
    len: usize,
    /// The hash of all the bytes, if they were hashed as they came. A hash is large, and most requests have none: it
    /// has a place of its own, so that a request takes little time to move.
    running: Option<Box<Running>>,
    /// The hash of what an upload had received and all the bytes behind it, if they were hashed so.
    behind: Option<Box<Behind>>,
    /// A file that has all the bytes, if they were written as they came, or why it hasn't.
    filed: Option<io::Result<SyncedFile>>,
    /// The files that all the bytes were read of, if they were.
    files: Option<InFiles>,
}

impl Model for Body {
    ghost use Rattle.std.specs.Prelude.{List, ℕ};

    ghost Value = { List ℕ };

    ghost use Rattle.std.specs.Prelude.{box_value, option_map};
    ghost use Rattle.upload_bytes.specs.Body.{bytes_in, IsBody};

    ghost view = { λ a. bytes_in a.pieces };

    ghost invariant = { λ a. IsBody (option_map box_value a.running) (option_map box_value a.behind)
        a.filed a.files a.len (bytes_in a.pieces) };
}

impl Body {
    /// The bytes of a vector, which is moved and not copied. It carries no hash, and takes no memory.
    pub fn of(alloc: Global, bytes: Vec<u8>) -> Body
        ensures { result ≡ bytes.items }
    {
        let len = bytes.len();
        let pieces = Pieces {
            parts: Vec::new(alloc),
            last: Granted::unlimited(bytes),
        };
        Body {
            pieces,
            len,
            running: None,
            behind: None,
            filed: None,
            files: None,
        }
    }

    /// These pieces, of so many bytes in all, with neither hash nor file.
    pub(crate) fn plain(pieces: Pieces, len: usize) -> Body
        requires { len ≡ length (bytes_in pieces) }
        ensures { result ≡ bytes_in pieces }
    {
        Body {
            pieces,
            len,
            running: None,
            behind: None,
            filed: None,
            files: None,
        }
    }

    /// The same bytes, hashed here behind what an upload had received. That hash serves a close of the upload, if
    /// nothing else came to it meanwhile.
    pub fn hashed_behind(self, front: Front) -> Body
        ensures { result ≡ self }
    {
        let alloc = self.alloc();
        let Body {
            pieces,
            len,
            running,
            behind: _,
            filed,
            files,
        } = self;
        let hash = front.hash().with_parts(pieces.parts.as_slice());
        let hash = hash.with(pieces.last.as_slice());
        Body {
            pieces,
            len,
            running,
            behind: boxed(alloc, Behind { front, hash }),
            filed,
            files,
        }
    }

    /// The same bytes, with the hash that another body carries if that has just these bytes, in the same parts.
    pub fn hashed_as(self, other: &Body) -> Body
        ensures { result ≡ self }
    {
        let Some(hash) = &other.running else {
            return self;
        };
        if !self.is_same(other) {
            return self;
        }
        let alloc = self.alloc();
        let Body {
            pieces,
            len,
            running: _,
            behind,
            filed,
            files,
        } = self;
        Body {
            pieces,
            len,
            running: boxed(alloc, hash.copy()),
            behind,
            filed,
            files,
        }
    }

    /// A hash that holds these segments and the bytes behind them, if they were hashed behind just these.
    pub(crate) fn behind(&self, segments: &Segments) -> Option<Running>
        ensures { IfSome result
            (λ hash. HoldsIfCarried (Some hash) (whole segments.now ++ self.now)) }
    {
        match &self.behind {
            Some(behind) if behind.front.is_of(segments) => Some(behind.hash.copy()),
            _ => None,
        }
    }

    /// How many bytes there are.
    pub fn len(&self) -> usize
        ensures { result ≡ length self.now }
    {
        self.len
    }

    /// The file that has all its bytes, if they were written as they came, or why it hasn't. It goes with the body,
    /// unless it was moved elsewhere.
    pub fn file(&self) -> Option<Result<&SyncedFile, &io::Error>>
        ensures { IfSome result (λ filed. IfOk filed (λ file. file.now ≡ self.now)) }
    {
        match &self.filed {
            Some(Ok(file)) => Some(Ok(file)),
            Some(Err(error)) => Some(Err(error)),
            None => None,
        }
    }

    /// Its pieces, in place.
    pub fn pieces(&self) -> &Pieces
        ensures { bytes_in result.now ≡ self.now }
    {
        &self.pieces
    }

    /// Has a hash take all its bytes in.
    pub fn hash_into<H: Digest>(&self, hash: &mut H)
        ensures { (before : List ℕ) → H.holds hash.old before
            → H.holds hash.new (before ++ self.now) }
    {
        take_in(hash, self.pieces.parts.as_slice());
        hash.update(self.pieces.last.as_slice());
    }

    /// A SHA-256 that holds the bytes, if they carry one.
    pub fn sha256(&self) -> Option<Sha256>
        ensures { IfSome result (λ hash. Holds256 hash self.now) }
    {
        match &**self.running.as_ref()? {
            Running::Sha256(hash) => hash.clone().ok(),
            Running::Sha512(_) => None,
        }
    }

    /// A SHA-512 that holds the bytes, if they carry one.
    pub fn sha512(&self) -> Option<Sha512>
        ensures { IfSome result (λ hash. Holds512 hash self.now) }
    {
        match &**self.running.as_ref()? {
            Running::Sha512(hash) => hash.clone().ok(),
            Running::Sha256(_) => None,
        }
    }

    /// The digest of the bytes by an algorithm. A body that carries its hash isn't hashed again.
    pub fn digest(&self, algorithm: Algorithm) -> BlobDigest
        ensures { result ≡ content_digest algorithm self.now }
    {
        match algorithm {
            Algorithm::Sha256 => BlobDigest::of_hashed(sha256_of(self)),
            Algorithm::Sha512 => BlobDigest::of_hashed_512(sha512_of(self)),
        }
    }

    /// Has shares of its parts kept, and of those of the upload that it was hashed behind: that may have left meanwhile.
    pub fn keep_in(&self, shares: &mut Shares) {
        shares.add(self.pieces.parts.as_slice());
        if let Some(behind) = &self.behind {
            behind.front.keep_in(shares);
        }
    }

    /// Where its parts are listed, for who shares it.
    pub fn alloc(&self) -> Global {
        *self.pieces.parts.allocator()
    }

    /// The same bytes once more, with neither hash nor file. The parts are shared, and only what came behind them is
    /// copied: less than 4 MiB of what a `BodyBuilder` made, and all of what `of` did.
    pub fn share(&self, alloc: Global) -> Result<Body, AllocError>
        ensures { IfOk result (λ body. body ≡ self.now) }
    {
        let parts = share_all(alloc, self.pieces.parts.as_slice())?;
        let mut last = Vec::with_capacity(alloc, self.pieces.last.len())?;
        last.extend_from_slice(self.pieces.last.as_slice())?;
        let last = Granted::unlimited(last);
        Ok(Body::plain(Pieces { parts, last }, self.len))
    }

    /// The same bytes, of which this room counts what is in none yet. None says that it has no room for that.
    pub fn within(self, room: &Room) -> Option<Body>
        ensures { IfSome result (λ body. body ≡ self) }
    {
        if self.pieces.last.is_limited() {
            return Some(self);
        }
        let Body {
            pieces: Pieces { parts, last },
            len,
            running,
            behind,
            filed,
            files,
        } = self;
        // It covers such parts too, with which the last piece goes.
        let uncounted = uncounted_of(parts.as_slice()).saturating_add(last.len() as u64);
        let last = last.under(room.grant(uncounted)?);
        Some(Body {
            pieces: Pieces { parts, last },
            len,
            running,
            behind,
            filed,
            files,
        })
    }

    /// Its pieces, which are moved and not copied, and the files that have all its bytes: those that it was read of, or
    /// the one that it was written into, if a shelf gave that a number. Another file goes here.
    pub(crate) fn into_filed(self) -> (Pieces, Option<InFiles>)
        ensures pieces { bytes_in result.0 ≡ self }
        ensures files { IfSome result.1 (λ files. files ≡ self) }
    {
        let Body {
            pieces,
            len,
            filed,
            files,
            ..
        } = self;
        if files.is_some() {
            return (pieces, files);
        }
        let files = in_one(&pieces, filed, len as u64);
        (pieces, files)
    }

    /// Its pieces, which are moved and not copied.
    pub fn into_pieces(self) -> Pieces
        ensures { bytes_in result ≡ self }
    {
        let Body { pieces, .. } = self;
        pieces
    }
}

/// The file that has all bytes of these pieces, if a shelf gave it a number. None if there is no memory.
fn in_one(
    pieces: &Pieces,
    filed: Option<Result<SyncedFile, io::Error>>,
    len: u64,
) -> Option<InFiles>
    requires filed { IfSome filed (λ filed. IfOk filed (λ file. file ≡ bytes_in pieces.now)) }
    requires len { len ≡ length (bytes_in pieces.now) }
    ensures { IfSome result (λ files. files ≡ bytes_in pieces.now) }
{
    let Some(Ok(file)) = filed else {
        return None;
    };
    if !file.has_number() {
        return None;
    }
    let alloc = *pieces.parts.allocator();
    let part = FilePart::of(alloc, file, len).ok()?;
    InFiles::of(alloc, part).ok()
}

/// A hash in a place of its own. Without memory for that it is dropped: who needs it hashes again.
fn boxed<T: Drop>(alloc: Global, hash: T) -> Option<Box<T>>
    ensures { IfSome result (λ place. box_value place ≡ hash) }
{
    Box::new(alloc, hash).ok()
}

/// How many bytes of these parts no room counts.
fn uncounted_of(parts: &[Part]) -> u64 {
    let mut size: u64 = 0;
    for part in parts {
        if !part.is_limited() {
            size = size.saturating_add(part.as_slice().len() as u64);
        }
    }
    size
}

/// A SHA-256 that holds a body: the one that it carries, or a new one.
fn sha256_of(body: &Body) -> Sha256
    ensures { Holds256 result body.now }
{
    if let Some(hash) = body.sha256() {
        return hash;
    }
    let mut hash = Sha256::new();
    body.hash_into(&mut hash);
    hash
}

/// A SHA-512 that holds a body: the one that it carries, or a new one.
fn sha512_of(body: &Body) -> Sha512
    ensures { Holds512 result body.now }
{
    if let Some(hash) = body.sha512() {
        return hash;
    }
    let mut hash = Sha512::new();
    body.hash_into(&mut hash);
    hash
}

/// The bytes of a part, unless a longer piece comes at once: with what the C library puts before it, a part fills two
/// huge pages.
const PART_SIZE: usize = 4_194_240;

/// The bytes of a body as far as they came: the parts that came whole, and what came behind them. If the body is hashed
/// as it comes, a hash holds the first ones of the parts; if it is written as it comes, a file has the first ones too.
#[derive(Drop)]
pub struct BodyBuilder {
    alloc: Global,
    parts: Vec<Part>,
    last: Granted,
    /// How many bytes there are in all.
    size: usize,
    hash: Option<PrefixHash>,
    file: Option<PrefixFile>,
    /// What its whole parts are granted of, if there is a limit.
    room: Option<Room>,
    /// The same bytes, as they were read of files. None if there was no memory for that.
    reading: Option<Reading>,
}

impl Model for BodyBuilder {
    ghost use Rattle.std.specs.Prelude.{List, ℕ, ◌++◌};
    ghost use Rattle.std.specs.List.{concat};

    ghost Value = { List ℕ };

    ghost use Rattle.upload_bytes.specs.Prefixes.{IsBuilt};

    ghost view = { λ a. concat a.parts.items ++ a.last };

    ghost invariant = { λ a. IsBuilt a.hash a.file a.reading a.size a.parts.items a.last };
}

impl BodyBuilder {
    /// No bytes. What they are extended by is hashed as it comes, if that is asked for. It takes no memory.
    pub fn new(alloc: Global, hashed: Option<Algorithm>) -> BodyBuilder
        ensures { result ≡ [] }
    {
        BodyBuilder::in_room(alloc, hashed, None)
    }

    /// The same, each part of which is granted as it has come whole: one that finds no room there is an `Err` of
    /// `extend`. What comes behind the last whole part, less than 4 MiB, isn't granted: so a small body comes whole,
    /// and whoever takes it asks for its room (`Body::within`).
    pub fn within(alloc: Global, hashed: Option<Algorithm>, room: Room) -> BodyBuilder
        ensures { result ≡ [] }
    {
        BodyBuilder::in_room(alloc, hashed, Some(room))
    }

    fn in_room(alloc: Global, hashed: Option<Algorithm>, room: Option<Room>) -> BodyBuilder
        ensures { result ≡ [] }
    {
        let hash = match hashed {
            Some(algorithm) => Some(PrefixHash::new(algorithm)),
            None => None,
        };
        BodyBuilder {
            alloc,
            parts: Vec::new(alloc),
            last: Granted::none(alloc, Grant::unlimited()),
            size: 0,
            hash,
            file: None,
            room,
            reading: Some(Reading::none()),
        }
    }

    /// How many bytes came.
    pub fn len(&self) -> usize
        ensures { result ≡ length self.now }
    {
        self.size
    }

    /// Puts a piece behind the bytes. A part that has come whole is hashed and written at that place, and moves no
    /// more. An `Err` changes nothing that is seen.
    pub fn extend<P: HashPlace>(&mut self, place: &P, piece: &[u8]) -> Result<(), AllocError>
        ensures ok { OnOk result (self.new ≡ self.old ++ piece.now) }
        ensures err { OnErr result (self.new ≡ self.old) }
    {
        let Some(len) = self.size.checked_add(piece.len()) else {
            return Err(AllocError);
        };
        let room = PART_SIZE.saturating_sub(self.last.len());
        if piece.len() > room {
            let (front, rest) = piece.split_at(room);
            self.roll_over(len, front, rest)?;
            self.catch_up(place);
        } else {
            self.last.extend(piece)?;
            self.size = len;
            let reading = self.reading.take();
            self.reading = with_piece(reading, piece);
        }
        Ok(())
    }

    /// Notes that what came since the last such note is all of a file: of the one to which the shelf of this spool gave
    /// this number. If all bytes of a body were read of such files, a blob of them is kept in these. Nothing that is
    /// seen changes.
    pub fn note_file(&mut self, spool: &Spool, number: u64)
        ensures { self.new ≡ self.old }
    {
        if let Some(reading) = self.reading.take() {
            self.reading = reading.ended(self.alloc, spool, number);
        }
    }

    /// Makes a part of what came behind the last one and a prefix of a piece, and has the rest of the piece come behind
    /// it, which makes `len` bytes. An `Err` changes nothing that is seen.
    fn roll_over(&mut self, len: usize, front: &[u8], rest: &[u8]) -> Result<(), AllocError>
        requires { len ≡ length (self.old ++ front.now ++ rest.now) }
        ensures ok { OnOk result (self.new ≡ self.old ++ front.now ++ rest.now) }
        ensures err { OnErr result (self.new ≡ self.old) }
    {
        let mut next = Granted::none(self.alloc, Grant::unlimited());
        // What follows is likely to fill a part too, and then needn't be moved as it grows.
        let _ = next.reserve(PART_SIZE);
        next.extend(rest)?;
        self.parts.reserve(1)?;
        let before = self.last.len();
        self.last.extend(front)?;
        self.last.shrink();
        let whole = mem::replace(&mut self.last, next);
        match part_of(self.alloc, &self.room, whole) {
            Ok(part) => {
                let Ok(()) = self.parts.push(part) else {
                    unreachable!();
                };
                self.size = len;
                let reading = self.reading.take();
                self.reading = with_piece(with_piece(reading, front), rest);
                Ok(())
            }
            Err(back) => {
                self.last = back;
                self.last.truncate(before);
                Err(AllocError)
            }
        }
    }

    /// Has the hash and the file take in the parts that they lack, unless a thread is at work: what is lacking then is
    /// for the next thread. Nothing that is seen changes.
    fn catch_up<P: HashPlace>(&mut self, place: &P)
        ensures { self.new ≡ self.old }
    {
        let hash = self.hash.take();
        self.hash = caught_up(place, self.alloc, hash, self.parts.as_slice());
        let file = self.file.take();
        self.file = place.write(self.alloc, file, self.parts.as_slice());
    }

    /// The body, with the hash of all its bytes if they were hashed, and the file that has them if they were written.
    /// Spare room that is left from growing goes back, if the allocator takes it.
    pub fn finish<P: HashPlace>(self, place: &P) -> Body
        ensures { result ≡ self }
    {
        let BodyBuilder {
            alloc,
            mut parts,
            mut last,
            size,
            hash,
            file,
            reading,
            ..
        } = self;
        parts.shrink_to_fit();
        last.shrink();
        let running = match hash_of_all(place, hash, parts.as_slice(), last.as_slice()) {
            Some(hash) => boxed(alloc, hash),
            None => None,
        };
        let filed = place.put_down(alloc, file, parts.as_slice(), last.as_slice());
        let files = files_of(reading, parts.as_slice(), last.as_slice());
        Body {
            pieces: Pieces { parts, last },
            len: size,
            running,
            behind: None,
            filed,
            files,
        }
    }
}

/// What was read of files, and a piece behind it.
fn with_piece(reading: Option<Reading>, piece: &[u8]) -> Option<Reading>
    ensures { (bytes : List ℕ) → IfSome reading (λ reading. reading ≡ bytes)
        → IfSome result (λ reading. reading ≡ bytes ++ piece.now) }
{
    reading?.and(piece)
}

/// The files that all was read of.
fn files_of(reading: Option<Reading>, parts: &[Part], last: &[u8]) -> Option<InFiles>
    requires { IfSome reading (λ reading. reading ≡ concat parts.now ++ last.now) }
    ensures { IfSome result (λ files. files ≡ concat parts.now ++ last.now) }
{
    reading?.into_files()
}

/// A part of these bytes, granted of a room if there is one. An `Err` gives the bytes back.
fn part_of(alloc: Global, room: &Option<Room>, bytes: Granted) -> Result<Part, Granted>
    ensures ok { IfOk result (λ part. part ≡ bytes) }
    ensures err { IfErr result (λ back. back ≡ bytes) }
{
    let Some(room) = room else {
        return Part::of(alloc, bytes);
    };
    match room.grant(bytes.len() as u64) {
        Some(grant) => Part::of(alloc, bytes.under(grant)),
        None => Err(bytes),
    }
}

/// The hash of the first parts of a body, with those taken in that it lacks.
fn caught_up<P: HashPlace>(
    place: &P,
    alloc: Global,
    hash: Option<PrefixHash>,
    parts: &[Part],
) -> Option<PrefixHash>
    requires { HoldsIfAny hash parts.now }
    ensures { HoldsIfAny result parts.now }
{
    let Some(mut hash) = hash else {
        return None;
    };
    let _ = hash.catch_up(place, alloc, parts);
    Some(hash)
}

/// The hash of a body, from that of its first parts, all parts, and what came behind them.
fn hash_of_all<P: HashPlace>(
    place: &P,
    hash: Option<PrefixHash>,
    parts: &[Part],
    last: &[u8],
) -> Option<Running>
    requires { HoldsIfAny hash parts.now }
    ensures { HoldsIfCarried result (concat parts.now ++ last.now) }
{
    let Some(hash) = hash else {
        return None;
    };
    let Some(hash) = hash.into_hash(place, parts) else {
        return None;
    };
    Some(hash.with(last))
}
