//! A service that entries are run through again.
ghost use Rattle.std.specs.Prelude.{◌≡◌, ◌⊎◌, ◌++◌, ◌≤◌, max, List, ℕ, length, Some, OnOk, OnErr, IfOk, IfSome};
ghost use Rattle.std.specs.Prelude.{◌≢◌, ◌↔◌, IsTrue, Err, IfErr, take};
ghost use Rattle.upload_journal.specs.declared.entries.Entry.{Entry as EntryValue};
ghost use Rattle.upload_journal.specs.Entries.{IsEntry, entry_text, entry_of};
ghost use Rattle.upload_journal.specs.Stops.{FileFails, FilesFail, files_of, files_in, ExchangeFails, Stops};
ghost use Rattle.upload_journal.specs.Short.{told_of};
ghost use Rattle.upload_journal.specs.Replay.{Joins, IsBodyOf, extent_of, IsAskOf, IsExchangeOf, Exchanged, Point};
ghost use Rattle.upload_journal.specs.Replay.{Applies, used_up};
ghost use Rattle.upload_service.specs.Machine.{Turn, IsLawful};
ghost use Rattle.upload_service.specs.Run.{Exchange};

use crate::bodies::{Bodies, BodyFault};
use crate::body::{BodyFile, KeptBody};
use crate::entries::{Entry, KeptAnswer, KeptAsk, KeptExchange};
use crate::fault::{EntryFault, ReadError};
use crate::foreseen::may_come;
use crate::reading::read_entry;
use std::alloc::Global;
use std::marker::Model;
use upload_bytes::{Body, BodyBuilder, Front, InPlace};
use upload_names::{BlobDigest, ByteRange, UploadRef};
use upload_service::{Answer, Ask, Extent, Service};

/// Why an entry was not applied.
#[derive(Clone, Copy, Debug, Drop, PartialEq, Eq)]
pub enum ReplayFault {
    /// There was no memory, here or in the service.
    NoMemory,
    /// The text is not an entry.
    NotAnEntry(EntryFault),
    /// The moment is before that of an exchange before it.
    MomentFalls,
    /// A file of the body was not read.
    NoBody {
        /// The number of the file.
        number: u64,
        fault: BodyFault,
    },
    /// A file of the body doesn't have the length that the entry says.
    OtherLength {
        /// The number of the file.
        number: u64,
    },
    /// The service's answer isn't the one that was recorded.
    NotAsRecorded,
}

/// The range of a request, as it is kept.
fn extent_of(range: Option<ByteRange>) -> Extent
    ensures { result ≡ extent_of range }
{
    match range {
        None => Extent::Absent,
        Some(range) => Extent::Given(range),
    }
}

/// Whether an answer says that this session was begun.
fn is_begun(given: &Answer, at: &UploadRef) -> bool
    ensures { IsTrue result ↔ (told_of given.now ≡ Some (KeptAnswer.Begun at.now)) }
{
    match given {
        Answer::Begun { at: mine, .. } => mine.same(at),
        _ => false,
    }
}

/// Whether an answer says that a chunk was taken, and that the session has received this many bytes now.
fn is_taken(given: &Answer, next: u64) -> bool
    ensures { IsTrue result ↔ (told_of given.now ≡ Some (KeptAnswer.Taken next)) }
{
    match given {
        Answer::Taken { next: mine, .. } => *mine == next,
        _ => false,
    }
}

/// Whether an answer says that the blob of this digest stands.
fn is_stored(given: &Answer, digest: &BlobDigest) -> bool
    ensures { IsTrue result ↔ (told_of given.now ≡ Some (KeptAnswer.Stored digest.now)) }
{
    match given {
        Answer::Stored { digest: mine, .. } => mine.same(digest),
        _ => false,
    }
}

/// Whether an answer is, in short, the one that was recorded.
fn is_told(given: &Answer, recorded: &KeptAnswer) -> bool
    ensures { IsTrue result ↔ (told_of given.now ≡ Some recorded.now) }
{
    match recorded {
        KeptAnswer::Begun(at) => is_begun(given, at),
        KeptAnswer::Taken(next) => is_taken(given, *next),
        KeptAnswer::Stored(digest) => is_stored(given, digest),
    }
}

/// Puts the part of a body that a file has behind those before it.
fn read_file<B: Bodies>(
    bodies: &mut B,
    file: BodyFile,
    body: &mut BodyBuilder,
) -> Result<(), ReplayFault>
    ensures read { OnOk result ((bytes : List ℕ) × B.stands bodies.new file.number bytes
        × (length bytes ≡ file.len) × (body.new ≡ body.old ++ bytes)) }
    ensures cause { (first : B) → B.keeps first bodies.old → IfErr result (λ fault.
        FileFails (B.stands bodies.new) (B.refused first bodies.new) fault file) }
    ensures same { (n : ℕ) (bytes : List ℕ) → B.stands bodies.old n bytes
        → B.stands bodies.new n bytes }
    ensures keeps { (first : B) → B.keeps first bodies.old → B.keeps first bodies.new }
{
    let number = file.number;
    let before = body.len() as u64;
    match bodies.read(number, body) {
        Ok(()) => {}
        Err(BodyFault::NoMemory) => return Err(ReplayFault::NoMemory),
        Err(fault) => return Err(ReplayFault::NoBody { number, fault }),
    }
    let after = body.len() as u64;
    if after - before != file.len {
        return Err(ReplayFault::OtherLength { number });
    }
    Ok(())
}

/// The bytes of files, if there is one alone, and it was read already.
fn ready_body<B: Bodies>(bodies: &mut B, files: &[BodyFile]) -> Option<Body>
    ensures read { IfSome result (Joins (B.stands bodies.new) files.now) }
    ensures same { (n : ℕ) (bytes : List ℕ) → B.stands bodies.old n bytes
        → B.stands bodies.new n bytes }
    ensures keeps { (first : B) → B.keeps first bodies.old → B.keeps first bodies.new }
{
    if files.len() != 1 {
        return None;
    }
    let file = files[0];
    let body = bodies.ready(file.number)?;
    // One of another length is refused as it is read again.
    if body.len() as u64 != file.len {
        return None;
    }
    Some(body)
}

/// The bytes of files, one part behind another.
fn read_files<B: Bodies>(
    alloc: Global,
    bodies: &mut B,
    files: &[BodyFile],
) -> Result<Body, ReplayFault>
    ensures read { IfOk result (λ body. Joins (B.stands bodies.new) files.now body) }
    ensures cause { (first : B) → B.keeps first bodies.old → IfErr result
        (FilesFail (B.stands bodies.new) (B.refused first bodies.new) files.now) }
    ensures same { (n : ℕ) (bytes : List ℕ) → B.stands bodies.old n bytes
        → B.stands bodies.new n bytes }
    ensures keeps { (first : B) → B.keeps first bodies.old → B.keeps first bodies.new }
{
    let joined = match files {
        [first, ..] => bodies.joined(first.number),
        [] => None,
    };
    let mut body = BodyBuilder::new(alloc, None);
    for file in files {
        if let Err(fault) = read_file(bodies, *file, &mut body) {
            return Err(fault);
        }
    }
    let body = body.finish(&InPlace);
    Ok(match joined {
        Some(joined) => body.hashed_as(&joined),
        None => body,
    })
}

/// The whole body of a request.
fn read_body<B: Bodies>(alloc: Global, bodies: &mut B, body: KeptBody) -> Result<Body, ReplayFault>
    ensures read { IfOk result (λ whole. IsBodyOf (B.stands bodies.new) body whole) }
    ensures cause { (first : B) → B.keeps first bodies.old → IfErr result
        (FilesFail (B.stands bodies.new) (B.refused first bodies.new) (files_of body)) }
    ensures same { (n : ℕ) (bytes : List ℕ) → B.stands bodies.old n bytes
        → B.stands bodies.new n bytes }
    ensures keeps { (first : B) → B.keeps first bodies.old → B.keeps first bodies.new }
{
    match body {
        KeptBody::Here(body) => Ok(body),
        KeptBody::InFiles(files) => {
            if let Some(body) = ready_body(bodies, files.as_slice()) {
                return Ok(body);
            }
            read_files(alloc, bodies, files.as_slice())
        }
    }
}

/// The same body, hashed behind what its upload has received if that was read already.
fn hashed_behind(body: Body, front: Option<Front>) -> Body
    ensures { result ≡ body }
{
    match front {
        Some(front) => body.hashed_behind(front),
        None => body,
    }
}

/// The request that is kept so.
fn ask_of<B: Bodies>(alloc: Global, bodies: &mut B, ask: KeptAsk) -> Result<Ask, ReplayFault>
    ensures asked { IfOk result (λ asked. IsAskOf (B.stands bodies.new) ask asked) }
    ensures cause { (first : B) → B.keeps first bodies.old → IfErr result
        (FilesFail (B.stands bodies.new) (B.refused first bodies.new) (files_in ask)) }
    ensures same { (n : ℕ) (bytes : List ℕ) → B.stands bodies.old n bytes
        → B.stands bodies.new n bytes }
    ensures keeps { (first : B) → B.keeps first bodies.old → B.keeps first bodies.new }
{
    match ask {
        KeptAsk::Opening { name } => Ok(Ask::Opening { name }),
        KeptAsk::Single { name, digest, body } => {
            let body = read_body(alloc, bodies, body)?;
            let digest = Some(digest);
            Ok(Ask::Single { name, digest, body })
        }
        KeptAsk::Mount {
            name,
            digest,
            source,
        } => Ok(Ask::Mount {
            name,
            digest,
            source,
        }),
        KeptAsk::Chunk {
            name,
            at,
            range,
            body,
        } => {
            let body = read_body(alloc, bodies, body)?;
            let range = extent_of(range);
            Ok(Ask::Chunk {
                name,
                at,
                range,
                body,
            })
        }
        KeptAsk::Close {
            name,
            at,
            range,
            digest,
            body,
        } => {
            let front = bodies.front(&at);
            let body = hashed_behind(read_body(alloc, bodies, body)?, front);
            let range = extent_of(range);
            let digest = Some(digest);
            Ok(Ask::Close {
                name,
                at,
                range,
                digest,
                body,
            })
        }
    }
}

/// How many bytes the body of a request has.
fn body_size(ask: &Ask) -> u64 {
    match ask {
        Ask::Single { body, .. } => body.len() as u64,
        Ask::Chunk { body, .. } => body.len() as u64,
        Ask::Close { body, .. } => body.len() as u64,
        _ => 0,
    }
}

/// Whether a service may lack the room for a request.
fn is_short(service: &Service, ask: &Ask) -> bool {
    if service.is_scarce() {
        return true;
    }
    match service.room() {
        Ok(Some(room)) => room.left() < body_size(ask),
        _ => false,
    }
}

/// Has a service serve a request again. If it may lack the room, idle uploads give way first: so they had when the
/// request found room.
fn serve(service: &mut Service, ask: Ask, secret: [u8; 12], now: u64) -> Answer
    ensures turn { Turn service.old ask secret now result service.new }
    ensures lawful { IsLawful service.new }
{
    if is_short(service, &ask) {
        service.give_way(&InPlace, now);
    }
    let upload = upload_of(&ask);
    let answer = service.step(ask, secret, now);
    if let Some(at) = upload {
        let _ = service.evict(&InPlace, &at);
    }
    answer
}

/// The upload that a chunk is for.
fn upload_of(ask: &Ask) -> Option<UploadRef> {
    match ask {
        Ask::Chunk { at, .. } => Some(*at),
        _ => None,
    }
}

/// A service that entries are run through again, one after another. It is seen as how far it has come.
#[derive(Drop)]
pub struct Replay {
    service: Service,
    /// The moment of the last exchange.
    last: u64,
    /// The moment up to which answers may have been given.
    upto: u64,
}

impl Model for Replay {
    ghost use Rattle.upload_journal.specs.Replay.{Point};
    ghost use Rattle.upload_journal.specs.Codes.{point_code};

    ghost Value = { Point };

    ghost coded = { point_code };

    ghost view = { λ a. record { state = a.service; last = a.last; upto = a.upto } };
}

impl Replay {
    /// Begins with this service, before its first exchange.
    pub fn new(service: Service) -> Replay
        ensures { result ≡ record { state = service; last = 0; upto = 0 } }
    {
        Replay {
            service,
            last: 0,
            upto: 0,
        }
    }

    /// The moment to go on at, in seconds: no answer was given at a later one.
    pub fn moment(&self) -> u64
        ensures { result ≡ max self.now.last self.now.upto }
    {
        self.last.max(self.upto)
    }

    /// The last number that a session was given or that counts as used up, or 0.
    pub fn issued(&self) -> u32
        ensures { result ≡ self.now.state.issued }
    {
        self.service.issued()
    }

    /// Has the numbers up to this one count as used up, as an entry does that says so.
    pub fn use_up(&mut self, numbers: u32)
        ensures { self.new ≡ record self.old { state = used_up numbers self.old.state } }
    {
        self.service.use_up(numbers);
    }

    /// The service, as the entries have left it.
    pub fn into_service(self) -> Service
        ensures { result ≡ self.state }
    {
        let Replay { service, .. } = self;
        service
    }

    /// Applies one entry, which is all of the bytes. A body that isn't in its entry comes from `bodies`, and isn't
    /// hashed again if it carries the hash that is asked for.
    ///
    /// `NotAnEntry` comes if the text is read as none, and says why; `MomentFalls` if the moment of its exchange is
    /// before that of the last one; `NoBody` and `OtherLength` come of a file of its body; `NoMemory` says that there
    /// was none, here, for a body or in the service; `NotAsRecorded` comes if the service answers otherwise than it
    /// did. After each of these the entry has done nothing.
    pub fn apply<B: Bodies>(
        &mut self,
        alloc: Global,
        bodies: &mut B,
        bytes: &[u8],
    ) -> Result<(), ReplayFault>
        ensures ok { OnOk result ((entry : EntryValue) × IsEntry entry
            × (bytes.now ≡ entry_text entry)
            × Applies (B.stands bodies.new) self.old entry self.new) }
        ensures err { OnErr result (self.new ≡ self.old) }
        ensures cause { (first : B) → B.keeps first bodies.old → IfErr result
            (Stops (B.stands bodies.new) (B.refused first bodies.new) self.old (entry_of bytes.now)) }
        ensures same { (n : ℕ) (bytes : List ℕ) → B.stands bodies.old n bytes
            → B.stands bodies.new n bytes }
        ensures keeps { (first : B) → B.keeps first bodies.old → B.keeps first bodies.new }
    {
        let entry = match read_entry(alloc, bytes) {
            Ok(entry) => entry,
            Err(ReadError::NoMemory) => return Err(ReplayFault::NoMemory),
            Err(ReadError::Fault(fault)) => return Err(ReplayFault::NotAnEntry(fault)),
        };
        match entry {
            Entry::Exchange(exchange) => self.run(alloc, bodies, exchange),
            Entry::NumbersUpTo(number) => {
                self.service.use_up(number);
                Ok(())
            }
            Entry::MomentsUpTo(moment) => {
                self.upto = self.upto.max(moment);
                Ok(())
            }
        }
    }

    /// Has the service serve a request again.
    fn run<B: Bodies>(
        &mut self,
        alloc: Global,
        bodies: &mut B,
        exchange: KeptExchange,
    ) -> Result<(), ReplayFault>
        ensures ok { OnOk result ((x : Exchange)
            × IsExchangeOf (B.stands bodies.new) exchange x × Exchanged self.old x self.new) }
        ensures err { OnErr result (self.new ≡ self.old) }
        ensures cause { (first : B) → B.keeps first bodies.old → IfErr result
            (ExchangeFails (B.stands bodies.new) (B.refused first bodies.new) self.old exchange) }
        ensures same { (n : ℕ) (bytes : List ℕ) → B.stands bodies.old n bytes
            → B.stands bodies.new n bytes }
        ensures keeps { (first : B) → B.keeps first bodies.old → B.keeps first bodies.new }
    {
        let KeptExchange {
            ask,
            secret,
            now,
            answer,
        } = exchange;
        if now < self.last {
            return Err(ReplayFault::MomentFalls);
        }
        let ask = match ask_of(alloc, bodies, ask) {
            Ok(ask) => ask,
            Err(fault) => return Err(fault),
        };
        // A request that may come to another change isn't served at all.
        if !may_come(&self.service, &ask, &secret, &answer) {
            return Err(ReplayFault::NotAsRecorded);
        }
        match compare(serve(&mut self.service, ask, secret, now), answer) {
            Compared::Same => {
                self.last = now;
                Ok(())
            }
            Compared::NoMemory => Err(ReplayFault::NoMemory),
            Compared::Other => Err(ReplayFault::NotAsRecorded),
        }
    }
}

/// How an answer compares with a recorded one.
#[derive(Clone, Copy)]
enum Compared {
    Same,
    NoMemory,
    Other,
}

/// Compares an answer with a recorded one.
fn compare(given: Answer, recorded: KeptAnswer) -> Compared
    ensures same { result ≡ Compared.Same → told_of given ≡ Some recorded }
    ensures no_memory { result ≡ Compared.NoMemory → given ≡ Answer.NoMemory }
    ensures other { result ≡ Compared.Other → (told_of given ≢ Some recorded)
        × (given ≢ Answer.NoMemory) }
{
    if let Answer::NoMemory = given {
        return Compared::NoMemory;
    }
    if is_told(&given, &recorded) {
        Compared::Same
    } else {
        Compared::Other
    }
}
