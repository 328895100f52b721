//! Pushes over worlds that lose requests and replies, beside other clients and in passing time.
ghost use Rattle.std.specs.Prelude.{◌≡◌, ◌≤◌, length};
ghost use Rattle.upload_names.specs.declared.digest.Algorithm.{Algorithm};
ghost use Rattle.upload_push.specs.Promise.{AreOwn, IsStored, IsThere};
ghost use Rattle.upload_push.specs.Slices.{push_of};
ghost use Rattle.upload_push.specs.World.{IsLawfulWorld};

mod growths;
mod over_wire;
mod pusher;

use crate::expect::same;
use crate::texts::LIMITS;
use std::alloc::{AllocError, Global};
use std::test::Fail;
use upload_bytes::Body;
use upload_client::{Heard, LentChunk, Transport};
use upload_names::{Algorithm, BlobDigest, ByteRange, NameFault, RepoName, UploadRef};
use upload_push::{Event, LossyWorld, Outcome, PushFault, Why, push, push_promise, push_with};
use upload_service::{Ask, Extent, Service};

/// What a push asked, in two letters: `O `, `S `, `C ` and `H ` for its opening, a status, the close and a HEAD, and
/// for a chunk the first and the last place of its bytes.
type Asked = [u8; 2];

fn letters_of_chunk(range: &Extent) -> Asked {
    match range {
        Extent::Given(range) => [
            b'0' + (range.first % 10) as u8,
            b'0' + (range.last % 10) as u8,
        ],
        _ => *b"??",
    }
}

fn letters_of(ask: &Ask) -> Asked {
    match ask {
        Ask::Opening { .. } => *b"O ",
        Ask::Chunk { range, .. } => letters_of_chunk(range),
        Ask::Status { .. } => *b"S ",
        Ask::Close { .. } => *b"C ",
        Ask::Has { .. } => *b"H ",
        _ => *b"??",
    }
}

/// How a push ended.
#[derive(Clone, Copy, Debug, PartialEq, Eq)]
enum End {
    Pushed,
    Already,
    /// 404, BLOB_UPLOAD_UNKNOWN.
    NoUpload,
    /// 404, BLOB_UNKNOWN.
    NoBlob,
    /// 400, DIGEST_INVALID.
    Mismatch,
    /// Refused without a code.
    Refused(u16),
    Other,
    BadServer,
    OutOfTries,
    NoMemory,
}

fn refused(status: u16, code: &[u8]) -> End {
    for (known, text, end) in REFUSALS.iter() {
        if status == *known && code == text.as_bytes() {
            return *end;
        }
    }
    End::Other
}

static REFUSALS: [(u16, &str, End); 3] = [
    (404, "BLOB_UPLOAD_UNKNOWN", End::NoUpload),
    (404, "BLOB_UNKNOWN", End::NoBlob),
    (400, "DIGEST_INVALID", End::Mismatch),
];

fn given_up(why: &Why) -> End {
    match why {
        Why::Refused(status, None) => End::Refused(*status),
        Why::Refused(status, Some(code)) => refused(*status, code.as_slice()),
        Why::BadServer => End::BadServer,
        Why::OutOfTries => End::OutOfTries,
    }
}

fn end_of(end: &Result<Outcome, PushFault>) -> End {
    match end {
        Ok(Outcome::Pushed) => End::Pushed,
        Ok(Outcome::Already) => End::Already,
        Err(PushFault::GaveUp(why)) => given_up(why),
        Err(PushFault::NoMemory) => End::NoMemory,
    }
}

/// A world that is asked what is wanted, and how many bytes of its upload were heard of.
#[derive(Drop)]
struct Watched {
    world: LossyWorld,
    /// The letters of the asks that are still to come; none if another ask came.
    wanted: Option<&'static [u8]>,
    heard_of: Option<u64>,
}

/// How many bytes an upload has by a reply to this ask, or None if it isn't open.
fn open_after(open: Option<u64>, asked: Asked, reply: &Heard) -> Option<u64> {
    match (asked[0], reply.status) {
        (b'O' | b'0'..=b'9', 202) | (b'S', 204) => {
            Some(reply.upto.map_or(0, |last| last.saturating_add(1)))
        }
        (b'C', 201) => None,
        _ => open,
    }
}

impl Watched {
    fn new(alloc: Global, events: Vec<Event>, wanted: &'static str) -> Watched {
        Watched {
            world: new_world(alloc, events),
            wanted: Some(wanted.as_bytes()),
            heard_of: None,
        }
    }

    /// Notes an ask, and what was heard.
    fn note(&mut self, asked: Asked, heard: &Option<Heard>) {
        self.wanted = match self.wanted {
            Some(wanted) => wanted.strip_prefix(&asked),
            None => None,
        };
        if let Some(reply) = heard {
            self.heard_of = open_after(self.heard_of, asked, reply);
        }
    }
}

impl Transport for Watched {
    ghost asked = { λ s ask heard t. Unit {0} };

    fn ask(&mut self, ask: Ask) -> Option<Heard> {
        let asked = letters_of(&ask);
        let heard = self.world.ask(ask);
        self.note(asked, &heard);
        heard
    }

    fn ask_chunk(&mut self, chunk: &LentChunk<'_>) -> Result<Option<Heard>, AllocError> {
        let heard = self.world.ask_chunk(chunk)?;
        self.note(letters_of_chunk(&chunk.range), &heard);
        Ok(heard)
    }
}

/// A world with a new service.
fn new_world(alloc: Global, events: Vec<Event>) -> LossyWorld
    ensures { IsLawfulWorld result }
{
    LossyWorld::new(alloc, Service::new(alloc, LIMITS), [0; 12], 0, events)
}

/// Another client's byte, as the first of the push's upload.
fn byte_of_another(alloc: Global, byte: u8) -> Result<Event, AllocError> {
    Ok(Event::Other(Ask::Chunk {
        name: RepoName::read(alloc, b"lib/a").map_err(|_| AllocError)?,
        at: UploadRef::make(1, [0; 12]),
        range: Extent::Given(ByteRange { first: 0, last: 0 }),
        body: Body::of(alloc, Vec::from_slice(alloc, &[byte])?),
    }))
}

/// The event of a letter: d Delivered, l ReplyLost, n NotDelivered, p an hour and a second that pass, and else a byte
/// of another client.
fn event_of(alloc: Global, letter: u8) -> Result<Event, AllocError> {
    match letter {
        b'd' => Ok(Event::Delivered),
        b'l' => Ok(Event::ReplyLost),
        b'n' => Ok(Event::NotDelivered),
        b'p' => Ok(Event::Passes(3_601)),
        byte => byte_of_another(alloc, byte),
    }
}

/// Events by a letter each.
fn events(alloc: Global, script: &str) -> Result<Vec<Event>, AllocError> {
    let mut events = Vec::new(alloc);
    for letter in script.as_bytes() {
        events.push(event_of(alloc, *letter)?)?;
    }
    Ok(events)
}

const FILE: &[u8] = b"abcde";

/// The events of a push in chunks of two bytes, how many bytes of the file are pushed, with how many tries, what is
/// asked, how it ends, and how many bytes the first upload has then, if it is open.
type Row = (&'static str, usize, u32, &'static str, End, Option<u64>);

static PUSHES: [Row; 10] = [
    ("ddl", 5, 5, "O 0123S 44C ", End::Pushed, None),
    ("ddddl", 5, 5, "O 012344C S H ", End::Already, None),
    ("ddddn", 5, 5, "O 012344C S C ", End::Pushed, None),
    // the upload whose opening wasn't heard stays
    ("l", 5, 5, "O O 012344C ", End::Pushed, Some(0)),
    ("", 0, 5, "O C ", End::Pushed, None),
    ("n", 5, 0, "O ", End::OutOfTries, None),
    // an upload that fell idle is no way to pushed
    ("ddp", 5, 5, "O 0123", End::NoUpload, Some(2)),
    ("ddlp", 5, 5, "O 0123S H ", End::NoBlob, Some(4)),
    // another client's byte is the first of the upload, and isn't the file's, or is it
    ("dz", 5, 5, "O 011234C ", End::Mismatch, Some(5)),
    ("da", 5, 5, "O 011234C ", End::Pushed, None),
];

/// Pushes a file of at most a hundred bytes.
fn push_to<T: Transport>(
    alloc: Global,
    over: &mut T,
    file: &[u8],
    tries: u32,
) -> Result<End, Fail> {
    if file.len() > 100 || tries > 10 {
        return Err(Fail::new("a row that is too large"));
    }
    let name = RepoName::read(alloc, b"lib/a")?;
    Ok(end_of(&push(alloc, over, file, &name, 2, tries)))
}

fn first_of(service: &Service) -> Option<u64> {
    service.next_of(&UploadRef::make(1, [0; 12]))
}

fn has(alloc: Global, service: &Service, digest: BlobDigest) -> Result<bool, NameFault> {
    let name = RepoName::read(alloc, b"lib/a")?;
    Ok(service.holds(&name, &digest))
}

/// How a push over a world ends, whether it asks what is wanted, how many bytes its first upload has then, and whether
/// the repository has the file.
fn seen(
    alloc: Global,
    mut over: Watched,
    file: &[u8],
    tries: u32,
) -> Result<(End, bool, Option<u64>, bool), Fail> {
    let end = push_to(alloc, &mut over, file, tries)?;
    let is_as_wanted = over.wanted.is_some_and(|left| left.is_empty());
    let service = over.world.into_service();
    let is_there = has(alloc, &service, BlobDigest::of_sha256(file))?;
    Ok((end, is_as_wanted, first_of(&service), is_there))
}

#[test]
fn pushes_over_lost_replies(rt: HostRuntime) -> Result<(), Fail> {
    for (script, size, tries, asked, end, first) in PUSHES.iter() {
        let over = Watched::new(rt.alloc(), events(rt.alloc(), script)?, asked);
        let file = FILE.get(..*size).unwrap_or(FILE);
        let found = seen(rt.alloc(), over, file, *tries)?;
        let is_there = matches!(end, End::Pushed | End::Already);
        same(&rt, found, (*end, true, *first, is_there), script);
    }
    Ok(())
}

/// How a push of `abc` under its sha512 ends, and the service that it was pushed to.
fn pushed_under_sha512(alloc: Global) -> Result<(End, Service), Fail> {
    let name = RepoName::read(alloc, b"lib/a")?;
    let mut world = new_world(alloc, Vec::new(alloc));
    let end = push_with(alloc, &mut world, b"abc", &name, 2, 5, Algorithm::Sha512);
    Ok((end_of(&end), world.into_service()))
}

#[test]
fn pushes_under_sha512(rt: HostRuntime) -> Result<(), Fail> {
    let (end, service) = pushed_under_sha512(rt.alloc())?;
    let by_sha512 = has(
        rt.alloc(),
        &service,
        BlobDigest::of(Algorithm::Sha512, b"abc"),
    )?;
    let by_sha256 = has(rt.alloc(), &service, BlobDigest::of_sha256(b"abc"))?;
    same(
        &rt,
        (end, by_sha512, by_sha256),
        (End::Pushed, true, false),
        &"a push",
    );
    Ok(())
}

/// A push, and what it is worth, from the contracts of `push`, of the world and of the promise alone.
fn push_and_know(
    alloc: Global,
    world: &mut LossyWorld,
    file: &[u8],
    name: &RepoName,
) -> Result<Outcome, PushFault>
    requires file { length file.now ≤ 100 }
    requires lawful { IsLawfulWorld world.old }
    ensures alone { result ≡ Ok Outcome.Pushed → AreOwn world.old.events
        → IsStored (push_of Algorithm.Sha256 name.now file.now 2 5) world.new.service }
    ensures pushed { result ≡ Ok Outcome.Pushed
        → IsThere (push_of Algorithm.Sha256 name.now file.now 2 5) world.new.service }
    ensures already { result ≡ Ok Outcome.Already
        → IsThere (push_of Algorithm.Sha256 name.now file.now 2 5) world.new.service }
{
    push_promise();
    push(alloc, world, file, name, 2, 5)
}

#[test]
fn a_caller_knows_what_pushed_is_worth(rt: HostRuntime) -> Result<(), Fail> {
    let name = RepoName::read(rt.alloc(), b"lib/a")?;
    let mut world = new_world(rt.alloc(), Vec::new(rt.alloc()));
    let end = end_of(&push_and_know(rt.alloc(), &mut world, b"abcde", &name));
    same(&rt, end, End::Pushed, &"its end");
    Ok(())
}
