//! A refused growth changes nothing, and the same request is then answered as if it came for the first time. What
//! takes no memory meets no growth. Each test holds whichever one growth is refused: `tests/growths.py` has each of
//! them refused in turn.

ghost use Rattle.upload_service.specs.Machine.{AreLawful};

use crate::asks::Told::{
    self, Begun, Bytes, Misplaced, Refused, Size, Standing, Stored, Taken, Welcome,
};
use crate::asks::Word::{self, Base, Chunk, Close, Get, Head, Judged, Mount, Open, Single, Status};
use crate::asks::{Done, Line, U1, U2, U3, check, judge, limits, name, row, serve};
use crate::lists::jobs_of;
use crate::names::{ABC, ABC_512, NOTHING};
use std::alloc::{AllocError, Global};
use std::process::Abort;
use upload_bytes::Room;
use upload_names::{BlobDigest, RepoName, UploadRef};
use upload_service::Refusal::{
    BadDigest, BadName, BadRange, HasBody, Method, Mismatch, NoBlob, NoDigest, NoForm, NoUpload,
    TooLarge, TooMany, WrongLength,
};
use upload_service::{Answer, Form, Limits, Service};

/// A service whose first two sessions are looked at, and whether two repositories have the blob `abc`.
#[derive(Drop)]
struct Watched {
    alloc: Global,
    service: Service,
    a: RepoName,
    b: RepoName,
}

type Seen = (Option<u64>, Option<u64>, bool, bool);

/// Whether the step that is so answered may want memory. No other step does.
fn takes_memory(told: Told) -> bool {
    matches!(told, Begun(_) | Taken(_, _) | Stored(_) | Bytes(_))
}

impl Watched {
    fn of(alloc: Global, service: Service) -> Result<Watched, AllocError> {
        let a = name(alloc, b"lib/a")?;
        let b = name(alloc, b"lib/b")?;
        Ok(Watched {
            alloc,
            service,
            a,
            b,
        })
    }

    fn look(&self) -> Seen {
        let abc = BlobDigest::of_sha256(b"abc");
        (
            self.service.next_of(&UploadRef::make(1, [0; 12])),
            self.service.next_of(&UploadRef::make(2, [0; 12])),
            self.service.holds(&self.a, &abc),
            self.service.holds(&self.b, &abc),
        )
    }

    /// Whether a line is answered as it says; None if its answer is that memory is out.
    fn serve(&mut self, line: &Line) -> Result<Option<bool>, AllocError> {
        serve(self.alloc, &mut self.service, line)
    }

    /// Whether a line is answered as it says. If a growth was refused, nothing has changed, and it is answered so once
    /// it is asked again.
    fn is_right(&mut self, line: &Line) -> Result<bool, AllocError> {
        let before = self.look();
        if let Some(is_told) = self.serve(line)? {
            return Ok(is_told);
        }
        let is_as_before = self.look() == before;
        let is_told = self.serve(line)? == Some(true);
        Ok(takes_memory(line.told) && is_as_before && is_told)
    }

    fn check_lines(&mut self, rt: &impl Abort, lines: &[Line]) -> Done {
        for (i, line) in lines.iter().enumerate() {
            check(rt, self.is_right(line)?, i, "its answers");
        }
        Ok(())
    }
}

/// Serves lines to a new service with these limits.
fn check_anew(rt: &impl Abort, alloc: Global, limits: Limits, lines: &[Line]) -> Done
    requires { AreLawful limits }
{
    let mut watched = Watched::of(alloc, Service::new(alloc, limits))?;
    watched.check_lines(rt, lines)
}

/// Each ask that takes memory, and each that takes none: Base, Status, a HEAD of a blob and every refusal. Blobs have
/// at most nine bytes, and two uploads may be open.
static LINES: [Line; 47] = [
    row!(Open, Begun(U1)),
    row!(Chunk(U1, b"0-0", b"a"), Taken(U1, 1)),
    row!(Chunk(U1, b"0-0", b"a"), Misplaced(U1, 1)),
    row!(Chunk(U1, b"bad", b"b"), Refused(BadRange)),
    row!(Chunk(U1, b"1-0", b"b"), Refused(WrongLength)),
    row!(Chunk(U1, b"", b"bcdefghij"), Refused(TooLarge)),
    row!(Close(U1, b"0-0", ABC, b"b"), Misplaced(U1, 1)),
    row!(Close(U1, b"bad", ABC, b"bc"), Refused(BadRange)),
    row!(Close(U1, b"1-1", ABC, b"bc"), Refused(WrongLength)),
    row!(Close(U1, b"", ABC, b"bcdefghij"), Refused(TooLarge)),
    row!(Close(U1, b"", b"x", b"bc"), Refused(NoDigest)),
    row!(Close(U1, b"", ABC_512, b"b"), Refused(Mismatch)),
    row!(Status(U1), Standing(U1, 1)),
    row!(Close(U1, b"", ABC, b"bc"), Stored(ABC)),
    row!(Status(U1), Refused(NoUpload)),
    row!(Chunk(U1, b"", b"a"), Refused(NoUpload)),
    row!(Close(U1, b"", ABC, b""), Refused(NoUpload)),
    row!(Single(NOTHING, b""), Stored(NOTHING)),
    row!(Single(ABC, b"abcdefghij"), Refused(TooLarge)),
    row!(Single(b"x", b"abc"), Refused(NoDigest)),
    row!(Single(ABC, b"abd"), Refused(Mismatch)),
    row!(b"lib/b", 0, Mount(ABC, b"lib/a"), Stored(ABC)),
    row!(b"lib/b", 0, Mount(ABC, b"lib/c"), Begun(U2)),
    row!(b"lib/b", 0, Chunk(U2, b"0-0", b"a"), Taken(U2, 1)),
    // The first chunk was moved in. After it there is room for less than eight bytes.
    row!(b"lib/b", 0, Chunk(U2, b"1-8", b"bcdefghi"), Taken(U2, 9)),
    row!(Open, Begun(U3)),
    row!(Open, Refused(TooMany)),
    row!(b"lib/d", 0, Mount(ABC, b"lib/c"), Refused(TooMany)),
    row!(Get(ABC), Bytes(b"abc")),
    row!(Get(ABC_512), Refused(NoBlob)),
    row!(Head(ABC), Size(3)),
    row!(Head(ABC_512), Refused(NoBlob)),
    row!(Base, Welcome),
    row!(Judged(NoForm), Refused(NoForm)),
    row!(Judged(BadName), Refused(BadName)),
    row!(Judged(Method(Form::Base)), Refused(Method(Form::Base))),
    row!(Judged(NoUpload), Refused(NoUpload)),
    row!(Judged(BadRange), Refused(BadRange)),
    row!(Judged(WrongLength), Refused(WrongLength)),
    row!(Judged(TooLarge), Refused(TooLarge)),
    row!(Judged(NoDigest), Refused(NoDigest)),
    row!(Judged(Mismatch), Refused(Mismatch)),
    row!(Judged(HasBody), Refused(HasBody)),
    row!(Judged(TooMany), Refused(TooMany)),
    row!(Judged(NoBlob), Refused(NoBlob)),
    row!(Judged(BadDigest), Refused(BadDigest)),
    row!(Get(NOTHING), Bytes(b"")),
];

#[test]
fn a_refused_growth_changes_nothing(rt: HostRuntime) -> Done {
    check_anew(&rt, rt.alloc(), limits(9, 2, 60), &LINES)
}

/// A body that stays as it is, since it is large.
const LARGE: &[u8] = &[b'x'; 70_000];

/// The same with a byte before it and one after it.
const LARGER: &[u8] = &[b'x'; 70_002];

const LARGE_256: &[u8] = b"sha256:bca09f4a757d5571c7d9f3341d4301f3c391c090826acc1a3013c6bcb7c01722";

const LARGER_256: &[u8] =
    b"sha256:7e231f6c6279afd5c9eafa8c0013a99c02707ca008d403e3cfedca6fd3389c71";

/// Large bodies, alone, and before and after small ones.
static LARGE_LINES: [Line; 10] = [
    row!(Open, Begun(U1)),
    row!(Chunk(U1, b"", b"x"), Taken(U1, 1)),
    row!(Chunk(U1, b"", LARGE), Taken(U1, 70_001)),
    row!(Close(U1, b"", LARGER_256, b"x"), Stored(LARGER_256)),
    row!(Get(LARGER_256), Bytes(LARGER)),
    row!(Open, Begun(U2)),
    row!(Chunk(U2, b"", LARGE), Taken(U2, 70_000)),
    row!(Close(U2, b"", LARGE_256, b""), Stored(LARGE_256)),
    row!(Single(LARGE_256, LARGE), Stored(LARGE_256)),
    row!(Get(LARGE_256), Bytes(LARGE)),
];

#[test]
fn a_refused_growth_for_a_large_body_changes_nothing(rt: HostRuntime) -> Done {
    check_anew(&rt, rt.alloc(), limits(100_000, 2, 60), &LARGE_LINES)
}

/// Requests to a session, how far it is after each, and whether `lib/a` has the blob.
static OFFSETS: [(Word, Told, Option<u64>, bool); 5] = [
    (Open, Begun(U1), Some(0), false),
    (Chunk(U1, b"", b"a"), Taken(U1, 1), Some(1), false),
    (Chunk(U1, b"1-2", b"bc"), Taken(U1, 3), Some(3), false),
    (Chunk(U1, b"1-2", b"bc"), Misplaced(U1, 3), Some(3), false),
    (Close(U1, b"", ABC, b""), Stored(ABC), None, true),
];

#[test]
fn offsets_and_pairs_are_told(rt: HostRuntime) -> Done {
    let service = Service::new(rt.alloc(), limits(9, 2, 60));
    let mut watched = Watched::of(rt.alloc(), service)?;
    for (i, (word, told, next, held)) in OFFSETS.iter().enumerate() {
        let is_told = watched.serve(&row!(*word, *told))? == Some(true);
        let is_seen = watched.look() == (*next, None, *held, false);
        check(&rt, is_told && is_seen, i, "what is seen");
    }
    check(&rt, watched.service.limits().max_blob == 9, 0, "the limits");
    Ok(())
}

/// Two requests, of which each is answered the same without the other.
static PAIR: [Line; 2] = [
    row!(Single(ABC, b"abc"), Stored(ABC)),
    row!(Open, Begun(U1)),
];

impl Watched {
    fn run_pair(&mut self) -> Result<Vec<Answer>, AllocError> {
        let jobs = match jobs_of(self.alloc, b"", &PAIR) {
            Err(AllocError) => jobs_of(self.alloc, b"", &PAIR)?,
            Ok(jobs) => jobs,
        };
        self.service.run_all(self.alloc, jobs)
    }

    /// The answers to the two. If the growth of their list was refused nothing has changed, and they are asked again.
    fn answers_to_pair(&mut self, rt: &impl Abort) -> Result<Vec<Answer>, AllocError> {
        if let Ok(answers) = self.run_pair() {
            return Ok(answers);
        }
        let is_new = self.look() == (None, None, false, false);
        check(rt, is_new, 0, "a list that is refused");
        self.run_pair()
    }

    /// Whether an answer is what its line says, if it wasn't that memory is out: else that to the same request again.
    fn is_made_up_for(&mut self, answer: &Answer, line: &Line) -> Result<bool, AllocError> {
        match judge(answer, line) {
            Some(is_told) => Ok(is_told),
            None => Ok(self.serve(line)? == Some(true)),
        }
    }

    fn check_pair(&mut self, rt: &impl Abort) -> Done {
        let answers = self.answers_to_pair(rt)?;
        check(rt, answers.len() == 2, 2, "how many answers");
        for (i, (answer, line)) in answers.iter().zip(PAIR.iter()).enumerate() {
            check(rt, self.is_made_up_for(answer, line)?, i, "its answer");
        }
        let is_seen = self.look() == (Some(0), None, true, false);
        check(rt, is_seen, 2, "what is seen");
        Ok(())
    }
}

#[test]
fn a_refused_growth_in_a_list_is_of_one_request_or_of_all(rt: HostRuntime) -> Done {
    let service = Service::new(rt.alloc(), limits(9, 2, 60));
    let mut watched = Watched::of(rt.alloc(), service)?;
    watched.check_pair(&rt)
}

/// What is served before the room is full.
static BEFORE_FULL: [Line; 6] = [
    row!(Open, Begun(U1)),
    row!(Chunk(U1, b"", b"abc"), Taken(U1, 3)),
    row!(Open, Begun(U2)),
    row!(Single(ABC, b"abc"), Stored(ABC)),
    row!(Open, Begun(U3)),
    row!(Chunk(U3, b"", b"abc"), Taken(U3, 3)),
];

/// Each kind of change that takes room.
static CHANGES: [Line; 5] = [
    row!(Chunk(U2, b"", b"a"), Taken(U2, 1)),
    row!(Close(U1, b"", ABC_512, b""), Stored(ABC_512)),
    row!(Open, Begun(b"00000004-0000-8000-8000-000000000000")),
    row!(b"lib/b", 0, Mount(ABC, b"lib/a"), Stored(ABC)),
    row!(Single(NOTHING, b""), Stored(NOTHING)),
];

/// What changes nothing, and at the end a change that takes no room: what it stores is there, and its upload goes.
static UNREFUSED: [Line; 6] = [
    row!(Get(ABC), Bytes(b"abc")),
    row!(Status(U1), Standing(U1, 3)),
    row!(Chunk(U1, b"0-0", b"a"), Misplaced(U1, 3)),
    row!(Close(U1, b"", ABC_512, b"b"), Refused(Mismatch)),
    row!(Single(ABC, b"abd"), Refused(Mismatch)),
    row!(Close(U3, b"", ABC, b""), Stored(ABC)),
];

impl Watched {
    /// While there is no room, each change that takes some is refused, and nothing is changed.
    fn check_refused(&mut self, rt: &impl Abort) -> Done {
        let before = self.look();
        for (i, line) in CHANGES.iter().enumerate() {
            let is_refused = self.serve(line)?.is_none();
            let is_as_before = self.look() == before;
            check(rt, is_refused && is_as_before, i, "a change");
        }
        self.check_lines(rt, &UNREFUSED)
    }

    /// Serves requests while another has all that is left of a room, and after that.
    fn check_full(&mut self, rt: &impl Abort, room: &Room) -> Done {
        self.check_lines(rt, &BEFORE_FULL)?;
        let others = room.grant(room.left());
        let is_full = others.is_some() && room.left() == 0;
        check(rt, is_full, 0, "all is granted");
        self.check_refused(rt)?;
        drop(others);
        self.check_lines(rt, &CHANGES)
    }
}

fn check_room(rt: &impl Abort, alloc: Global, room: &Room) -> Done {
    let service = Service::within(alloc, limits(9, 4, 60), room.share()?);
    let mut watched = Watched::of(alloc, service)?;
    watched.check_full(rt, room)
}

#[test]
fn what_has_no_room_changes_nothing(rt: HostRuntime) -> Done {
    let room = Room::of(rt.alloc(), 200_000)?;
    check_room(&rt, rt.alloc(), &room)?;
    check(&rt, room.left() == 200_000, 0, "all comes back");
    Ok(())
}
