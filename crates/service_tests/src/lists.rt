//! Lists of requests, served as one (`run_all`). Whole connections are in `tests/connections/`: here is what needs
//! other limits, numbers or moments than `blobd once` has.

ghost use Rattle.upload_service.specs.Machine.{AreLawful};

use crate::asks::Told::{Begun, Refused, Standing, Stored, Taken};
use crate::asks::Word::{Chunk, Close, Mount, Open, Single, Status};
use crate::asks::{Done, Line, U1, U2, U3, ask_of, check, judge, limits, row};
use crate::names::{ABC, NOTHING};
use std::alloc::{AllocError, Global};
use std::process::Abort;
use std::slice::Iter;
use upload_service::Refusal::{NoUpload, TooLarge, TooMany};
use upload_service::{Answer, Ask, Limits, Service};

/// Requests with their secrets and moments.
type Jobs = Vec<(Ask, [u8; 12], u64)>;

/// The requests of the lines under names that end so.
pub fn jobs_of(alloc: Global, under: &[u8], lines: &[Line]) -> Result<Jobs, AllocError> {
    let mut jobs = Vec::new(alloc);
    for line in lines {
        if line.name.ends_with(under) {
            jobs.push((ask_of(alloc, line)?, [0; 12], line.now))?;
        }
    }
    Ok(jobs)
}

fn is_next(answers: &mut Iter<Answer>, line: &Line) -> bool {
    match answers.next() {
        Some(answer) => judge(answer, line) == Some(true),
        None => false,
    }
}

/// Serves the lines under names that end so, over a new service whose numbers up to `issued` are used up.
fn serve(
    rt: &impl Abort,
    alloc: Global,
    limits: Limits,
    issued: u32,
    under: &[u8],
    lines: &[Line],
) -> Done
    requires { AreLawful limits }
{
    let mut service = Service::after(alloc, limits, issued);
    let jobs = jobs_of(alloc, under, lines)?;
    let answers = service.run_all(alloc, jobs)?;
    let mut rest = answers.iter();
    for (i, line) in lines.iter().enumerate() {
        let is_right = !line.name.ends_with(under) || is_next(&mut rest, line);
        check(rt, is_right, i, "the answer");
    }
    check(rt, rest.next().is_none(), lines.len(), "no other answer");
    Ok(())
}

/// Requests to two sessions, each under a name of its own.
static BOTH: [Line; 8] = [
    row!(Open, Begun(U1)),
    row!(b"lib/b", 0, Open, Begun(U2)),
    row!(Chunk(U1, b"0-0", b"a"), Taken(U1, 1)),
    row!(b"lib/b", 0, Chunk(U2, b"0-1", b"ab"), Taken(U2, 2)),
    row!(Chunk(U1, b"1-2", b"bc"), Taken(U1, 3)),
    row!(b"lib/b", 0, Chunk(U2, b"2-2", b"c"), Taken(U2, 3)),
    row!(b"lib/b", 0, Close(U2, b"", ABC, b""), Stored(ABC)),
    row!(Close(U1, b"", ABC, b""), Stored(ABC)),
];

/// Each session's answers are the same among the other's and alone.
#[test]
fn sessions_are_answered_as_if_alone(rt: HostRuntime) -> Done {
    serve(&rt, rt.alloc(), limits(9, 9, 60), 0, b"", &BOTH)?;
    serve(&rt, rt.alloc(), limits(9, 9, 60), 0, b"/a", &BOTH)?;
    serve(&rt, rt.alloc(), limits(9, 9, 60), 1, b"/b", &BOTH)
}

/// Blobs have at most three bytes, and one upload may be open.
static SMALL: [Line; 10] = [
    row!(Open, Begun(U1)),
    row!(Chunk(U1, b"0-2", b"abc"), Taken(U1, 3)),
    row!(Chunk(U1, b"3-3", b"x"), Refused(TooLarge)),
    row!(Chunk(U1, b"", b""), Taken(U1, 3)),
    row!(Open, Refused(TooMany)),
    row!(Single(b"x", b"abcd"), Refused(TooLarge)),
    row!(Single(ABC, b"abc"), Stored(ABC)),
    row!(Close(U1, b"", ABC, b""), Stored(ABC)),
    row!(Open, Begun(U2)),
    row!(Status(U2), Standing(U2, 0)),
];

/// The last but one of the numbers, and the last.
static LAST: [Line; 6] = [
    row!(Open, Begun(b"fffffffe-0000-8000-8000-000000000000")),
    row!(Open, Begun(b"ffffffff-0000-8000-8000-000000000000")),
    row!(Open, Refused(TooMany)),
    row!(Single(NOTHING, b""), Stored(NOTHING)),
    row!(b"lib/b", 0, Mount(NOTHING, b"lib/a"), Stored(NOTHING)),
    row!(b"lib/b", 0, Mount(NOTHING, b"lib/c"), Refused(TooMany)),
];

/// One upload may be open, which is idle after ten seconds.
static IDLE: [Line; 11] = [
    row!(b"lib/a", 0, Open, Begun(U1)),
    row!(b"lib/a", 10, Open, Refused(TooMany)),
    row!(b"lib/a", 10, Chunk(U1, b"0-0", b"a"), Taken(U1, 1)),
    row!(b"lib/a", 20, Status(U1), Standing(U1, 1)),
    row!(b"lib/a", 21, Status(U1), Refused(NoUpload)),
    row!(b"lib/a", 21, Close(U1, b"", ABC, b"bc"), Refused(NoUpload)),
    row!(b"lib/a", 21, Open, Begun(U2)),
    row!(b"lib/a", 21, Chunk(U1, b"1-1", b"b"), Refused(NoUpload)),
    row!(b"lib/a", 22, Open, Refused(TooMany)),
    row!(b"lib/a", 22, Close(U2, b"", NOTHING, b""), Stored(NOTHING)),
    row!(b"lib/a", 22, Open, Begun(U3)),
];

const TEN: &[u8] = b"0000000a-0000-8000-8000-000000000000";

/// A number with a letter, whose reference may be written in upper case.
static AFTER_NINE: [Line; 2] = [
    row!(Open, Begun(TEN)),
    row!(
        Status(b"0000000A-0000-8000-8000-000000000000"),
        Standing(TEN, 0)
    ),
];

#[test]
fn limits_numbers_and_moments_are_kept(rt: HostRuntime) -> Done {
    let alloc = rt.alloc();
    serve(&rt, alloc, limits(3, 1, 60), 0, b"", &SMALL)?;
    serve(&rt, alloc, limits(9, 1, 10), 0, b"", &IDLE)?;
    serve(&rt, alloc, limits(9, 9, 60), 9, b"", &AFTER_NINE)?;
    let last_but_two = 4_294_967_293;
    serve(&rt, alloc, limits(9, 9, 60), last_but_two, b"", &LAST)
}

/// So many requests for the base path.
fn many(alloc: Global, count: usize) -> Result<Jobs, AllocError> {
    let mut jobs = Vec::new(alloc);
    for _ in 0..count {
        jobs.push((Ask::Base, [0; 12], 0))?;
    }
    Ok(jobs)
}

#[test]
fn long_lists_are_answered(rt: HostRuntime) -> Done {
    let jobs = many(rt.alloc(), 2_000)?;
    let mut service = Service::new(rt.alloc(), limits(9, 9, 60));
    let answers = service.run_all(rt.alloc(), jobs)?;
    let is_last = matches!(answers.last(), Some(Answer::Base));
    check(&rt, answers.len() == 2_000 && is_last, 0, "the answers");
    Ok(())
}

const LARGE: u64 = 1 << 40;

/// Limits as `max_blob`, `max_body`, `max_open` and `max_idle`, and whether they are in their ranges.
static RANGES: [(u64, u64, u32, u64, bool); 9] = [
    (LARGE, 1 << 31, 1_024, LARGE, true),
    (1 << 34, 1 << 31, 1_024, 3_600, true),
    (0, 0, 1, 1, true),
    (0, 0, 0, 1, false),
    (0, 0, 1_025, 1, false),
    (LARGE + 1, 0, 1, 1, false),
    (0, (1 << 31) + 1, 1, 1, false),
    (0, 0, 1, 0, false),
    (0, 0, 1, LARGE + 1, false),
];

#[test]
fn limits_have_ranges(rt: HostRuntime) {
    for (i, (max_blob, max_body, max_open, max_idle, lawful)) in RANGES.iter().enumerate() {
        let limits = Limits {
            max_blob: *max_blob,
            max_body: *max_body,
            max_open: *max_open,
            max_idle: *max_idle,
        };
        check(&rt, limits.lawful() == *lawful, i, "the limits");
    }
}
