//! Two seats of one keeper, asked by turns from a thread of their own; and seats whose keeper is gone.
ghost use Rattle.std.specs.Thread.{IsSync};
ghost use Rattle.std.specs.Prelude.{[], ◌∷◌, ◌≡◌};
ghost use Rattle.upload_keeper.specs.Seats.{IsSameSeat};
ghost use Rattle.upload_keeper.specs.Served.{AreOfOneCall};

use crate::expect::{holds, same};
use std::alloc::{AllocError, Global};
use std::snapshot::Snapshot;
use std::sync::Wait;
use std::test::Fail;
use std::thread;
use std::thread::{Promise, Threads};
use upload_bytes::Body;
use upload_intake::{Gone, Keeper, Moments, Seat, SeatEnd, Settled, lines, settle};
use upload_names::{BlobDigest, ByteRange, RepoName, UploadRef};
use upload_service::{Answer, Ask, Extent, Limits, Refusal, Service};

pub const LIMITS: Limits = Limits {
    max_blob: 1_048_576,
    max_body: 1_048_576,
    max_open: 4,
    max_idle: 3_600,
};

/// Always the moment 0.
#[derive(Drop)]
pub struct Still;

impl Moments for Still {
    ghost tells = { λ old told new. told ≡ 0 };

    fn now(&mut self) -> u64 {
        0
    }
}

/// What is asked, of an upload or by itself.
#[derive(Clone, Copy)]
enum Word {
    Base,
    Opening,
    /// Its range, and its bytes.
    Chunk(&'static [u8], &'static [u8]),
    Status,
    /// With the digest of `abc`.
    Close,
}

/// What is answered. Bytes are counted.
#[derive(Clone, Copy)]
enum Told {
    Welcome,
    Begun,
    Taken(u64),
    Misplaced(u64),
    Standing(u64),
    Stored,
    NoUpload,
}

#[derive(Clone, Copy)]
enum Side {
    Left,
    Right,
}

/// A request from one of the seats, to the upload of this number, and its answer.
type Turn = (Side, u32, Word, Told);

static TURNS: [Turn; 13] = [
    (Side::Right, 1, Word::Close, Told::NoUpload),
    (Side::Left, 0, Word::Base, Told::Welcome),
    (Side::Left, 1, Word::Opening, Told::Begun),
    (Side::Right, 2, Word::Opening, Told::Begun),
    (Side::Right, 1, Word::Chunk(b"0-0", b"a"), Told::Taken(1)),
    (Side::Left, 1, Word::Chunk(b"0-0", b"a"), Told::Misplaced(1)),
    (Side::Left, 2, Word::Chunk(b"0-1", b"ab"), Told::Taken(2)),
    (Side::Left, 1, Word::Chunk(b"1-2", b"bc"), Told::Taken(3)),
    (Side::Right, 1, Word::Status, Told::Standing(3)),
    (Side::Left, 1, Word::Close, Told::Stored),
    (Side::Right, 1, Word::Status, Told::NoUpload),
    (Side::Right, 2, Word::Chunk(b"2-2", b"c"), Told::Taken(3)),
    (Side::Right, 2, Word::Close, Told::Stored),
];

/// The request of a turn.
fn ask_of(alloc: Global, turn: &Turn) -> Result<Ask, AllocError> {
    let name = RepoName::read(alloc, b"lib/a").or(Err(AllocError))?;
    let at = UploadRef::make(turn.1, [0; 12]);
    match turn.2 {
        Word::Base => Ok(Ask::Base),
        Word::Opening => Ok(Ask::Opening { name }),
        Word::Chunk(range, bytes) => Ok(Ask::Chunk {
            name,
            at,
            range: Extent::Given(ByteRange::read(range).ok_or(AllocError)?),
            body: Body::of(alloc, bytes.to_vec(alloc)?),
        }),
        Word::Status => Ok(Ask::Status { name, at }),
        Word::Close => Ok(Ask::Close {
            name,
            at,
            range: Extent::Absent,
            digest: Some(BlobDigest::of_sha256(b"abc")),
            body: Body::of(alloc, Vec::new(alloc)),
        }),
    }
}

/// Whether an answer is what a turn says.
fn is_told(answer: &Answer, turn: &Turn) -> bool {
    match (turn.3, answer) {
        (Told::Welcome, Answer::Base) => true,
        (Told::Begun, Answer::Begun { at, .. }) => *at == UploadRef::make(turn.1, [0; 12]),
        (Told::Taken(size), Answer::Taken { next, .. })
        | (Told::Misplaced(size), Answer::Misplaced { next, .. })
        | (Told::Standing(size), Answer::Standing { next, .. }) => size == *next,
        (Told::Stored, Answer::Stored { .. }) => true,
        (Told::NoUpload, Answer::Refused(refusal)) => *refusal == Refusal::NoUpload,
        _ => false,
    }
}

/// What a seat hears of a turn's request, if it gets an answer. One growth may be refused.
fn heard_of<R: Wait + AllocGlobal>(rt: &R, seat: &mut Seat, turn: &Turn) -> Option<Answer>
    ensures { IsSameSeat seat.old seat.new }
{
    let ask = ask_of(rt.alloc(), turn).or_else(|_| ask_of(rt.alloc(), turn));
    seat.ask(rt, ask.ok()?, [0; 12]).ok()
}

/// Whether a seat hears what a turn says; if memory was out, once it asks again.
fn is_heard<R: Wait + AllocGlobal>(rt: &R, seat: &mut Seat, turn: &Turn) -> bool
    ensures { IsSameSeat seat.old seat.new }
{
    let mut answer = heard_of(rt, seat, turn);
    if matches!(answer, Some(Answer::NoMemory)) {
        answer = heard_of(rt, seat, turn);
    }
    match answer {
        Some(answer) => is_told(&answer, turn),
        None => false,
    }
}

/// The same of the seat whose turn it is.
fn is_taken<R: Wait + AllocGlobal>(rt: &R, left: &mut Seat, right: &mut Seat, turn: &Turn) -> bool
    ensures left { IsSameSeat left.old left.new }
    ensures right { IsSameSeat right.old right.new }
{
    match turn.0 {
        Side::Left => is_heard(rt, left, turn),
        Side::Right => is_heard(rt, right, turn),
    }
}

/// Asks by turns until one isn't answered as it says, and finishes both seats. How many were.
fn ask_by_turns<R: Wait + AllocGlobal>(rt: &R, left: Seat, right: Seat) -> (SeatEnd, SeatEnd, usize)
    ensures left { IsSameSeat left result.0 }
    ensures right { IsSameSeat right result.1 }
{
    let mut left = left;
    let mut right = right;
    let mut taken = 0usize;
    for turn in TURNS.iter() {
        if !is_taken(rt, &mut left, &mut right, turn) {
            break;
        }
        taken = taken.saturating_add(1);
    }
    (left.finish(rt), right.finish(rt), taken)
}

/// What is left of a thread are the ends of these seats.
#[derive(Drop)]
struct EndsOf(Snapshot<Seat>, Snapshot<Seat>);

impl Promise<(SeatEnd, SeatEnd, usize)> for EndsOf {
    ghost kept_by = { λ promise ends. IsSameSeat promise.0.value ends.0
        × IsSameSeat promise.1.value ends.1 };
}

/// How many turns were taken of seats whose keeper runs, and the settlement; or goes meanwhile, and there is none.
type Taken = (usize, Option<Settled>);

/// `None` says that there was no thread.
fn taken<R>(rt: &R, keeper: Keeper, left: Seat, right: Seat, runs: bool) -> Option<Taken>
where
    R: Threads + Wait + Sync + AllocGlobal,
    requires { AreOfOneCall keeper (left ∷ right ∷ []) }
{
    thread::scope(
        thread::scope_env(),
        rt,
        |scope| -> Option<Taken>
            requires of_one_call { AreOfOneCall keeper (left ∷ right ∷ []) }
            requires cross { IsSync R.row }
        {
            let ends = EndsOf(Snapshot::of(&left), Snapshot::of(&right));
            let Ok(asking) = scope.spawn_with(ends, move || ask_by_turns(rt, left, right)) else {
                return None;
            };
            if !runs {
                drop(keeper);
                let (_, _, taken) = asking.join(rt);
                return Some((taken, None));
            }
            let served = keeper.run(rt, &mut Still);
            let (left, right, taken) = asking.join(rt);
            Some((taken, Some(settle(served, left, right))))
        },
    )
}

/// The same over new lines, for which there may be no memory.
fn taken_anew<R>(rt: &R, runs: bool) -> Option<Taken>
where
    R: Threads + Wait + Sync + AllocGlobal,
{
    let service = Service::new(rt.alloc(), LIMITS);
    let (keeper, left, right) = lines(rt.alloc(), service, 1).ok()?;
    taken(rt, keeper, left, right, runs)
}

/// Seats are answered in the order in which they ask, also if one growth is refused: `tests/growths.py` has each of
/// them refused in turn.
#[test]
fn a_refused_growth_is_no_answer_of_a_seat(rt: HostRuntime) -> Result<(), Fail> {
    // if there were no lines or no thread, the growth that was refused is behind
    let (taken, settled) = taken_anew(&rt, true)
        .or_else(|| taken_anew(&rt, true))
        .ok_or("no thread")?;
    same(&rt, taken, TURNS.len(), &"turns");
    let settled = settled.ok_or("no settlement")?;
    holds(&rt, settled.log_length >= TURNS.len() as u64, &"the log");
    Ok(())
}

/// The keeper goes before a seat wishes the hash for its close, or once it wished, or once it asked.
#[test]
fn a_keeper_that_goes_answers_nobody(rt: HostRuntime) -> Result<(), Fail> {
    for round in 0..20u64 {
        let (taken, _) = taken_anew(&rt, false).ok_or("no thread")?;
        same(&rt, taken, 0, &round);
    }
    Ok(())
}

fn is_given_back(answer: &Result<Answer, Gone>) -> bool {
    matches!(answer, Err(Gone::NotSent(Ask::Base)))
}

#[test]
fn a_keeper_that_is_gone_is_asked_nothing(rt: HostRuntime) -> Result<(), Fail> {
    let service = Service::new(rt.alloc(), LIMITS);
    let (keeper, mut left, _right) = lines(rt.alloc(), service, 1)?;
    drop(keeper);
    for round in 0..2u64 {
        let answer = left.ask(&rt, Ask::Base, [0; 12]);
        holds(&rt, is_given_back(&answer), &round);
    }
    holds(&rt, left.spool(&rt).is_none(), &"a spool");
    Ok(())
}
