//! Making the lines, and settling them when all ends are back.
ghost use Rattle.std.specs.Prelude.{◌≡◌, ◌<◌, [], ◌∷◌, All, IfOk, vec_len};
ghost use Rattle.crossbeam_channel.specs.Claims.{view};
ghost use Rattle.crossbeam_channel.specs.Ends.{receives_on};
ghost use Rattle.upload_service.specs.Machine.{IsLawful};
ghost use Rattle.upload_keeper.specs.Passes.{line_of};
ghost use Rattle.upload_keeper.specs.Replies.{replies_on};
ghost use Rattle.upload_keeper.specs.Seats.{IsFresh};
ghost use Rattle.upload_keeper.specs.Served.{AreOfOneCall};
ghost use Rattle.upload_keeper.specs.Settled.{IsSettled};
ghost use Rattle.upload_keeper.specs.Settles.{Settles};

use crate::ends::{TakeEnd, next_sender, open_line, reply_line, settle_line};
use crate::keeper::{Books, Keeper, Served};
use crate::message::Message;
use crate::reply::ReplyLine;
use crate::seat::{Place, Seat, SeatEnd};
use crossbeam_channel::bounded;
use std::alloc::{AllocError, Global};
use upload_service::{Service, headline_holds};

/// What is left when all seats and the keeper have ended.
#[derive(Drop)]
pub struct Settled {
    pub service: Service,
    /// How many requests the keeper took, without the finishes. It stays at 2^64 - 1 once there.
    pub log_length: u64,
}

/// A keeper that has the service and begins at this moment, and so many seats. At most `capacity` jobs wait on their
/// line, and one reply on each of the others. If memory is out, the service is dropped.
pub fn lines_of(
    alloc: Global,
    service: Service,
    since: u64,
    count: usize,
    capacity: usize,
) -> Result<(Keeper, Vec<Seat>), AllocError>
    requires { 0 < capacity }
    ensures of_one_call { IfOk result (λ r. AreOfOneCall r.0 r.1.items) }
    ensures start { IfOk result (λ r. r.0.start ≡ service) }
    ensures since { IfOk result (λ r. r.0.since ≡ since) }
    ensures service { IfOk result (λ r. r.0.service ≡ service) }
    ensures log { IfOk result (λ r. r.0.log ≡ []) }
    ensures count { IfOk result (λ r. vec_len r.1 ≡ count) }
    ensures seats { IfOk result (λ r. All IsFresh r.1.items) }
{
    let (sender, mut jobs) = open_line(alloc, capacity)?;
    let mut seats = Vec::new(alloc);
    let mut lines = Vec::new(alloc);
    for seat in 0..count {
        let own = next_sender(&sender, &mut jobs, seat)?;
        let (replies, heard) = reply_line(alloc)?;
        let (ends, ended) = bounded(alloc, 1)?;
        seats.push(Seat::new(seat, own, heard, ended))?;
        lines.push(ReplyLine {
            replies,
            ends,
            is_done: false,
            held: None,
            is_crowded: false,
            is_expected: false,
        })?;
    }
    Ok((Keeper::new(service, since, jobs, lines), seats))
}

/// A keeper that has the service and begins at moment 0, and the left and the right seat: those of two. At most
/// `capacity` jobs wait on their line, and one reply on each of the two others. If memory is out, the service is
/// dropped.
pub fn lines(
    alloc: Global,
    service: Service,
    capacity: usize,
) -> Result<(Keeper, Seat, Seat), AllocError>
    requires { 0 < capacity }
    ensures of_one_call { IfOk result (λ r. AreOfOneCall r.0 (r.1 ∷ r.2 ∷ [])) }
    ensures start { IfOk result (λ r. r.0.start ≡ service) }
    ensures since { IfOk result (λ r. r.0.since ≡ 0) }
    ensures service { IfOk result (λ r. r.0.service ≡ service) }
    ensures log { IfOk result (λ r. r.0.log ≡ []) }
    ensures seats { IfOk result (λ r. IsFresh r.1 × IsFresh r.2) }
{
    let (keeper, seats) = lines_of(alloc, service, 0, 2, capacity)?;
    let mut seats = seats.into_iter();
    let (Some(left), Some(right)) = (seats.next(), seats.next()) else {
        unreachable!()
    };
    Ok((keeper, left, right))
}

// Settles one seat: its jobs with the keeper's end of their line, and its replies with the keeper's end of theirs.
fn settle_seat(jobs: &mut TakeEnd<Message>, line: ReplyLine, end: SeatEnd)
    requires jobs { line_of (receives_on jobs.old.receiver) ≡ end.jobs }
    requires replies { end.replies ≡ replies_on line }
    ensures line { jobs.new.receiver ≡ jobs.old.receiver }
    ensures takes { (view jobs.new.pass).takes ≡ (view jobs.old.pass).takes }
    ensures taken { (view jobs.new.pass).taken ≡ (view jobs.old.pass).taken }
    ensures settled { Settles (view jobs.old.pass) line end }
{
    let SeatEnd { place } = end;
    let Place {
        jobs: sender,
        mut replies,
        ..
    } = place;
    settle_line(sender, jobs);
    settle_line(line.replies, &mut replies);
}

/// What the keeper took is what the seats sent, and what they heard is what the service answered. All are of one call
/// of `lines_of`, the ends in the order of its seats. It waits for nobody.
pub fn settle_all(served: Served, ends: Vec<SeatEnd>) -> Settled
    requires { AreOfOneCall served ends.items }
    ensures settled { IsSettled served ends.items result.service result.log_length }
    ensures lawful { IsLawful result.service }
{
    // The law over all runs, of which this was one. The call does nothing.
    headline_holds();
    let Served { books } = served;
    let Books {
        service,
        count: log_length,
        mut jobs,
        lines,
        ..
    } = books;
    let mut lines = lines.into_iter();
    for end in ends {
        let Some(line) = lines.next() else {
            unreachable!()
        };
        settle_seat(&mut jobs, line, end);
    }
    // Each service is lawful, and this call says so.
    let _ = service.limits();
    Settled {
        service,
        log_length,
    }
}

/// What the keeper took is what the two seats sent, and what they heard is what the service answered. The three are of
/// one call of `lines`, the ends in the order of its seats. It waits for nobody, and takes no memory.
pub fn settle(served: Served, left: SeatEnd, right: SeatEnd) -> Settled
    requires { AreOfOneCall served (left ∷ right ∷ []) }
    ensures settled { IsSettled served (left ∷ right ∷ []) result.service result.log_length }
    ensures lawful { IsLawful result.service }
{
    // The law over all runs, of which this was one. The call does nothing.
    headline_holds();
    let Served { books } = served;
    let Books {
        service,
        count,
        mut jobs,
        lines,
        ..
    } = books;
    let mut lines = lines.into_iter();
    let (Some(to_left), Some(to_right)) = (lines.next(), lines.next()) else {
        unreachable!()
    };
    settle_seat(&mut jobs, to_left, left);
    settle_seat(&mut jobs, to_right, right);
    // Each service is lawful, and this call says so.
    let _ = service.limits();
    Settled {
        service,
        log_length: count,
    }
}
