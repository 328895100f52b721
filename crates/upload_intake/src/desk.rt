//! A seat as a desk, which a connection asks.
use crate::lent::{Gate, Secrets};
use std::sync::Wait;
use upload_keeper::Seat;
use upload_service::{Answer, Ask, GoneChunk};
use upload_wire::{Desk, NotAsked};

/// A seat that is asked with drawn secrets. It answers None if the seat's call ended `Gone`.
#[derive(Drop)]
pub struct SeatDesk<'a, R: Wait, S> {
    rt: &'a R,
    seat: Seat,
    secrets: S,
}

impl<'a, R: Wait, S: Secrets + Drop> SeatDesk<'a, R, S> {
    ghost use Rattle.std.specs.Prelude.{◌≡◌};
    ghost use Rattle.upload_intake.specs.Desks.{seat_of, secrets_of};

    /// A desk that asks over this seat. It takes no memory.
    pub fn new(rt: &'a R, seat: Seat, secrets: S) -> SeatDesk<'a, R, S>
        ensures seat { seat_of result ≡ seat }
        ensures secrets { secrets_of result ≡ secrets }
    {
        SeatDesk { rt, seat, secrets }
    }

    /// Gives the seat back, so that it can be finished, and the secrets.
    pub fn into_parts(self) -> (Seat, S)
        ensures seat { result.0 ≡ seat_of self.entry }
        ensures secrets { result.1 ≡ secrets_of self.entry }
    {
        let SeatDesk {
            rt: _,
            seat,
            secrets,
        } = self;
        (seat, secrets)
    }
}

impl<'a, R: Wait, S: Secrets> SeatDesk<'a, R, S> {
    ghost use Rattle.upload_service.specs.Requests.{chunk_ask};
    ghost use Rattle.upload_intake.specs.Desks.{seat_of, secrets_of};
    ghost use Rattle.upload_intake.specs.SeatMoves.{AsksWithDrawn};

    // Asks a chunk whose bytes were let go. `None` says that no answer came.
    fn ask_gone(&mut self, chunk: GoneChunk) -> Option<Answer>
        ensures { AsksWithDrawn S.draws (seat_of self.old, secrets_of self.old) (chunk_ask chunk)
            result (seat_of self.new, secrets_of self.new) }
    {
        let drawn = self.secrets.draw();
        self.seat.turn_away(self.rt, chunk, drawn)
    }
}

impl<'a, R: Wait, S: Secrets> Desk for SeatDesk<'a, R, S> {
    ghost use Rattle.upload_intake.specs.SeatMoves.{AsksWithDrawn};

    ghost moves = { λ old ask answer new.
        AsksWithDrawn S.draws (old.seat, old.secrets) ask answer (new.seat, new.secrets) };

    fn ask(&mut self, ask: Ask) -> Option<Answer> {
        let secret = self.secrets.draw();
        self.seat.ask(self.rt, ask, secret).ok()
    }

    fn turn_away(&mut self, chunk: GoneChunk) -> Result<Option<Answer>, NotAsked> {
        Ok(self.ask_gone(chunk))
    }
}

/// A seat's desk behind a gate, and how many requests were asked there.
#[derive(Drop)]
pub(crate) struct GatedDesk<'a, R: Wait, S, G> {
    pub(crate) desk: SeatDesk<'a, R, S>,
    pub(crate) gate: G,
    pub(crate) turn: u64,
}

impl<'a, R: Wait, S: Secrets, G: Gate> Desk for GatedDesk<'a, R, S, G> {
    ghost use Rattle.upload_intake.specs.Desks.{seat_of, secrets_of};
    ghost use Rattle.upload_intake.specs.SeatMoves.{AsksWithDrawn};
    ghost use Rattle.upload_intake.specs.Watched.{WatchesOne};

    ghost moves = { λ old ask answer new.
        AsksWithDrawn S.draws (seat_of old.desk, secrets_of old.desk) ask answer
        (seat_of new.desk, secrets_of new.desk)
        × WatchesOne G.watches (record { gate = old.gate; turn = old.turn }) ask answer
        (record { gate = new.gate; turn = new.turn }) };

    fn ask(&mut self, ask: Ask) -> Option<Answer> {
        self.turn = self.turn.saturating_add(1);
        self.gate.before_ask(self.turn, &ask);
        let answer = self.desk.ask(ask)?;
        self.gate.after_answer(self.turn, &answer);
        Some(answer)
    }

    fn turn_away(&mut self, chunk: GoneChunk) -> Result<Option<Answer>, NotAsked> {
        let turn = self.turn.saturating_add(1);
        let Ok(()) = self.gate.before_gone(turn, &chunk) else {
            return Err(NotAsked);
        };
        self.turn = turn;
        let Some(answer) = self.desk.ask_gone(chunk) else {
            return Ok(None);
        };
        self.gate.after_answer(turn, &answer);
        Ok(Some(answer))
    }
}
