//! The connections of a worker, as it accepts them.
ghost use Rattle.std.specs.Prelude.{◌≡◌, ◌+◌, ◌++◌, ◌∷◌, [], false, IfOk, MatchOption, OnErr};
ghost use Rattle.blobd_shared.specs.Connections.ConnEvent.{made, given_back};

use crate::accepts::Accepts;
use crate::log_lines::LogLines;
use crate::paced::{Demand, Half, Turn};
use crate::steps::{Step, step_behind};
use blobd_shared::Counted;
use std::alloc::{AllocError, Global};
use std::io::{Eprint, ErrorKind};
use std::marker::Model;
use std::rt::Clock;
use std::sync::Wait;
use std::time::Duration;
use std::{io, thread};
use upload_intake::Conns;

/// How long a worker waits before it accepts again, in milliseconds.
const WAIT_MILLIS: u64 = 100;

/// On which terms a server takes connections.
#[derive(Clone, Copy)]
pub struct Terms {
    /// How many workers it has, each with a thread of its own.
    pub workers: usize,
    /// How many connections each of them takes.
    pub count: u64,
    /// What is asked of the client of each: one that is slower is cut.
    pub demand: Demand,
    /// Whether each request is told on standard error.
    pub logged: bool,
    /// How many bytes of bodies, uploads and blobs the service holds, if there is a limit.
    pub memory: Option<u64>,
}

/// What requests are read from.
pub(crate) type Reader<'a, L, R> = Counted<Half<'a, <L as Accepts>::In, R>>;

/// What replies are written to.
pub(crate) type Writer<'a, L, R> = Counted<Half<'a, <L as Accepts>::Out, R>>;

/// The connections of one worker: the next ones that come to it, up to a count. Contracts see where they come from, how
/// many are left, and what is asked of their clients.
#[derive(Drop)]
pub(crate) struct Accepted<'a, L: Accepts, R> {
    rt: &'a R,
    alloc: Global,
    /// Where they come from.
    door: L,
    /// Whether a connection is served now.
    is_lent: bool,
    /// How many more it takes.
    left: u64,
    demand: Demand,
    turn: Turn,
    /// Where notices go if there is a log.
    lines: Option<LogLines>,
    /// Whether it was said that a connection can't be taken now.
    is_told: bool,
}

impl<'a, L: Accepts, R> Model for Accepted<'a, L, R> {
    ghost use Rattle.std.specs.Prelude.{◌≡◌, false};
    ghost use Rattle.blobd_serve.specs.Doors.{AcceptedState};

    ghost Value = { AcceptedState L };

    ghost view = { λ a. record { door = a.door; left = a.left; demand = a.demand } };

    ghost invariant = { λ a. a.is_lent ≡ false → L.is_free a.door };
}

/// What is done after an accept that failed so.
fn step_after(error: &io::Error) -> Step {
    step_behind(error.raw_os_error().map_or(0, i32::unsigned_abs))
}

impl<'a, L: Accepts + Drop, R: Clock + Eprint + Wait> Accepted<'a, L, R> {
    /// The next connections of a worker. An error is out of memory.
    pub(crate) fn new(
        rt: &'a R,
        alloc: Global,
        door: L,
        terms: Terms,
        lines: Option<LogLines>,
    ) -> Result<Accepted<'a, L, R>, AllocError>
        requires { L.is_free door }
        ensures { IfOk result (λ conns.
            conns ≡ record { door = door; left = terms.count; demand = terms.demand }) }
    {
        Ok(Accepted {
            rt,
            alloc,
            door,
            is_lent: false,
            left: terms.count,
            demand: terms.demand,
            turn: Turn::new(alloc)?,
            lines,
            is_told: false,
        })
    }

    /// Where they came from.
    pub(crate) fn into_door(self) -> L
        ensures { result ≡ self.entry.door }
    {
        let Accepted { door, .. } = self;
        door
    }

    /// Tells of an error on standard error. If there is a log, it is a line of that: no worker waits for who reads it.
    fn tell(&mut self, what: &str, error: &io::Error)
        ensures { self.new ≡ self.old }
    {
        let rt = self.rt;
        let Some(lines) = &mut self.lines else {
            // Nothing is promised of standard error.
            let _ = eprintln!(rt; "blobd: a worker {what}: {error}");
            return;
        };
        match format!(in self.alloc; "blobd: a worker {what}: {error}") {
            Ok(text) => lines.send(rt, text),
            Err(_) => lines.lose(),
        }
    }

    /// Tells why no connection comes any more, unless the server has ended: that was told.
    fn tell_last(&mut self, error: &io::Error)
        ensures { self.new ≡ self.old }
    {
        if !self.door.has_ended() {
            self.tell("takes no more connections", error);
        }
    }

    /// Waits a little after this error. The first is told, and no other: nobody may read it.
    fn wait(&mut self, error: &io::Error)
        ensures { self.new ≡ self.old }
    {
        if !self.is_told {
            self.is_told = true;
            self.tell("can't take a connection now, and goes on trying", error);
        }
        thread::sleep(self.rt, Duration::from_millis(WAIT_MILLIS));
    }

    /// The two ends of the next connection, however long that takes. An error says that none can come.
    fn next_ends(&mut self) -> io::Result<(L::In, L::Out)>
        requires { L.is_free self.old.door }
        ensures new { IfOk result (λ ends. (L.In.given ends.0
            ≡ record { bytes = []; ended = false }) × (L.Out.taken ends.1 ≡ [])) }
        ensures told { IfOk result (λ ends.
            L.history self.new.door ≡ L.history self.old.door ++ made ∷ []) }
        ensures none { OnErr result (L.history self.new.door ≡ L.history self.old.door) }
        ensures same { (self.new.left ≡ self.old.left) × (self.new.demand ≡ self.old.demand) }
    {
        for _ in 0..u64::MAX {
            let error = match self.door.accept() {
                Ok(ends) => {
                    self.is_lent = true;
                    return Ok(ends);
                }
                Err(error) => error,
            };
            match step_after(&error) {
                Step::PassOver => {}
                Step::Wait => self.wait(&error),
                Step::Stop => return Err(error),
            }
        }
        Err(io::Error::from(ErrorKind::TimedOut))
    }

    /// The halves of the next connection. An error also says that the one before wasn't given back.
    fn accept(&mut self) -> io::Result<(Reader<'a, L, R>, Writer<'a, L, R>)>
        ensures new { IfOk result (λ halves. (L.In.given halves.0.end.stream
            ≡ record { bytes = []; ended = false }) × (L.Out.taken halves.1.end.stream ≡ [])) }
        ensures paced { IfOk result (λ halves. (halves.0.end.watch.demand ≡ self.old.demand)
            × (halves.1.end.watch.demand ≡ self.old.demand)) }
        ensures told { IfOk result (λ ends.
            L.history self.new.door ≡ L.history self.old.door ++ made ∷ []) }
        ensures none { OnErr result (L.history self.new.door ≡ L.history self.old.door) }
        ensures same { (self.new.left ≡ self.old.left) × (self.new.demand ≡ self.old.demand) }
    {
        if self.is_lent {
            return Err(io::Error::from(ErrorKind::ResourceBusy));
        }
        // After the accept nothing fails: no connection that came is dropped.
        let (read, write) = (self.turn.share()?, self.turn.share()?);
        let (source, sink) = self.next_ends()?;
        self.turn.begin();
        Ok((
            Counted::new(Half::new(self.rt, source, read, self.demand)),
            Counted::new(Half::new(self.rt, sink, write, self.demand)),
        ))
    }
}

impl<'a, L, R> Conns for Accepted<'a, L, R>
where
    L: Accepts + Drop,
    L::In: Send,
    L::Out: Send,
    R: Clock + Eprint + Wait + Sync,
{
    type In = Reader<'a, L, R>;

    type Out = Writer<'a, L, R>;

    // One fewer is left after each that it gives. That one was accepted, nothing was read or written over it, and of
    // its client is asked what is asked of each. If it gives none, none was accepted.
    ghost gives = { λ old given new. MatchOption given
        (L.history new.door ≡ L.history old.door)
        (λ halves. (new.left + 1 ≡ old.left)
        × (L.In.given halves.0.end.stream ≡ record { bytes = []; ended = false })
        × (L.Out.taken halves.1.end.stream ≡ [])
        × (L.history new.door ≡ L.history old.door ++ made ∷ [])
        × (halves.0.end.watch.demand ≡ old.demand) × (halves.1.end.watch.demand ≡ old.demand)
        × (new.demand ≡ old.demand)) };

    // It was given back, with all that was read and written over it. As many are left as before, and the same
    // pace is asked of them.
    ghost takes_back = { λ old halves new. (new.left ≡ old.left)
        × (L.history new.door ≡ L.history old.door
        ++ given_back (L.In.given halves.0.end.stream) (L.Out.taken halves.1.end.stream) ∷ [])
        × (new.demand ≡ old.demand) };

    // It was served, as whoever lent the door has it.
    ghost may_come_back = { λ conns halves.
        L.may_come_back conns.door (halves.0.end.stream, halves.1.end.stream) };

    /// Waits for the next connection. None if as many as were asked for are served, if the server has ended, or if one
    /// couldn't be taken, which is told on standard error: also if the one before wasn't given back.
    fn next_conn(&mut self) -> Option<(Reader<'a, L, R>, Writer<'a, L, R>)> {
        let left = self.left.checked_sub(1)?;
        let accepted = self.accept();
        self.left = left;
        match accepted {
            Ok(halves) => Some(halves),
            Err(error) => {
                self.tell_last(&error);
                None
            }
        }
    }

    /// Gives back the connection that was served.
    fn take_back(&mut self, source: Reader<'a, L, R>, sink: Writer<'a, L, R>) {
        let source = source.into_end().into_stream();
        let sink = sink.into_end().into_stream();
        self.door.take_back(source, sink);
        self.is_lent = false;
    }
}
