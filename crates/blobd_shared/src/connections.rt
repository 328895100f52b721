//! The two ends of a connection, and what happened to connections, one behind the other.
ghost use Rattle.std.specs.Prelude.{◌≡◌, ◌≤◌, ◌++◌, ◌∷◌, [], length, IfOk};
ghost use Rattle.http_wire.specs.States.{TranscriptState};
ghost use Rattle.blobd_shared.specs.Connections.{ConnEvent, ReadGives, WriteTakes};
ghost use Rattle.blobd_shared.specs.Connections.ConnEvent.{made, given_back};

use http_wire::{Excerpt, History};
use std::io::{self, ErrorKind};
use std::marker::Model;
use std::snapshot::Snapshot;

/// The end of a connection that is read from. Its errors are the system's, also that a signal ended a read.
pub trait Inlet {
    ghost use Rattle.http_wire.specs.States.{TranscriptState};

    // All that its reads gave, and whether the last one that didn't fail gave none, as at the end.
    ghost given: { Self → TranscriptState };

    /// Reads some bytes into the front of `buf`, and says how many: 0 is the end.
    fn read(&mut self, buf: &mut [u8]) -> io::Result<usize>
        ensures bound { IfOk result (λ n. n ≤ length buf.new) }
        ensures told { ReadGives (given self.old) (given self.new) result buf.new };
}

/// The end of a connection that is written to. Its errors are the system's, also that a signal ended a write.
pub trait Outlet {
    ghost use Rattle.std.specs.Prelude.{ℕ, List};

    // All that its writes took.
    ghost taken: { Self → List ℕ };

    /// Writes some bytes from the front of `buf`, and says how many.
    fn write(&mut self, buf: &[u8]) -> io::Result<usize>
        ensures bound { IfOk result (λ n. n ≤ length buf.now) }
        ensures told { WriteTakes (taken self.old) (taken self.new) result buf.now };

    /// Writes what comes next of a file: it is told as what the file was given there. An end that never sends one refuses
    /// it.
    fn write_excerpt(&mut self, excerpt: &Excerpt<'_>) -> io::Result<usize>
        ensures bound { IfOk result (λ n. n ≤ length excerpt.now.told) }
        ensures told { WriteTakes (taken self.old) (taken self.new) result excerpt.now.told }
    {
        let _ = excerpt;
        Err(ErrorKind::Unsupported.into())
    }

    /// Hands on what was written.
    fn flush(&mut self) -> io::Result<()>
        ensures { taken self.new ≡ taken self.old };
}

/// One event of a history.
#[derive(Drop)]
struct Event<S: Inlet, W: Outlet> {
    ends: Snapshot<Option<(Snapshot<S>, Snapshot<W>)>>,
}

impl<S: Inlet, W: Outlet> Model for Event<S, W> {
    ghost use Rattle.std.specs.Prelude.{option_map};
    ghost use Rattle.blobd_shared.specs.Connections.{ConnEvent, event_of};

    ghost Value = { ConnEvent };

    ghost view = { λ e. event_of (option_map
        (λ ends. (S.given ends.0.value, W.taken ends.1.value)) e.ends.value) };
}

impl<S: Inlet, W: Outlet> Event<S, W> {
    /// A connection was made.
    fn made() -> Event<S, W>
        ensures { result ≡ made }
    {
        Event {
            ends: Snapshot::of(&None),
        }
    }

    /// These ends were given back.
    fn given_back(source: &S, sink: &W) -> Event<S, W>
        ensures { result ≡ given_back (S.given source.now) (W.taken sink.now) }
    {
        Event {
            ends: Snapshot::of(&Some((Snapshot::of(source), Snapshot::of(sink)))),
        }
    }
}

/// What happened to connections, the oldest first. It is a history that only proofs read: it takes no memory, and its
/// methods do nothing at run time.
#[derive(Drop)]
pub struct ConnHistory<S: Inlet, W: Outlet> {
    events: History<Event<S, W>>,
}

impl<S: Inlet, W: Outlet> Model for ConnHistory<S, W> {
    ghost use Rattle.std.specs.Prelude.{List};
    ghost use Rattle.blobd_shared.specs.Connections.{ConnEvent};

    ghost Value = { List ConnEvent };

    ghost view = { λ h. h.events };
}

impl<S: Inlet, W: Outlet> ConnHistory<S, W> {
    /// Nothing happened so far.
    pub fn none() -> ConnHistory<S, W>
        ensures { result ≡ [] }
    {
        ConnHistory {
            events: History::none(),
        }
    }

    /// A connection was made.
    pub fn note_made(&mut self)
        ensures { self.new ≡ self.old ++ made ∷ [] }
    {
        self.events = self.events.and(&Event::made());
    }

    /// These ends were given back.
    pub fn note_back(&mut self, source: &S, sink: &W)
        ensures { self.new ≡ self.old ++ given_back (S.given source.now) (W.taken sink.now) ∷ [] }
    {
        self.events = self.events.and(&Event::given_back(source, sink));
    }
}
