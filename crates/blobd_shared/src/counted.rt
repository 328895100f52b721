//! The ends of a connection as a source and as a sink of bytes.
ghost use Rattle.std.specs.Prelude.{◌≡◌, []};

use crate::connections::{Inlet, Outlet};
use http_wire::{ByteSink, ByteSource, Excerpt, Failed, History};

/// An end of a connection, whose calls are counted for contracts alone. What it moves is what the end moves.
#[derive(Drop)]
pub struct Counted<S> {
    end: S,
    // An item for each call, for each that failed, and for each write that no flush handed on.
    calls: History<()>,
    failed: History<()>,
    unflushed: History<()>,
}

impl<S> Counted<S> {
    /// No call of this end is counted so far.
    pub fn new(end: S) -> Counted<S>
        ensures end { result.end ≡ end }
        ensures uncalled { (result.calls ≡ []) × (result.failed ≡ []) × (result.unflushed ≡ []) }
    {
        Counted {
            end,
            calls: History::none(),
            failed: History::none(),
            unflushed: History::none(),
        }
    }

    /// The end, with what moved over it.
    pub fn into_end(self) -> S
        ensures { result ≡ self.end }
    {
        let Counted { end, .. } = self;
        end
    }
}

impl<S: Inlet> ByteSource for Counted<S> {
    ghost use Rattle.std.specs.Prelude.{length, None};

    // What the end will give isn't known.
    ghost state = { λ h. record {
      given = (S.given h.end).bytes;
      ended = (S.given h.end).ended;
      remaining = None;
      reads = length h.calls;
      failed_reads = length h.failed;
    } };

    fn read(&mut self, buf: &mut [u8]) -> Result<usize, Failed> {
        self.calls = self.calls.and(&());
        match self.end.read(buf) {
            Ok(count) => Ok(count),
            Err(_) => {
                self.failed = self.failed.and(&());
                Err(Failed)
            }
        }
    }
}

impl<S: Outlet> ByteSink for Counted<S> {
    ghost use Rattle.std.specs.Prelude.{length, None, ◌==◌};

    // What the end holds isn't known.
    ghost state = { λ h. record {
      taken = S.taken h.end;
      contents = None;
      writes = length h.calls;
      failed_writes = length h.failed;
      flushed = length h.unflushed == 0;
    } };

    fn write(&mut self, buf: &[u8]) -> Result<usize, Failed> {
        self.calls = self.calls.and(&());
        self.unflushed = self.unflushed.and(&());
        match self.end.write(buf) {
            Ok(count) if count > 0 || buf.is_empty() => Ok(count),
            _ => {
                self.failed = self.failed.and(&());
                Err(Failed)
            }
        }
    }

    fn write_excerpt(&mut self, excerpt: &Excerpt<'_>) -> Result<usize, Failed> {
        self.calls = self.calls.and(&());
        self.unflushed = self.unflushed.and(&());
        match self.end.write_excerpt(excerpt) {
            Ok(count) if count > 0 || excerpt.is_empty() => Ok(count),
            _ => {
                self.failed = self.failed.and(&());
                Err(Failed)
            }
        }
    }

    fn flush(&mut self) -> Result<(), Failed> {
        self.calls = self.calls.and(&());
        match self.end.flush() {
            Ok(()) => {
                self.unflushed = History::none();
                Ok(())
            }
            Err(_) => {
                self.failed = self.failed.and(&());
                Err(Failed)
            }
        }
    }
}
