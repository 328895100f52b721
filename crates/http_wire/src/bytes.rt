//! Readers and writers of bytes, with contracts that name the bytes and count the calls.
ghost use Rattle.std.specs.Prelude.{◌≡◌, ◌+◌, ◌-◌, ◌<◌, ◌≤◌, ◌==◌, IsTrue, length, take, [], false, IfOk, OnOk, OnErr};
ghost use Rattle.std.specs.Io.KnownBytes.{ReadConsumes, WriteAppends, Keeps};
ghost use Rattle.http_wire.specs.Counts.{CountsUp};
ghost use Rattle.http_wire.specs.States.{SourceState, SinkState};
ghost use Rattle.http_wire.specs.Reading.{ReadTells};
ghost use Rattle.http_wire.specs.Writing.{WriteTells};

use crate::calls::Calls;
use crate::excerpt::Excerpt;
use crate::transcript::Transcript;
use std::fmt;
use std::io::{Read, Write};

/// A read, a write or a flush failed. It moved no byte.
#[derive(Clone, Copy, Debug, Drop, PartialEq, Eq)]
pub struct Failed;

impl fmt::Display for Failed {
    ghost use Rattle.std.specs.Prelude.{Some, codes};

    ghost output = { λ _. Some (codes "a read, a write or a flush failed") };

    fn fmt<W: fmt::Write>(&self, f: &mut fmt::Formatter<W>) -> fmt::Result {
        f.write_str("a read, a write or a flush failed")
    }
}

impl std::error::Error for Failed {}

/// Where requests and replies are read from.
pub trait ByteSource {
    // The bytes that its reads have given, those that reads will give from here on, if they are known, and the
    // counts of its reads.
    ghost state: { Self → SourceState };

    /// Reads some bytes into the front of `buf`, at least one unless the source has ended, and says
    /// how many: 0 is the end. `Failed` is any error of the read, an interrupted one too.
    fn read(&mut self, buf: &mut [u8]) -> Result<usize, Failed>
        requires { 0 < length buf.old }
        ensures bound { IfOk result (λ n. n ≤ length buf.new) }
        ensures bytes { ReadConsumes (state self.old).remaining (state self.new).remaining
            result buf.new }
        ensures told { ReadTells (state self.old) (state self.new) result buf.new }
        ensures counted { CountsUp (state self.old).reads (state self.new).reads }
        ensures ok { OnOk result ((state self.new).failed_reads ≡ (state self.old).failed_reads) }
        ensures err { OnErr result
            (CountsUp (state self.old).failed_reads (state self.new).failed_reads) };
}

/// Where requests and replies are written to.
pub trait ByteSink {
    // The bytes that its writes have taken, those that it holds, if they are known, the counts of its writes and
    // flushes, and whether all that was written was handed on, which is so at all times if it keeps nothing back.
    ghost state: { Self → SinkState };

    /// Writes some bytes from the front of `buf`, at least one if there is one, and says how many.
    /// `Failed` is any error of the write, and a write that takes none of the bytes that it is given.
    fn write(&mut self, buf: &[u8]) -> Result<usize, Failed>
        ensures bound { IfOk result (λ n. n ≤ length buf.now) }
        ensures some { IfOk result (λ n. 0 < length buf.now → 0 < n) }
        ensures bytes { WriteAppends (state self.old).contents (state self.new).contents
            result buf.now }
        ensures told { WriteTells (state self.old) (state self.new) result buf.now }
        ensures counted { CountsUp (state self.old).writes (state self.new).writes }
        ensures ok { OnOk result ((state self.new).failed_writes ≡ (state self.old).failed_writes) }
        ensures err { OnErr result
            (CountsUp (state self.old).failed_writes (state self.new).failed_writes) };

    /// Writes what comes next of a file, as `write` does: some of the bytes that the file was given there, at least one
    /// if there is one. Whoever writes what came of it may tell it for that; `Failed` also says that nothing came, or
    /// that only known bytes are taken here.
    fn write_excerpt(&mut self, excerpt: &Excerpt<'_>) -> Result<usize, Failed>
        ensures bound { IfOk result (λ n. n ≤ length excerpt.now.told) }
        ensures some { IfOk result (λ n. 0 < length excerpt.now.told → 0 < n) }
        ensures bytes { WriteAppends (state self.old).contents (state self.new).contents
            result excerpt.now.told }
        ensures told { WriteTells (state self.old) (state self.new) result excerpt.now.told }
        ensures counted { CountsUp (state self.old).writes (state self.new).writes }
        ensures ok { OnOk result ((state self.new).failed_writes ≡ (state self.old).failed_writes) }
        ensures err { OnErr result
            (CountsUp (state self.old).failed_writes (state self.new).failed_writes) };

    /// Hands on what was written. `Failed` is any error of it.
    fn flush(&mut self) -> Result<(), Failed>
        ensures bytes { Keeps (state self.old).contents (state self.new).contents }
        ensures told { (state self.new).taken ≡ (state self.old).taken }
        ensures flushed { OnOk result (IsTrue (state self.new).flushed) }
        ensures counted { CountsUp (state self.old).writes (state self.new).writes }
        ensures ok { OnOk result ((state self.new).failed_writes ≡ (state self.old).failed_writes) }
        ensures err { OnErr result
            (CountsUp (state self.old).failed_writes (state self.new).failed_writes) };
}

/// A reader of std as a source. Its transcript and its counts are there for contracts alone.
#[derive(Drop)]
pub struct FromRead<R> {
    inner: R,
    given: Transcript,
    reads: Calls,
    failed_reads: Calls,
}

impl<R> FromRead<R> {
    /// The source over this reader, with no byte given and no read counted.
    pub fn new(inner: R) -> FromRead<R>
        ensures { result ≡ record {
          inner = inner;
          given = record { bytes = []; ended = false };
          reads = 0;
          failed_reads = 0;
        } }
    {
        FromRead {
            inner,
            given: Transcript::none(),
            reads: Calls::none(),
            failed_reads: Calls::none(),
        }
    }
}

impl<R: Read> ByteSource for FromRead<R> {
    ghost state = { λ s. record {
      given = s.given.bytes;
      ended = s.given.ended;
      remaining = R.remaining s.inner;
      reads = s.reads;
      failed_reads = s.failed_reads;
    } };

    fn read(&mut self, buf: &mut [u8]) -> Result<usize, Failed> {
        self.reads = self.reads.and_one();
        match self.inner.read(buf) {
            Ok(count) => {
                self.given = self.given.and(&buf[..count]);
                Ok(count)
            }
            Err(_) => {
                self.failed_reads = self.failed_reads.and_one();
                Err(Failed)
            }
        }
    }
}

/// A writer of std as a sink. Its transcript and its counts are there for contracts alone.
#[derive(Drop)]
pub struct ToWrite<W> {
    inner: W,
    taken: Transcript,
    writes: Calls,
    failed_writes: Calls,
    // The writes that no flush has handed on.
    unflushed: Calls,
}

impl<W> ToWrite<W> {
    /// The sink over this writer, with no byte taken and no write counted.
    pub fn new(inner: W) -> ToWrite<W>
        ensures { result ≡ record {
          inner = inner;
          taken = record { bytes = []; ended = false };
          writes = 0;
          failed_writes = 0;
          unflushed = 0;
        } }
    {
        ToWrite {
            inner,
            taken: Transcript::none(),
            writes: Calls::none(),
            failed_writes: Calls::none(),
            unflushed: Calls::none(),
        }
    }

    /// The writer, with what was written to it.
    pub fn into_inner(self) -> W
        ensures { result ≡ self.inner }
    {
        let ToWrite {
            inner,
            taken: _,
            writes: _,
            failed_writes: _,
            unflushed: _,
        } = self;
        inner
    }
}

impl<W: Write> ByteSink for ToWrite<W> {
    ghost state = { λ s. record {
      taken = s.taken.bytes;
      contents = W.contents s.inner;
      writes = s.writes;
      failed_writes = s.failed_writes;
      flushed = s.unflushed == 0;
    } };

    fn write(&mut self, buf: &[u8]) -> Result<usize, Failed> {
        self.writes = self.writes.and_one();
        self.unflushed = self.unflushed.and_one();
        match self.inner.write(buf) {
            Ok(count) if count > 0 || buf.is_empty() => {
                self.taken = self.taken.and(&buf[..count]);
                Ok(count)
            }
            _ => {
                self.failed_writes = self.failed_writes.and_one();
                Err(Failed)
            }
        }
    }

    // What such a writer holds may be known, and what a file gives isn't.
    fn write_excerpt(&mut self, _excerpt: &Excerpt<'_>) -> Result<usize, Failed> {
        self.writes = self.writes.and_one();
        self.unflushed = self.unflushed.and_one();
        self.failed_writes = self.failed_writes.and_one();
        Err(Failed)
    }

    fn flush(&mut self) -> Result<(), Failed> {
        self.writes = self.writes.and_one();
        match self.inner.flush() {
            Ok(()) => {
                self.unflushed = Calls::none();
                Ok(())
            }
            Err(_) => {
                self.failed_writes = self.failed_writes.and_one();
                Err(Failed)
            }
        }
    }
}
