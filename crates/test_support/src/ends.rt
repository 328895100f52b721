//! A source and a sink over memory, which move so many bytes at a time.
ghost use Rattle.std.specs.Prelude.{◌≡◌, ◌<◌, [], true, false, Some};

use http_wire::{ByteSink, ByteSource, Excerpt, Failed, Transcript};

/// Bytes in memory, given at most `step` at a time. After them comes the end, or a failure.
#[derive(Drop)]
pub struct MemorySource<'a> {
    left: &'a [u8],
    step: usize,
    fails: bool,
    /// How many reads there were.
    pub reads: u64,
    failed_reads: u64,
    given: Transcript,
    ghost steps: { 0 < step },
}

impl<'a> MemorySource<'a> {
    /// The bytes, given at most `step` at a time; if `fails`, each read after them fails.
    pub fn new(left: &'a [u8], step: usize, fails: bool) -> MemorySource<'a>
        requires { 0 < step }
        ensures left { result.left.now ≡ left.now }
        ensures step { result.step ≡ step }
        ensures fails { result.fails ≡ fails }
        ensures reads { result.reads ≡ 0 }
        ensures failed_reads { result.failed_reads ≡ 0 }
        ensures given { result.given ≡ record { bytes = []; ended = false } }
    {
        MemorySource {
            left,
            step,
            fails,
            reads: 0,
            failed_reads: 0,
            given: Transcript::none(),
        }
    }
}

impl ByteSource for MemorySource<'_> {
    ghost state = { λ s. record {
      given = s.given.bytes;
      ended = s.given.ended;
      remaining = Some s.left.now;
      reads = s.reads;
      failed_reads = s.failed_reads;
    } };

    fn read(&mut self, buf: &mut [u8]) -> Result<usize, Failed> {
        self.reads = self.reads.saturating_add(1);
        if self.left.is_empty() && self.fails {
            self.failed_reads = self.failed_reads.saturating_add(1);
            return Err(Failed);
        }
        let count = self.step.min(self.left.len()).min(buf.len());
        let (front, back) = self.left.split_at(count);
        buf[..count].copy_from_slice(front);
        self.given = self.given.and(front);
        self.left = back;
        Ok(count)
    }
}

/// A `Vec` that takes at most `step` bytes at a time and `room` in all, and then fails.
#[derive(Drop)]
pub struct MemorySink {
    items: Vec<u8>,
    step: usize,
    room: usize,
    /// How many writes and flushes there were.
    pub writes: u64,
    failed_writes: u64,
    taken: Transcript,
    ghost steps: { 0 < step },
}

impl MemorySink {
    /// An end that adds to `items`.
    pub fn new(items: Vec<u8>, step: usize, room: usize) -> MemorySink
        requires { 0 < step }
        ensures items { result.items ≡ items }
        ensures step { result.step ≡ step }
        ensures room { result.room ≡ room }
        ensures writes { result.writes ≡ 0 }
        ensures failed_writes { result.failed_writes ≡ 0 }
        ensures taken { result.taken ≡ record { bytes = []; ended = false } }
    {
        MemorySink {
            items,
            step,
            room,
            writes: 0,
            failed_writes: 0,
            taken: Transcript::none(),
        }
    }

    /// What it holds.
    pub fn as_slice(&self) -> &[u8]
        ensures { result.now ≡ self.now.items.items }
    {
        self.items.as_slice()
    }
}

impl ByteSink for MemorySink {
    ghost state = { λ s. record {
      taken = s.taken.bytes;
      contents = Some s.items.items;
      writes = s.writes;
      failed_writes = s.failed_writes;
      flushed = true;
    } };

    fn write(&mut self, buf: &[u8]) -> Result<usize, Failed> {
        self.writes = self.writes.saturating_add(1);
        let count = self.step.min(self.room).min(buf.len());
        if (count > 0 || buf.is_empty()) && self.items.extend_from_slice(&buf[..count]).is_ok() {
            self.room -= count;
            self.taken = self.taken.and(&buf[..count]);
            return Ok(count);
        }
        self.failed_writes = self.failed_writes.saturating_add(1);
        Err(Failed)
    }

    // What it holds is known, and what a file gives isn't.
    fn write_excerpt(&mut self, _excerpt: &Excerpt<'_>) -> Result<usize, Failed> {
        self.writes = self.writes.saturating_add(1);
        self.failed_writes = self.failed_writes.saturating_add(1);
        Err(Failed)
    }

    fn flush(&mut self) -> Result<(), Failed> {
        self.writes = self.writes.saturating_add(1);
        Ok(())
    }
}
