//! What is read: a source, and the bytes of it that are in a buffer and not taken yet.
ghost use Rattle.std.specs.Prelude.{◌≡◌, ◌<◌, ◌≤◌, length, drop, get_or, IfOk, IfSome, IfNone, OnErr, IsErr, ◌+◌, ◌-◌};
ghost use Rattle.std.specs.Prelude.{[], take};
ghost use Rattle.http_wire.specs.Reading.{Gave, HasEnded, Costs};
ghost use Rattle.http_wire.specs.Inputs.{IsInputOver, StaysOver, ReadsAtMost, input_of};
ghost use Rattle.std.specs.Result.{result_unwrap_or};
ghost use Rattle.http_wire.specs.States.{input_state};

use crate::bytes::{ByteSource, Failed};
use std::alloc::{AllocError, Global};
use std::marker::Model;

/// How many bytes one read may give.
pub const CAPACITY: usize = 65_536;

/// The bytes that were read and not taken, in a buffer of a fixed size.
#[derive(Drop)]
pub struct ReadBuffer {
    bytes: Vec<u8>,
    start: usize,
    end: usize,
}

impl Model for ReadBuffer {
    ghost use Rattle.std.specs.Prelude.{◌≡◌, ℕ, ◌≤◌, List, slice_range, length};

    ghost Value = { List ℕ };

    ghost view = { λ b. slice_range b.bytes.items b.start b.end };

    ghost invariant = { λ b. (b.start ≤ b.end) × (b.end ≤ 65536) × (length b.bytes.items ≡ 65536) };
}

impl ReadBuffer {
    /// An empty buffer. It is all the memory that it ever takes.
    pub fn new(alloc: Global) -> Result<ReadBuffer, AllocError>
        ensures { IfOk result (λ buffer. buffer ≡ []) }
    {
        let bytes = vec![in alloc; 0u8; CAPACITY]?;
        Ok(ReadBuffer {
            bytes,
            start: 0,
            end: 0,
        })
    }

    /// The bytes that it holds.
    pub fn as_slice(&self) -> &[u8]
        ensures { result.now ≡ self.now }
    {
        &self.bytes[self.start..self.end]
    }

    /// How many bytes it holds.
    pub fn len(&self) -> usize
        ensures { result ≡ length self.now }
    {
        self.end - self.start
    }

    /// Drops the first bytes.
    pub(crate) fn consume(&mut self, count: usize)
        requires { count ≤ length self.old }
        ensures { self.new ≡ drop count self.old }
    {
        self.start += count;
    }

    /// Forgets what it holds.
    pub fn clear(&mut self)
        ensures { self.new ≡ [] }
    {
        self.start = 0;
        self.end = 0;
    }

    /// Reads once, behind what it holds. 0 is the end. A read that failed leaves what it holds.
    pub(crate) fn fill<S: ByteSource>(&mut self, source: &mut S) -> Result<usize, Failed>
        requires { length self.old < CAPACITY }
        ensures gave { Gave (input_state self.old (S.state source.old)) (S.state source.new)
            self.new }
        ensures count { IfOk result (λ n. length self.new ≡ length self.old + n) }
        ensures end { IfOk result (λ n. n ≡ 0 → HasEnded (S.state source.new)) }
        ensures kept { OnErr result (self.new ≡ self.old) }
        ensures costs { Costs 1 (IsErr result) (S.state source.old) (S.state source.new) }
    {
        if self.end == CAPACITY {
            self.bytes.copy_within(self.start..CAPACITY, 0);
            self.end -= self.start;
            self.start = 0;
        }
        let count = read_behind(source, &mut self.bytes, self.end)?;
        self.end += count;
        Ok(count)
    }
}

/// Reads once into the bytes from this index on.
fn read_behind<S: ByteSource>(source: &mut S, bytes: &mut [u8], end: usize) -> Result<usize, Failed>
    requires { end < length bytes.old }
    ensures gave { Gave (input_state (take end bytes.old) (S.state source.old))
        (S.state source.new) (take (end + result_unwrap_or result 0) bytes.new) }
    ensures count { IfOk result (λ n. end + n ≤ length bytes.new) }
    ensures end { IfOk result (λ n. n ≡ 0 → HasEnded (S.state source.new)) }
    ensures kept { OnErr result (take end bytes.new ≡ take end bytes.old) }
    ensures costs { Costs 1 (IsErr result) (S.state source.old) (S.state source.new) }
{
    source.read(&mut bytes[end..])
}

/// A source of bytes, behind those that were read from it and not taken yet.
#[derive(Drop)]
pub struct Input<'a, S> {
    source: &'a mut S,
    buffer: &'a mut ReadBuffer,
}

impl<'a, S: ByteSource> Input<'a, S> {
    /// What the buffer holds, and behind it what the source gives.
    pub fn new(source: &'a mut S, buffer: &'a mut ReadBuffer) -> Input<'a, S>
        ensures { IsInputOver source.entry buffer.entry result }
    {
        Input { source, buffer }
    }

    /// The bytes that were read and not taken.
    pub fn unread(&self) -> &[u8]
        ensures { result.now ≡ self.now.buffer.now }
    {
        self.buffer.as_slice()
    }

    /// Takes the first of them.
    pub fn take(&mut self, count: usize)
        requires { count ≤ length self.old.buffer.now }
        ensures taken { self.new.buffer.now ≡ drop count self.old.buffer.now }
        ensures unread { self.new.source.now ≡ self.old.source.now }
        ensures same { StaysOver self.old self.new }
    {
        self.buffer.consume(count);
    }

    /// The byte at this index of what was not taken, which is read until it is there. `None`: the input ended before
    /// it. A read that failed leaves what is held.
    pub fn byte(&mut self, at: usize) -> Result<Option<u8>, Failed>
        requires near { at ≤ length self.old.buffer.now }
        requires small { at < CAPACITY }
        ensures gave { Gave (input_of S.state self.old) (S.state self.new.source.now)
            self.new.buffer.now }
        ensures there { IfOk result (λ found. IfSome found (λ byte.
            (at < length self.new.buffer.now) × (byte ≡ get_or self.new.buffer.now at 0))) }
        ensures ended { IfOk result (λ found. IfNone found ((length self.new.buffer.now ≡ at)
            × (self.new.buffer.now ≡ self.old.buffer.now)
            × HasEnded (S.state self.new.source.now))) }
        ensures kept { OnErr result ((length self.new.buffer.now ≡ at)
            × (self.new.buffer.now ≡ self.old.buffer.now)) }
        ensures costs { ReadsAtMost S.state 1 (IsErr result) self.old self.new }
    {
        if at >= self.buffer.len() && self.buffer.fill(self.source)? == 0 {
            return Ok(None);
        }
        Ok(Some(self.unread()[at]))
    }
}
