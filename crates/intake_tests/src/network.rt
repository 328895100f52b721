//! A network in memory, which loses replies; and what the laws ask of one.
ghost use Rattle.std.specs.Prelude.{◌≡◌, [], None};

use crossbeam_channel::{Receiver, Sender};
use http_wire::{ByteSource, Failed, ToWrite, Transcript};
use std::io::Write;
use std::sync::Wait;
use std::{io, vec};
use upload_names::UploadRef;

/// Where pieces come from, and where they go.
pub type Lines = (Receiver<Vec<u8>>, Sender<Vec<u8>>);

/// A connection on its way to a worker, with its number.
pub type Arrival = (u64, Lines);

/// What an end of a connection reads, a byte at a time.
#[derive(Drop)]
pub struct Source<'n, R> {
    rt: &'n R,
    pieces: Receiver<Vec<u8>>,
    piece: vec::IntoIter<u8>,
    /// How many bytes it gives. What comes behind them is waited for, and lost.
    left: usize,
    read: Vec<u8>,
    given: Transcript,
    reads: u64,
    failed_reads: u64,
}

impl<'n, R: Wait> Source<'n, R> {
    /// The next byte, or none at the end.
    fn next(&mut self) -> Result<Option<u8>, Failed>
        ensures given { self.new.given ≡ self.old.given }
        ensures reads { self.new.reads ≡ self.old.reads }
        ensures failed_reads { self.new.failed_reads ≡ self.old.failed_reads }
    {
        if self.piece.len() == 0 {
            let Ok(piece) = self.pieces.recv(self.rt) else {
                return Ok(None);
            };
            self.piece = piece.into_iter();
        }
        self.left = self.left.checked_sub(1).ok_or(Failed)?;
        let byte = self.piece.next().ok_or(Failed)?;
        self.read.push(byte).map_err(|_| Failed)?;
        Ok(Some(byte))
    }
}

impl<'n, R: Wait> ByteSource for Source<'n, R> {
    ghost state = { λ s. record {
      given = s.given.bytes;
      ended = s.given.ended;
      remaining = None;
      reads = s.reads;
      failed_reads = s.failed_reads;
    } };

    fn read(&mut self, buf: &mut [u8]) -> Result<usize, Failed> {
        self.reads = self.reads.saturating_add(1);
        let Ok(next) = self.next() else {
            self.failed_reads = self.failed_reads.saturating_add(1);
            return Err(Failed);
        };
        let Some(byte) = next else {
            self.given = self.given.and(&[]);
            return Ok(0);
        };
        buf[0] = byte;
        self.given = self.given.and(&buf[..1]);
        Ok(1)
    }
}

/// The bytes that go from one end of a connection.
#[derive(Drop)]
pub struct Outflow<'n, R> {
    rt: &'n R,
    line: Sender<Vec<u8>>,
    written: Vec<u8>,
}

impl<'n, R: Wait + AllocGlobal> Write for Outflow<'n, R> {
    fn write(&mut self, buf: &[u8]) -> io::Result<usize> {
        self.written.extend_from_slice(buf)?;
        self.line.send(self.rt, buf.to_vec(self.rt.alloc())?)?;
        Ok(buf.len())
    }

    fn flush(&mut self) -> io::Result<()> {
        Ok(())
    }
}

/// The two halves of an end.
pub type Halves<'n, R> = (Source<'n, R>, ToWrite<Outflow<'n, R>>);

/// An end of a connection, which so many bytes come to.
pub fn end_of<'n, R: Wait + AllocGlobal>(rt: &'n R, lines: Lines, left: usize) -> Halves<'n, R>
    ensures source { (result.0.given.bytes ≡ []) × (result.0.reads ≡ 0) }
    ensures sink { (result.1.taken.bytes ≡ []) × (result.1.writes ≡ 0) }
{
    let (pieces, line) = lines;
    let source = Source {
        rt,
        pieces,
        piece: Vec::new(rt.alloc()).into_iter(),
        left,
        read: Vec::new(rt.alloc()),
        given: Transcript::none(),
        reads: 0,
        failed_reads: 0,
    };
    let outflow = Outflow {
        rt,
        line,
        written: Vec::new(rt.alloc()),
    };
    (source, ToWrite::new(outflow))
}

/// What an end that is done with read and wrote.
pub fn moved<'n, R: Wait>(halves: Halves<'n, R>) -> (Vec<u8>, Vec<u8>) {
    let (source, sink) = halves;
    let Source { read, .. } = source;
    let Outflow { written, .. } = sink.into_inner();
    (read, written)
}

/// A request as an end of a connection saw it: the reference that it carries, if it carries one, between which two of
/// all events, counted from 1. The second is 0 if no reply was heard.
#[derive(Clone, Copy)]
pub struct Seen {
    pub at: Option<UploadRef>,
    pub from: u64,
    pub upto: u64,
}

/// A connection as one end has it: what it read and what it wrote, and the requests on it.
#[derive(Drop)]
pub struct Leg {
    pub number: u64,
    pub moved: (Vec<u8>, Vec<u8>),
    pub seen: Vec<Seen>,
}

/// Whether a request, if its reply was heard, was served between that and when it was asked. So all that a push heard
/// was served in the order in which it asked.
fn is_served(asked: &Seen, served: Option<&Seen>) -> bool {
    match served {
        Some(served) if asked.upto > 0 => asked.from < served.from && served.upto < asked.upto,
        Some(served) => asked.at == served.at,
        None => asked.upto == 0,
    }
}

impl Leg {
    /// Whether a worker's connection is this one of a push: what either end read there is a prefix of what the other
    /// wrote, and what was heard was served meanwhile.
    pub fn is_of(&self, worker: &Leg) -> bool {
        let (read, written) = &self.moved;
        let (taken, replied) = &worker.moved;
        let mut is_so = written.starts_with(taken) && replied.starts_with(read);
        for (place, asked) in self.seen.iter().enumerate() {
            is_so = is_so && is_served(asked, worker.seen.get(place));
        }
        is_so
    }

    /// Whether a request on it carries a reference that one on the other does.
    pub fn shares_with(&self, other: &Leg) -> bool {
        self.seen.iter().any(|own| {
            own.at.is_some() && other.seen.iter().any(|seen| seen.at == own.at)
        })
    }
}
