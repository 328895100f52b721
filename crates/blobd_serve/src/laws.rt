//! What is true of the connections of each worker, as a law: a function that does nothing and whose contract is the
//! law.
ghost use Rattle.upload_intake.specs.Transcripts.{GivesUnused};
ghost use Rattle.upload_intake.specs.Pools.Working.{lending};

use crate::accept::{Accepted, Reader, Writer};
use crate::accepts::Accepts;
use http_wire::{ByteSink, ByteSource};
use std::io::Eprint;
use std::rt::Clock;
use std::sync::Wait;
use upload_intake::Conns;

/// A worker is given connections over which nothing was read and nothing written, as the laws from end to end want it
/// (`end_to_end`).
pub fn accepted_are_unused<'a, L, R>()
where
    L: Accepts + Drop,
    L::In: Send,
    L::Out: Send,
    R: Clock + Eprint + Wait + Sync + 'a,
    ensures { GivesUnused
        (lending ⟦<Accepted<'a, L, R> as Conns>⟧.gives ⟦<Accepted<'a, L, R> as Conns>⟧.takes_back
        ⟦<Reader<'a, L, R> as ByteSource>⟧.state ⟦<Writer<'a, L, R> as ByteSink>⟧.state) }
{}
