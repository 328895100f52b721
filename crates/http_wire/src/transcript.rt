//! A history of bytes that only proofs read. It takes no memory, and its methods do nothing at run time.
ghost use Rattle.std.specs.Prelude.{◌≡◌, [], ◌++◌, ◌≤◌, false, ◌==◌, length, take, drop};

use crate::excerpt::Excerpt;
use crate::given::Given;
use crate::history::History;
use std::marker::Model;
use std::snapshot::Snapshot;

/// A cut of what something was given: so many bytes behind an offset.
#[derive(Drop)]
pub struct Cut {
    of: Snapshot<Given>,
    at: Snapshot<u64>,
    len: Snapshot<u64>,
}

impl Model for Cut {
    ghost use Rattle.std.specs.Prelude.{List, ℕ, take, drop};

    ghost Value = { List ℕ };

    ghost view = { λ c. take c.len.value (drop c.at.value c.of.value) };
}

impl Cut {
    /// So many bytes behind this offset.
    pub(crate) fn of(of: &Given, at: u64, len: u64) -> Cut
        ensures { result ≡ take len (drop at of.now) }
    {
        Cut {
            of: Snapshot::of(of),
            at: Snapshot::of(&at),
            len: Snapshot::of(&len),
        }
    }

    /// All of a piece.
    fn whole(piece: &[u8]) -> Cut
        ensures { result ≡ piece.now }
    {
        Cut::of(&Given::none().and(piece), 0, piece.len() as u64)
    }
}

/// A clause reads the bytes as `bytes`, in order, and as `ended` whether the last piece was empty, which is how a read
/// says that its source has ended.
#[derive(Drop)]
pub struct Transcript {
    pieces: History<Cut>,
    ended: Snapshot<bool>,
}

impl Model for Transcript {
    ghost use Rattle.std.specs.Prelude.{flat_map};
    ghost use Rattle.http_wire.specs.States.{TranscriptState};

    ghost Value = { TranscriptState };

    ghost view = { λ t. record {
      bytes = flat_map (λ piece. piece) t.pieces;
      ended = t.ended.value;
    } };
}

impl Transcript {
    /// No byte.
    pub fn none() -> Transcript
        ensures { result ≡ record { bytes = []; ended = false } }
    {
        Transcript {
            pieces: History::none(),
            ended: Snapshot::of(&false),
        }
    }

    /// These bytes behind those that it has.
    pub fn and(&self, piece: &[u8]) -> Transcript
        ensures { result
            ≡ record { bytes = self.now.bytes ++ piece.now; ended = length piece.now == 0 } }
    {
        Transcript {
            pieces: self.pieces.and(&Cut::whole(piece)),
            ended: Snapshot::of(&piece.is_empty()),
        }
    }

    /// The first bytes of an excerpt behind those that it has: those that its file was given. Only who wrote so many of
    /// what came may say so.
    pub fn and_excerpt(&self, excerpt: &Excerpt<'_>, count: usize) -> Transcript
        requires { count ≤ length excerpt.now.told }
        ensures { result
            ≡ record { bytes = self.now.bytes ++ take count excerpt.now.told; ended = count == 0 } }
    {
        Transcript {
            pieces: self.pieces.and(&excerpt.cut(count)),
            ended: Snapshot::of(&(count == 0)),
        }
    }
}
