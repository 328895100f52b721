//! All that something was given, which only proofs read. It takes no memory, and its methods do nothing at run time.
ghost use Rattle.std.specs.Prelude.{◌≡◌, [], ◌++◌};

use crate::history::History;
use std::marker::Model;

/// The bytes that something was given, piece by piece. A clause reads them as their list.
#[derive(Drop)]
pub struct Given {
    pieces: History<History<u8>>,
}

impl Model for Given {
    ghost use Rattle.std.specs.Prelude.{List, ℕ, flat_map};

    ghost Value = { List ℕ };

    ghost view = { λ g. flat_map (λ piece. piece) g.pieces };
}

impl Given {
    /// No byte.
    pub fn none() -> Given
        ensures { result ≡ [] }
    {
        Given {
            pieces: History::none(),
        }
    }

    /// These bytes behind those before.
    pub fn and(&self, piece: &[u8]) -> Given
        ensures { result ≡ self.now ++ piece.now }
    {
        Given {
            pieces: self.pieces.and(&History::of(piece)),
        }
    }
}
