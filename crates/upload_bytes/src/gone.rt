//! Bytes that were let go as they came.
ghost use Rattle.std.specs.Prelude.{◌≡◌, ◌++◌, length, OnOk, OnErr};

use crate::body::BodyBuilder;
use http_wire::Transcript;
use std::alloc::AllocError;
use std::marker::Model;
use std::snapshot::Snapshot;

/// The bytes of a body that were let go as they came, since there was no room for them. At run time it knows how many
/// they were, and nothing else; contracts see them.
#[derive(Drop)]
pub struct Gone {
    /// What had come before they were let go.
    front: Snapshot<BodyBuilder>,
    /// What came from then on.
    behind: Transcript,
    len: usize,
}

impl Model for Gone {
    ghost use Rattle.std.specs.Prelude.{◌≡◌, ◌++◌, List, ℕ, length};

    ghost Value = { List ℕ };

    ghost view = { λ a. a.front.value ++ a.behind.bytes };

    ghost invariant = { λ a. a.len ≡ length (a.front.value ++ a.behind.bytes) };
}

impl Gone {
    /// The bytes of a body as far as they came.
    pub fn of(body: &BodyBuilder) -> Gone
        ensures { result ≡ body.now }
    {
        Gone {
            front: Snapshot::of(body),
            behind: Transcript::none(),
            len: body.len(),
        }
    }

    /// How many bytes they were.
    pub fn len(&self) -> usize
        ensures { result ≡ length self.now }
    {
        self.len
    }

    /// Lets a piece go behind them. An `Err` changes nothing: there would be 2^64 of them.
    pub fn extend(&mut self, piece: &[u8]) -> Result<(), AllocError>
        ensures ok { OnOk result (self.new ≡ self.old ++ piece.now) }
        ensures err { OnErr result (self.new ≡ self.old) }
    {
        let Some(len) = self.len.checked_add(piece.len()) else {
            return Err(AllocError);
        };
        self.behind = self.behind.and(piece);
        self.len = len;
        Ok(())
    }
}
