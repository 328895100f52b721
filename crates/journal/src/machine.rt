//! What the records are for.
ghost use Rattle.std.specs.Prelude.{List, ℕ, OnOk, OnErr};

use std::io;

/// A state that records change, one after the other.
pub trait Machine {
    /// What a record of a batch with this time may make of it.
    ghost steps: { Self → ℕ → List ℕ → Self → Type 0 };

    /// It has refused a record, and says so until it is let go.
    ghost has_refused: { Self → Type 0 };

    /// The second keeps what the first has. Whoever has a machine says here what no record changes.
    ghost keeps: { Self → Self → Type 0 } = { λ _ _. Unit {0} };

    fn apply(&mut self, time: u64, bytes: &[u8]) -> io::Result<()>
        ensures step { OnOk result (steps self.old time bytes.now self.new) }
        ensures refused { OnErr result (has_refused self.new) }
        ensures keeps { (first : Self) → keeps first self.old → keeps first self.new };
}

/// Takes any record, and makes nothing of it.
#[derive(Drop)]
pub struct Passing;

impl Machine for Passing {
    ghost steps = { λ _ _ _ _. Unit {0} };

    ghost has_refused = { λ _. Unit {0} };

    fn apply(&mut self, _time: u64, _bytes: &[u8]) -> io::Result<()> {
        Ok(())
    }
}
