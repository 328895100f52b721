//! Where a replay gets the bodies that aren't in their entries.
ghost use Rattle.std.specs.Prelude.{◌≡◌, ◌++◌, List, ℕ, OnOk, IfErr, IfSome};

use upload_bytes::{Body, BodyBuilder, Front};
use upload_names::UploadRef;

/// Why a body, or a part of one, wasn't read.
#[derive(Clone, Copy, Debug, Drop, PartialEq, Eq)]
pub enum BodyFault {
    /// There was no memory for it.
    NoMemory,
    /// Nothing stands under the number.
    NotThere,
    /// It is there, and couldn't be read.
    NotRead,
}

/// Bodies, or parts of them, each under its number.
pub trait Bodies {
    ghost use Rattle.upload_journal.specs.declared.bodies.BodyFault.{BodyFault};

    /// These bytes stand under a number.
    ghost stands: { Self → ℕ → List ℕ → Type 0 };

    /// The second keeps what the first has. Whoever has bodies says here what else of them no read changes.
    ghost keeps: { Self → Self → Type 0 };

    /// Since the first, a read of this number has ended with this fault. Who has bodies says here what that tells of
    /// them.
    ghost refused: { Self → Self → ℕ → BodyFault → Type 0 } = { λ _ _ _ _. Unit {0} };

    /// Puts the bytes under a number behind those of a body. What stood under any number before stands there still.
    fn read(&mut self, number: u64, body: &mut BodyBuilder) -> Result<(), BodyFault>
        ensures read { OnOk result ((bytes : List ℕ) × stands self.new number bytes
            × (body.new ≡ body.old ++ bytes)) }
        ensures refused { (first : Self) → keeps first self.old
            → IfErr result (refused first self.new number) }
        ensures same { (n : ℕ) (bytes : List ℕ) → stands self.old n bytes
            → stands self.new n bytes }
        ensures keeps { (first : Self) → keeps first self.old → keeps first self.new };

    /// The bytes under a number, if they were read already. They may carry their hash. Who reads nothing ahead has
    /// none.
    fn ready(&mut self, number: u64) -> Option<Body>
        ensures read { IfSome result (stands self.new number) }
        ensures same { (n : ℕ) (bytes : List ℕ) → stands self.old n bytes
            → stands self.new n bytes }
        ensures keeps { (first : Self) → keeps first self.old → keeps first self.new }
    {
        let _ = number;
        None
    }

    /// The bytes of several files, of which this number's is the first, if they were read already, with their hash: a
    /// guess, which whoever takes it compares with what he reads. Who reads nothing ahead has none.
    fn joined(&mut self, first: u64) -> Option<Body>
        ensures same { (n : ℕ) (bytes : List ℕ) → stands self.old n bytes
            → stands self.new n bytes }
        ensures keeps { (first : Self) → keeps first self.old → keeps first self.new }
    {
        let _ = first;
        None
    }

    /// What an upload has received that is about to be closed, if it was read already, with its hash: a guess, which
    /// whoever takes it compares. Who reads nothing ahead has none.
    fn front(&mut self, at: &UploadRef) -> Option<Front>
        ensures same { (n : ℕ) (bytes : List ℕ) → stands self.old n bytes
            → stands self.new n bytes }
        ensures keeps { (first : Self) → keeps first self.old → keeps first self.new }
    {
        let _ = at;
        None
    }
}
