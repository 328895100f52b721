//! What holds of entries and of restarts, as laws: functions that do nothing and whose contracts are the laws.
ghost use Rattle.std.specs.Prelude.{◌≡◌, ℕ, List, Ok};
ghost use Rattle.upload_journal.specs.declared.entries.Entry.{Entry};
ghost use Rattle.upload_journal.specs.Entries.{IsEntry, entry_text, entry_of};
ghost use Rattle.upload_journal.specs.Restart.{ChangesAreEnough};
ghost use Rattle.upload_journal.specs.Replay.{Point, Replays, UsesNoneUp, IsRunOf, used_up};
ghost use Rattle.upload_service.specs.Machine.{State, IsLawful};

use crate::bodies::Bodies;

/// Each entry is read back from its text as what it was written from.
pub fn entries_are_read_back()
    ensures { (entry : Entry) → IsEntry entry → entry_of (entry_text entry) ≡ Ok entry }
{}

/// What changed nothing can be left out: the exchanges whose answers are kept lead to the same state, and to no other.
/// The headline holds of all exchanges over a restart, also of those that were left out, if the restart begins at a
/// moment that none of them was after.
pub fn changes_are_enough()
    ensures { ChangesAreEnough }
{}

/// What `Replay::apply` does with entries, one after another, is a run of exactly the exchanges that they stand for, at
/// moments that don't fall, and the headline holds of it. Numbers that are used up begin a run of their own: they leave
/// a lawful state.
pub fn replays_are_runs<B: Bodies>(bodies: &B)
    ensures runs { (old : Point) (entries : List Entry) (new : Point)
        → IsLawful old.state → UsesNoneUp entries → Replays (B.stands bodies.now) old entries new
        → IsRunOf (B.stands bodies.now) old entries new }
    ensures used_up { (n : ℕ) (s : State) → IsLawful s → IsLawful (used_up n s) }
{}
