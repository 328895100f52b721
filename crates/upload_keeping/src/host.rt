//! What a keeping is lent.
use crate::fault::KeepFault;

/// Tells a keeping the time of day, and is told why something was not kept.
pub trait KeepingHost {
    ghost use Rattle.upload_keeping.specs.declared.fault.KeepFault.{KeepFault};

    // Holds of the state before, the fault that is told, and the state after.
    ghost hears: { Self → KeepFault → Self → Type 0 };

    /// The time of day, in seconds since 1970, as a batch is about to be kept. It has that for its reader: nothing else
    /// rests on it.
    fn time(&mut self) -> u64;

    /// The batch is kept.
    fn kept(&mut self);

    /// Waits, so that more may come that is kept with what is due, if that is short beside what it takes to keep a
    /// batch. Says whether it did.
    fn pause(&mut self) -> bool;

    /// Something was not kept, for this reason. Nobody hears an answer of that round or of a later one.
    fn failed(&mut self, fault: &KeepFault)
        ensures { hears self.old fault.now self.new };
}
