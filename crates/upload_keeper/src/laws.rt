//! What follows from the contracts of the parts.
ghost use Rattle.upload_keeper.specs.Restarts.{ToldIsKept};

/// From what is kept, a restart has each answer that may be heard, so each that anybody heard. A restart that serves
/// what is kept again, in the same order, with the same secrets and at the same moments, gives the same answers, if
/// memory isn't out. If the answer tells of a change, that change is among them. Otherwise the service gives it after
/// the first of them. It was given at no moment after those that are promised, so a restart that begins after them
/// never goes back.
pub fn told_is_kept()
    ensures { ToldIsKept }
{}
