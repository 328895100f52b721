//! What a shelf is told before a replay.
ghost use Rattle.upload_store.specs.Reading.{ReadsOnly};

use bodies::{Hint, Shelf};
use std::alloc::{AllocError, Global};

/// The shelf, which knows what it will be asked for, if there is memory for that.
pub fn told<S: Shelf>(alloc: Global, shelf: S, hints: &[Hint]) -> S
    ensures { ReadsOnly S.Shelf.held S.Shelf.may_leave S.Shelf.IsClean shelf result }
{
    let mut shelf = shelf;
    if let Ok(hints) = copies(alloc, hints) {
        shelf.take_hints(hints);
    }
    shelf
}

/// Copies of hints.
fn copies(alloc: Global, hints: &[Hint]) -> Result<Vec<Hint>, AllocError> {
    let mut copies = Vec::with_capacity(alloc, hints.len())?;
    for hint in hints {
        copies.push(hint.copy(alloc)?)?;
    }
    Ok(copies)
}
