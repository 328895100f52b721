//! A history that only proofs read. It takes no memory, and its methods do nothing at run time.
ghost use Rattle.std.specs.Prelude.{◌≡◌, List, [], ◌∷◌, ◌++◌};

use std::marker::Model;
use std::snapshot::Snapshot;

/// A history of items. A clause reads it as their list, the first in front.
#[derive(Drop)]
pub struct History<T> {
    // The history before the last item, and that item.
    last: Snapshot<Option<(Snapshot<History<T>>, Snapshot<T>)>>,
}

impl<T> Model for History<T> {
    ghost use Rattle.std.specs.Prelude.{List, length};
    ghost use Rattle.std.proofs.Common.{arith, length-append};
    ghost use Rattle.http_wire.specs.Histories.{items_of};

    ghost Value = { List T };

    ghost view = { λ h. items_of h.last.value };

    ghost size = { length };

    ghost size_decreases = { λ a h. Prim.grind (arith, length-append) };
}

impl<T> History<T> {
    /// No item.
    pub fn none() -> History<T>
        ensures { result ≡ [] }
    {
        History {
            last: Snapshot::of(&None),
        }
    }

    /// One item more.
    pub fn and(&self, item: &T) -> History<T>
        ensures { result ≡ self.now ++ item.now ∷ [] }
    {
        History {
            last: Snapshot::of(&Some((Snapshot::of(self), Snapshot::of(item)))),
        }
    }

    /// These items. Of the loop nothing is left at run time.
    pub fn of(items: &[T]) -> History<T>
        ensures { result ≡ items.now }
    {
        let mut history = History::none();
        for item in items {
            history = history.and(item);
        }
        history
    }
}
