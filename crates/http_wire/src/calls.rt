//! A count that only proofs read. It takes no memory, and its methods do nothing at run time.
ghost use Rattle.std.specs.Prelude.{◌≡◌, ◌+◌};

use crate::history::History;
use std::marker::Model;

/// A clause reads it as a number.
#[derive(Drop)]
pub struct Calls {
    made: History<()>,
}

impl Model for Calls {
    ghost use Rattle.std.specs.Prelude.{ℕ, length};

    ghost Value = { ℕ };

    ghost view = { λ c. length c.made };
}

impl Calls {
    /// No call.
    pub fn none() -> Calls
        ensures { result ≡ 0 }
    {
        Calls {
            made: History::none(),
        }
    }

    /// One call more.
    pub fn and_one(&self) -> Calls
        ensures { result ≡ self.now + 1 }
    {
        Calls {
            made: self.made.and(&()),
        }
    }
}
