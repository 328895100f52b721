//! What a push is lent: connections to one server, made as it needs them, and what was read and written over each.
ghost use Rattle.std.specs.Prelude.{◌≡◌, ◌++◌, ◌∷◌, [], false, IfOk, OnErr};
ghost use Rattle.blobd_shared.specs.Connections.{ConnEvent};
ghost use Rattle.blobd_shared.specs.Connections.ConnEvent.{made, given_back};

use blobd_shared::{Inlet, Outlet};
use std::io;

/// The connections of a push, one after the other. A push has no other way to get one, and gives each back.
pub trait Dials {
    ghost use Rattle.std.specs.Prelude.{List};
    ghost use Rattle.blobd_shared.specs.Connections.{ConnEvent};

    /// What the replies are read from.
    type In: Inlet + Drop;
    /// What the requests are written to.
    type Out: Outlet + Drop;

    // What happened so far, the oldest first: a connection was made, or one was given back, with all that was read
    // and written over it.
    ghost history: { Self → List ConnEvent };

    /// A new connection, over which nothing was read or written, made at the first try or at a later one. An error is
    /// the system's, or says that none was made in time.
    fn dial(&mut self) -> io::Result<(Self::In, Self::Out)>
        ensures new { IfOk result (λ ends. (Self.In.given ends.0
            ≡ record { bytes = []; ended = false }) × (Self.Out.taken ends.1 ≡ [])) }
        ensures told { IfOk result (λ ends. history self.new ≡ history self.old ++ made ∷ []) }
        ensures none { OnErr result (history self.new ≡ history self.old) };

    /// Takes a connection back: both ends are as its requests left them.
    fn take_back(&mut self, source: Self::In, sink: Self::Out)
        ensures { history self.new ≡ history self.old
            ++ given_back (Self.In.given source) (Self.Out.taken sink) ∷ [] };
}
