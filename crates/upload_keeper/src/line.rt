//! The rule of a line between threads: for each sender, what it sent is what the receiver took of it, and then what
//! waits of it. Nothing else is ever on a line.
use crossbeam_channel::protocol::{Join, Lesson, Outcome, Protocol, Split};
use std::collections::LinkedList;

/// What lies on a line. It names its sender, by the number of its seat.
#[derive(Drop)]
pub struct Item<T> {
    pub seat: usize,
    pub what: T,
}

/// As which seats a pass sends, and what it sent: as one, or as none, or as each from a seat on, but nothing so far.
pub enum Sending<T> {
    Nothing,
    One(usize, LinkedList<T>),
    AllFrom(usize),
}

/// What a pass knows of its line: whether it receives, and what it took; and what it sent. No value of it is ever made.
pub struct LineView<T> {
    pub takes: bool,
    pub taken: LinkedList<Item<T>>,
    pub sending: Sending<T>,
}

/// The rule: what was taken of a sender, followed by what waits of it, is what it sent.
pub struct Ordered;

impl<T> Protocol<Item<T>, LineView<T>> for Ordered {
    ghost use Rattle.upload_keeper.specs.Line.{InOrder, unused};

    ghost holds = { InOrder };

    ghost first = { unused };
}

/// A new pass sends as the next seat, and this one does so no more.
pub struct NextSender;

impl<T> Split<LineView<T>> for NextSender {
    ghost use Rattle.upload_keeper.specs.Line.{without_next, next_alone};

    ghost left = { without_next };

    ghost right = { next_alone };
}

/// This pass sends as the other one did, and knows what that sent. It forgets what it sent itself.
pub struct Both;

impl<T> Join<LineView<T>> for Both {
    ghost use Rattle.upload_keeper.specs.Line.{joined, idle};

    ghost both = { joined };

    ghost spent = { idle };
}

/// An item was sent.
pub struct Sends;

impl<T> Outcome<Item<T>, LineView<T>> for Sends {
    ghost use Rattle.std.specs.Prelude.{◌≡◌};
    ghost use Rattle.upload_keeper.specs.Line.{with_sent};

    ghost then = { λ before item after. after ≡ with_sent item before };
}

impl<T> Lesson<Item<T>, LineView<T>> for Sends {
    ghost use Rattle.std.specs.Prelude.{⊤};

    ghost fact = { λ view items. ⊤ };
}

/// The item in front was taken, and another pass sent it.
pub struct Takes;

impl<T> Outcome<Item<T>, LineView<T>> for Takes {
    ghost use Rattle.std.specs.Prelude.{◌≡◌};
    ghost use Rattle.upload_keeper.specs.Line.{with_taken, IsOfAnother};

    ghost then = { λ before item after.
        (after ≡ with_taken item before) × IsOfAnother before item };
}

impl<T> Lesson<Item<T>, LineView<T>> for Takes {
    ghost use Rattle.std.specs.Prelude.{⊤};

    ghost fact = { λ view items. ⊤ };
}

/// What a pass that receives and sends knows of the items that wait.
pub struct Whole;

impl<T> Lesson<Item<T>, LineView<T>> for Whole {
    ghost use Rattle.upload_keeper.specs.Line.{Waits};

    ghost fact = { Waits };
}
