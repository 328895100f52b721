//! What is true of every push, as laws: functions that do nothing and whose contracts are the laws.
ghost use Rattle.blobd_push.specs.Answered.{PushesAreAnswered};
ghost use Rattle.blobd_push.specs.Dials.{AsksAreDialed};

/// A push that ends with 0 has a last connection, over which the last reply said so: a 201 to the close of its upload
/// before it prints `pushed`, a 200 to a HEAD of its blob, with its length and no other digest, before it prints
/// `already`. So one that made no connection, or whose server said nothing of the kind, never ends with 0.
pub fn pushes_are_answered()
    ensures { PushesAreAnswered }
{}

/// What a push asks over connections that it was lent is asked as the law of a push and its pool wants it
/// (`end_to_end`).
pub fn asks_are_dialed()
    ensures { AsksAreDialed }
{}
