//! The ends of a line, each with its pass: what may be done there, and what was done.
ghost use Rattle.std.specs.Prelude.{◌≡◌, true, false, [], List, ◌<◌, ◌+◌, IsSome, MatchOption, MatchResult, IfOk};
ghost use Rattle.std.proofs.Props.{props};
ghost use Rattle.crossbeam_channel.specs.Claims.{view, IsSeatAt};
ghost use Rattle.crossbeam_channel.specs.Ends.{sends_on, receives_on};
ghost use Rattle.upload_keeper.specs.declared.line.Item.{Item};
ghost use Rattle.upload_keeper.specs.Line.{is_sender, with_sent, with_taken, joined, IsOfAnother, Waits};
ghost use Rattle.upload_keeper.specs.Passes.{line_of, sender_view, taker_view};

use crate::line::{Both, Item, LineView, NextSender, Ordered, Sends, Takes, Whole};
use crossbeam_channel::{Pass, RuledReceiver, RuledSender, bounded_with};
use std::alloc::{AllocError, Global};
use std::sync::Wait;

pub type LineSender<T> = RuledSender<Item<T>, LineView<T>, Ordered, Global>;

pub type LineReceiver<T> = RuledReceiver<Item<T>, LineView<T>, Ordered, Global>;

pub type LinePass<T> = Pass<Item<T>, LineView<T>>;

/// A sender, and what it sent. It is open until `send` handed an item back, which this module alone can say.
#[derive(Drop)]
pub struct SendEnd<T: Drop> {
    sender: LineSender<T>,
    pass: LinePass<T>,
    is_open: bool,
    ghost at: { IsSeatAt (sends_on sender) pass } by { Prim.hlevel props },
}

/// The receiver, and what it took. It is open until it found nothing, which this module alone can say.
#[derive(Drop)]
pub struct TakeEnd<T: Drop> {
    receiver: LineReceiver<T>,
    pass: LinePass<T>,
    is_open: bool,
    ghost at: { IsSeatAt (receives_on receiver) pass } by { Prim.hlevel props },
}

impl<T: Drop> SendEnd<T> {
    /// Whether no item was handed back so far.
    pub fn is_open(&self) -> bool
        ensures { result ≡ self.now.is_open }
    {
        self.is_open
    }

    /// Adds an item at the back, or hands it back: then nothing was sent, and the end isn't open any more.
    pub fn send<R: Wait>(&mut self, rt: &R, item: Item<T>) -> Result<(), Item<T>>
        requires { is_sender item.seat (view self.old.pass).sending ≡ true }
        ensures line { self.new.sender ≡ self.old.sender }
        ensures sent { MatchResult result
            (λ _. view self.new.pass ≡ with_sent item (view self.old.pass))
            (λ back. (back ≡ item) × (view self.new.pass ≡ view self.old.pass)) }
        ensures closing { MatchResult result (λ _. self.new.is_open ≡ self.old.is_open)
            (λ _. self.new.is_open ≡ false) }
    {
        let sent = self.offer(rt, item);
        if sent.is_err() {
            self.is_open = false;
        }
        sent
    }

    /// The same for an item that nobody answers for: whether the end is open stays as it was.
    pub fn offer<R: Wait>(&mut self, rt: &R, item: Item<T>) -> Result<(), Item<T>>
        requires { is_sender item.seat (view self.old.pass).sending ≡ true }
        ensures line { self.new.sender ≡ self.old.sender }
        ensures sent { MatchResult result
            (λ _. view self.new.pass ≡ with_sent item (view self.old.pass))
            (λ back. (back ≡ item) × (view self.new.pass ≡ view self.old.pass)) }
        ensures same { self.new.is_open ≡ self.old.is_open }
    {
        match self.sender.send_as::<Sends, R>(rt, &mut self.pass, item) {
            Ok(()) => Ok(()),
            Err(refused) => Err(refused.into_inner()),
        }
    }
}

impl<T: Drop> TakeEnd<T> {
    /// Takes the item in front, which another pass sent; or finds nothing, and isn't open any more.
    pub fn take<R: Wait>(&mut self, rt: &R) -> Option<Item<T>>
        requires { (view self.old.pass).takes ≡ true }
        ensures line { self.new.receiver ≡ self.old.receiver }
        ensures taken { MatchOption result
            (view self.new.pass ≡ view self.old.pass)
            (λ item. (view self.new.pass ≡ with_taken item (view self.old.pass))
            × IsOfAnother (view self.old.pass) item) }
        ensures closing { MatchOption result (self.new.is_open ≡ false)
            (λ _. self.new.is_open ≡ self.old.is_open) }
    {
        let taken = self.receiver.recv_as::<Takes, R>(rt, &mut self.pass).ok();
        if taken.is_none() {
            self.is_open = false;
        }
        taken
    }

    /// The same, but it doesn't wait, and stays open.
    pub fn take_waiting<R: Wait>(&mut self, rt: &R) -> Option<Item<T>>
        requires { (view self.old.pass).takes ≡ true }
        ensures line { self.new.receiver ≡ self.old.receiver }
        ensures taken { MatchOption result
            (view self.new.pass ≡ view self.old.pass)
            (λ item. (view self.new.pass ≡ with_taken item (view self.old.pass))
            × IsOfAnother (view self.old.pass) item) }
        ensures same { self.new.is_open ≡ self.old.is_open }
    {
        self.receiver
            .try_recv_as::<Takes, R>(rt, &mut self.pass)
            .ok()
    }

    /// The one or the other.
    pub fn take_if<R: Wait>(&mut self, rt: &R, waits: bool) -> Option<Item<T>>
        requires { (view self.old.pass).takes ≡ true }
        ensures line { self.new.receiver ≡ self.old.receiver }
        ensures taken { MatchOption result
            (view self.new.pass ≡ view self.old.pass)
            (λ item. (view self.new.pass ≡ with_taken item (view self.old.pass))
            × IsOfAnother (view self.old.pass) item) }
        ensures open { IsSome result → self.new.is_open ≡ self.old.is_open }
    {
        if waits {
            self.take(rt)
        } else {
            self.take_waiting(rt)
        }
    }
}

/// A line that no seat sends on yet: what its senders are cloned from, and its receiver.
pub fn open_line<T: Drop>(
    alloc: Global,
    capacity: usize,
) -> Result<(LineSender<T>, TakeEnd<T>), AllocError>
    requires { 0 < capacity }
    ensures line { IfOk result (λ ends. receives_on ends.1.receiver ≡ sends_on ends.0) }
    ensures taker { IfOk result (λ ends. view ends.1.pass ≡ taker_view 0 []) }
    ensures opened { IfOk result (λ ends. ends.1.is_open ≡ true) }
{
    let (sender, receiver, pass) = bounded_with::<Item<T>, LineView<T>, Ordered, Global>(
        alloc, capacity,
    )?;
    let taker = TakeEnd {
        receiver,
        pass,
        is_open: true,
    };
    Ok((sender, taker))
}

/// The sender of the next seat, cut off from the receiver. The number is for the proof.
pub fn next_sender<T: Drop>(
    sender: &LineSender<T>,
    taker: &mut TakeEnd<T>,
    seat: usize,
) -> Result<SendEnd<T>, AllocError>
    requires line { receives_on taker.old.receiver ≡ sends_on sender.now }
    requires taker { view taker.old.pass ≡ taker_view seat [] }
    ensures line { IfOk result
        (λ end. line_of (sends_on end.sender) ≡ line_of (sends_on sender.now)) }
    ensures sender { IfOk result (λ end. view end.pass ≡ sender_view seat []) }
    ensures opened { IfOk result (λ end. end.is_open ≡ true) }
    ensures same_line { taker.new.receiver ≡ taker.old.receiver }
    ensures same { taker.new.is_open ≡ taker.old.is_open }
    ensures taker { IfOk result (λ end. view taker.new.pass ≡ taker_view (seat + 1) []) }
{
    let _ = seat;
    let own = sender.try_clone()?;
    let pass = sender.another::<NextSender>(&mut taker.pass);
    Ok(SendEnd {
        sender: own,
        pass,
        is_open: true,
    })
}

/// A line with one sender, on which one item waits at most.
pub fn reply_line<T: Drop>(alloc: Global) -> Result<(SendEnd<T>, TakeEnd<T>), AllocError>
    ensures line { IfOk result
        (λ ends. line_of (receives_on ends.1.receiver) ≡ line_of (sends_on ends.0.sender)) }
    ensures views { IfOk result
        (λ ends. (view ends.0.pass ≡ sender_view 0 []) × (view ends.1.pass ≡ taker_view 1 [])) }
    ensures opened { IfOk result
        (λ ends. (ends.0.is_open ≡ true) × (ends.1.is_open ≡ true)) }
{
    let (sender, mut taker) = open_line(alloc, 1)?;
    let only = next_sender(&sender, &mut taker, 0)?;
    Ok((only, taker))
}

/// With a sender of the line: what was taken of its seat, and then what waits of it, is what it sent. The receiver has
/// the sender's pass from now on.
pub fn settle_line<T: Drop>(sender: SendEnd<T>, taker: &mut TakeEnd<T>)
    requires { line_of (receives_on taker.old.receiver) ≡ line_of (sends_on sender.sender) }
    ensures line { taker.new.receiver ≡ taker.old.receiver }
    ensures same { taker.new.is_open ≡ taker.old.is_open }
    ensures joined { view taker.new.pass ≡ joined (view taker.old.pass) (view sender.pass) }
    ensures settled { (waiting : List (Item T)) × Waits (view taker.new.pass) waiting }
{
    let SendEnd {
        sender,
        pass,
        is_open: _,
    } = sender;
    sender.absorb::<Both>(&mut taker.pass, pass);
    sender.learn_as::<Whole>(&mut taker.pass);
}
