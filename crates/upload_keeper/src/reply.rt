//! The way back from the keeper to one seat.
use crate::ends::SendEnd;
use crate::heard::Heard;
use crate::message::WishReply;
use crossbeam_channel::Sender;
use upload_service::Answer;

/// A seat's reply line, and where it is told of its wishes. It is done when the seat's finish was taken.
#[derive(Drop)]
pub(crate) struct ReplyLine {
    pub(crate) replies: SendEnd<Heard>,
    /// One waits here at most: a seat takes what it is told before it wishes again.
    pub(crate) ends: Sender<WishReply>,
    pub(crate) is_done: bool,
    /// An answer that isn't kept yet.
    pub(crate) held: Option<Answer>,
    /// Whether the seat asked again before it heard an answer. It hears nothing more.
    pub(crate) is_crowded: bool,
    /// Whether the seat was answered in the last round, and hasn't asked since.
    pub(crate) is_expected: bool,
}
