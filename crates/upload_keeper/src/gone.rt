//! Why a seat has no answer.
use upload_service::Ask;

/// Why a request has no answer. After either, the seat's calls answer `NotSent`.
#[derive(Drop)]
pub enum Gone {
    /// It was not sent, and here it is again. Nothing changed.
    NotSent(Ask),
    /// It was sent, and no answer was heard: the keeper may have taken it.
    NoAnswer,
}
