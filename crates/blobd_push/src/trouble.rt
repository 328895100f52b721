//! What goes wrong with a push, and the words for it on standard error.
ghost use Rattle.std.specs.Prelude.{◌≡◌};
ghost use Rattle.blobd_push.specs.Trouble.{advice_anywhere, advice_at_opening, advice_on, advice_within};
ghost use Rattle.blobd_push.specs.Trouble.{course_after, error_trouble};
ghost use Rattle.blobd_push.specs.Trouble.{first_trouble, is_http, is_tls, is_unavailable, last_trouble, reason_of};
ghost use Rattle.blobd_push.specs.Trouble.{status_trouble, trouble_in, words_of, words_of_advice};

use blobd_shared::Quantity;
use std::{fmt, io};
use upload_client::Heard;
use upload_push::Why;

/// What kept a request of a push from being heard.
#[derive(Clone, Copy, Debug, PartialEq, Eq)]
pub(crate) enum Trouble {
    /// No reply of a form that is read came, or there was no memory for one.
    NoReply,
    /// No connection was made for as long as a push waits for one.
    NoConnection,
    /// The system's error of this number.
    System(u32),
    /// No byte moved for as long as a push waits.
    Silence,
    /// The server closed the connection before the end of a reply.
    Closed,
    /// It did so, or took no more of a request, once it had opened an upload: it speaks HTTP.
    Cut,
    /// What came begins as a record of TLS.
    Tls,
    /// What came doesn't begin as HTTP.
    NotHttp,
    /// The server answered that it can't serve now.
    Unavailable,
    /// The server answered that a chunk doesn't begin where its upload stands.
    Misplaced,
}

/// The status of a server that can't serve now.
const UNAVAILABLE: u16 = 503;

/// The status of a chunk that doesn't begin where its upload stands.
const MISPLACED: u16 = 416;

/// The status of an upload that is opened, and of a chunk that is taken.
const ACCEPTED: u16 = 202;

/// What Linux calls the error of a read or a write that no byte moved in time, on x86-64 and aarch64.
const EAGAIN: u32 = 11;

/// That of a write to a peer that has closed.
const EPIPE: u32 = 32;

/// That of a read or a write of a connection that its peer has reset.
const ECONNRESET: u32 = 104;

/// Whether bytes begin as a record of TLS: its kind (RFC 8446, section 5.1), and the first byte of its version.
fn is_tls(bytes: &[u8]) -> bool
    ensures { result ≡ is_tls bytes.now }
{
    matches!(bytes, [20..=23, 3, ..])
}

/// Whether bytes begin as a reply of HTTP, as far as they go.
fn is_http(bytes: &[u8]) -> bool
    ensures { result ≡ is_http bytes.now }
{
    bytes.starts_with(b"HTTP/") || b"HTTP/".starts_with(bytes)
}

/// Whether bytes begin as a reply of a server that can't serve now.
pub(crate) fn is_unavailable(bytes: &[u8]) -> bool
    ensures { result ≡ is_unavailable bytes.now }
{
    bytes.starts_with(b"HTTP/1.1 503 ")
}

/// What a server's replies tell of its kind.
#[derive(Clone, Copy, Debug, PartialEq, Eq)]
pub(crate) enum Kind {
    /// Nothing: it may be a registry as this one.
    Untold,
    /// It wants a state with each request to an upload, which a push doesn't send: it is docker-registry.
    Stateful,
    /// It is the adapter of `deploy/`, which has another registry behind it.
    Adapter,
}

/// What is wrong with the first bytes that a server sends, if anything is.
pub(crate) fn trouble_in(bytes: &[u8]) -> Option<Trouble>
    ensures { result ≡ trouble_in bytes.now }
{
    if is_tls(bytes) {
        Some(Trouble::Tls)
    } else if is_http(bytes) {
        None
    } else {
        Some(Trouble::NotHttp)
    }
}

/// What an error is to a connection, by the system's number of it. One without a number is that of a connection which
/// wasn't made in time.
pub(crate) fn error_trouble(number: Option<u32>) -> Trouble
    ensures { result ≡ error_trouble number }
{
    match number {
        Some(EAGAIN) => Trouble::Silence,
        Some(number) => Trouble::System(number),
        None => Trouble::NoConnection,
    }
}

/// What went wrong with a request, once something more did: the first trouble stands, unless the server says that it
/// can't serve. It may say so, and close, while the request is still written.
pub(crate) fn first_trouble(before: Trouble, new: Trouble) -> Trouble
    ensures { result ≡ first_trouble before new }
{
    match (before, new) {
        (Trouble::NoReply, _) | (_, Trouble::Unavailable) => new,
        _ => before,
    }
}

/// What is wrong with a reply of this status, if it takes a try.
pub(crate) fn status_trouble(status: u16) -> Option<Trouble>
    ensures { result ≡ status_trouble status }
{
    match status {
        UNAVAILABLE => Some(Trouble::Unavailable),
        MISPLACED => Some(Trouble::Misplaced),
        _ => None,
    }
}

/// How the requests of a push went.
#[derive(Clone, Copy)]
pub(crate) struct Course {
    /// How many took a try: they weren't heard, or were answered 503 or 416.
    pub(crate) losses: u64,
    /// Whether an upload was opened.
    pub(crate) opened: bool,
}

/// How the requests went once this was heard to one more.
pub(crate) fn course_after(heard: &Option<Heard>, before: Course) -> Course
    ensures { result ≡ course_after heard.now before }
{
    match heard {
        Some(heard) if heard.status != UNAVAILABLE && heard.status != MISPLACED => Course {
            losses: before.losses,
            opened: before.opened || heard.status == ACCEPTED,
        },
        _ => Course {
            losses: before.losses.saturating_add(1),
            opened: before.opened,
        },
    }
}

/// The words for a trouble that isn't told by the system.
fn words_of(trouble: Trouble) -> &'static str
    ensures { result.now ≡ words_of trouble }
{
    match trouble {
        Trouble::NoReply | Trouble::System(_) => "no reply of a form that is read",
        Trouble::NoConnection => "no connection within 10 s",
        Trouble::Silence => "the server was silent for 30 s",
        Trouble::Closed => "the server closed the connection before it had replied: is this https?",
        Trouble::Cut => {
            "the server ended the connection before it had replied: it was ended itself, or it is full: see what it says \
             on its standard error"
        }
        Trouble::Tls => "the reply is TLS: is this https? A push speaks plain HTTP",
        Trouble::NotHttp => "the reply isn't HTTP: is this https?",
        Trouble::Unavailable => {
            "the server answers 503: it has no room (raise its BLOBD_MEMORY, or make room on its disk), or it is a \
             reverse proxy with no server behind it"
        }
        Trouble::Misplaced => "the server answers 416: does another client write into the upload?",
    }
}

/// What to do about a reply that ended a push.
#[derive(Clone, Copy, Debug, PartialEq, Eq)]
pub(crate) enum Advice {
    /// To ask whether the server wants TLS.
    IsItHttps,
    /// To push to an address that wants no login.
    NoLogin,
    /// To give the adapter another login.
    OtherLogin,
    /// To push again.
    PushAgain,
    /// To push to docker-registry through what keeps its state.
    State,
    /// To ask whether the server is a registry.
    IsItARegistry,
    /// To push to a registry: the server is none.
    NoRegistry,
    /// To push through what knows the other kind of server.
    Adapter,
    /// To push to where the reply sends.
    GoThere,
}

/// What to do about a reply of this status to a request of an upload, if it is about the upload.
fn advice_within(status: u16, kind: Kind) -> Option<Advice>
    ensures { result ≡ advice_within status kind }
{
    match (status, kind) {
        (400 | 404, Kind::Stateful) => Some(Advice::State),
        (404, _) => Some(Advice::PushAgain),
        _ => None,
    }
}

/// What to do about a reply of this status to the opening of an upload, if no registry gives it, or none that takes
/// uploads. It matters whether the reply had an error code.
fn advice_at_opening(status: u16, coded: bool) -> Option<Advice>
    ensures { result ≡ advice_at_opening status coded }
{
    match status {
        404 => Some(Advice::IsItARegistry),
        200..=299 | 405 | 501 if !coded => Some(Advice::NoRegistry),
        _ => None,
    }
}

/// What to do about a reply of this status, whatever was asked.
fn advice_anywhere(status: u16, coded: bool, kind: Kind) -> Option<Advice>
    ensures { result ≡ advice_anywhere status coded kind }
{
    match (status, kind) {
        (300..=399, _) => Some(Advice::GoThere),
        (400, _) if !coded => Some(Advice::IsItHttps),
        (401, Kind::Adapter) => Some(Advice::OtherLogin),
        (401, _) => Some(Advice::NoLogin),
        _ => None,
    }
}

/// What to do about a reply of this status, if anything. It matters whether the reply had an error code, whether an
/// upload was opened before, and what is known of the server's kind.
fn advice_on(status: u16, coded: bool, opened: bool, kind: Kind) -> Option<Advice>
    ensures { result ≡ advice_on status coded opened kind }
{
    let first = if opened {
        advice_within(status, kind)
    } else {
        advice_at_opening(status, coded)
    };
    first.or(advice_anywhere(status, coded, kind))
}

/// The words for what to do.
fn words_of_advice(advice: Advice) -> &'static str
    ensures { result.now ≡ words_of_advice advice }
{
    match advice {
        Advice::IsItHttps => "is this https? A push speaks plain HTTP",
        Advice::NoLogin => {
            "it wants a login, and a push has none: push to the reverse proxy's local address, or through `make adapter \
             REGISTRY=http://host:port LOGIN=FILE`"
        }
        Advice::OtherLogin => {
            "the registry behind the adapter wants a login, or another one: start `make adapter` with the LOGIN=FILE of \
             one that it knows"
        }
        Advice::PushAgain => "it lost the upload: push again",
        Advice::State => {
            "it is docker-registry, as by the state in its Location: push through `make adapter \
             REGISTRY=http://host:port`"
        }
        Advice::IsItARegistry => "it takes no uploads into this repository: is it a registry?",
        Advice::NoRegistry => {
            "it is no registry: one answers 202 to the opening of an upload, or with an error code"
        }
        Advice::Adapter => {
            "it is another kind of server, as by the form of its Location: push through `make adapter \
             REGISTRY=http://host:port`"
        }
        Advice::GoThere => {
            "it sends elsewhere, and a push doesn't follow: push to the server of its Location, or, if that is https, \
             through `make adapter REGISTRY=host:port`"
        }
    }
}

/// What standard error says of a push that was given up.
#[derive(Clone, Copy, Debug, PartialEq, Eq)]
pub(crate) enum Reason {
    /// What to do about the reply that ended it.
    Advised(Advice),
    /// What kept the last request from being heard, and how many took a try.
    Lost(Trouble, u64),
}

/// What kept the last request of a push from being heard, by its trouble: a server that has opened an upload speaks
/// HTTP.
fn last_trouble(trouble: Trouble, opened: bool) -> Trouble
    ensures { result ≡ last_trouble trouble opened }
{
    match trouble {
        Trouble::Closed | Trouble::System(EPIPE) | Trouble::System(ECONNRESET) if opened =>
            Trouble::Cut,
        _ => trouble,
    }
}

/// What there is to say of a push that was given up, beside its line. The trouble is that of its last request.
pub(crate) fn reason_of(why: &Why, course: Course, kind: Kind, trouble: Trouble) -> Option<Reason>
    ensures { result ≡ reason_of why.now course kind trouble }
{
    match why {
        Why::OutOfTries => Some(Reason::Lost(last_trouble(trouble, course.opened), course.losses)),
        Why::BadServer => Some(Reason::Advised(Advice::Adapter)),
        Why::Refused(status, code) => {
            advice_on(*status, code.is_some(), course.opened, kind).map(Reason::Advised)
        }
    }
}

impl fmt::Display for Reason {
    fn fmt<W: fmt::Write>(&self, f: &mut fmt::Formatter<W>) -> fmt::Result {
        match self {
            Reason::Advised(advice) => f.write_str(words_of_advice(*advice)),
            Reason::Lost(Trouble::System(number), count) => {
                let error = io::Error::from_raw_os_error(number.cast_signed());
                write!(f, "{error} (tried {})", Quantity(*count, "time"))
            }
            Reason::Lost(trouble, count) => {
                let words = words_of(*trouble);
                write!(f, "{words} (tried {})", Quantity(*count, "time"))
            }
        }
    }
}

/// The grammar of names, in words.
pub(crate) const NAME_RULE: &str =
    "a NAME is one or more parts with / between them, as lib/a: a part is of a to z and 0 to 9, \
     inside also one of . _ __ or hyphens between two of these; 255 bytes at most";
