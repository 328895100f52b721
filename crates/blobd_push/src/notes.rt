//! What is noted of a request of a push, for standard error.
use crate::bar::millis_of;
use crate::trouble::{Kind, Trouble, error_trouble, first_trouble, is_unavailable, trouble_in};
use std::cell::Cell;
use std::rt::Clock;
use std::time::Instant;
use std::{fmt, io};

/// How many bytes of a server's own words are kept.
const LONGEST: usize = 240;

/// How long a server that can't serve is waited for before that is told, in milliseconds.
const TOLD_MILLIS: u64 = 5_000;

/// What a server says of why it refuses or can't serve, as far as it is kept.
#[derive(Clone, Copy)]
pub(crate) struct Message([u8; LONGEST]);

/// What stands behind the first such text in these bytes.
fn behind<'t>(bytes: &'t [u8], mark: &[u8]) -> Option<&'t [u8]> {
    for at in 0..bytes.len() {
        if let Some(rest) = bytes[at..].strip_prefix(mark) {
            return Some(rest);
        }
    }
    None
}

/// What is known of a server's kind once these bytes of it were read. Its adapter marks each reply; a state stands in
/// the Location of a reply that tells where an upload is.
fn kind_after(before: Kind, read: &[u8]) -> Kind {
    if behind(read, b"blobd-adapter").is_some() {
        Kind::Adapter
    } else if read.starts_with(b"HTTP/1.1 202 ") && behind(read, b"_state=").is_some() {
        Kind::Stateful
    } else {
        before
    }
}

/// Whether bytes begin as a reply that refuses what was asked (RFC 9110, sections 15.5 and 15.6).
fn is_refusal(bytes: &[u8]) -> bool {
    bytes.starts_with(b"HTTP/1.1 4") || bytes.starts_with(b"HTTP/1.1 5")
}

/// Whether a byte may be printed, and doesn't end a message.
fn is_plain(byte: u8) -> bool {
    matches!(byte, b' '..=b'~') && !matches!(byte, b'"' | b'<' | b'\\')
}

impl Message {
    fn none() -> Message {
        Message([0; LONGEST])
    }

    /// That of an error of a registry, or the text of HAProxy's own page.
    fn within(reply: &[u8]) -> Message {
        let mut kept = [0; LONGEST];
        let found = behind(reply, b"\"message\":\"").or(behind(reply, b"</h1>\n"));
        if let Some(found) = found {
            let count = found.len().min(LONGEST);
            kept[..count].copy_from_slice(&found[..count]);
        }
        Message(kept)
    }

    pub(crate) fn is_empty(&self) -> bool {
        !is_plain(self.0[0])
    }
}

impl fmt::Display for Message {
    fn fmt<W: fmt::Write>(&self, f: &mut fmt::Formatter<W>) -> fmt::Result {
        for byte in self.0.iter() {
            if !is_plain(*byte) {
                return Ok(());
            }
            f.write_char(char::from(*byte))?;
        }
        Ok(())
    }
}

/// What is noted of a request, and of those before it that weren't heard.
#[derive(Drop)]
pub(crate) struct Notes {
    /// When the first of them began; none if the clock can't be read, or once it was told that the server is waited
    /// for.
    begun: Cell<Option<Instant>>,
    /// What keeps it from being heard.
    trouble: Cell<Trouble>,
    /// Whether the reply to it refuses it.
    refuses: Cell<bool>,
    /// What the server says of that.
    message: Cell<Message>,
    /// What all replies so far tell of the server's kind.
    kind: Cell<Kind>,
}

impl Notes {
    /// Nothing has gone wrong.
    pub(crate) fn new() -> Notes {
        Notes {
            begun: Cell::new(None),
            trouble: Cell::new(Trouble::NoReply),
            refuses: Cell::new(false),
            message: Cell::new(Message::none()),
            kind: Cell::new(Kind::Untold),
        }
    }

    /// Nothing has gone wrong with the next request yet.
    pub(crate) fn clear(&self) {
        self.trouble.set(Trouble::NoReply);
        self.refuses.set(false);
        self.message.set(Message::none());
    }

    /// A request begins at this moment after one that was heard.
    pub(crate) fn begin(&self, begun: Option<Instant>) {
        self.begun.set(begun);
    }

    /// Whether it is to be told now that the server is waited for: it can't serve, and hasn't for a while. That is told
    /// once.
    pub(crate) fn tells_wait<R: Clock>(&self, rt: &R) -> bool {
        let Some(begun) = self.begun.get() else {
            return false;
        };
        let tells = self.trouble() == Trouble::Unavailable
            && begun.elapsed(rt).map_or(0, millis_of) >= TOLD_MILLIS;
        if tells {
            self.begun.set(None);
        }
        tells
    }

    pub(crate) fn trouble(&self) -> Trouble {
        self.trouble.get()
    }

    pub(crate) fn message(&self) -> Message {
        self.message.get()
    }

    pub(crate) fn kind(&self) -> Kind {
        self.kind.get()
    }

    /// Notes a trouble in the place of another.
    pub(crate) fn set(&self, new: Trouble) {
        self.trouble.set(new);
    }

    /// Notes a trouble, unless there was one before.
    fn note(&self, new: Trouble) {
        self.trouble.set(first_trouble(self.trouble.get(), new));
    }

    /// Notes what an error is.
    pub(crate) fn note_error(&self, error: &io::Error) {
        let number = error.raw_os_error().map(|number| number.unsigned_abs());
        self.note(error_trouble(number));
    }

    /// Notes what is wrong with bytes that were read, the first of a connection or not.
    pub(crate) fn note_read(&self, first: bool, read: &[u8]) {
        self.kind.set(kind_after(self.kind(), read));
        if read.is_empty() {
            self.note(Trouble::Closed);
        } else if is_unavailable(read) {
            self.note(Trouble::Unavailable);
        } else if first && let Some(wrong) = trouble_in(read) {
            self.note(wrong);
        }
        self.refuses.set(self.refuses.get() || is_refusal(read));
        if self.refuses.get() && self.message().is_empty() {
            self.message.set(Message::within(read));
        }
    }
}
