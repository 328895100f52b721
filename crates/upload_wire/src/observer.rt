//! Who is told of the requests and the replies of a connection, as a log is.
ghost use Rattle.std.specs.Prelude.{◌≡◌};
ghost use Rattle.upload_wire.specs.Events.{Event, Replied, head_event};

/// The method and the target of the head of a request, as they came.
#[derive(Clone, Copy)]
pub struct RequestLine<'a> {
    pub method: &'a [u8],
    pub target: &'a [u8],
}

/// Who is told of each head that is read on a connection, and of each reply. Nothing that is read, asked or written
/// depends on it.
pub trait Observer {
    // How it takes what it is told: its state before, the event, and its state after.
    ghost told: { Self → Event → Self → Type 0 };

    /// The head of a request was read, and its body isn't read yet; or what came has no head that can be read.
    fn hears(&mut self, line: Option<RequestLine<'_>>)
        ensures { told self.old (head_event line.entry) self.new };

    /// The reply to that whose head came last was written, or failed while it was. It has this status, and so many
    /// bytes of body.
    fn replied(&mut self, status: u16, size: u64)
        ensures { told self.old (Replied status size) self.new };
}

/// Listens to nothing.
#[derive(Clone, Copy, Debug, Default)]
pub struct NoObserver;

impl Observer for NoObserver {
    ghost told = { λ old event new. new ≡ old };

    fn hears(&mut self, _line: Option<RequestLine<'_>>) {}

    fn replied(&mut self, _status: u16, _size: u64) {}
}
