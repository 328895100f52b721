//! The bounds that a service keeps.
ghost use Rattle.std.specs.Prelude.{◌↔◌, IsTrue};
ghost use Rattle.upload_service.specs.Machine.{AreLawful};

/// The bounds that a service keeps.
#[derive(Clone, Copy, Debug, PartialEq, Eq)]
pub struct Limits {
    /// The most bytes of a blob, and so of what a session receives: at most 2^40.
    pub max_blob: u64,
    /// The most bytes of a request's body: at most 2^31. The reader of requests keeps it.
    pub max_body: u64,
    /// The most sessions that are open at once: from 1 to 1,024.
    pub max_open: u32,
    /// The most seconds for which an open session may take nothing: from 1 to 2^40.
    pub max_idle: u64,
}

impl Limits {
    /// Whether each bound is in its range. The calls that take limits ask for such.
    pub fn lawful(&self) -> bool
        ensures { IsTrue result ↔ AreLawful self.now }
    {
        self.max_blob <= 1 << 40
            && self.max_body <= 1 << 31
            && 1 <= self.max_open
            && self.max_open <= 1_024
            && 1 <= self.max_idle
            && self.max_idle <= 1 << 40
    }
}
