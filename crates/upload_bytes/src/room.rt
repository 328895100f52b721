//! How many bytes may be held, by all that share the room.
ghost use Rattle.std.specs.Prelude.{◌≡◌, ◌+◌, ◌≤◌, ℕ, true, false, min, IfSome, IfOk, OnOk, OnErr};
ghost use Rattle.upload_bytes.specs.Room.{Covers, Grants};

use std::alloc::{AllocError, Global};
use std::marker::Model;
use std::sync::Arc;
use std::sync::atomic::{AtomicU64, Ordering};

/// A limit, and how much of it is granted.
#[derive(Drop)]
struct Shared {
    limit: u64,
    granted: AtomicU64,
}

/// Room for so many bytes, which whoever holds bytes is granted, and which several may share, in any threads.
#[derive(Drop)]
pub struct Room {
    shared: Arc<Shared, Global>,
}

impl Room {
    /// Room for so many bytes.
    pub fn of(alloc: Global, limit: u64) -> Result<Room, AllocError> {
        let granted = AtomicU64::new(0);
        match Arc::new(alloc, Shared { limit, granted }) {
            Ok(shared) => Ok(Room { shared }),
            Err(_) => Err(AllocError),
        }
    }

    /// The same room, for one more to be granted of it. It takes no memory. An `Err` comes only if there are more
    /// owners than can be counted.
    pub fn share(&self) -> Result<Room, AllocError> {
        let shared = Arc::try_clone(&self.shared)?;
        Ok(Room { shared })
    }

    /// How many bytes there is room for in all.
    pub fn limit(&self) -> u64 {
        self.shared.limit
    }

    /// How many bytes aren't granted to anybody.
    pub fn left(&self) -> u64 {
        self.limit()
            .saturating_sub(self.shared.granted.load(Ordering::SeqCst))
    }

    /// Grants so many bytes, if as many are left. They come back as the grant goes.
    pub fn grant(&self, bytes: u64) -> Option<Grant>
        ensures { IfSome result (λ grant. grant ≡ record { limited = true; bytes = bytes }) }
    {
        let room = self.share().ok()?;
        if !room.add(bytes) {
            return None;
        }
        Some(Grant {
            room: Some(room),
            bytes,
        })
    }

    /// Grants so many bytes whether or not as many are left: to who is to give back more. An `Err` comes only if there
    /// are more owners of the room than can be counted.
    pub fn grant_over(&self, bytes: u64) -> Result<Grant, AllocError>
        ensures { IfOk result (λ grant. grant ≡ record { limited = true; bytes = bytes }) }
    {
        let room = self.share()?;
        let _ = room.shared.granted.fetch_add(bytes, Ordering::SeqCst);
        Ok(Grant {
            room: Some(room),
            bytes,
        })
    }

    /// Counts so many bytes as granted, if as many are left.
    fn add(&self, bytes: u64) -> bool {
        if bytes > self.left() {
            return false;
        }
        let before = self.shared.granted.fetch_add(bytes, Ordering::SeqCst);
        // Others may have been granted some since.
        if bytes > self.limit().saturating_sub(before) {
            self.sub(bytes);
            return false;
        }
        true
    }

    /// Counts so many bytes as granted no more.
    fn sub(&self, bytes: u64) {
        let _ = self.shared.granted.fetch_sub(bytes, Ordering::SeqCst);
    }
}

/// The right to hold so many bytes of a room, which goes back there with its owner, or to hold any number where there
/// is no limit. It can't be copied.
pub struct Grant {
    room: Option<Room>,
    bytes: u64,
}

impl Model for Grant {
    ghost use Rattle.std.specs.Prelude.{is_some};
    ghost use Rattle.upload_bytes.specs.Room.{Grants};

    ghost Value = { Grants };

    ghost view = { λ a. record { limited = is_some a.room; bytes = a.bytes } };
}

impl Drop for Grant {
    fn drop(self) {
        let Self { room, bytes } = self;
        if let Some(room) = room {
            room.sub(bytes);
        }
    }
}

impl Grant {
    /// The right to hold any number of bytes.
    pub fn unlimited() -> Grant
        ensures { result ≡ record { limited = false; bytes = 0 } }
    {
        Grant {
            room: None,
            bytes: 0,
        }
    }

    /// Whether it is of a room.
    pub fn is_limited(&self) -> bool
        ensures { result ≡ self.now.limited }
    {
        self.room.is_some()
    }

    /// Has it cover so many bytes, or more if it does already. An `Err` says that there is no room for them, and
    /// changes nothing.
    pub fn cover(&mut self, bytes: u64) -> Result<(), AllocError>
        ensures ok { OnOk result (Covers self.new bytes) }
        ensures least { OnOk result (self.old.bytes ≤ self.new.bytes) }
        ensures limited { self.new.limited ≡ self.old.limited }
        ensures err { OnErr result (self.new ≡ self.old) }
    {
        let Some(room) = &self.room else {
            return Ok(());
        };
        if bytes > self.bytes {
            if !room.add(bytes - self.bytes) {
                return Err(AllocError);
            }
            self.bytes = bytes;
        }
        Ok(())
    }

    /// Gives back what it has beyond so many bytes.
    pub fn lower(&mut self, bytes: u64)
        ensures { self.new ≡ record { limited = self.old.limited; bytes = min self.old.bytes bytes } }
    {
        if bytes < self.bytes {
            if let Some(room) = &self.room {
                room.sub(self.bytes - bytes);
            }
            self.bytes = bytes;
        }
    }

    /// Takes over what another has. If one of them has no limit, they have none together.
    pub fn join(&mut self, other: Grant)
        ensures { (n m : ℕ) → Covers self.old n → Covers other m → Covers self.new (n + m) }
    {
        let other_bytes = other.bytes;
        if !other.is_limited() {
            *self = Grant::unlimited();
            return;
        }
        let Some(room) = &self.room else {
            return;
        };
        let Some(sum) = self.bytes.checked_add(other_bytes) else {
            *self = Grant::unlimited();
            return;
        };
        // For a moment they are counted twice, and nobody is granted more than there is.
        let _ = room.shared.granted.fetch_add(other_bytes, Ordering::SeqCst);
        self.bytes = sum;
    }
}
