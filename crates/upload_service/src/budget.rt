//! What changes are granted.
ghost use Rattle.std.specs.Prelude.{◌≡◌, false, IsFalse, IfOk, OnOk};

use std::alloc::AllocError;
use std::marker::Model;
use upload_bytes::{Body, Grant, Room};

/// What a change is granted beside what it takes, so that who is to send bytes isn't told to begin where there is no
/// room for any.
const SPARE: u64 = 65_536;

/// The most bytes that the hash of a session may lack before it takes a large chunk, whatever the room: 128 MiB.
const MOST_LACKING: u64 = 134_217_728;

/// The room that changes are granted of, if there is a limit. It is seen as whether nothing may change.
#[derive(Drop)]
pub struct Budget {
    room: Option<Room>,
    shut: bool,
}

impl Model for Budget {
    ghost use Rattle.std.specs.Prelude.{Bool};

    ghost Value = { Bool };

    ghost view = { λ a. a.shut };
}

impl Budget {
    /// Changes are granted what they take from this room, or without a limit if there is none.
    pub fn of(room: Option<Room>) -> Budget
        ensures { result ≡ false }
    {
        Budget { room, shut: false }
    }

    /// The room, for one more to share, if there is one. An `Err` comes only if there are more owners than can be
    /// counted.
    pub fn room(&self) -> Result<Option<Room>, AllocError> {
        match &self.room {
            Some(room) => Ok(Some(room.share()?)),
            None => Ok(None),
        }
    }

    /// Whether less than an eighth of the room is left.
    pub fn is_scarce(&self) -> bool {
        match &self.room {
            Some(room) => room.left() < room.limit() / 8,
            None => false,
        }
    }

    /// Whether less than half of the room is left.
    pub fn is_half_used(&self) -> bool {
        match &self.room {
            Some(room) => room.left() < room.limit() / 2,
            None => false,
        }
    }

    /// The most bytes that the hash of a session may lack before it takes a large chunk: at most an eighth of the room.
    pub fn most_lacking(&self) -> u64 {
        match &self.room {
            Some(room) => MOST_LACKING.min(room.limit() / 8),
            None => MOST_LACKING,
        }
    }

    /// A grant of no bytes, which others may join.
    pub fn none(&self) -> Grant {
        match &self.room {
            // A room has few owners, which can be counted.
            Some(room) => room.grant(0).unwrap_or(Grant::unlimited()),
            None => Grant::unlimited(),
        }
    }

    /// Grants no change anything from now on, or each again what there is room for.
    pub fn shut(&mut self, shut: bool)
        ensures { self.new ≡ shut }
    {
        self.shut = shut;
    }

    /// Grants so many bytes. An `Err` says that as many aren't left, or that nothing may change.
    pub fn grant(&self, bytes: u64) -> Result<Grant, AllocError>
        ensures { OnOk result (IsFalse self.now) }
    {
        if self.shut {
            return Err(AllocError);
        }
        let Some(room) = &self.room else {
            return Ok(Grant::unlimited());
        };
        match room.grant(bytes) {
            Some(grant) => Ok(grant),
            None => Err(AllocError),
        }
    }

    /// Grants so many bytes whether or not they are left, to who is to give back more.
    pub fn grant_over(&self, bytes: u64) -> Result<Grant, AllocError>
        ensures { OnOk result (IsFalse self.now) }
    {
        if self.shut {
            return Err(AllocError);
        }
        match &self.room {
            Some(room) => room.grant_over(bytes),
            None => Ok(Grant::unlimited()),
        }
    }

    /// Grants so many bytes if some more are left beside them.
    pub fn grant_sparing(&self, bytes: u64) -> Result<Grant, AllocError>
        ensures { OnOk result (IsFalse self.now) }
    {
        let mut grant = self.grant(bytes.saturating_add(SPARE))?;
        grant.lower(bytes);
        Ok(grant)
    }

    /// Grants what a body takes, if it isn't granted already. An `Err` says that as much isn't left, or that nothing
    /// may change.
    pub fn admit(&self, body: Body) -> Result<Body, AllocError>
        ensures open { OnOk result (IsFalse self.now) }
        ensures same { IfOk result (λ admitted. admitted ≡ body) }
    {
        if self.shut {
            return Err(AllocError);
        }
        let Some(room) = &self.room else {
            return Ok(body);
        };
        match body.within(room) {
            Some(body) => Ok(body),
            None => Err(AllocError),
        }
    }
}
