//! The bytes of a body as far as they came.
ghost use Rattle.std.specs.Prelude.{◌≡◌, ◌++◌, length, OnOk, OnErr};
ghost use Rattle.upload_wire.specs.Inner.Coming.{bytes_in};

use std::alloc::AllocError;
use upload_bytes::{BodyBuilder, Gone, HashPlace};

/// The bytes of a body as far as they came: they are held, or they were let go.
#[derive(Drop)]
pub enum Coming {
    Held(BodyBuilder),
    Gone(Gone),
}

impl Coming {
    /// How many bytes came.
    pub fn len(&self) -> usize
        ensures { result ≡ length (bytes_in self.now) }
    {
        match self {
            Coming::Held(body) => body.len(),
            Coming::Gone(gone) => gone.len(),
        }
    }

    /// Puts a piece behind the bytes, which are hashed at that place if they are held. If there is no memory for it,
    /// all that came is let go, if that may be; an `Err` says that it may not, or that 2^64 bytes would have come.
    pub fn extend<P: HashPlace>(
        &mut self,
        place: &P,
        may_go: bool,
        piece: &[u8],
    ) -> Result<(), AllocError>
        ensures ok { OnOk result (bytes_in self.new ≡ bytes_in self.old ++ piece.now) }
        ensures err { OnErr result (bytes_in self.new ≡ bytes_in self.old) }
    {
        let Err(error) = self.put(place, piece) else {
            return Ok(());
        };
        if !may_go {
            return Err(error);
        }
        self.let_go();
        self.put(place, piece)
    }

    /// Puts a piece behind the bytes. An `Err` changes none of them.
    fn put<P: HashPlace>(&mut self, place: &P, piece: &[u8]) -> Result<(), AllocError>
        ensures ok { OnOk result (bytes_in self.new ≡ bytes_in self.old ++ piece.now) }
        ensures err { OnErr result (bytes_in self.new ≡ bytes_in self.old) }
    {
        match self {
            Coming::Held(body) => body.extend(place, piece),
            Coming::Gone(gone) => gone.extend(piece),
        }
    }

    /// Lets the bytes go that are held.
    fn let_go(&mut self)
        ensures { bytes_in self.new ≡ bytes_in self.old }
    {
        let gone = match self {
            Coming::Held(body) => Gone::of(body),
            Coming::Gone(_) => return,
        };
        *self = Coming::Gone(gone);
    }
}
