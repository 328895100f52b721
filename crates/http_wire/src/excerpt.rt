//! Bytes that were read of a file, for who writes them.
ghost use Rattle.std.specs.Prelude.{◌≡◌, ◌==◌, ◌+◌, ◌<◌, ◌≤◌, ◌^◌, [], length, take, drop};

use crate::given::Given;
use crate::transcript::Cut;
use std::marker::Model;

/// What comes next of a file, as it was read: contracts see what the file was given there (`told`), and what came of it
/// (`came`), which isn't more. Nothing says that the one begins with the other: that a file gives what it was given is
/// a matter of the disk. A read that failed has an excerpt of which nothing came, and which can't be written.
#[derive(Drop)]
pub struct Excerpt<'a> {
    came: &'a [u8],
    of: &'a Given,
    at: u64,
    len: usize,
}

impl<'a> Model for Excerpt<'a> {
    ghost use Rattle.std.specs.Prelude.{length, take, drop};
    ghost use Rattle.http_wire.specs.States.{ExcerptState};

    ghost Value = { ExcerptState };

    ghost view = { λ e. record { told = take e.len (drop e.at e.of.now); came = e.came.now } };

    ghost use Rattle.http_wire.specs.Excerpts.{IsExcerpt};

    ghost invariant = { λ e. IsExcerpt e.at e.len (length e.of.now) (length e.came.now) };
}

impl<'a> Excerpt<'a> {
    /// What came of so many bytes that a file was given behind an offset.
    pub fn new(came: &'a [u8], of: &'a Given, at: u64, len: usize) -> Excerpt<'a>
        requires within { at + len ≤ length of.now }
        requires counted { at + len < 2 ^ 64 }
        requires fits { length came.now ≤ len }
        ensures { result ≡ record { told = take len (drop at of.now); came = came.now } }
    {
        Excerpt { came, of, at, len }
    }

    /// How many bytes the file was given there.
    pub fn len(&self) -> usize
        ensures { result ≡ length self.now.told }
    {
        self.len
    }

    /// Whether it was given none.
    pub fn is_empty(&self) -> bool
        ensures { result ≡ (length self.now.told == 0) }
    {
        self.len == 0
    }

    /// What came.
    pub fn as_slice(&self) -> &[u8]
        ensures came { result.now ≡ self.now.came }
        ensures fits { length result.now ≤ length self.now.told }
    {
        self.came
    }

    /// What is behind the first ones.
    pub fn after(self, count: usize) -> Excerpt<'a>
        requires { count ≤ length self.told }
        ensures told { result.told ≡ drop count self.entry.told }
        ensures came { result.came ≡ drop count self.entry.came }
    {
        let Excerpt { came, of, at, len } = self;
        let gone = count.min(came.len());
        Excerpt {
            came: &came[gone..],
            of,
            at: at + count as u64,
            len: len - count,
        }
    }

    /// The same as if nothing had come: it can't be written.
    pub fn withheld(self) -> Excerpt<'a>
        ensures told { result.told ≡ self.entry.told }
        ensures came { result.came ≡ [] }
    {
        let Excerpt { of, at, len, .. } = self;
        Excerpt {
            came: &[],
            of,
            at,
            len,
        }
    }

    /// The first of the bytes that the file was given, for a transcript.
    pub(crate) fn cut(&self, count: usize) -> Cut
        requires { count ≤ length self.now.told }
        ensures { result ≡ take count self.now.told }
    {
        Cut::of(self.of, self.at, count as u64)
    }
}
