//! References of upload sessions.
ghost use Rattle.std.specs.Prelude.{◌≡◌, ◌↔◌, ◌<◌, ◌^◌, ℕ, List, length, IsTrue, Some, All};
ghost use Rattle.upload_names.specs.Reference.{reference, number_of, reference_of, reference_text};

use std::fmt;
use std::marker::Model;
use std::str::FromStr;
use uuid::Uuid;

/// The reference of an upload session: a UUID of version 8 (RFC 9562, section 5.8), seen as its sixteen bytes. Any
/// UUID is a reference; which were issued is known to the service alone.
#[derive(Clone, Copy, PartialEq, Eq, PartialOrd, Ord, Hash)]
pub struct UploadRef {
    id: Uuid,
}

impl Model for UploadRef {
    ghost use Rattle.std.specs.Prelude.{List, ℕ};

    ghost Value = { List ℕ };

    ghost view = { λ a. a.id };

    ghost inverse = { λ b. record { id = b } };
}

/// The reference's text in lower case with hyphens.
impl fmt::Display for UploadRef {
    ghost output = { λ at. Some (reference_text at) };

    fn fmt<W: fmt::Write>(&self, f: &mut fmt::Formatter<W>) -> fmt::Result {
        match str::from_utf8(self.text().as_slice()) {
            Ok(text) => f.write_str(text),
            // never: the text is ASCII
            Err(_) => Err(fmt::Error),
        }
    }
}

/// A text that is no reference's.
#[derive(Clone, Copy, Debug, Drop, PartialEq, Eq)]
pub struct NotAReference;

impl fmt::Display for NotAReference {
    ghost use Rattle.std.specs.Prelude.{codes};

    ghost output = { λ _. Some (codes "not a reference of an upload") };

    fn fmt<W: fmt::Write>(&self, f: &mut fmt::Formatter<W>) -> fmt::Result {
        f.write_str("not a reference of an upload")
    }
}

impl std::error::Error for NotAReference {}

/// Reads a reference's text, as `UploadRef::read` does.
impl TryFrom<&[u8]> for UploadRef {
    type Error = NotAReference;

    ghost use Rattle.std.specs.Result.{result_ok};

    ghost try_from_gives = { λ text result. result_ok result ≡ reference_of text.now };

    fn try_from(text: &[u8]) -> Result<UploadRef, NotAReference> {
        UploadRef::read(text).ok_or(NotAReference)
    }
}

/// Reads a reference's text, as `UploadRef::read` does.
impl FromStr for UploadRef {
    type Err = NotAReference;

    ghost use Rattle.std.specs.Result.{result_ok};

    ghost from_str_gives = { λ text result. result_ok result ≡ reference_of text };

    fn from_str(text: &str) -> Result<UploadRef, NotAReference> {
        UploadRef::try_from(text.as_bytes())
    }
}

impl UploadRef {
    /// The reference of a session, from its number and a secret. Six bits of the secret give way to the version and
    /// the variant.
    pub fn make(number: u32, secret: [u8; 12]) -> UploadRef
        ensures value { result ≡ reference number secret }
        ensures number { number_of result ≡ number }
    {
        let mut bytes = [0u8; 16];
        bytes[..4].copy_from_slice(&number.to_be_bytes());
        bytes[4..].copy_from_slice(&secret);
        UploadRef {
            id: Uuid::new_v8(bytes),
        }
    }

    /// Reads a reference in any of the four text forms of a UUID, in either case: with hyphens, without, in braces,
    /// or behind `urn:uuid:`.
    pub fn read(text: &[u8]) -> Option<UploadRef>
        ensures { result ≡ reference_of text.now }
    {
        match Uuid::try_parse_ascii(text) {
            Ok(id) => Some(UploadRef { id }),
            Err(_) => None,
        }
    }

    /// The session's number, from 1 in a reference that was issued.
    pub fn number(&self) -> u32
        ensures { result ≡ number_of self.now }
    {
        let bytes = self.id.as_bytes();
        u32::from_be_bytes([bytes[0], bytes[1], bytes[2], bytes[3]])
    }

    /// Whether both are the same reference, in whatever form their texts came.
    pub fn same(&self, other: &UploadRef) -> bool
        ensures { IsTrue result ↔ (self.now ≡ other.now) }
    {
        self.id.as_bytes().as_slice() == other.id.as_bytes().as_slice()
    }

    /// The text in lower case with hyphens.
    pub fn text(&self) -> [u8; 36]
        ensures text { result ≡ reference_text self.now }
        ensures reads_back { reference_of result ≡ Some self.now }
    {
        let mut buffer = Uuid::encode_buffer();
        let written = self.id.hyphenated().encode_lower(&mut buffer);
        let mut text = [0u8; 36];
        text.copy_from_slice(written.as_bytes());
        text
    }
}

/// The law that a reference is read back from its text.
pub fn references_read_back()
    ensures { (at : List ℕ) → length at ≡ 16 → All (λ b. b < 256) at
        → reference_of (reference_text at) ≡ Some at }
{}
