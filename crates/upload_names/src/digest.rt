//! Digests of blobs.
ghost use Rattle.std.specs.Prelude.{◌≡◌, ◌≢◌, MatchOption, ◌↔◌, ◌+◌, ◌*◌, ◌≤◌, ◌++◌, List, ℕ, length, IsTrue, Some};
ghost use Rattle.std.specs.Prelude.{refl};
ghost use Rattle.std.specs.Cmp.{partial_equiv_from_equiv};
ghost use Rattle.std.specs.List.{list_all};
ghost use Rattle.hex.specs.Hex.{encode_lower};
ghost use Rattle.sha2.specs.Hashers.{Holds256, Holds512};
ghost use Rattle.upload_names.specs.Digest.{Digest as DigestModel, IsDigest, SpellsDigest, content_digest, digest_of};
ghost use Rattle.upload_names.specs.Digest.{digest_text, digits_read, is_lower_digit, hash_size};

use sha2::{Digest, Sha256, Sha512};
use std::cmp::Ordering;
use std::fmt;
use std::marker::Model;
use std::str::FromStr;

/// By what a digest is computed (FIPS 180-4).
#[derive(Clone, Copy, Debug, PartialEq, Eq)]
pub enum Algorithm {
    Sha256,
    Sha512,
}

#[derive(Clone, Copy)]
pub enum Sum {
    Sha256([u8; 32]),
    Sha512([u8; 64]),
}

/// The digest of a blob (OCI Image Specification 1.1, section "Digests"), seen as its algorithm and its bytes.
#[derive(Clone, Copy)]
pub struct BlobDigest {
    sum: Sum,
}

impl Model for BlobDigest {
    ghost use Rattle.upload_names.specs.Digest.{Digest};
    ghost use Rattle.upload_names.specs.Sum.{of_sum, to_sum};

    ghost Value = { Digest };

    ghost view = { λ a. of_sum a.sum };

    ghost inverse = { λ d. record { sum = to_sum d.algorithm d.bytes } };

    ghost use Rattle.upload_names.specs.Digest.{IsDigest};

    ghost invariant = { λ a. IsDigest (of_sum a.sum) };
}

impl PartialEq for BlobDigest {
    ghost use Rattle.upload_names.specs.Digest.{digest_eq, digest_eq_laws};

    ghost eq = { digest_eq };

    ghost laws = { partial_equiv_from_equiv digest_eq_laws };

    fn eq(&self, other: &Self) -> bool {
        match (self.sum, other.sum) {
            (Sum::Sha256(mine), Sum::Sha256(theirs)) => mine == theirs,
            (Sum::Sha512(mine), Sum::Sha512(theirs)) => mine == theirs,
            _ => false,
        }
    }
}

impl Eq for BlobDigest {
    ghost use Rattle.upload_names.specs.Digest.{digest_eq_laws};

    ghost laws = { digest_eq_laws };
}

impl PartialOrd for BlobDigest {
    ghost use Rattle.upload_names.specs.Digest.{digest_cmp, digest_order};

    ghost partial_cmp = { λ x y. Some (digest_cmp x y) };

    ghost laws = { digest_order };

    fn partial_cmp(&self, other: &Self) -> Option<Ordering> {
        Some(self.cmp(other))
    }
}

impl Ord for BlobDigest {
    ghost use Rattle.upload_names.specs.Digest.{digest_cmp, digest_cmp_total, digest_ties};

    ghost cmp = { digest_cmp };

    ghost total = { digest_cmp_total };

    ghost matches_partial_cmp = { λ x y. refl };

    ghost matches_eq = { digest_ties };

    fn cmp(&self, other: &Self) -> Ordering {
        match (self.sum, other.sum) {
            (Sum::Sha256(mine), Sum::Sha256(theirs)) => mine.as_slice().cmp(theirs.as_slice()),
            (Sum::Sha256(_), Sum::Sha512(_)) => Ordering::Less,
            (Sum::Sha512(_), Sum::Sha256(_)) => Ordering::Greater,
            (Sum::Sha512(mine), Sum::Sha512(theirs)) => mine.as_slice().cmp(theirs.as_slice()),
        }
    }
}

/// The digest's text: `sha256:` or `sha512:`, and lower case digits.
impl fmt::Display for BlobDigest {
    ghost use Rattle.upload_names.specs.Digest.{digest_text};

    ghost output = { λ digest. Some (digest_text digest) };

    fn fmt<W: fmt::Write>(&self, f: &mut fmt::Formatter<W>) -> fmt::Result {
        match str::from_utf8(self.text().as_bytes()) {
            Ok(text) => f.write_str(text),
            // never: the text is ASCII
            Err(_) => Err(fmt::Error),
        }
    }
}

/// A text that is no digest's.
#[derive(Clone, Copy, Debug, Drop, PartialEq, Eq)]
pub struct NotADigest;

impl fmt::Display for NotADigest {
    ghost use Rattle.std.specs.Prelude.{codes};

    ghost output = { λ _. Some (codes "not a digest") };

    fn fmt<W: fmt::Write>(&self, f: &mut fmt::Formatter<W>) -> fmt::Result {
        f.write_str("not a digest")
    }
}

impl std::error::Error for NotADigest {}

/// Reads a digest's text, as `BlobDigest::read` does.
impl TryFrom<&[u8]> for BlobDigest {
    type Error = NotADigest;

    ghost use Rattle.std.specs.Result.{result_ok};

    ghost try_from_gives = { λ text result. result_ok result ≡ digest_of text.now };

    fn try_from(text: &[u8]) -> Result<BlobDigest, NotADigest> {
        BlobDigest::read(text).ok_or(NotADigest)
    }
}

/// Reads a digest's text, as `BlobDigest::read` does.
impl FromStr for BlobDigest {
    type Err = NotADigest;

    ghost use Rattle.std.specs.Result.{result_ok};

    ghost from_str_gives = { λ text result. result_ok result ≡ digest_of text };

    fn from_str(text: &str) -> Result<BlobDigest, NotADigest> {
        BlobDigest::try_from(text.as_bytes())
    }
}

/// Whether a byte is a digit of `0` to `9` and `a` to `f`.
fn is_lower_digit(byte: u8) -> bool
    ensures { result ≡ is_lower_digit byte }
{
    byte.is_ascii_digit() || matches!(byte, b'a'..=b'f')
}

fn are_lower_digits(text: &[u8]) -> bool
    ensures { result ≡ list_all is_lower_digit text.now }
{
    text.iter().all(|byte| is_lower_digit(*byte))
}

/// What stands behind the prefix, if the text has it.
fn behind<'t>(prefix: &[u8], text: &'t [u8]) -> Option<&'t [u8]>
    ensures { MatchOption result ((rest : List ℕ) → text.now ≢ prefix.now ++ rest)
        (λ rest. text.now ≡ prefix.now ++ rest.now) }
{
    text.strip_prefix(prefix)
}

/// The bytes that lower case digits spell, if they spell exactly `N`.
fn read_digits<const N: usize>(digits: &[u8]) -> Option<[u8; N]>
    ensures { result ≡ digits_read N digits.now }
{
    // `hex` reads upper case digits too, which are no digits of a digest's text.
    if !are_lower_digits(digits) {
        return None;
    }
    let mut bytes = [0u8; N];
    match hex::decode_to_slice(digits, &mut bytes) {
        Ok(()) => Some(bytes),
        Err(_) => None,
    }
}

impl BlobDigest {
    /// Reads a digest's text: `sha256:` and 64, or `sha512:` and 128, digits of `0` to `9` and `a` to `f`.
    pub fn read(text: &[u8]) -> Option<BlobDigest>
        ensures { result ≡ digest_of text.now }
    {
        if let Some(digits) = behind(b"sha256:", text) {
            let bytes = read_digits(digits)?;
            return Some(BlobDigest {
                sum: Sum::Sha256(bytes),
            });
        }
        let digits = behind(b"sha512:", text)?;
        let bytes = read_digits(digits)?;
        Some(BlobDigest {
            sum: Sum::Sha512(bytes),
        })
    }

    /// The digest of a content by an algorithm.
    pub fn of(algorithm: Algorithm, content: &[u8]) -> BlobDigest
        ensures { result ≡ content_digest algorithm content.now }
    {
        let sum = match algorithm {
            Algorithm::Sha256 => Sum::Sha256(Sha256::digest(content)),
            Algorithm::Sha512 => Sum::Sha512(Sha512::digest(content)),
        };
        BlobDigest { sum }
    }

    /// The SHA-256 digest of what was hashed so far, piece by piece.
    pub fn of_hashed(hash: Sha256) -> BlobDigest
        requires { (content : List ℕ) × Holds256 hash content }
        ensures { (content : List ℕ) → Holds256 hash content
            → result ≡ content_digest Algorithm.Sha256 content }
    {
        let sum = Sum::Sha256(hash.finalize());
        BlobDigest { sum }
    }

    /// The SHA-512 digest of what was hashed so far, piece by piece.
    pub fn of_hashed_512(hash: Sha512) -> BlobDigest
        requires { (content : List ℕ) × Holds512 hash content }
        ensures { (content : List ℕ) → Holds512 hash content
            → result ≡ content_digest Algorithm.Sha512 content }
    {
        let sum = Sum::Sha512(hash.finalize());
        BlobDigest { sum }
    }

    /// The SHA-256 digest of a content.
    pub fn of_sha256(content: &[u8]) -> BlobDigest
        ensures { result ≡ content_digest Algorithm.Sha256 content.now }
    {
        BlobDigest::of(Algorithm::Sha256, content)
    }

    /// By what it was computed.
    pub fn algorithm(&self) -> Algorithm
        ensures { result ≡ self.now.algorithm }
    {
        match self.sum {
            Sum::Sha256(_) => Algorithm::Sha256,
            Sum::Sha512(_) => Algorithm::Sha512,
        }
    }

    /// The 32 or 64 bytes of the digest.
    pub fn as_bytes(&self) -> &[u8]
        ensures bytes { result.now ≡ self.now.bytes }
        ensures sized { length result.now ≡ hash_size self.now.algorithm }
    {
        match &self.sum {
            Sum::Sha256(bytes) => bytes.as_slice(),
            Sum::Sha512(bytes) => bytes.as_slice(),
        }
    }

    /// Whether both are of the same algorithm and the same bytes.
    pub fn same(&self, other: &BlobDigest) -> bool
        ensures { IsTrue result ↔ (self.now ≡ other.now) }
    {
        self == other
    }

    /// The digest's text, which `read` reads back.
    pub fn text(&self) -> DigestText
        ensures text { result ≡ digest_text self.now }
        ensures short { length result ≤ 135 }
        ensures reads_back { digest_of result ≡ Some self.now }
    {
        let text = match &self.sum {
            Sum::Sha256(bytes) => {
                let mut text = [0u8; 71];
                spell(&mut text, b"sha256:", bytes.as_slice());
                Text::Sha256(text)
            }
            Sum::Sha512(bytes) => {
                let mut text = [0u8; 135];
                spell(&mut text, b"sha512:", bytes.as_slice());
                Text::Sha512(text)
            }
        };
        DigestText { text }
    }
}

/// Writes a prefix and the digits of bytes into room of just their size.
fn spell(text: &mut [u8], prefix: &[u8], bytes: &[u8])
    requires prefix { length prefix.now ≡ 7 }
    requires sized { length text.old ≡ 7 + 2 * length bytes.now }
    ensures { text.new ≡ prefix.now ++ encode_lower bytes.now }
{
    text[..7].copy_from_slice(prefix);
    let _ = hex::encode_to_slice(bytes, &mut text[7..]);
}

#[derive(Drop)]
pub enum Text {
    Sha256([u8; 71]),
    Sha512([u8; 135]),
}

/// The text of a digest, of 71 or 135 bytes, seen as its list of bytes.
#[derive(Drop)]
pub struct DigestText {
    text: Text,
}

impl Model for DigestText {
    ghost use Rattle.std.specs.Prelude.{List, ℕ};
    ghost use Rattle.upload_names.specs.Sum.{of_text};

    ghost Value = { List ℕ };

    ghost view = { λ t. of_text t.text };
}

impl DigestText {
    /// The text: `sha256:` or `sha512:`, and lower case digits.
    pub fn as_bytes(&self) -> &[u8]
        ensures { result.now ≡ self.now }
    {
        match &self.text {
            Text::Sha256(bytes) => bytes.as_slice(),
            Text::Sha512(bytes) => bytes.as_slice(),
        }
    }
}

/// The law that the test of `specs/Digest.antt` decides the definition, and that a digest is read back from its text.
pub fn digests_are_decided()
    ensures decided { (text : List ℕ) (digest : DigestModel)
        → (digest_of text ≡ Some digest) ↔ SpellsDigest text digest }
    ensures read_back { (digest : DigestModel) → IsDigest digest
        → digest_of (digest_text digest) ≡ Some digest }
{}
