//! Names of repositories, and the one pass that decides their grammar.
ghost use Rattle.std.specs.Prelude.{◌≡◌, ◌↔◌, ◌<◌, List, ℕ, length, IsTrue, IfOk, OnOk, nat_eq, refl, Some, Ok, Err};
ghost use Rattle.std.specs.Ordering.{nat_cmp};
ghost use Rattle.std.specs.Cmp.Lexicographic.{pointwise, slice_cmp, nat_list_eq_equiv, nat_list_cmp_total, texts_ties};
ghost use Rattle.std.specs.Cmp.Lexicographic.{texts_po};
ghost use Rattle.std.specs.Cmp.{partial_equiv_from_equiv};
ghost use Rattle.upload_names.specs.Name.{IsInGrammar, IsName, longest_name, is_word_byte};
ghost use Rattle.upload_names.specs.NamePass.{is_in_grammar, is_name, place_behind, place_behind_joint, ends};

use std::alloc::{AllocError, Global};
use std::cmp::Ordering;
use std::fmt;
use std::marker::Model;

/// Where a pass over a name stands.
#[derive(Clone, Copy)]
pub enum Place {
    /// A word has to begin here.
    WordStart,
    InWord,
    /// Behind the first underscore, which may be followed by a second one.
    BehindUnderscore,
    /// Behind one or more hyphens, which may be followed by more.
    BehindHyphen,
}

/// Whether a byte belongs to a word: `a` to `z` and the digits.
fn is_word_byte(byte: u8) -> bool
    ensures { result ≡ is_word_byte byte }
{
    byte.is_ascii_lowercase() || byte.is_ascii_digit()
}

/// Where a byte that belongs to no word leads, if a name may go on with it.
fn behind_joint(place: Place, byte: u8) -> Option<Place>
    ensures { result ≡ place_behind_joint place byte }
{
    match place {
        Place::WordStart => None,
        Place::InWord => match byte {
            b'.' | b'/' => Some(Place::WordStart),
            b'_' => Some(Place::BehindUnderscore),
            b'-' => Some(Place::BehindHyphen),
            _ => None,
        },
        Place::BehindUnderscore => match byte {
            b'_' => Some(Place::WordStart),
            _ => None,
        },
        Place::BehindHyphen => match byte {
            b'-' => Some(Place::BehindHyphen),
            _ => None,
        },
    }
}

/// Where a byte leads, if a name may go on with it.
fn behind(place: Place, byte: u8) -> Option<Place>
    ensures { result ≡ place_behind place byte }
{
    if is_word_byte(byte) {
        Some(Place::InWord)
    } else {
        behind_joint(place, byte)
    }
}

/// Whether a name may end here.
fn ends(place: Place) -> bool
    ensures { result ≡ ends place }
{
    match place {
        Place::InWord => true,
        _ => false,
    }
}

/// Whether a text is of the grammar of names, of any length.
pub fn is_in_grammar(text: &[u8]) -> bool
    ensures { result ≡ is_in_grammar text.now }
{
    let mut place = Place::WordStart;
    for byte in text {
        match behind(place, *byte) {
            Some(next) => place = next,
            None => return false,
        }
    }
    ends(place)
}

/// The most bytes that a name may have.
const LONGEST_NAME: usize = 255;

/// Why a text isn't read as a name. Where several causes apply, the first in this order is answered. The
/// discriminant is its number.
#[derive(Clone, Copy, Debug, PartialEq, Eq)]
pub enum NameFault {
    /// The text isn't of the grammar of names.
    NotAName = 1,
    /// The text is of the grammar and has more than 255 bytes.
    TooLong = 2,
    /// The text is a name, and there was no memory to keep it.
    NoMemory = 3,
}

impl fmt::Display for NameFault {
    ghost use Rattle.upload_names.specs.NameFaults.{name_fault_text};

    ghost output = { λ fault. Some (name_fault_text fault) };

    fn fmt<W: fmt::Write>(&self, f: &mut fmt::Formatter<W>) -> fmt::Result {
        match self {
            NameFault::NotAName => f.write_str("not a name of a repository"),
            NameFault::TooLong => f.write_str("a name of more than 255 bytes"),
            NameFault::NoMemory => f.write_str("no memory for a name"),
        }
    }
}

impl std::error::Error for NameFault {}

/// The name of a repository (OCI Distribution Specification 1.1, section "Pulling manifests", `<name>`), of at
/// most 255 bytes. It is seen as its text's bytes.
#[derive(Drop)]
pub struct RepoName {
    text: String,
}

impl Model for RepoName {
    ghost use Rattle.std.specs.Prelude.{List, ℕ, IsTrue, string_bytes};
    ghost use Rattle.upload_names.specs.NamePass.{is_name};

    ghost Value = { List ℕ };

    ghost view = { λ a. string_bytes a.text };

    ghost invariant = { λ a. IsTrue (is_name (string_bytes a.text)) };
}

/// The name's text.
impl fmt::Display for RepoName {
    ghost output = { λ name. Some name };

    fn fmt<W: fmt::Write>(&self, f: &mut fmt::Formatter<W>) -> fmt::Result {
        f.write_str(&self.text)
    }
}

impl PartialEq for RepoName {
    ghost eq = { pointwise nat_eq };

    ghost laws = { partial_equiv_from_equiv nat_list_eq_equiv };

    fn eq(&self, other: &Self) -> bool {
        self.text.as_bytes() == other.text.as_bytes()
    }
}

impl Eq for RepoName {
    ghost laws = { nat_list_eq_equiv };
}

impl PartialOrd for RepoName {
    ghost partial_cmp = { λ x y. Some (slice_cmp nat_cmp x y) };

    ghost laws = { texts_po };

    fn partial_cmp(&self, other: &Self) -> Option<Ordering> {
        Some(self.cmp(other))
    }
}

impl Ord for RepoName {
    ghost cmp = { slice_cmp nat_cmp };

    ghost total = { nat_list_cmp_total };

    ghost matches_partial_cmp = { λ x y. refl };

    ghost matches_eq = { texts_ties };

    fn cmp(&self, other: &Self) -> Ordering {
        self.text.as_bytes().cmp(other.text.as_bytes())
    }
}

impl RepoName {
    /// Reads a name. `NotAName` comes exactly for a text outside the grammar, `TooLong` exactly for one of the
    /// grammar with over 255 bytes, and `NoMemory` only for a name.
    pub fn read(alloc: Global, text: &[u8]) -> Result<RepoName, NameFault>
        ensures value { IfOk result (λ name. name ≡ text.now) }
        ensures named { OnOk result (IsName text.now) }

        ensures not_a_name { (result ≡ Err NameFault.NotAName) ↔ ¬ (IsInGrammar text.now) }
        ensures too_long { (result ≡ Err NameFault.TooLong) ↔
            (IsInGrammar text.now × (longest_name < length text.now)) }
        ensures no_memory { result ≡ Err NameFault.NoMemory → IsName text.now }
    {
        if !is_in_grammar(text) {
            return Err(NameFault::NotAName);
        }
        if text.len() > LONGEST_NAME {
            return Err(NameFault::TooLong);
        }
        let Ok(text) = str::from_utf8(text) else {
            return Err(NameFault::NotAName);
        };
        match String::from_str(alloc, text) {
            Ok(text) => Ok(RepoName { text }),
            Err(_) => Err(NameFault::NoMemory),
        }
    }

    /// The name's text, 1 to 255 bytes of ASCII.
    pub fn as_str(&self) -> &str
        ensures text { result.now ≡ self.now }
        ensures named { IsName self.now }
    {
        &self.text
    }

    /// Whether both are the same name.
    pub fn same(&self, other: &RepoName) -> bool
        ensures { IsTrue result ↔ (self.now ≡ other.now) }
    {
        self == other
    }

    /// An equal name.
    pub fn copy(&self, alloc: Global) -> Result<RepoName, AllocError>
        ensures { IfOk result (λ name. name ≡ self.now) }
    {
        let text = String::from_str(alloc, self.text.as_str())?;
        Ok(RepoName { text })
    }
}

/// The law that the tests of `specs/NamePass.antt` decide the definitions: a text is of the grammar, or a name,
/// exactly if the computed test is true.
pub fn names_are_decided()
    ensures grammar { (text : List ℕ) → IsTrue (is_in_grammar text) ↔ IsInGrammar text }
    ensures names { (text : List ℕ) → IsTrue (is_name text) ↔ IsName text }
{}
