//! Names, digests, ranges and references: their texts, and texts that are none.

use crate::asks::{check, name};
use std::alloc::{AllocError, Global};
use std::fmt::Display;
use upload_names::{
    Algorithm, BlobDigest, ByteRange, NameFault, NotADigest, NotARange, NotAReference, RepoName,
    UploadRef,
};

static NAMES: [&[u8]; 9] = [
    b"a", b"lib/a", b"a__b", b"a--b", b"a---b", b"a.b/c-d", b"a_b/0", b"0", b"a/b/c/d",
];

static NO_NAMES: [&[u8]; 15] = [
    b"", b"A", b"a___b", b"a..b", b"a_-b", b"/a", b"a/", b"a//b", b"-a", b"a-", b"a.", b"a_",
    b"a b", b"a%2fb", b"\xff",
];

/// Whether the name that a text spells is that text, and is shown as it.
fn spells_itself(alloc: Global, text: &[u8]) -> Result<bool, NameFault> {
    let name = RepoName::read(alloc, text)?;
    Ok(name.as_str().as_bytes() == text && shows(alloc, &name, text))
}

/// Whether a text is found to be no name, for this reason.
fn is_no_name(alloc: Global, text: &[u8], why: NameFault) -> bool {
    spells_itself(alloc, text) == Err(why)
}

#[test]
fn name_grammar(rt: HostRuntime) {
    let alloc = rt.alloc();
    for (i, text) in NAMES.iter().enumerate() {
        check(&rt, spells_itself(alloc, text) == Ok(true), i, "a name");
    }
    for (i, text) in NO_NAMES.iter().enumerate() {
        let is_none = is_no_name(alloc, text, NameFault::NotAName);
        check(&rt, is_none, i, "no name");
    }
    let mut text = [b'a'; 256];
    let is_longest = spells_itself(alloc, &text[1..]) == Ok(true)
        && is_no_name(alloc, &text, NameFault::TooLong);
    check(&rt, is_longest, 255, "the longest name");
    // what is no name is never called too long
    text[255] = b'/';
    let is_none = is_no_name(alloc, &text, NameFault::NotAName);
    check(&rt, is_none, 256, "a long text that is no name");
}

/// A copy of a name. One growth may be refused.
fn copy_of(alloc: Global, name: &RepoName) -> Result<RepoName, AllocError> {
    match name.copy(alloc) {
        Err(AllocError) => name.copy(alloc),
        Ok(copy) => Ok(copy),
    }
}

/// Whether a copy of a name is the same, with its text.
fn is_copied(alloc: Global, name: &RepoName) -> bool {
    match copy_of(alloc, name) {
        Ok(copy) => copy.same(name) && copy.as_str() == "lib/a",
        Err(_) => false,
    }
}

/// It holds whichever growth is refused: `tests/growths.py` has each refused in turn.
#[test]
fn a_refused_growth_gives_no_name(rt: HostRuntime) -> Result<(), AllocError> {
    let name = name(rt.alloc(), b"lib/a")?;
    check(&rt, is_copied(rt.alloc(), &name), 0, "a copy, with memory");
    Ok(())
}

// The digests of `abc` and of nothing are the examples of FIPS 180-4's validation lists.
pub const ABC: &[u8] = b"sha256:ba7816bf8f01cfea414140de5dae2223b00361a396177a9cb410ff61f20015ad";

pub const NOTHING: &[u8] =
    b"sha256:e3b0c44298fc1c149afbf4c8996fb92427ae41e4649b934ca495991b7852b855";

pub const ABC_512: &[u8] =
    b"sha512:ddaf35a193617abacc417349ae20413112e6fa4e89a97ea20a9eeee64b55d39a\
      2192992a274fc1a836ba3c23a3feebbd454d4423643ce80e2a9ac94fa54ca49f";

const NOTHING_512: &[u8] =
    b"sha512:cf83e1357eefb8bdf1542850d66d8007d620e4050b5715dc83f4a921d36ce9ce\
      47d0d13c5d85f2b0ff8318d2877eec2f63b931bd47417a81a538327af927da3e";

/// The bytes of contents, with the text of their digest.
static DIGESTS: [(Algorithm, &[u8], &[u8]); 4] = [
    (Algorithm::Sha256, b"abc", ABC),
    (Algorithm::Sha256, b"", NOTHING),
    (Algorithm::Sha512, b"abc", ABC_512),
    (Algorithm::Sha512, b"", NOTHING_512),
];

static NO_DIGESTS: [&[u8]; 8] = [
    b"",
    b"x",
    b"sha256:",
    b"sha1:da39a3ee5e6b4b0d3255bfef95601890afd80709",
    // a digit less, and one more
    b"sha256:ba7816bf8f01cfea414140de5dae2223b00361a396177a9cb410ff61f20015a",
    b"sha256:ba7816bf8f01cfea414140de5dae2223b00361a396177a9cb410ff61f20015ad0",
    // an upper case digit
    b"sha256:Ba7816bf8f01cfea414140de5dae2223b00361a396177a9cb410ff61f20015ad",
    // 64 digits of another algorithm
    b"sha512:ba7816bf8f01cfea414140de5dae2223b00361a396177a9cb410ff61f20015ad",
];

/// Whether a content's digest has this text, is shown as it, and is read back from it.
fn is_spelled(alloc: Global, algorithm: Algorithm, content: &[u8], text: &[u8]) -> bool {
    let digest = BlobDigest::of(algorithm, content);
    digest.text().as_bytes() == text
        && shows(alloc, &digest, text)
        && digest.algorithm() == algorithm
        && BlobDigest::read(text) == Some(digest)
}

#[test]
fn digests_of_contents(rt: HostRuntime) {
    for (i, (algorithm, content, text)) in DIGESTS.iter().enumerate() {
        let is_spelled = is_spelled(rt.alloc(), *algorithm, content, text);
        check(&rt, is_spelled, i, "a digest");
    }
    for (i, text) in NO_DIGESTS.iter().enumerate() {
        check(&rt, BlobDigest::read(text).is_none(), i, "no digest");
    }
}

/// What a number of a range stands for at most.
const MOST: u64 = 1_000_000_000_000_000_000;

/// Texts of ranges, the first and the last byte of each, and how many bytes they are.
static RANGES: [(&[u8], u64, u64, Option<u64>); 6] = [
    (b"0-0", 0, 0, Some(1)),
    (b"000-002", 0, 2, Some(3)),
    (b"5-3", 5, 3, None),
    (b"0-18446744073709551616", 0, MOST, Some(MOST + 1)),
    (
        b"999999999999999999-1000000000000000001",
        MOST - 1,
        MOST,
        Some(2),
    ),
    (
        b"1111111111111111111111111111111111111111-1000000000000000000",
        MOST,
        MOST,
        Some(1),
    ),
];

static NO_RANGES: [&[u8]; 9] = [
    b"", b"-", b"1-", b"-1", b"1-2-3", b"1", b"0 -1", b"0x1-2", b"+1-2",
];

fn is_range(text: &[u8], first: u64, last: u64, length: Option<u64>) -> bool {
    match ByteRange::read(text) {
        Some(range) => range.first == first && range.last == last && range.length() == length,
        None => false,
    }
}

#[test]
fn ranges(rt: HostRuntime) {
    for (i, (text, first, last, length)) in RANGES.iter().enumerate() {
        check(&rt, is_range(text, *first, *last, *length), i, "a range");
    }
    for (i, text) in NO_RANGES.iter().enumerate() {
        check(&rt, ByteRange::read(text).is_none(), i, "no range");
    }
}

/// Numbers, a byte of secrets, and the text of their reference.
static REFERENCES: [(u32, u8, &[u8]); 4] = [
    (4660, 255, b"00001234-ffff-8fff-bfff-ffffffffffff"),
    (1, 0, b"00000001-0000-8000-8000-000000000000"),
    (u32::MAX, 0, b"ffffffff-0000-8000-8000-000000000000"),
    (0xabcdef, 7, b"00abcdef-0707-8707-8707-070707070707"),
];

/// Other texts of the last of them.
static SAME: [&[u8]; 5] = [
    b"00ABCDEF-0707-8707-8707-070707070707",
    b"00abcdef070787078707070707070707",
    b"{00abcdef-0707-8707-8707-070707070707}",
    b"urn:uuid:00abcdef-0707-8707-8707-070707070707",
    b"URN:UUID:00ABCDEF-0707-8707-8707-070707070707",
];

static NO_REFERENCES: [&[u8]; 4] = [
    b"",
    b"x",
    b"00abcdef-0707-8707-8707-07070707070",
    b"00abcdef-0707-8707-87070-70707070707",
];

fn is_referred_to(alloc: Global, at: &UploadRef, number: u32, text: &[u8]) -> bool {
    at.number() == number
        && at.text().as_slice() == text
        && shows(alloc, at, text)
        && UploadRef::read(text) == Some(*at)
}

#[test]
fn references_by_value(rt: HostRuntime) {
    for (i, (number, byte, text)) in REFERENCES.iter().enumerate() {
        let at = UploadRef::make(*number, [*byte; 12]);
        let is_so = is_referred_to(rt.alloc(), &at, *number, text);
        check(&rt, is_so, i, "a reference");
    }
    let at = Some(UploadRef::make(0xabcdef, [7; 12]));
    for (i, text) in SAME.iter().enumerate() {
        check(&rt, UploadRef::read(text) == at, i, "the same reference");
    }
    for (i, text) in NO_REFERENCES.iter().enumerate() {
        check(&rt, UploadRef::read(text).is_none(), i, "no reference");
    }
}

/// Whether a value is shown as this text.
fn shows(alloc: Global, value: &impl Display, text: &[u8]) -> bool {
    match value.to_string(alloc) {
        Ok(shown) => shown.as_bytes() == text,
        Err(_) => false,
    }
}

#[test]
fn ranges_and_faults_are_shown(rt: HostRuntime) {
    let alloc = rt.alloc();
    let are_shown = shows(alloc, &ByteRange { first: 7, last: 19 }, b"7-19")
        && shows(alloc, &NotADigest, b"not a digest")
        && shows(alloc, &NotARange, b"not a range of bytes")
        && shows(alloc, &NotAReference, b"not a reference of an upload")
        && shows(alloc, &NameFault::NotAName, b"not a name of a repository")
        && shows(alloc, &NameFault::TooLong, b"a name of more than 255 bytes")
        && shows(alloc, &NameFault::NoMemory, b"no memory for a name");
    check(&rt, are_shown, 0, "the texts");
}
