//! The words of the command line.
ghost use Rattle.std.specs.Prelude.{◌≡◌, ℕ, Bool, MatchOption, Some};
ghost use Rattle.std.specs.Net.Grammar.{IsSocketText};
ghost use Rattle.blobd_words.specs.Words.{IsCompaction, IsCount, IsGrace, IsSwitch, IsWithin, Makes};

use crate::size::{USUAL_CHUNK, read_size};
use std::net::SocketAddr;

/// What is printed on standard error if the words are no command.
pub const USAGE: &str = "usage: blobd once | serve ADDR COUNT | push ADDR NAME FILE CHUNK";

/// The most connections that one worker serves.
pub(crate) const MOST_CONNECTIONS: u64 = 1_000_000;

/// The most workers of a server.
const MOST_WORKERS: u64 = 256;

/// A command. Texts are those of the words.
#[derive(Debug, PartialEq, Eq, Drop)]
pub enum Command<'w> {
    /// One connection over standard input and output.
    Once,
    /// Workers, each of which takes `count` connections at `addr`, or all that come if there is no count.
    Serve {
        addr: SocketAddr,
        count: Option<u64>,
    },
    /// Tells what the data directory `path` holds, in words or as JSON.
    Status {
        path: &'w str,
        json: bool,
    },
    /// Prints what the commands are.
    Help,
    /// Prints the version.
    Version,
    /// Pushes `file` in chunks of at most `chunk` bytes into the repository `name` of the server at `addr`.
    Push {
        addr: SocketAddr,
        name: &'w str,
        file: &'w str,
        chunk: u64,
    },
    /// Writes the journal of the folder at `path` anew, or says how much would go. With a list of what is referred to,
    /// all else goes too.
    Compact {
        path: &'w str,
        dry: bool,
        keep: Option<Keep<'w>>,
    },
}

/// What stays in a folder that is compacted.
#[derive(Clone, Copy, Debug, PartialEq, Eq)]
pub struct Keep<'w> {
    /// The file with the list of what is referred to, or `-` for standard input.
    pub list: &'w str,
    /// What was stored so many seconds ago, or later, stays too.
    pub grace: u64,
}

/// What was stored within a day stays, unless the words say another time: a push stores blobs before their manifest.
const USUAL_GRACE: u64 = 86_400;

/// The longest time that may be said, in seconds: some thirty years.
const MOST_GRACE: u64 = 1_000_000_000;

/// The number from `least` to `most` that one or more decimal digits write; leading zeros are allowed.
fn read_within(word: &str, least: u64, most: u64) -> Option<u64>
    ensures { MatchOption result ((number : ℕ) → ¬ (IsWithin least most word.now number))
        (IsWithin least most word.now) }
{
    // A sign is no digit, though `parse` takes a leading plus.
    if matches!(word.as_bytes(), [b'+', ..]) {
        return None;
    }
    match word.parse::<u64>() {
        Ok(number) if number >= least && number <= most => Some(number),
        _ => None,
    }
}

/// The number from 1 to `most` that a word writes.
pub(crate) fn read_count(word: &str, most: u64) -> Option<u64>
    ensures { MatchOption result ((number : ℕ) → ¬ (IsCount most word.now number))
        (IsCount most word.now) }
{
    read_within(word, 1, most)
}

/// How many workers a server has, if the environment says so: from 1 to 256.
pub fn read_workers(value: &str) -> Option<u64>
    ensures { MatchOption result ((number : ℕ) → ¬ (IsCount 256 value.now number))
        (IsCount 256 value.now) }
{
    read_count(value, MOST_WORKERS)
}

/// The IP address and port that a word writes.
pub(crate) fn read_addr(word: &str) -> Option<SocketAddr>
    ensures { MatchOption result ((addr : SocketAddr) → ¬ (IsSocketText word.now addr))
        (IsSocketText word.now) }
{
    word.parse().ok()
}

/// The number of seconds, of which there may be none, that a word writes.
pub(crate) fn read_grace(word: &str) -> Option<u64>
    ensures { MatchOption result ((number : ℕ) → ¬ (IsGrace word.now number)) (IsGrace word.now) }
{
    read_within(word, 0, MOST_GRACE)
}

/// What stays by a list, and by the time that a word writes.
fn read_keep<'w>(list: &'w str, seconds: &str) -> Option<Keep<'w>>
    ensures { MatchOption result ((number : ℕ) → ¬ (IsGrace seconds.now number))
        (λ keep. IsGrace seconds.now keep.grace × (keep.list ≡ list.exit)) }
{
    let grace = read_grace(seconds)?;
    Some(Keep { list, grace })
}

/// What stays by this list, and what was stored within a day.
fn usual_keep<'w>(list: &'w str) -> Option<Keep<'w>>
    ensures { result ≡ Some (record { list = list.exit; grace = 86400 }) }
{
    Some(Keep {
        list,
        grace: USUAL_GRACE,
    })
}

/// The compaction that words make, of which the first says that they make one.
fn read_compact<'w>(words: &[&'w str]) -> Option<Command<'w>>
    ensures { MatchOption result ((command : Command) → ¬ (IsCompaction words.now command))
        (IsCompaction words.now) }
{
    match words {
        [_, "--dry-run"] | [_, "--grace"] => None,
        [_, "--dry-run", "--grace"] | [_, "--grace", _] => None,
        [_, "--dry-run", "--grace", _] => None,
        [_, path] => Some(Command::Compact {
            path,
            dry: false,
            keep: None,
        }),
        [_, "--dry-run", path] => Some(Command::Compact {
            path,
            dry: true,
            keep: None,
        }),
        [_, "--dry-run", path, list] => Some(Command::Compact {
            path,
            dry: true,
            keep: usual_keep(list),
        }),
        [_, path, list] => Some(Command::Compact {
            path,
            dry: false,
            keep: usual_keep(list),
        }),
        [_, "--grace", seconds, path, list] => Some(Command::Compact {
            path,
            dry: false,
            keep: Some(read_keep(list, seconds)?),
        }),
        [_, "--dry-run", "--grace", seconds, path, list] => Some(Command::Compact {
            path,
            dry: true,
            keep: Some(read_keep(list, seconds)?),
        }),
        _ => None,
    }
}

/// The command that the words behind the program's name make, or `None` if they make none. Nothing is opened.
#[tactic(auto, using(crate::proofs::WordFacts::no_size, crate::proofs::WordFacts::compacts))]
pub fn read_words<'w>(words: &[&'w str]) -> Option<Command<'w>>
    ensures { MatchOption result ((command : Command) → ¬ (Makes words.now command))
        (Makes words.now) }
{
    match words {
        ["once"] => Some(Command::Once),
        ["serve", addr] => Some(Command::Serve {
            addr: read_addr(addr)?,
            count: None,
        }),
        ["serve", addr, count] => Some(Command::Serve {
            addr: read_addr(addr)?,
            count: Some(read_count(count, MOST_CONNECTIONS)?),
        }),
        ["push", addr, name, file] => Some(Command::Push {
            addr: read_addr(addr)?,
            name,
            file,
            chunk: USUAL_CHUNK,
        }),
        ["push", addr, name, file, chunk] => Some(Command::Push {
            addr: read_addr(addr)?,
            name,
            file,
            chunk: read_size(chunk)?,
        }),
        ["status", "--json"] => None,
        ["status", path] => Some(Command::Status { path, json: false }),
        ["status", "--json", path] => Some(Command::Status { path, json: true }),
        ["compact", ..] => read_compact(words),
        ["--help"] => Some(Command::Help),
        ["--version"] => Some(Command::Version),
        _ => None,
    }
}

/// What a variable of the environment that is a switch says: on if it is `1`, off if it is `0` or empty. `None`: it
/// says neither.
pub fn read_switch(value: &str) -> Option<bool>
    ensures { MatchOption result ((on : Bool) → ¬ (IsSwitch value.now on)) (IsSwitch value.now) }
{
    match value {
        "1" => Some(true),
        "0" | "" => Some(false),
        _ => None,
    }
}
