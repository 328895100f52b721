//! What is wrong with words that are no command.
ghost use Rattle.std.specs.Prelude.{◌≡◌, IsTrue};
ghost use Rattle.blobd_words.specs.Complaints.{HasWrongGrace, IsComplaint, complaint_text};

use crate::size::read_size;
use crate::words::{MOST_CONNECTIONS, read_addr, read_count, read_grace};

/// What is wrong with words that are no command.
#[derive(Clone, Copy, Debug, PartialEq, Eq)]
pub enum Complaint {
    /// The address isn't one.
    Addr,
    /// The count isn't one.
    Count,
    /// The size of a chunk isn't one.
    Chunk,
    /// The time behind `--grace` isn't one.
    Grace,
    /// The directory is missing.
    Dir,
    /// There are too few or too many for their command, or others than it has.
    Words,
    /// The first is the name of no command, or there is none.
    Command,
    /// One isn't UTF-8.
    NoText,
}

/// Whether these words are a compaction's, and say a time, before a directory and a list, which is none.
fn has_wrong_grace(words: &[&str]) -> bool
    ensures { IsTrue result → HasWrongGrace words.now }
{
    match words {
        ["compact", .., "--grace", seconds, _, _] => read_grace(seconds).is_none(),
        _ => false,
    }
}

/// What is wrong with these words behind the program's name, which are no command.
pub fn complaint_on(words: &[&str]) -> Complaint
    ensures { IsComplaint words.now result }
{
    if has_wrong_grace(words) {
        Complaint::Grace
    } else {
        other_complaint(words)
    }
}

/// What else is wrong with them.
fn other_complaint(words: &[&str]) -> Complaint
    ensures { IsComplaint words.now result }
{
    match words {
        ["serve", addr, ..] if read_addr(addr).is_none() => Complaint::Addr,
        ["push", addr, ..] if read_addr(addr).is_none() => Complaint::Addr,
        ["serve", _, count] if read_count(count, MOST_CONNECTIONS).is_none() => Complaint::Count,
        ["push", _, _, _, chunk] if read_size(chunk).is_none() => Complaint::Chunk,
        ["status"] | ["status", "--json"] | ["compact"] | ["compact", "--dry-run"] => {
            Complaint::Dir
        }
        ["once", ..] | ["serve", ..] | ["push", ..] | ["status", ..] | ["compact", ..] => {
            Complaint::Words
        }
        ["--help", ..] | ["--version", ..] => Complaint::Words,
        _ => Complaint::Command,
    }
}

/// The words for it.
pub fn complaint_text(complaint: Complaint) -> &'static str
    ensures { result.now ≡ complaint_text complaint }
{
    match complaint {
        Complaint::Addr => "ADDR is an IP address and a port, as 127.0.0.1:5000 or [::1]:5000",
        Complaint::Count =>
            "COUNT is a number from 1 to 1000000; without it each worker takes all connections that come",
        Complaint::Chunk => "CHUNK is a number of bytes from 1 to 2147483648, as 64K, 16M or 1G",
        Complaint::Grace =>
            "SECONDS is a number from 0 to 1000000000: 86400 is a day, as without --grace",
        Complaint::Dir => "DIR is missing: the data directory of a server, as /var/lib/blobd",
        Complaint::Words => "the command has other words: `blobd --help` has an example of each",
        Complaint::Command => "no such command: `blobd --help` says which there are",
        Complaint::NoText =>
            "a word isn't UTF-8: a FILE of such a name is read as /dev/stdin, with < FILE",
    }
}
