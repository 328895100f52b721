//! The list of what is referred to, by which a compaction leaves out the rest.
use std::alloc::{AllocError, Global};
use std::{fmt, fs, io};
use upload_compact::{Leaving, Pair};
use upload_names::{BlobDigest, NameFault, RepoName};

/// The path that stands for the standard input.
const INPUT: &str = "-";

/// Why a list can't be read.
#[derive(Debug, Drop)]
pub enum ListFault {
    /// It can't be read, or is no text.
    Io(io::Error),
    /// There is no memory for it.
    NoMemory,
    /// It has no line, by which everything would go.
    Empty,
    /// Its last line has no end, so that it may be cut off.
    CutOff,
    /// The line of this number, from 1 on, is no repository's name and digest.
    Line(u64),
}

impl From<AllocError> for ListFault {
    fn from(_error: AllocError) -> ListFault {
        ListFault::NoMemory
    }
}

impl fmt::Display for ListFault {
    fn fmt<W: fmt::Write>(&self, f: &mut fmt::Formatter<W>) -> fmt::Result {
        match self {
            ListFault::Io(error) => write!(f, "{error}"),
            ListFault::NoMemory => f.write_str("no memory for it"),
            ListFault::Empty => f.write_str("it has no lines, so all blobs would go"),
            ListFault::CutOff => f.write_str("its last line has no end, so it may be cut off"),
            ListFault::Line(number) => write!(f, "line {number} is no NAME DIGEST"),
        }
    }
}

impl std::error::Error for ListFault {}

/// The pair that a line writes, if it does.
fn read_pair(alloc: Global, line: &str) -> Result<Option<Pair>, AllocError> {
    let Some((name, digest)) = line.split_once(' ') else {
        return Ok(None);
    };
    let Some(digest) = BlobDigest::read(digest.as_bytes()) else {
        return Ok(None);
    };
    match RepoName::read(alloc, name.as_bytes()) {
        Ok(name) => Ok(Some((name, digest))),
        Err(NameFault::NoMemory) => Err(AllocError),
        Err(_) => Ok(None),
    }
}

/// Notes what the lines of a text refer to.
fn note_lines(alloc: Global, text: &str, leaving: &mut Leaving) -> Result<(), ListFault> {
    if text.is_empty() {
        return Err(ListFault::Empty);
    }
    if !text.ends_with('\n') {
        return Err(ListFault::CutOff);
    }
    let mut number: u64 = 0;
    for line in text.lines() {
        number = number.saturating_add(1);
        let Some((name, digest)) = read_pair(alloc, line)? else {
            return Err(ListFault::Line(number));
        };
        leaving.refer(name, digest)?;
    }
    Ok(())
}

/// Reads a list of what is referred to, from the file at `path`, or from standard input if that is `-`: a line `NAME
/// DIGEST` for each blob of a repository. Of what it doesn't have only that stays of which a batch has the time
/// `since` or a later one, in seconds since 1970.
///
/// An empty list, one without an end of its last line, and a line of anything else are refused.
pub fn read_list(rt: &HostRuntime, path: &str, since: u64) -> Result<Leaving, ListFault> {
    let read = if path == INPUT {
        io::read_to_string(rt.alloc(), rt.stdin())
    } else {
        fs::read_to_string(rt, path)
    };
    let text = match read {
        Ok(text) => text,
        Err(error) => return Err(ListFault::Io(error)),
    };
    let mut leaving = Leaving::new(rt.alloc(), since);
    note_lines(rt.alloc(), text.as_str(), &mut leaving)?;
    Ok(leaving)
}
