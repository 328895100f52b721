//! A client that is refused memory hears nothing more, and one that has it hears the same as ever. Each test holds
//! whichever one growth is refused: `tests/growths.py` has each of them refused in turn.

use super::{
    ASKED, Said, Told, UPLOAD_MISPLACED, UPLOAD_OPENED, UPLOAD_TAKEN, answer_of, as_told, statuses,
};
use crate::expect::{holds, same, same_bytes};
use crate::texts::{MISPLACED_2, TAKEN_2, joined};
use std::alloc::{AllocError, Global};
use std::process::Abort;
use std::test::Fail;
use test_support::MemorySource;
use upload_client::{AnswerReader, HeardFault, heard_of};
use upload_names::{NameFault, RepoName};

/// A reader of the text. One growth may be refused.
fn reader_for(
    alloc: Global,
    text: &'static str,
) -> Result<AnswerReader<MemorySource<'static>>, AllocError> {
    let source = MemorySource::new(text.as_bytes(), 1_000, false);
    let again = MemorySource::new(text.as_bytes(), 1_000, false);
    AnswerReader::new(alloc, source).or_else(|_| AnswerReader::new(alloc, again))
}

/// Hears one reply, which takes memory, and with memory again if it was refused.
fn hear(rt: &impl Abort, alloc: Global, text: &'static str, want: Told<'_>) -> Result<(), Fail> {
    for _ in 0..2 {
        let mut reader = reader_for(alloc, text)?;
        match reader.next_answer(false) {
            Ok(heard) => {
                same(rt, as_told(&heard), want, &text);
                return Ok(());
            }
            Err(fault) => {
                let found = (fault, reader.next_answer(false).err());
                let refused = (HeardFault::NoMemory, Some(HeardFault::Ended));
                same(rt, found, refused, &text);
            }
        }
    }
    Err(Fail::new("no reply, with memory"))
}

#[test]
fn a_refused_growth_ends_the_hearing(rt: HostRuntime) -> Result<(), Fail> {
    hear(&rt, rt.alloc(), TAKEN_2, UPLOAD_TAKEN)?;
    hear(&rt, rt.alloc(), MISPLACED_2, UPLOAD_MISPLACED)
}

/// The name of an upload. One growth may be refused.
pub fn name_for(alloc: Global) -> Result<RepoName, NameFault> {
    RepoName::read(alloc, b"lib/a").or_else(|_| RepoName::read(alloc, b"lib/a"))
}

static ANSWERS: [(Said, Told<'_>); 3] = [
    (Said::Begun, UPLOAD_OPENED),
    (Said::Taken(3), UPLOAD_TAKEN),
    (Said::Misplaced(3), UPLOAD_MISPLACED),
];

#[test]
fn a_refused_growth_leaves_the_answer_to_be_heard_of(rt: HostRuntime) -> Result<(), Fail> {
    for (said, want) in ANSWERS.iter() {
        let answer = answer_of(*said, name_for(rt.alloc())?);
        // one growth may be refused
        let heard = heard_of(rt.alloc(), &answer).or_else(|_| heard_of(rt.alloc(), &answer))?;
        same(&rt, as_told(&heard), *want, &want.status);
    }
    Ok(())
}

/// Room for what a transport writes. One growth may be refused.
fn room(alloc: Global) -> Result<Vec<u8>, AllocError> {
    let room = Vec::with_capacity(alloc, 1_000).or_else(|_| Vec::with_capacity(alloc, 1_000))?;
    Ok(room)
}

/// Asks three times over a new transport, and says how many of them were heard, none behind one that wasn't. So many
/// requests were sent and one more, or none if there is no transport.
fn asked(rt: &impl Abort, alloc: Global, replies: &[u8]) -> Result<usize, AllocError> {
    let mut sent = room(alloc)?;
    let Ok(found) = statuses(alloc, MemorySource::new(replies, 1, false), &mut sent) else {
        same_bytes(rt, sent.as_slice(), b"", &"no transport");
        return Ok(0);
    };
    let heard = found.iter().take_while(|status| **status == 202).count();
    let wanted = [[0, 0, 0], [202, 0, 0], [202, 202, 0], [202, 202, 202]];
    holds(rt, wanted.get(heard) == Some(&found), &heard);
    let count = heard.saturating_add(1).min(3);
    same_bytes(rt, sent.as_slice(), &ASKED[..count * 30], &heard);
    Ok(heard)
}

#[test]
fn a_refused_growth_leaves_the_transport_silent(rt: HostRuntime) -> Result<(), Fail> {
    let texts = [TAKEN_2, TAKEN_2, TAKEN_2];
    let replies = joined(rt.alloc(), &texts).or_else(|_| joined(rt.alloc(), &texts))?;
    if asked(&rt, rt.alloc(), &replies)? < 3 {
        same(&rt, asked(&rt, rt.alloc(), &replies)?, 3, &"with memory");
    }
    Ok(())
}
