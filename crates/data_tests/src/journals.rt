//! A journal's file, byte by byte, and its calls, with growths refused. Disks that fail are under a store (`stores`).

use crate::ended::{Done, Ended, holds, is_done, is_over};
use journal::{Batch, Ending, Journal, Line, Machine, live_on};
use sqlite_disk::{Disk, Memory};
use std::alloc::{AllocError, Global};
use std::io;
use std::process::Abort;

/// The time of the first batch.
pub const START: u64 = 1_700_000_000;

/// The head of each of two batches, of which one has the record `abc` and the other an empty one: its number, its time,
/// how many bytes its records take, and the checksum of these, which is SipHash-1-3 with both keys 0.
const FIRST: &[u8; 32] = b"\0\0\0\0\0\0\0\0\0\0\0\0\x65\x53\xf1\0\0\0\0\0\0\0\0\x0b\
    \x3d\x55\xd6\x92\x44\xda\xef\x88";

const SECOND: &[u8; 32] = b"\0\0\0\0\0\0\0\x01\0\0\0\0\x65\x53\xf1\x01\0\0\0\0\0\0\0\x08\
    \xca\x0d\x5a\xc5\x14\xa2\xbb\x17";

const LINE: &[u8] = b"journal\n\0\0\0\0\0\0\0\x02\0\0\0\0\0\0\0\x0b\
    \xad\x3e\x85\x54\xa2\xdb\xaa\x01four limits";

/// The parts of their file that aren't zeros, and where each begins: the first line, and of each batch its gate, with a
/// copy of its head, and its head with its record.
static PARTS: [(usize, &[&[u8]]); 5] = [
    (0, &[LINE]),
    (4_096, &[b"\x01", FIRST]),
    (8_192, &[FIRST, b"\0\0\0\0\0\0\0\x03abc"]),
    (12_288, &[b"\x01", SECOND]),
    (16_384, &[SECOND, b"\0\0\0\0\0\0\0\0"]),
];

pub fn line() -> Result<Line, Ended> {
    Line::new(b"four limits").ok_or(Ended::Otherwise)
}

fn batch_of(alloc: Global, record: &[u8]) -> Result<Batch, AllocError> {
    let mut batch = Batch::new(alloc);
    batch.add(record)?;
    Ok(batch)
}

fn file_of(alloc: Global) -> Result<Vec<u8>, AllocError> {
    let mut file = Vec::new(alloc);
    for (at, parts) in PARTS.iter() {
        file.resize(*at, 0)?;
        for part in parts.iter() {
            file.extend_from_slice(part)?;
        }
    }
    // a shut gate stands at its end
    file.resize(24_576, 0)?;
    Ok(file)
}

/// Of each record that was run the time, less `START`, and its length.
#[derive(Drop)]
struct Seen {
    records: Vec<(u64, usize)>,
}

impl Machine for Seen {
    ghost steps = { λ _ _ _ _. Unit {0} };

    ghost has_refused = { λ _. Unit {0} };

    fn apply(&mut self, time: u64, bytes: &[u8]) -> io::Result<()> {
        let time = time.saturating_sub(START);
        self.records.push((time, bytes.len()))?;
        Ok(())
    }
}

fn nothing_seen(alloc: Global) -> Seen {
    Seen {
        records: Vec::new(alloc),
    }
}

#[test]
fn a_file_is_written_as_it_ever_was(rt: HostRuntime) -> Done {
    let alloc = rt.alloc();
    let mut journal = Journal::new(Memory::new(alloc), line()?);
    journal.recover(alloc, &mut nothing_seen(alloc))?;
    journal.append(&batch_of(alloc, b"abc")?, START)?;
    journal.append(&batch_of(alloc, b"")?, START + 1)?;
    let disk = journal.into_disk();
    holds(&rt, disk.bytes() == file_of(alloc)?.as_slice(), &"the file");
    Ok(())
}

/// A journal of that file, in which these bits of bytes are others.
fn changed(alloc: Global, changes: &[(usize, u8)]) -> Result<Journal<Memory>, Ended> {
    let mut file = file_of(alloc)?;
    for (at, bits) in changes {
        if let Some(byte) = file.get_mut(*at) {
            *byte ^= bits;
        }
    }
    let mut disk = Memory::new(alloc);
    disk.write_at(0, &file)?;
    disk.sync()?;
    Ok(Journal::new(disk, line()?))
}

/// How a journal ends, whether it has a mark, and how many records.
fn look_at(alloc: Global, journal: &mut Journal<Memory>) -> Result<(Ending, bool, usize), Ended> {
    let mut seen = nothing_seen(alloc);
    let looked = journal.look(alloc, &mut seen)?;
    Ok((looked.ending, looked.has_mark, seen.records.len()))
}

/// A bit of a gate, of its copy of a head, or of a head is changed: it hides no record, or that is told.
#[test]
fn a_bit_between_records_hides_none(rt: HostRuntime) -> Done {
    for first in [4_096usize, 8_192, 12_288, 16_384] {
        for at in first..first.saturating_add(33) {
            for bits in [1u8, 2, 4, 8, 16, 32, 64, 128] {
                let mut journal = changed(rt.alloc(), &[(at, bits)])?;
                let found = look_at(rt.alloc(), &mut journal)?;
                let is_sure = found.0 == Ending::Sound && !found.1;
                holds(&rt, !is_sure || found.2 == 2, &at);
            }
        }
    }
    Ok(())
}

/// A journal whose first gate is damaged is mended. If the head behind it is damaged, too, it goes on with a mark.
fn check_damaged(rt: &impl Abort, alloc: Global) -> Done {
    let mut journal = changed(alloc, &[(4_096, 8)])?;
    let is_mended = journal.mend(alloc)?;
    let found = look_at(alloc, &mut journal)?;
    let are_both = found == (Ending::Sound, false, 2);
    holds(rt, is_mended && are_both, &"a gate");
    let mut journal = changed(alloc, &[(4_096, 8), (8_192, 8)])?;
    let found = look_at(alloc, &mut journal)?;
    let is_mended = journal.mend(alloc)?;
    let is_broken = found == (Ending::Broken, false, 0);
    holds(rt, is_broken && !is_mended, &"both");
    journal.go_on(alloc, START)?;
    let found = look_at(alloc, &mut journal)?;
    holds(rt, found == (Ending::Sound, true, 0), &"with a mark");
    check_life(rt, alloc)
}

/// Batches, a crash, a recovery that may be cut off, and one that isn't.
fn check_life(rt: &impl Abort, alloc: Global) -> Done {
    let batches = [batch_of(alloc, b"abc")?, batch_of(alloc, b"")?];
    let mut journal = Journal::new(Memory::new(alloc), line()?);
    journal.recover(alloc, &mut nothing_seen(alloc))?;
    let cut_off = &mut [nothing_seen(alloc)];
    let mut seen = nothing_seen(alloc);
    if live_on(&mut journal, alloc, &batches, START, cut_off, &mut seen)? < 2 {
        return Err(Ended::NoMemory);
    }
    let are_all = seen.records.as_slice() == [(0, 3), (0, 0)].as_slice();
    holds(rt, are_all, &"both batches");
    Ok(())
}

#[test]
fn a_refused_growth_changes_no_journal(rt: HostRuntime) {
    if !is_over(&rt, check_damaged(&rt, rt.alloc())) {
        is_done(&rt, check_damaged(&rt, rt.alloc()));
    }
}
