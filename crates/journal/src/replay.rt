//! The batches of a file are read in order, and never more at a time than a piece, or one record that is longer.
ghost use Rattle.std.specs.Prelude.{◌≡◌, ◌+◌, ◌%◌, ◌<◌, ◌≤◌, ◌^◌, ℕ, List};
ghost use Rattle.std.specs.Prelude.{length, take, drop, slice_index};
ghost use Rattle.std.specs.Prelude.{IfOk, IfErr, OnOk, IfSome, IfNone, IsTrue, Some, None};
ghost use Rattle.sqlite_disk.specs.Disk.{Holds, Only, MoreFaults};
ghost use Rattle.journal.specs.Format.{records, stored, number_of, has_mark, whole, sector};
ghost use Rattle.journal.specs.Machine.{Runs, RunsRecords};
ghost use Rattle.journal.specs.Errors.{OnlyDisk, OnlyReplay, Never};
ghost use Rattle.journal.specs.Reads.{OnlyReads, Finds, FindsSize, IsFirst, RunsPast, RunsTo, FindsBatch, FindsStaged, EndsAt};

use crate::gate::OPEN;
use crate::head::{HEAD_LEN, Head, head_in, number_in};
use crate::sectors::{SECTOR, whole};
use crate::{Error, Machine};
use sqlite_disk::Disk;
use std::alloc::Global;

/// So much of a batch is read at once. A batch of few records takes one read, and so does the body that a record may
/// have.
const PIECE: usize = 131_072;

/// Reads what stands at `at`, in a file of `len` bytes.
pub fn read<D: Disk>(disk: &mut D, len: usize, at: usize, bytes: &mut [u8]) -> Result<(), Error>
    requires usable { IsTrue (D.Disk.is_usable disk.old) }
    requires measured { IsTrue (D.Disk.is_clean disk.old) → len ≡ length (D.Disk.seen disk.old) }
    requires within { at + length bytes.old ≤ len }
    ensures read { OnOk result (IsTrue (D.Disk.is_clean disk.new) → 0 < length bytes.old
        → Holds (D.Disk.seen disk.old) at bytes.new) }
    ensures cause { IfErr result (OnlyDisk
        (MoreFaults (D.Disk.faults disk.old) (D.Disk.faults disk.new))) }
    ensures reads { OnlyReads D.Disk disk.old disk.new }
{
    match disk.read_at(at, bytes) {
        Ok(()) => Ok(()),
        Err(error) => Err(Error::Disk(error)),
    }
}

/// Reads so many bytes into an empty `bytes`.
fn read_to<D: Disk>(
    disk: &mut D,
    len: usize,
    at: usize,
    size: usize,
    bytes: &mut Vec<u8>,
) -> Result<(), Error>
    requires usable { IsTrue (D.Disk.is_usable disk.old) }
    requires measured { IsTrue (D.Disk.is_clean disk.old) → len ≡ length (D.Disk.seen disk.old) }
    requires within { at + size ≤ len }
    ensures len { OnOk result (length bytes.new.items ≡ size) }
    ensures read { OnOk result (IsTrue (D.Disk.is_clean disk.new)
        → take size (drop at (D.Disk.seen disk.old)) ≡ bytes.new.items) }
    ensures cause { IfErr result (OnlyReplay
        (MoreFaults (D.Disk.faults disk.old) (D.Disk.faults disk.new)) Never) }
    ensures reads { OnlyReads D.Disk disk.old disk.new }
{
    bytes.clear();
    if bytes.resize(size, 0).is_err() {
        return Err(Error::NoMemory);
    }
    if size == 0 {
        return Ok(());
    }
    read(disk, len, at, bytes.as_mut_slice())
}

/// How long the record at `at` is, if all of it stands there. The batch ends at `end`.
fn read_size<D: Disk>(
    disk: &mut D,
    len: usize,
    at: usize,
    end: usize,
) -> Result<Option<usize>, Error>
    requires usable { IsTrue (D.Disk.is_usable disk.old) }
    requires measured { IsTrue (D.Disk.is_clean disk.old) → len ≡ length (D.Disk.seen disk.old) }
    requires within { at ≤ end }
    requires fits { end ≤ len }
    ensures found { IfOk result (λ size. IsTrue (D.Disk.is_clean disk.new)
        → FindsSize (take end (D.Disk.seen disk.old)) at size) }
    ensures within { IfOk result (λ size. IfSome size (λ n. at + 8 + n ≤ end)) }
    ensures cause { IfErr result (OnlyDisk
        (MoreFaults (D.Disk.faults disk.old) (D.Disk.faults disk.new))) }
    ensures reads { OnlyReads D.Disk disk.old disk.new }
{
    if end - at < 8 {
        return Ok(None);
    }
    let mut head = [0; 8];
    read(disk, len, at, &mut head)?;
    let size = number_in(&head) as usize;
    if size > end - at - 8 {
        return Ok(None);
    }
    Ok(Some(size))
}

/// Reads the record at `at` into `bytes`, and answers where the next one begins. The batch ends at `end`. Bytes before
/// the end that don't have all of a record are read as one: it is damaged.
fn read_record<D: Disk>(
    disk: &mut D,
    len: usize,
    at: usize,
    end: usize,
    bytes: &mut Vec<u8>,
) -> Result<Option<usize>, Error>
    requires usable { IsTrue (D.Disk.is_usable disk.old) }
    requires measured { IsTrue (D.Disk.is_clean disk.old) → len ≡ length (D.Disk.seen disk.old) }
    requires within { at ≤ end }
    requires fits { end ≤ len }
    ensures found { IfOk result (λ behind. IsTrue (D.Disk.is_clean disk.new)
        → Finds (take end (D.Disk.seen disk.old)) at bytes.new.items behind) }
    ensures next { IfOk result (λ behind. IfSome behind (λ n. (at < n) × (n ≤ end))) }
    ensures cause { IfErr result (OnlyReplay
        (MoreFaults (D.Disk.faults disk.old) (D.Disk.faults disk.new)) Never) }
    ensures reads { OnlyReads D.Disk disk.old disk.new }
{
    if at == end {
        return Ok(None);
    }
    let Some(size) = read_size(disk, len, at, end)? else {
        read_to(disk, len, at, end - at, bytes)?;
        return Ok(Some(end));
    };
    let start = at + 8;
    read_to(disk, len, start, size, bytes)?;
    Ok(Some(start + size))
}

/// The first record of these bytes, and what follows it, if all of it is there.
fn split_record(bytes: &[u8]) -> Option<(&[u8], &[u8])>
    ensures some { IfSome result (λ it. IsFirst bytes.now (it.0.now, it.1.now)) }
    ensures none { IfNone result (length bytes.now < 8 + number_of (take 8 bytes.now)) }
{
    if bytes.len() < 8 {
        return None;
    }
    let (head, rest) = bytes.split_at(8);
    let size = number_in(head) as usize;
    if size > rest.len() {
        return None;
    }
    Some(rest.split_at(size))
}

/// Runs the machine over a record.
fn apply<M: Machine>(machine: &mut M, time: u64, bytes: &[u8]) -> Result<(), Error>
    ensures step { OnOk result (M.steps machine.old time bytes.now machine.new) }
    ensures keeps { (first : M) → M.keeps first machine.old → M.keeps first machine.new }
    ensures cause { IfErr result (OnlyReplay Never (M.has_refused machine.new)) }
{
    match machine.apply(time, bytes) {
        Ok(()) => Ok(()),
        Err(error) => Err(Error::Machine(error)),
    }
}

/// Runs the machine over the records that stand whole at the front of these bytes, and answers how many bytes they
/// take.
fn run_whole<M: Machine>(bytes: &[u8], time: u64, machine: &mut M) -> Result<usize, Error>
    ensures ran { IfOk result (λ n. RunsPast M.steps time machine.old bytes.now n machine.new) }
    ensures within { IfOk result (λ n. n ≤ length bytes.now) }
    ensures keeps { (first : M) → M.keeps first machine.old → M.keeps first machine.new }
    ensures cause { IfErr result (OnlyReplay Never (M.has_refused machine.new)) }
{
    let mut rest = bytes;
    while let Some((record, behind)) = split_record(rest) {
        apply(machine, time, record)?;
        rest = behind;
    }
    Ok(bytes.len() - rest.len())
}

/// Reads the next piece of a batch, which ends at `end`, and runs the machine over the records that stand whole in it.
/// Answers where the next one begins.
fn run_piece<D: Disk, M: Machine>(
    disk: &mut D,
    len: usize,
    at: usize,
    end: usize,
    time: u64,
    bytes: &mut Vec<u8>,
    machine: &mut M,
) -> Result<usize, Error>
    requires usable { IsTrue (D.Disk.is_usable disk.old) }
    requires measured { IsTrue (D.Disk.is_clean disk.old) → len ≡ length (D.Disk.seen disk.old) }
    requires within { at ≤ end }
    requires fits { end ≤ len }
    ensures ran { IfOk result (λ next. IsTrue (D.Disk.is_clean disk.new)
        → RunsTo M.steps time machine.old (take end (D.Disk.seen disk.old)) at next machine.new) }
    ensures next { IfOk result (λ next. (at ≤ next) × (next ≤ end)) }
    ensures keeps { (first : M) → M.keeps first machine.old → M.keeps first machine.new }
    ensures cause { IfErr result (OnlyReplay
        (MoreFaults (D.Disk.faults disk.old) (D.Disk.faults disk.new))
        (M.has_refused machine.new)) }
    ensures reads { OnlyReads D.Disk disk.old disk.new }
{
    read_to(disk, len, at, PIECE.min(end - at), bytes)?;
    let taken = run_whole(bytes, time, machine)?;
    Ok(at + taken)
}

/// Runs the machine over the records of a batch, which stand from `start` up to `end`.
fn run_records<D: Disk, M: Machine>(
    disk: &mut D,
    len: usize,
    start: usize,
    end: usize,
    time: u64,
    bytes: &mut Vec<u8>,
    machine: &mut M,
) -> Result<(), Error>
    requires usable { IsTrue (D.Disk.is_usable disk.old) }
    requires measured { IsTrue (D.Disk.is_clean disk.old) → len ≡ length (D.Disk.seen disk.old) }
    requires within { start ≤ end }
    requires fits { end ≤ len }
    ensures ran { OnOk result (IsTrue (D.Disk.is_clean disk.new)
        → RunsRecords M.steps time machine.old
        (records (drop start (take end (D.Disk.seen disk.old)))) machine.new) }
    ensures keeps { (first : M) → M.keeps first machine.old → M.keeps first machine.new }
    ensures cause { IfErr result (OnlyReplay
        (MoreFaults (D.Disk.faults disk.old) (D.Disk.faults disk.new))
        (M.has_refused machine.new)) }
    ensures reads { OnlyReads D.Disk disk.old disk.new }
{
    let mut at = start;
    loop {
        at = run_piece(disk, len, at, end, time, bytes, machine)?;
        // A record that the piece cuts off is read by itself.
        let Some(next) = read_record(disk, len, at, end, bytes)? else {
            return Ok(());
        };
        apply(machine, time, bytes)?;
        at = next;
    }
}

/// Reads the head of the batch with this number behind the gate at `at`, if all of the batch is there. It doesn't ask
/// whether the gate is open.
pub fn read_staged<D: Disk>(
    disk: &mut D,
    len: usize,
    at: usize,
    number: usize,
) -> Result<Option<Head>, Error>
    requires usable { IsTrue (D.Disk.is_usable disk.old) }
    requires measured { IsTrue (D.Disk.is_clean disk.old) → len ≡ length (D.Disk.seen disk.old) }
    requires within { at ≤ len }
    requires fits { len < 2 ^ 63 }
    ensures found { IfOk result (λ head. IsTrue (D.Disk.is_clean disk.new)
        → FindsStaged (D.Disk.seen disk.old) at number head) }
    ensures within { IfOk result (λ head. IfSome head
        (λ h. at + sector + whole (32 + h.len) ≤ len)) }
    ensures records { IfOk result (λ head. IfSome head (λ h. at + sector + 32 + h.len ≤ len)) }
    ensures cause { IfErr result (OnlyDisk
        (MoreFaults (D.Disk.faults disk.old) (D.Disk.faults disk.new))) }
    ensures reads { OnlyReads D.Disk disk.old disk.new }
{
    if len - at < SECTOR + SECTOR {
        return Ok(None);
    }
    let mut bytes = [0; HEAD_LEN];
    read(disk, len, at + SECTOR, &mut bytes)?;
    Ok(head_in(&bytes, number, len - at - SECTOR))
}

/// Reads the head of the batch with this number, if its gate stands open at `at` and all of it is there.
pub fn read_head<D: Disk>(
    disk: &mut D,
    len: usize,
    at: usize,
    number: usize,
) -> Result<Option<Head>, Error>
    requires usable { IsTrue (D.Disk.is_usable disk.old) }
    requires measured { IsTrue (D.Disk.is_clean disk.old) → len ≡ length (D.Disk.seen disk.old) }
    requires within { at ≤ len }
    requires fits { len < 2 ^ 63 }
    ensures found { IfOk result (λ head. IsTrue (D.Disk.is_clean disk.new)
        → FindsBatch (D.Disk.seen disk.old) at number head) }
    ensures within { IfOk result (λ head. IfSome head
        (λ h. at + sector + whole (32 + h.len) ≤ len)) }
    ensures records { IfOk result (λ head. IfSome head (λ h. at + sector + 32 + h.len ≤ len)) }
    ensures cause { IfErr result (OnlyDisk
        (MoreFaults (D.Disk.faults disk.old) (D.Disk.faults disk.new))) }
    ensures reads { OnlyReads D.Disk disk.old disk.new }
{
    if len - at < SECTOR + SECTOR {
        return Ok(None);
    }
    let mut gate = [0];
    read(disk, len, at, &mut gate)?;
    if gate[0] != OPEN {
        return Ok(None);
    }
    let head = read_staged(disk, len, at, number)?;
    Ok(head)
}

/// Where the batches of a file end, and how many there are.
#[derive(Clone, Copy)]
pub struct End {
    pub at: usize,
    pub count: usize,
    /// One of them has no record.
    pub has_mark: bool,
}

/// Runs the machine over the batches behind the first line.
pub fn replay<D: Disk, M: Machine>(
    disk: &mut D,
    len: usize,
    alloc: Global,
    machine: &mut M,
) -> Result<End, Error>
    requires usable { IsTrue (D.Disk.is_usable disk.old) }
    requires measured { IsTrue (D.Disk.is_clean disk.old) → len ≡ length (D.Disk.seen disk.old) }
    requires line { sector ≤ len }
    requires fits { len < 2 ^ 63 }
    ensures ran { OnOk result (IsTrue (D.Disk.is_clean disk.new)
        → Runs M.steps machine.old (stored (D.Disk.seen disk.old)) machine.new) }
    ensures keeps { (first : M) → M.keeps first machine.old → M.keeps first machine.new }
    ensures end { IfOk result (λ end. IsTrue (D.Disk.is_clean disk.new)
        → EndsAt (D.Disk.seen disk.old) end.at end.count) }
    ensures marked { IfOk result (λ end. IsTrue (D.Disk.is_clean disk.new)
        → end.has_mark ≡ has_mark (stored (D.Disk.seen disk.old))) }
    ensures begins { IfOk result (λ end. (sector ≤ end.at) × (end.at % 4096 ≡ 0)) }
    ensures within { IfOk result (λ end. (end.at ≤ len) × (end.count ≤ end.at)) }
    ensures cause { IfErr result (OnlyReplay
        (MoreFaults (D.Disk.faults disk.old) (D.Disk.faults disk.new))
        (M.has_refused machine.new)) }
    ensures reads { OnlyReads D.Disk disk.old disk.new }
{
    let mut bytes = Vec::new(alloc);
    let mut at = SECTOR;
    let mut count = 0;
    let mut has_mark = false;
    while let Some(head) = read_head(disk, len, at, count)? {
        let start = at + SECTOR + HEAD_LEN;
        run_records(
            disk,
            len,
            start,
            start + head.len,
            head.time,
            &mut bytes,
            machine,
        )?;
        has_mark |= head.len == 0;
        at += SECTOR + whole(HEAD_LEN + head.len);
        count += 1;
    }
    Ok(End {
        at,
        count,
        has_mark,
    })
}
