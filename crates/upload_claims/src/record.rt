//! A record: the changes of one exchange, and the bytes of a small body, at an address of a journal.
ghost use Rattle.std.specs.Prelude.{◌≡◌, ◌<◌, ◌≤◌, ◌^◌, ◌++◌, length, OnOk, IfOk, IfErr, Ok, Err};
ghost use Rattle.upload_claims.specs.Fields.{Gives};
ghost use Rattle.upload_claims.specs.Records.{longest_body, head_text, record_text, numbers_of, summed, record_at};
ghost use Rattle.upload_claims.specs.Records.{body_in, span_of, whole_at, Found};
ghost use Rattle.std.specs.Prelude.{Option};

use crate::address::{Address, SUM_LEN, sum};
use crate::change::Change;
use crate::fault::{ReadError, RecordFault};
use crate::reading::{read_changes, take_byte, take_bytes, take_u32};
use crate::writing::put_changes;
use std::alloc::{AllocError, Global};

/// The most bytes of a body that is kept in a record.
pub const LONGEST_BODY: usize = 65_536;

/// The kind of a record that has changes.
const CHANGES: u8 = 1;

/// How many bytes stand between the checksum and the changes.
const HEAD_LEN: usize = 17;

/// Where the changes of a record begin.
const TEXT_AT: usize = SUM_LEN + HEAD_LEN;

/// A record as it was read, all but its body.
#[derive(Drop)]
pub struct Record {
    /// The changes of one exchange, in order.
    pub changes: Vec<Change>,
    /// How many bytes stand before its body.
    pub body_at: usize,
    /// How many bytes its body has.
    pub body_len: usize,
    /// The checksum of its body.
    pub body_sum: [u8; SUM_LEN],
}

impl Record {
    ghost use Rattle.upload_claims.specs.Records.{found_of};

    /// Reads the record that was written for an address, from the front of the bytes. Its body isn't looked at, and
    /// need not be there. It takes memory for the changes.
    #[tactic(auto, unfolding(crate::specs::Records::record_at))]
    pub fn read(alloc: Global, at: &Address, bytes: &[u8]) -> Result<Record, ReadError>
        ensures { Gives found_of result (record_at at.now bytes.now) }
    {
        let mut rest = bytes;
        let claimed = take_bytes(SUM_LEN, &mut rest)?;
        let head = take_bytes(HEAD_LEN, &mut rest)?;
        let numbers = numbers_of(head)?;
        let text = take_bytes(numbers.len, &mut rest)?;
        let changes = summed(alloc, at, claimed, head, text)?;
        let body_sum = numbers.body_sum;
        Ok(Record {
            changes,
            body_at: TEXT_AT + numbers.len,
            body_len: numbers.body_len,
            body_sum,
        })
    }

    /// The body of a record that was read at an address from the front of these bytes. `Short` comes if it isn't all
    /// there, `BadBody` if it has changed.
    #[tactic(auto, unfolding(crate::specs::Records::body_in, crate::specs::Fields::bytes_at))]
    pub fn body<'t>(&self, at: &Address, bytes: &'t [u8]) -> Result<&'t [u8], RecordFault>
        ensures ok { IfOk result
            (λ body. body_in at.now (found_of self.now) bytes.now ≡ Ok body.now) }
        ensures err { IfErr result
            (λ fault. body_in at.now (found_of self.now) bytes.now ≡ Err fault) }
    {
        if bytes.len() < self.body_at {
            return Err(RecordFault::Short);
        }
        let (_, behind) = bytes.split_at(self.body_at);
        if behind.len() < self.body_len {
            return Err(RecordFault::Short);
        }
        let (body, _) = behind.split_at(self.body_len);
        if self.body_sum != sum(at, &[], body) {
            return Err(RecordFault::BadBody);
        }
        Ok(body)
    }
}

/// What stands between the checksum and the changes.
fn head_of(at: &Address, len: u32, body: &[u8]) -> [u8; HEAD_LEN]
    requires { length body.now ≤ longest_body }
    ensures { result ≡ head_text at.now len body.now }
{
    let mut head = [0; HEAD_LEN];
    head[0] = CHANGES;
    head[1..5].copy_from_slice(&len.to_be_bytes());
    head[5..9].copy_from_slice(&(body.len() as u32).to_be_bytes());
    head[9..].copy_from_slice(&sum(at, &[], body));
    head
}

/// Puts the record of changes and of a body at an address. An `Err` says that there is no memory, or that the texts of
/// the changes have 4 GiB or more; it may have put a part.
pub fn put_record(
    alloc: Global,
    out: &mut Vec<u8>,
    at: &Address,
    changes: &[Change],
    body: &[u8],
) -> Result<(), AllocError>
    requires few { length changes.now ≤ 255 }
    requires short { length body.now ≤ longest_body }
    ensures { OnOk result
        (out.new.items ≡ out.old.items ++ record_text at.now changes.now body.now) }
{
    let mut text = Vec::new(alloc);
    put_changes(&mut text, changes)?;
    if text.len() > u32::MAX as usize {
        return Err(AllocError);
    }
    let head = head_of(at, text.len() as u32, body);
    out.extend_from_slice(&sum(at, &head, text.as_slice()))?;
    out.extend_from_slice(&head)?;
    out.extend_from_slice(text.as_slice())?;
    out.extend_from_slice(body)?;
    Ok(())
}

/// What a head says.
#[derive(Clone, Copy)]
struct Numbers {
    /// How many bytes the changes have.
    len: usize,
    /// How many bytes the body has.
    body_len: usize,
    body_sum: [u8; SUM_LEN],
}

/// Reads a head.
#[tactic(auto, unfolding(crate::specs::Records::numbers_of))]
fn numbers_of(head: &[u8]) -> Result<Numbers, ReadError>
    ensures { Gives (λ n. (n.len, (n.body_len, n.body_sum))) result (numbers_of head.now) }
{
    let mut rest = head;
    if take_byte(&mut rest)? != CHANGES {
        return Err(ReadError::Fault(RecordFault::NotARecord));
    }
    let len = take_u32(&mut rest)? as usize;
    let body_len = take_u32(&mut rest)? as usize;
    let claimed = take_bytes(SUM_LEN, &mut rest)?;
    if body_len > LONGEST_BODY {
        return Err(ReadError::Fault(RecordFault::TooLong));
    }
    let mut body_sum = [0; SUM_LEN];
    body_sum.copy_from_slice(claimed);
    Ok(Numbers {
        len,
        body_len,
        body_sum,
    })
}

/// The changes of a text, if its checksum is this.
#[tactic(auto, unfolding(crate::specs::Records::summed))]
fn summed(
    alloc: Global,
    at: &Address,
    claimed: &[u8],
    head: &[u8],
    text: &[u8],
) -> Result<Vec<Change>, ReadError>
    ensures { Gives (λ changes. changes.items) result
        (summed at.now claimed.now head.now text.now) }
{
    if claimed != sum(at, head, text).as_slice() {
        return Err(ReadError::Fault(RecordFault::BadChecksum));
    }
    read_changes(alloc, text)
}

/// How many bytes a record has by its own numbers, if so many are there. They are not known to be right: only a record
/// at the next address shows that.
#[tactic(auto, unfolding(crate::specs::Records::span_of))]
pub fn span_of(bytes: &[u8]) -> Option<usize>
    ensures { result ≡ span_of bytes.now }
{
    if bytes.len() < TEXT_AT {
        return None;
    }
    let len = u32::from_be_bytes([bytes[9], bytes[10], bytes[11], bytes[12]]);
    let body_len = u32::from_be_bytes([bytes[13], bytes[14], bytes[15], bytes[16]]);
    let span = TEXT_AT + len as usize + body_len as usize;
    if bytes.len() < span {
        return None;
    }
    Some(span)
}

/// Reads the changes of a record, of which all has to be there.
#[tactic(auto, unfolding(crate::specs::Records::whole_at))]
pub fn read_whole(alloc: Global, at: &Address, bytes: &[u8]) -> Result<Vec<Change>, ReadError>
    ensures { Gives (λ changes. changes.items) result (whole_at at.now bytes.now) }
{
    let record = Record::read(alloc, at, bytes)?;
    match span_of(bytes) {
        Some(_) => Ok(record.changes),
        None => Err(ReadError::Fault(RecordFault::Short)),
    }
}
