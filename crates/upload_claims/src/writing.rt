//! Changes, written.
ghost use Rattle.std.specs.Prelude.{◌≡◌, ◌<◌, ◌≤◌, ◌^◌, ◌++◌, length, OnOk};
ghost use Rattle.std.specs.Int.{w64, to_be_bytes};
ghost use Rattle.std.specs.List.{flat_map};
ghost use Rattle.upload_names.specs.Digest.{digest_text};
ghost use Rattle.upload_claims.specs.Fields.{measured, stretch_text};
ghost use Rattle.upload_claims.specs.Texts.{change_text, changes_text};

use crate::change::{Change, Place, Stretch};
use std::alloc::AllocError;
use upload_names::{BlobDigest, RepoName, UploadRef};
use uuid::Uuid;

/// Puts the length of a text, and the text.
fn put_text(out: &mut Vec<u8>, text: &[u8]) -> Result<(), AllocError>
    requires { length text.now < 2 ^ 32 }
    ensures { OnOk result (out.new.items ≡ out.old.items ++ measured text.now) }
{
    out.extend_from_slice(&(text.len() as u32).to_be_bytes())?;
    out.extend_from_slice(text)?;
    Ok(())
}

fn put_name(out: &mut Vec<u8>, name: &RepoName) -> Result<(), AllocError>
    ensures { OnOk result (out.new.items ≡ out.old.items ++ measured name.now) }
{
    put_text(out, name.as_str().as_bytes())
}

fn put_digest(out: &mut Vec<u8>, digest: &BlobDigest) -> Result<(), AllocError>
    ensures { OnOk result (out.new.items ≡ out.old.items ++ measured (digest_text digest.now)) }
{
    put_text(out, digest.text().as_bytes())
}

/// The sixteen bytes of a reference, as its text spells them.
fn id_of(at: &UploadRef) -> Uuid
    ensures { result ≡ at.now }
{
    match Uuid::try_parse_ascii(at.text().as_slice()) {
        Ok(id) => id,
        Err(_) => unreachable!(),
    }
}

fn put_reference(out: &mut Vec<u8>, at: &UploadRef) -> Result<(), AllocError>
    ensures { OnOk result (out.new.items ≡ out.old.items ++ at.now) }
{
    out.extend_from_slice(id_of(at).as_bytes())
}

pub fn put_number(out: &mut Vec<u8>, number: u64) -> Result<(), AllocError>
    ensures { OnOk result (out.new.items ≡ out.old.items ++ to_be_bytes w64 number) }
{
    out.extend_from_slice(&number.to_be_bytes())
}

fn put_pair(out: &mut Vec<u8>, first: u64, second: u64) -> Result<(), AllocError>
    ensures { OnOk result (out.new.items
        ≡ out.old.items ++ (to_be_bytes w64 first ++ to_be_bytes w64 second)) }
{
    put_number(out, first)?;
    put_number(out, second)?;
    Ok(())
}

/// Puts where a body is: a mark, the number of the record or the file, and the end.
fn put_stretch(out: &mut Vec<u8>, stretch: Stretch) -> Result<(), AllocError>
    ensures { OnOk result (out.new.items ≡ out.old.items ++ stretch_text stretch) }
{
    match stretch.place {
        Place::Record(number) => {
            out.push(0)?;
            put_pair(out, number, stretch.end)?;
        }
        Place::File(number) => {
            out.push(1)?;
            put_pair(out, number, stretch.end)?;
        }
    }
    Ok(())
}

/// Puts how many bytes stand before a body, and where it is.
fn put_further(out: &mut Vec<u8>, from: u64, stretch: Stretch) -> Result<(), AllocError>
    ensures { OnOk result (out.new.items
        ≡ out.old.items ++ (to_be_bytes w64 from ++ stretch_text stretch)) }
{
    put_number(out, from)?;
    put_stretch(out, stretch)?;
    Ok(())
}

fn put_change(out: &mut Vec<u8>, change: &Change) -> Result<(), AllocError>
    ensures { OnOk result (out.new.items ≡ out.old.items ++ change_text change.now) }
{
    match change {
        Change::NumbersUpTo(number) => {
            out.push(1)?;
            out.extend_from_slice(&number.to_be_bytes())?;
        }
        Change::MomentsUpTo(moment) => {
            out.push(2)?;
            put_number(out, *moment)?;
        }
        Change::LapsedBefore(moment) => {
            out.push(3)?;
            put_number(out, *moment)?;
        }
        Change::Began { at, name, now } => {
            out.push(4)?;
            put_reference(out, at)?;
            put_name(out, name)?;
            put_number(out, *now)?;
        }
        Change::Took {
            at,
            now,
            from,
            stretch,
        } => {
            out.push(5)?;
            put_reference(out, at)?;
            put_number(out, *now)?;
            put_further(out, *from, *stretch)?;
        }
        Change::Seen { at, now } => {
            out.push(6)?;
            put_reference(out, at)?;
            put_number(out, *now)?;
        }
        Change::Closed { at, digest, end } => {
            out.push(7)?;
            put_reference(out, at)?;
            put_digest(out, digest)?;
            put_number(out, *end)?;
        }
        Change::Stored { digest, stretch } => {
            out.push(8)?;
            put_digest(out, digest)?;
            put_stretch(out, *stretch)?;
        }
        Change::Laid { digest } => {
            out.push(9)?;
            put_digest(out, digest)?;
        }
        Change::Joined {
            digest,
            from,
            stretch,
        } => {
            out.push(10)?;
            put_digest(out, digest)?;
            put_further(out, *from, *stretch)?;
        }
        Change::Has { name, digest } => {
            out.push(11)?;
            put_name(out, name)?;
            put_digest(out, digest)?;
        }
    }
    Ok(())
}

fn put_each(out: &mut Vec<u8>, changes: &[Change]) -> Result<(), AllocError>
    ensures { OnOk result (out.new.items ≡ out.old.items ++ flat_map change_text changes.now) }
{
    for change in changes {
        put_change(out, change)?;
    }
    Ok(())
}

/// Puts how many changes there are, and their texts. An `Err` may have put some.
pub fn put_changes(out: &mut Vec<u8>, changes: &[Change]) -> Result<(), AllocError>
    requires { length changes.now ≤ 255 }
    ensures { OnOk result (out.new.items ≡ out.old.items ++ changes_text changes.now) }
{
    out.push(changes.len() as u8)?;
    put_each(out, changes)?;
    Ok(())
}
