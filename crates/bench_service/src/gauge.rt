//! Times, memory and ratios.

use std::time::Instant;
use std::{fs, io};

/// The bytes of a number of KiB, which stands between blanks and before a unit.
fn bytes_of(text: &str) -> io::Result<u64> {
    let digits = text.trim().split(' ').next().unwrap_or("");
    match digits.parse::<u64>() {
        Ok(kib) => Ok(kib.saturating_mul(1024)),
        Err(_) => Err(io::Error::from(io::ErrorKind::InvalidData)),
    }
}

/// The bytes of memory of which the text of `/proc/self/status` tells.
fn resident_in(status: &str) -> io::Result<u64> {
    for line in status.lines() {
        if let Some(rest) = line.strip_prefix("VmRSS:") {
            return bytes_of(rest);
        }
    }
    Err(io::Error::from(io::ErrorKind::Unsupported))
}

/// How many bytes of memory the process holds now.
pub(crate) fn resident(rt: &HostRuntime) -> io::Result<u64> {
    let status = fs::read_to_string(rt, "/proc/self/status")?;
    resident_in(status.as_str())
}

/// The microseconds since a moment.
pub(crate) fn micros_since(rt: &HostRuntime, start: Instant) -> io::Result<u64> {
    let micros = start.elapsed(rt)?.as_micros();
    Ok(u64::try_from(micros).unwrap_or(u64::MAX))
}

/// How many there are of the one for each 1,000 of the other.
pub(crate) fn per_mille(one: u64, other: u64) -> u64 {
    one.saturating_mul(1_000) / other.max(1)
}

/// Prints a time, and what it is of.
fn print_time(rt: &HostRuntime, of: &str, micros: u64) -> io::Result<()> {
    println!(rt; "{of}: {micros} us")
}

/// Prints a time that stands beside, the time that is measured, and the ratio of the second to the first.
pub(crate) fn print_times(
    rt: &HostRuntime,
    beside: (&str, u64),
    measured: (&str, u64),
) -> io::Result<()> {
    print_time(rt, beside.0, beside.1)?;
    print_time(rt, measured.0, measured.1)?;
    let ratio = per_mille(measured.1, beside.1);
    println!(rt; "the second beside the first: {ratio} of 1,000")
}

/// Prints how much memory was kept for so many bytes.
pub(crate) fn print_memory(rt: &HostRuntime, kept: u64, bytes: u64) -> io::Result<()> {
    let ratio = per_mille(kept, bytes);
    println!(rt; "memory kept: {ratio} for each 1,000 bytes")
}

/// Prints how much memory was kept for each of so many blobs.
pub(crate) fn print_blob_memory(rt: &HostRuntime, kept: u64, blobs: u64) -> io::Result<()> {
    let each = kept / blobs.max(1);
    println!(rt; "memory kept: {each} bytes for each blob")
}
