//! The four measurements, each on a new service. Each prints the time of what stands beside, then the time of what is
//! measured, their ratio, and what shows that the work was done.
ghost use Rattle.std.specs.Prelude.{◌≤◌, ◌^◌};

use crate::gauge::{micros_since, print_blob_memory, print_memory, print_times, resident};
use crate::uploads::{
    bodies_of, body_of, close, digest_of, fill, hash_of, open, send, upload_number,
};
use std::io;
use std::time::Instant;
use upload_bytes::Body;
use upload_names::{BlobDigest, UploadRef};
use upload_service::Service;

const MIB: usize = 1024 * 1024;

/// The hash of the bodies, and the microseconds that it took.
fn time_hash(rt: &HostRuntime, bodies: &[Body]) -> io::Result<([u8; 32], u64)> {
    let start = Instant::now(rt)?;
    let hash = hash_of(bodies);
    Ok((hash, micros_since(rt, start)?))
}

/// Uploads the bodies as one blob, and gives the microseconds and whether it was stored.
fn time_upload(
    rt: &HostRuntime,
    service: &mut Service,
    bodies: Vec<Body>,
    digest: BlobDigest,
) -> io::Result<(u64, bool)> {
    let start = Instant::now(rt)?;
    let at = fill(service, rt.alloc(), bodies)?;
    let stored = close(service, rt.alloc(), at, digest)?;
    Ok((micros_since(rt, start)?, stored))
}

/// What an upload took, and its hash alone, in microseconds, and whether it was stored.
#[derive(Clone, Copy)]
struct Upload {
    hash_alone: u64,
    took: u64,
    stored: bool,
}

/// Hashes 1 GiB, and uploads it in chunks of 1 MiB.
fn upload_gib(rt: &HostRuntime, service: &mut Service) -> io::Result<Upload> {
    let bodies = bodies_of(rt.alloc(), 1_024, MIB)?;
    let (hash, hash_alone) = time_hash(rt, &bodies)?;
    let digest = digest_of(hash)?;
    let (took, stored) = time_upload(rt, service, bodies, digest)?;
    Ok(Upload {
        hash_alone,
        took,
        stored,
    })
}

/// 1 GiB in chunks of 1 MiB and its close, beside the hash of the same bytes alone; and the memory that is kept.
pub(crate) fn measure_stream(rt: &HostRuntime, service: &mut Service) -> io::Result<()> {
    let before = resident(rt)?;
    let upload = upload_gib(rt, service)?;
    let kept = resident(rt)?.saturating_sub(before);
    print_times(
        rt,
        ("the hash of 1 GiB alone", upload.hash_alone),
        ("1 GiB in chunks of 1 MiB and its close", upload.took),
    )?;
    println!(rt; "stored: {}", upload.stored)?;
    print_memory(rt, kept, 1 << 30)
}

/// Closes the session with another digest than its blob's, and gives the microseconds and whether it was stored.
fn time_refusal(rt: &HostRuntime, service: &mut Service, at: UploadRef) -> io::Result<(u64, bool)> {
    let start = Instant::now(rt)?;
    let stored = close(service, rt.alloc(), at, BlobDigest::of_sha256(b"other"))?;
    Ok((micros_since(rt, start)?, stored))
}

/// A close of 256 MiB that is refused, beside the hash of 256 MiB.
pub(crate) fn measure_refusal(rt: &HostRuntime, service: &mut Service) -> io::Result<()> {
    let bodies = bodies_of(rt.alloc(), 256, MIB)?;
    // Printed, so that the hash can't be left out.
    let (hash, alone) = time_hash(rt, &bodies)?;
    let at = fill(service, rt.alloc(), bodies)?;
    let (took, stored) = time_refusal(rt, service, at)?;
    print_times(
        rt,
        ("the hash of 256 MiB alone", alone),
        ("a refused close of 256 MiB", took),
    )?;
    println!(rt; "first byte of the hash: {}, stored: {stored}", hash[0])
}

/// Uploads a thousand numbers from `first` on, and gives how many were stored.
fn upload_thousand(rt: &HostRuntime, service: &mut Service, first: u32) -> io::Result<usize>
    requires { first ≤ 2 ^ 31 }
{
    let mut stored = 0usize;
    for i in 0..1_000u32 {
        if upload_number(service, rt.alloc(), first + i)? {
            stored = stored.saturating_add(1);
        }
    }
    Ok(stored)
}

/// Uploads a thousand numbers from `first` on, and gives the microseconds and how many were stored.
fn time_thousand(rt: &HostRuntime, service: &mut Service, first: u32) -> io::Result<(u64, usize)>
    requires { first ≤ 2 ^ 31 }
{
    let start = Instant::now(rt)?;
    let stored = upload_thousand(rt, service, first)?;
    Ok((micros_since(rt, start)?, stored))
}

/// 100,000 small blobs: the last thousand beside the first; and the memory that is kept.
pub(crate) fn measure_closes(rt: &HostRuntime, service: &mut Service) -> io::Result<()> {
    let before = resident(rt)?;
    let (first, _) = time_thousand(rt, service, 0)?;
    for k in 1..99u32 {
        upload_thousand(rt, service, k * 1_000)?;
    }
    let (last, stored) = time_thousand(rt, service, 99_000)?;
    let kept = resident(rt)?.saturating_sub(before);
    print_times(
        rt,
        ("the first thousand", first),
        ("the last thousand of 100,000 small blobs", last),
    )?;
    println!(rt; "stored: {stored}")?;
    print_blob_memory(rt, kept, 100_000)
}

/// Sends the session 100,000 chunks of one byte, and gives the microseconds.
fn time_drip(rt: &HostRuntime, service: &mut Service, at: UploadRef) -> io::Result<u64> {
    let start = Instant::now(rt)?;
    for _ in 0..100_000u32 {
        send(service, rt.alloc(), at, body_of(rt.alloc(), 1, 7)?)?;
    }
    micros_since(rt, start)
}

/// What a million chunks of one byte took: the microseconds of the first and of the last 100,000.
#[derive(Clone, Copy)]
struct Drip {
    first: u64,
    last: u64,
    /// Where the session stands behind them.
    offset: u64,
}

/// Opens a session, and sends it 1,000,000 chunks of one byte.
fn send_million(rt: &HostRuntime, service: &mut Service) -> io::Result<Drip> {
    let at = open(service, rt.alloc())?;
    let first = time_drip(rt, service, at)?;
    for _ in 1..9u32 {
        time_drip(rt, service, at)?;
    }
    let last = time_drip(rt, service, at)?;
    let offset = service.next_of(&at).unwrap_or(0);
    Ok(Drip {
        first,
        last,
        offset,
    })
}

/// 1,000,000 chunks of one byte: the last 100,000 beside the first, and the memory that is kept.
pub(crate) fn measure_drip(rt: &HostRuntime, service: &mut Service) -> io::Result<()> {
    let before = resident(rt)?;
    let drip = send_million(rt, service)?;
    let kept = resident(rt)?.saturating_sub(before);
    print_times(
        rt,
        ("the first 100,000", drip.first),
        (
            "the last 100,000 of 1,000,000 chunks of one byte",
            drip.last,
        ),
    )?;
    println!(rt; "offset: {}", drip.offset)?;
    print_memory(rt, kept, 1_000_000)
}
