//! What was surveyed, as the entries of a new journal.
use crate::fault::CompactFault;
use crate::settling::copy_of;
use crate::survey::{Piece, Tables, Upload};
use crate::writer::{Noted, Writer, Written};
use journal::Journal;
use sqlite_disk::Disk;
use std::alloc::{AllocError, Global};
use std::collections::BTreeMap;
use upload_bytes::{Blob, Body};
use upload_journal::{BodyFile, MOST_HERE};
use upload_names::{BlobDigest, RepoName, UploadRef};
use upload_service::{Answer, Ask, Extent, Service};

/// The times of batches are rounded up to so many seconds, so that they are few.
const ROUND: u64 = 3_600;

/// A repository that has a blob.
#[derive(Drop)]
struct Holding {
    name: RepoName,
    digest: BlobDigest,
}

/// The files of blobs, and by which repository each is stored.
#[derive(Drop)]
struct Blobs {
    files: BTreeMap<BlobDigest, Vec<BodyFile>>,
    first: BTreeMap<BlobDigest, RepoName>,
}

/// The request by which a repository stores a blob, which is in files if there are any.
fn single_of(
    alloc: Global,
    holding: Holding,
    blob: &Blob,
    in_files: bool,
) -> Result<Noted, CompactFault> {
    let Holding { name, digest } = holding;
    let copy = if in_files {
        Vec::new(alloc)
    } else {
        copy_of(alloc, blob)?
    };
    let ask = Ask::Single {
        name,
        digest: Some(digest),
        body: Body::of(alloc, copy),
    };
    Ok(Noted {
        ask,
        secret: [0; 12],
        moment: 0,
    })
}

/// Writes the entry by which a blob is stored, for the first repository that has it.
fn put_blob<N: Disk + Drop>(
    writer: &mut Writer<N>,
    service: &Service,
    time: u64,
    holding: Holding,
    files: &[BodyFile],
) -> Result<(), CompactFault> {
    let alloc = writer.alloc;
    let digest = holding.digest;
    let name = holding.name.copy(alloc)?;
    let Some(blob) = service.blob(&digest) else {
        return Err(CompactFault::NotTheSame);
    };
    let noted = single_of(alloc, holding, blob, !files.is_empty())?;
    writer.put(time, &noted, files, &Answer::Stored { name, digest })
}

/// Writes the entry by which a repository has a blob: that by which it is stored, if it is the first one.
fn put_holding<N: Disk + Drop>(
    writer: &mut Writer<N>,
    service: &Service,
    time: u64,
    holding: Holding,
    blobs: &mut Blobs,
) -> Result<(), CompactFault> {
    let alloc = writer.alloc;
    if let Some(source) = blobs.first.get(&holding.digest) {
        let source = source.copy(alloc)?;
        return put_mount(alloc, writer, time, holding, source);
    }
    let digest = holding.digest;
    let name = holding.name.copy(alloc)?;
    match blobs.files.get(&digest) {
        Some(files) => put_blob(writer, service, time, holding, files.as_slice())?,
        None => put_blob(writer, service, time, holding, &[])?,
    }
    blobs.first.insert(digest, name)?;
    Ok(())
}

/// Writes the entries by which blobs are stored, in the order of their times.
fn put_blobs<N: Disk + Drop>(
    writer: &mut Writer<N>,
    service: &Service,
    files: BTreeMap<BlobDigest, Vec<BodyFile>>,
    groups: BTreeMap<u64, Vec<Holding>>,
) -> Result<(), CompactFault> {
    let mut blobs = Blobs {
        files,
        first: BTreeMap::new(writer.alloc),
    };
    for (time, group) in groups {
        for holding in group {
            put_holding(writer, service, time, holding, &mut blobs)?;
        }
    }
    Ok(())
}

/// The first moment at which one of the open uploads was last seen, or this one.
fn first_seen(service: &Service, uploads: &BTreeMap<UploadRef, Upload>, moment: u64) -> u64 {
    let mut first = moment;
    for (at, upload) in uploads.iter() {
        if service.next_of(at).is_some() {
            first = first.min(upload.seen);
        }
    }
    first
}

/// Uploads by the moment when they were last seen.
type BySeen = BTreeMap<u64, Vec<(UploadRef, Upload)>>;

/// Puts an upload among others.
fn put_seen(
    alloc: Global,
    open: &mut BySeen,
    at: UploadRef,
    upload: Upload,
) -> Result<(), AllocError> {
    if let Some(group) = open.get_mut(&upload.seen) {
        group.push((at, upload))?;
        return Ok(());
    }
    let seen = upload.seen;
    let mut group = Vec::new(alloc);
    group.push((at, upload))?;
    open.insert(seen, group)?;
    Ok(())
}

/// Writes the entries that open uploads, and gives these by the moments when they were last seen.
fn put_openings<N: Disk + Drop>(
    writer: &mut Writer<N>,
    service: &Service,
    time: u64,
    moment: u64,
    uploads: BTreeMap<UploadRef, Upload>,
) -> Result<BySeen, CompactFault> {
    let alloc = writer.alloc;
    let mut open = BySeen::new(alloc);
    let mut used: u32 = 0;
    for (at, upload) in uploads {
        if service.next_of(&at).is_none() {
            continue;
        }
        let before = at.number().saturating_sub(1);
        if before > used {
            writer.use_up(time, before)?;
        }
        used = at.number();
        put_opening(alloc, writer, time, &at, &upload, moment)?;
        put_seen(alloc, &mut open, at, upload)?;
    }
    Ok(open)
}

/// Writes the entries by which the uploads are open.
fn put_uploads<N: Disk + Drop>(
    writer: &mut Writer<N>,
    service: &Service,
    time: u64,
    moment: u64,
    uploads: BTreeMap<UploadRef, Upload>,
) -> Result<(), CompactFault> {
    let alloc = writer.alloc;
    let begun = first_seen(service, &uploads, moment);
    let open = put_openings(writer, service, time, begun, uploads)?;
    for (seen, group) in open {
        for (at, upload) in group {
            put_chunks(alloc, writer, time, at, upload, seen)?;
        }
    }
    Ok(())
}

/// Writes all entries.
fn put_all<N: Disk + Drop>(
    writer: &mut Writer<N>,
    service: &Service,
    moment: u64,
    tables: Tables,
    files: BTreeMap<BlobDigest, Vec<BodyFile>>,
) -> Result<(), CompactFault> {
    let Tables {
        alloc,
        limits: _limits,
        uploads,
        places: _places,
        holders,
    } = tables;
    let (groups, last) = by_time(alloc, holders)?;
    put_blobs(writer, service, files, groups)?;
    put_uploads(writer, service, last, moment, uploads)?;
    let issued = service.issued();
    writer.use_up(last, issued)?;
    writer.promise(last, moment)
}

/// Writes the entry by which another repository has a blob.
fn put_mount<N: Disk + Drop>(
    alloc: Global,
    writer: &mut Writer<N>,
    time: u64,
    holding: Holding,
    source: RepoName,
) -> Result<(), CompactFault> {
    let Holding { name, digest } = holding;
    let answer = Answer::Stored {
        name: name.copy(alloc)?,
        digest,
    };
    let ask = Ask::Mount {
        name,
        digest,
        source,
    };
    let noted = Noted {
        ask,
        secret: [0; 12],
        moment: 0,
    };
    writer.put(time, &noted, &[], &answer)
}

/// Writes the entry that opens an upload.
fn put_opening<N: Disk + Drop>(
    alloc: Global,
    writer: &mut Writer<N>,
    time: u64,
    at: &UploadRef,
    upload: &Upload,
    moment: u64,
) -> Result<(), CompactFault> {
    let ask = Ask::Opening {
        name: upload.name.copy(alloc)?,
    };
    let answer = Answer::Begun {
        name: upload.name.copy(alloc)?,
        at: *at,
    };
    let noted = Noted {
        ask,
        secret: upload.secret,
        moment,
    };
    writer.put(time, &noted, &[], &answer)
}

/// The chunks of one upload.
#[derive(Drop)]
struct Chunks<'a, N: Disk> {
    alloc: Global,
    writer: &'a mut Writer<N>,
    time: u64,
    at: UploadRef,
    name: RepoName,
    moment: u64,
    /// How many bytes were written.
    next: u64,
}

impl<'a, N: Disk + Drop> Chunks<'a, N> {
    /// Writes the entry of a chunk of so many bytes.
    fn put(&mut self, bytes: &[u8], files: &[BodyFile], len: u64) -> Result<(), CompactFault> {
        self.next = self.next.saturating_add(len);
        let body = Body::of(self.alloc, Vec::from_slice(self.alloc, bytes)?);
        let ask = Ask::Chunk {
            name: self.name.copy(self.alloc)?,
            at: self.at,
            range: Extent::Absent,
            body,
        };
        let answer = Answer::Taken {
            name: self.name.copy(self.alloc)?,
            at: self.at,
            next: self.next,
        };
        let noted = Noted {
            ask,
            secret: [0; 12],
            moment: self.moment,
        };
        self.writer.put(self.time, &noted, files, &answer)
    }
}

/// Writes the entries by which an upload has received its bytes, and was last seen at this moment.
fn put_chunks<N: Disk + Drop>(
    alloc: Global,
    writer: &mut Writer<N>,
    time: u64,
    at: UploadRef,
    upload: Upload,
    moment: u64,
) -> Result<(), CompactFault> {
    let Upload {
        name,
        secret: _secret,
        pieces,
        seen: _seen,
    } = upload;
    let mut chunks = Chunks {
        alloc,
        writer,
        time,
        at,
        name,
        moment,
        next: 0,
    };
    if pieces.is_empty() {
        return chunks.put(&[], &[], 0);
    }
    for piece in pieces.iter() {
        match piece {
            Piece::File(file) => chunks.put(&[], &[*file], file.len)?,
            Piece::Here(bytes) => {
                for some in bytes.as_slice().chunks(MOST_HERE) {
                    chunks.put(some, &[], some.len() as u64)?;
                }
            }
        }
    }
    Ok(())
}

/// A time, rounded up.
fn round_up(time: u64) -> u64 {
    let over = time % ROUND;
    if over == 0 {
        return time;
    }
    time.saturating_add(ROUND - over)
}

/// The repositories that have blobs, by the time when they got them, which is rounded up; and the last of these times.
fn by_time(
    alloc: Global,
    holders: BTreeMap<BlobDigest, BTreeMap<RepoName, u64>>,
) -> Result<(BTreeMap<u64, Vec<Holding>>, u64), AllocError> {
    let mut groups = BTreeMap::<u64, Vec<Holding>>::new(alloc);
    let mut last = 0;
    for (digest, names) in holders {
        for (name, time) in names {
            let time = round_up(time);
            last = time.max(last);
            let holding = Holding { name, digest };
            if let Some(group) = groups.get_mut(&time) {
                group.push(holding)?;
            } else {
                let mut group = Vec::new(alloc);
                group.push(holding)?;
                groups.insert(time, group)?;
            }
        }
    }
    Ok((groups, last))
}

/// Writes a service, as it was surveyed, into a new journal, whose blobs are in these files. The moment is that to go
/// on at.
pub fn write<N: Disk + Drop>(
    alloc: Global,
    service: &Service,
    moment: u64,
    fresh: Journal<N>,
    tables: Tables,
    files: BTreeMap<BlobDigest, Vec<BodyFile>>,
) -> Result<Written<N>, CompactFault> {
    let mut writer = Writer::begin(alloc, fresh)?;
    put_all(&mut writer, service, moment, tables, files)?;
    writer.finish()
}
