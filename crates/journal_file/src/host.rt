//! The calls of one open file. Each method makes the call of the system that it notes, and no other.
ghost use Rattle.std.specs.Prelude.{◌≡◌, ◌<◌, ◌≤◌, ◌^◌, true, [], ◌∷◌, length, IfOk};
ghost use Rattle.sqlite_disk.specs.Events.{settled};
ghost use Rattle.sqlite_disk.specs.Refusal.{finds_no_room, as_number};

use crate::notes::Notes;
use sqlite_disk::{Calls, is_no_room};
use std::os::fd::AsRawFd;
use std::os::unix::fs::FileExt;
use std::{fs, io};

/// A call with its answer, as `sqlite_disk` reads it: which call, an offset or a length, a count, whether it
/// succeeded, and bytes.
type Event = (u64, u64, u64, bool, Notes<u64>);

const SETTLED: u64 = 0;

const MEASURED: u64 = 1;

const READ: u64 = 2;

const WRITTEN: u64 = 3;

const CUT: u64 = 4;

const FLUSHED: u64 = 5;

const READ_UNDER: u64 = 6;

/// An open file of the system, and the record of its calls.
#[derive(Drop)]
pub struct Host {
    file: fs::File,
    calls: Notes<Event>,
}

impl Host {
    /// Syncs the file and then its folder, so that the disk has both as they are. The kernel's copies of its pages go:
    /// a sync that failed in an earlier process may have left them other than the disk has them.
    pub(crate) fn settle(file: fs::File, folder: &fs::File) -> io::Result<Host>
        ensures { IfOk result (λ host. host.calls ≡ settled 0 ∷ []) }
    {
        file.sync_all()?;
        let advised = libc::posix_fadvise(file.as_raw_fd(), 0, 0, libc::POSIX_FADV_DONTNEED);
        if advised != 0 {
            return Err(io::Error::from_raw_os_error(advised));
        }
        folder.sync_all()?;
        Ok(Host::made(file))
    }

    /// A file that this process has just made. It is empty, and needs no sync for that.
    pub(crate) fn made(file: fs::File) -> Host
        ensures { result.calls ≡ settled 0 ∷ [] }
    {
        let settled = (SETTLED, 0, 0, true, Notes::none());
        Host {
            file,
            calls: Notes::none().and(&settled),
        }
    }

    /// A file of which nothing is known but what reads give: what they give may not be on the disk.
    pub(crate) fn found(file: fs::File) -> Host
        ensures { result.calls ≡ settled 0 ∷ [] }
    {
        Host::made(file)
    }

    fn note(&mut self, call: u64, at: usize, count: usize, ok: bool, bytes: Notes<u64>)
        ensures { self.new.calls ≡ (call, at, count, ok, bytes) ∷ self.old.calls }
    {
        let event = (call, at as u64, count as u64, ok, bytes);
        self.calls = self.calls.and(&event);
    }

    fn measure(&self) -> io::Result<usize> {
        Ok(self.file.metadata()?.len() as usize)
    }

    /// A read of at least one byte.
    fn read(&self, at: usize, buf: &mut [u8]) -> io::Result<usize>
        ensures { IfOk result (λ n. (0 < n) × (n ≤ length buf.old) × (at < 2 ^ 63)) }
    {
        match self.file.read_at(buf, offset(at)?)? {
            0 => Err(io::ErrorKind::UnexpectedEof.into()),
            n => Ok(n),
        }
    }

    /// A write of at least one byte.
    fn write(&self, at: usize, bytes: &[u8]) -> io::Result<usize>
        ensures { IfOk result (λ n. (0 < n) × (n ≤ length bytes.now) × (at < 2 ^ 63)) }
    {
        match self.file.write_at(bytes, offset(at)?)? {
            0 => Err(io::ErrorKind::WriteZero.into()),
            n => Ok(n),
        }
    }
}

/// An offset as the system has it, which is below 2^63.
fn offset(at: usize) -> io::Result<u64>
    ensures { IfOk result (λ offset. (offset ≡ at) × (at < 2 ^ 63)) }
{
    if at >= 1 << 63 {
        return Err(io::ErrorKind::InvalidInput.into());
    }
    Ok(at as u64)
}

/// 1 if the disk had no room, else 0, as an event has it.
fn refusals<T>(answer: &io::Result<T>) -> usize
    ensures { result ≡ as_number (finds_no_room answer.now) }
{
    match answer {
        Err(error) if is_no_room(error) => 1,
        _ => 0,
    }
}

impl Calls for Host {
    ghost history = { λ host. host.calls };

    fn len(&mut self) -> io::Result<usize> {
        let answer = self.measure();
        match answer {
            Ok(len) => self.note(MEASURED, len, 0, true, Notes::none()),
            Err(_) => self.note(MEASURED, 0, 0, false, Notes::none()),
        }
        answer
    }

    fn read_some(&mut self, at: usize, buf: &mut [u8]) -> io::Result<usize> {
        let answer = self.read(at, buf);
        match answer {
            Ok(n) => self.note(READ, at, buf.len(), true, Notes::of_bytes(&buf[..n])),
            Err(_) => self.note(READ, at, buf.len(), false, Notes::none()),
        }
        answer
    }

    fn read_under(&mut self, key: u64, want: u64, at: usize, buf: &mut [u8]) -> io::Result<usize> {
        let answer = self.read(at, buf);
        let read = match answer {
            Ok(n) => Notes::of_bytes(&buf[..n]),
            Err(_) => Notes::none(),
        };
        self.note(
            READ_UNDER,
            at,
            buf.len(),
            answer.is_ok(),
            read.and(&want).and(&key),
        );
        answer
    }

    fn write_some(&mut self, at: usize, bytes: &[u8]) -> io::Result<usize> {
        let answer = self.write(at, bytes);
        let taken = match answer {
            Ok(n) => n,
            Err(_) => refusals(&answer),
        };
        self.note(WRITTEN, at, taken, answer.is_ok(), Notes::of_bytes(bytes));
        answer
    }

    fn resize(&mut self, len: usize) -> io::Result<()> {
        let answer = self.file.set_len(len as u64);
        self.note(CUT, len, refusals(&answer), answer.is_ok(), Notes::none());
        answer
    }

    fn sync(&mut self) -> io::Result<()> {
        let answer = self.file.sync_data();
        self.note(FLUSHED, 0, refusals(&answer), answer.is_ok(), Notes::none());
        answer
    }
}
