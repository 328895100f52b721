//! A body that is being written.
ghost use Rattle.std.specs.Prelude.{◌≡◌, ◌⊎◌, ◌+◌, ◌-◌, ◌≤◌, ◌^◌, ◌++◌, min, length, false};
ghost use Rattle.std.specs.Prelude.{IfErr, OnOk, OnErr, IsTrue};
ghost use Rattle.sqlite_disk.specs.Disk.{MoreFaults, Only};
ghost use Rattle.bodies.specs.Faults.{Because};
ghost use Rattle.bodies.specs.Files.{IsEmpty};

use crate::fault::BodyFault;
use sqlite_disk::Disk;

const MAX_LEN: usize = 1 << 63;

/// A body that is being written, in the file of its number.
#[derive(Drop)]
pub struct Body<D: Disk> {
    number: u64,
    file: D,
    /// How many bytes it has.
    len: usize,
    is_open: bool,
    ghost usable: { IsTrue is_open → IsTrue (D.Disk.is_usable file) },
    ghost whole: { IsTrue is_open → len ≡ length (D.Disk.seen file) },
}

impl<D: Disk> Body<D> {
    ghost use Rattle.bodies.specs.Body.{number_of, bytes_of, is_open, file_of};

    /// A body of no bytes, in a file that is empty.
    pub fn new(number: u64, file: D) -> Body<D>
        requires { IsEmpty D.Disk file }
        ensures number { number_of result ≡ number }
        ensures file { file_of result ≡ file }
        ensures open { IsTrue (is_open result) }
    {
        Body {
            number,
            file,
            len: 0,
            is_open: true,
        }
    }

    pub fn number(&self) -> u64
        ensures { result ≡ number_of self.now }
    {
        self.number
    }

    /// Whether it may go on: no call has failed after which its file may have other bytes.
    pub fn is_open(&self) -> bool
        ensures { result ≡ is_open self.now }
    {
        self.is_open
    }

    /// Adds bytes at its end. At an error it has the bytes that it had. On a full disk it mostly stays open, and the
    /// same bytes may be tried again.
    ///
    /// `Ended` comes if it isn't open, `TooLong` if it would have 2^63 bytes or more, and `Io` if a write fails.
    pub fn append(&mut self, bytes: &[u8]) -> Result<(), BodyFault>
        ensures written { OnOk result (bytes_of self.new ≡ bytes_of self.old ++ bytes.now) }
        ensures err { OnErr result
            (IsTrue (is_open self.new) → bytes_of self.new ≡ bytes_of self.old) }
        ensures was_open { OnOk result (IsTrue (is_open self.old)) }
        ensures open { OnOk result (IsTrue (is_open self.new)) }
        ensures number { number_of self.new ≡ number_of self.old }
        ensures cause { IfErr result (Because ⊥ ⊥
            ((is_open self.old ≡ false) × (self.new ≡ self.old))
            ((2 ^ 63 ≤ length (bytes_of self.old) + length bytes.now) × (self.new ≡ self.old))
            (MoreFaults (D.Disk.faults (file_of self.old)) (D.Disk.faults (file_of self.new)))) }
        // It is closed only if the write failed and the file couldn't be cut back, which are two faults.
        ensures closes { IsTrue (is_open self.old) → IsTrue (is_open self.new)
            ⊎ (min (D.Disk.faults (file_of self.old) + 2) (2 ^ 64 - 1)
            ≤ D.Disk.faults (file_of self.new)) }
    {
        if !self.is_open {
            return Err(BodyFault::Ended);
        }
        if bytes.is_empty() {
            return Ok(());
        }
        let end = match self.len.checked_add(bytes.len()) {
            Some(end) if end < MAX_LEN => end,
            _ => return Err(BodyFault::TooLong),
        };
        if let Err(error) = self.file.write_at(self.len, bytes) {
            // Some of them may stand there.
            self.is_open = self.file.set_len(self.len).is_ok();
            return Err(BodyFault::Io(error));
        }
        self.len = end;
        Ok(())
    }

    /// Puts its bytes on the disk, and gives its file back.
    pub(crate) fn end(mut self) -> (D, Result<(), BodyFault>)
        ensures seen { D.Disk.seen result.0 ≡ bytes_of self }
        ensures stored { OnOk result.1 (Only (bytes_of self) (D.Disk.may_leave result.0)) }
        ensures cause { IfErr result.1 (Because ⊥ ⊥ (is_open self ≡ false) ⊥
            (MoreFaults (D.Disk.faults (file_of self)) (D.Disk.faults result.0))) }
    {
        if !self.is_open {
            return (self.file, Err(BodyFault::Ended));
        }
        match self.file.sync() {
            Ok(()) => (self.file, Ok(())),
            Err(error) => (self.file, Err(BodyFault::Io(error))),
        }
    }
}
