//! The two halves of a connection of a push: a signal ends no read and no write, and what goes wrong is noted.
ghost use Rattle.std.specs.Prelude.{◌≡◌, ◌≢◌, ◌≤◌, [], length, IfErr, IfOk};
ghost use Rattle.std.specs.IoError.{error_kind};
ghost use Rattle.blobd_shared.specs.Connections.{ReadGives, WriteTakes};

use crate::notes::Notes;
use blobd_shared::{Counted, Inlet, Outlet};
use std::io;
use std::io::ErrorKind;

/// One half of a connection. What goes wrong is noted, the first trouble of a request alone.
#[derive(Drop)]
pub(crate) struct Half<'n, S> {
    stream: S,
    notes: &'n Notes,
    /// Whether a byte was read.
    begun: bool,
}

/// Such a half as a source or a sink of bytes.
pub(crate) type CountedHalf<'n, S> = Counted<Half<'n, S>>;

/// Reads, and again if a signal ended the read. What it gives is what the stream gave.
fn read_through<S: Inlet>(stream: &mut S, buf: &mut [u8]) -> io::Result<usize>
    ensures bound { IfOk result (λ n. n ≤ length buf.new) }
    ensures told { ReadGives (S.given stream.old) (S.given stream.new) result buf.new }
    ensures through { IfErr result (λ error. error_kind error ≢ ErrorKind.Interrupted) }
{
    for _ in 0..u64::MAX {
        match stream.read(buf) {
            Err(error) if error.kind() == ErrorKind::Interrupted => {}
            result => return result,
        }
    }
    Err(io::Error::from(ErrorKind::TimedOut))
}

/// Writes, and again if a signal ended the write. What it takes is what the stream took.
fn write_through<S: Outlet>(stream: &mut S, buf: &[u8]) -> io::Result<usize>
    ensures bound { IfOk result (λ n. n ≤ length buf.now) }
    ensures told { WriteTakes (S.taken stream.old) (S.taken stream.new) result buf.now }
    ensures through { IfErr result (λ error. error_kind error ≢ ErrorKind.Interrupted) }
{
    for _ in 0..u64::MAX {
        match stream.write(buf) {
            Err(error) if error.kind() == ErrorKind::Interrupted => {}
            result => return result,
        }
    }
    Err(io::Error::from(ErrorKind::TimedOut))
}

impl<'n, S: Inlet> Inlet for Half<'n, S> {
    ghost given = { λ h. S.given h.stream };

    fn read(&mut self, buf: &mut [u8]) -> io::Result<usize> {
        match read_through(&mut self.stream, buf) {
            Ok(count) => {
                self.notes.note_read(!self.begun, &buf[..count]);
                self.begun = self.begun || count > 0;
                Ok(count)
            }
            Err(error) => {
                self.notes.note_error(&error);
                Err(error)
            }
        }
    }
}

impl<'n, S: Outlet> Outlet for Half<'n, S> {
    ghost taken = { λ h. S.taken h.stream };

    fn write(&mut self, buf: &[u8]) -> io::Result<usize> {
        match write_through(&mut self.stream, buf) {
            Ok(count) => Ok(count),
            Err(error) => {
                self.notes.note_error(&error);
                Err(error)
            }
        }
    }

    fn flush(&mut self) -> io::Result<()> {
        self.stream.flush()
    }
}

/// A half over a stream, with no call counted.
pub(crate) fn counted<'n, S>(stream: S, notes: &'n Notes) -> CountedHalf<'n, S>
    ensures stream { result.end.stream ≡ stream }
    ensures uncalled { (result.calls ≡ []) × (result.failed ≡ []) × (result.unflushed ≡ []) }
{
    Counted::new(Half {
        stream,
        notes,
        begun: false,
    })
}

/// The stream of a half, with what moved over it.
pub(crate) fn stream_of<'n, S>(half: CountedHalf<'n, S>) -> S
    ensures { result ≡ half.entry.end.stream }
{
    let Half { stream, .. } = half.into_end();
    stream
}
