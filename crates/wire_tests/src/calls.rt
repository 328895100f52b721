//! std's readers and writers behind a source and a sink: a call that fails is told, and isn't made again.

use crate::expect::same;
use http_wire::{ByteSink, ByteSource, Failed, FromRead, ToWrite};
use std::io;
use std::io::{ErrorKind, Read, Write};

/// A stream of which the first call is interrupted, and no other.
#[derive(Drop)]
struct Stumbling {
    has_failed: bool,
}

impl Stumbling {
    fn call(&mut self) -> io::Result<()> {
        if self.has_failed {
            return Ok(());
        }
        self.has_failed = true;
        Err(io::Error::from(ErrorKind::Interrupted))
    }
}

impl Read for Stumbling {
    fn read(&mut self, _buf: &mut [u8]) -> io::Result<usize> {
        self.call()?;
        Ok(0)
    }
}

impl Write for Stumbling {
    fn write(&mut self, buf: &[u8]) -> io::Result<usize> {
        self.call()?;
        Ok(buf.len())
    }

    fn flush(&mut self) -> io::Result<()> {
        self.call()
    }
}

#[test]
fn a_call_that_fails_is_made_once(rt: HostRuntime) {
    let mut source = FromRead::new(Stumbling { has_failed: false });
    let reads = [source.read(&mut [0u8; 4]), source.read(&mut [0u8; 4])];
    same(&rt, reads, [Err(Failed), Ok(0)], &"reads");
    let mut sink = ToWrite::new(Stumbling { has_failed: false });
    let writes = [sink.write(b"ab"), sink.write(b"ab")];
    same(&rt, writes, [Err(Failed), Ok(2)], &"writes");
    let mut sink = ToWrite::new(Stumbling { has_failed: false });
    same(
        &rt,
        [sink.flush(), sink.flush()],
        [Err(Failed), Ok(())],
        &"flushes",
    );
}
