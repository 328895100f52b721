//! The standard streams, whose numbers no other file and no socket gets.

use std::fs::OpenOptions;
use std::io;
use std::os::fd::{AsFd, IntoRawFd};

/// What Linux answers to a call with the number of a closed descriptor.
const EBADF: i32 = 9;

/// What is opened in place of a closed stream.
const NULL: &str = "/dev/null";

/// Whether the descriptor is closed: the system makes no other one of it.
fn is_closed<F: AsFd>(stream: &F) -> bool {
    match stream.as_fd().try_clone_to_owned() {
        Ok(_) => false,
        Err(error) => error.raw_os_error() == Some(EBADF),
    }
}

/// Opens `/dev/null` under the lowest number that is free, for as long as the program runs.
fn hold_lowest(rt: &HostRuntime, options: &OpenOptions) -> io::Result<()> {
    let _number = options.open(rt, NULL)?.into_raw_fd();
    Ok(())
}

/// Holds the numbers of the standard streams that are closed. Else the next socket got such a number, and what is
/// written to standard error would go to a client. Reads and writes of a stream that was closed fail as before.
///
/// An error comes if `/dev/null` can't be opened for a stream that is closed.
pub fn hold_standard_streams(rt: &HostRuntime) -> io::Result<()> {
    // In this order the number of each is the lowest that is free.
    if is_closed(&rt.stdin()) {
        hold_lowest(rt, OpenOptions::new().write(true))?;
    }
    if is_closed(&rt.stdout()) {
        hold_lowest(rt, OpenOptions::new().read(true))?;
    }
    if is_closed(&rt.stderr()) {
        hold_lowest(rt, OpenOptions::new().read(true))?;
    }
    Ok(())
}
