//! What the program prints, a line at a time, and its exit statuses.
ghost use Rattle.std.specs.Prelude.{IfSome, OnOk};
ghost use Rattle.std.specs.Io.KnownBytes.{Appends};
ghost use Rattle.blobd_shared.specs.Status.{IsPrinted, line};

use std::fmt::Display;
use std::io;
use std::io::Write;

/// The exit status if what the words asked for was done.
pub const DONE: u8 = 0;

/// The exit status if it was refused.
pub const REFUSED: u8 = 1;

/// The exit status if something that isn't the other side's answer went wrong.
pub const FAULT: u8 = 3;

fn put_line<W: Write, D: Display + Drop>(out: &mut W, text: D) -> io::Result<()>
    ensures { OnOk result (IfSome (D.output text)
        (λ bytes. Appends (W.contents out.old) (W.contents out.new) (line bytes))) }
{
    writeln!(out, "{text}")?;
    out.flush()
}

/// Prints a text as a line, and gives the exit status that goes with it: this one, or [`FAULT`] if the line can't be
/// printed.
pub fn print_line<W: Write, D: Display + Drop>(out: &mut W, text: D, status: u8) -> u8
    ensures { IsPrinted (D.output text) (W.contents out.old) (W.contents out.new) status result }
{
    match put_line(out, text) {
        Ok(()) => status,
        Err(_) => FAULT,
    }
}
