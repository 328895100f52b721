//! A method and a target as a log shows them: in visible ASCII alone, so that they are nothing to a terminal and end no
//! line.
ghost use Rattle.std.specs.Prelude.{◌≡◌, ◌++◌, ◌<◌, take, OnOk, IfOk};
ghost use Rattle.std.specs.List.{flat_map};
ghost use Rattle.blobd_serve.specs.Shown.{digit, escape, is_plain, shown_byte, shown_request};

use std::alloc::{AllocError, Global};

/// The most bytes that are shown of a method, and of a target.
const MOST_SHOWN: usize = 1_000;

fn digit(value: u8) -> u8
    requires { value < 16 }
    ensures { result ≡ digit value }
{
    if value < 10 {
        b'0' + value
    } else {
        b'a' - 10 + value
    }
}

fn escape(byte: u8) -> [u8; 4]
    ensures { result ≡ escape byte }
{
    [b'\\', b'x', digit(byte / 16), digit(byte % 16)]
}

fn is_plain(byte: u8) -> bool
    ensures { result ≡ is_plain byte }
{
    byte.is_ascii_graphic() && !matches!(byte, b'\\' | b'"')
}

fn push_byte(line: &mut Vec<u8>, byte: u8) -> Result<(), AllocError>
    ensures { OnOk result (line.new.items ≡ line.old.items ++ shown_byte byte) }
{
    if is_plain(byte) {
        line.push(byte)?;
    } else {
        line.extend_from_slice(&escape(byte))?;
    }
    Ok(())
}

/// What is shown of a text.
fn front(text: &[u8]) -> &[u8]
    ensures { result.now ≡ take 1000 text.now }
{
    if text.len() <= MOST_SHOWN {
        text
    } else {
        &text[..MOST_SHOWN]
    }
}

fn push_text(line: &mut Vec<u8>, text: &[u8]) -> Result<(), AllocError>
    ensures { OnOk result (line.new.items ≡ line.old.items ++ flat_map shown_byte text.now) }
{
    for byte in text {
        push_byte(line, *byte)?;
    }
    Ok(())
}

/// The method and the target of a request as a log shows them: the first 1,000 bytes of each, and `\x` with two digits
/// in place of each byte that isn't visible ASCII, or is a backslash or a quote. An error is out of memory.
pub(crate) fn shown_request(
    alloc: Global,
    method: &[u8],
    target: &[u8],
) -> Result<Vec<u8>, AllocError>
    ensures { IfOk result (λ line. line.items ≡ shown_request method.now target.now) }
{
    let mut line = Vec::new(alloc);
    push_text(&mut line, front(method))?;
    line.push(b' ')?;
    push_text(&mut line, front(target))?;
    Ok(line)
}
