//! Chunked bodies (RFC 9112, section 7.1), read chunk by chunk. A size line has 1 to 8 hexadecimal digits and
//! no extension, and no trailer stands behind the last one.
ghost use Rattle.std.specs.Prelude.{◌≡◌, ℕ, ◌+◌, ◌*◌, ◌-◌, ◌^◌, ◌<◌, ◌≤◌, List, [], ◌∷◌, ◌++◌, length, Ok, Err};
ghost use Rattle.std.specs.Prelude.{MatchOption, IsFalse, true};
ghost use Rattle.std.specs.Char.{is_ascii_hexdigit, digit_value};
ghost use Rattle.http_wire.specs.Counts.{CountsAtMost};
ghost use Rattle.http_wire.specs.Inputs.{ReadsAtMost, input_of};
ghost use Rattle.http_wire.specs.Inner.SizeLines.{StandsAt, StepSays, IsBounded};
ghost use Rattle.http_wire.specs.Inner.ChunkReading.{FindsLine, FindsEnd, FindsChunk};
ghost use Rattle.http_wire.specs.Inner.BodyFinding.{FindsBody};
ghost use Rattle.http_wire.specs.Inner.BodyReading.{body_state};

use crate::body::{BodyBuffer, BodyEnd, Framing, read_bytes};
use crate::bytes::ByteSource;
use crate::fault::{Bad, BodyFault, InputFault};
use crate::input::Input;

/// What was read of a size line.
#[derive(Clone, Copy)]
pub enum LineState {
    /// So many digits, and their value.
    Digits(u8, u64),
    /// The digits' value, and the CR behind them.
    Ended(u64),
}

/// What one more byte makes of a size line.
#[derive(Clone, Copy)]
pub enum LineStep {
    More(LineState),
    Whole(u64),
    Broken,
}

/// A size line that was read.
#[derive(Clone, Copy)]
pub enum LineRead {
    Size(u64),
    /// A byte came after which nothing makes it a size line.
    Broken,
}

/// A chunk that was read.
#[derive(Clone, Copy, Debug, PartialEq, Eq)]
pub enum ChunkRead {
    /// A chunk with data.
    More,
    /// The end.
    Last,
    /// Neither: `TooLarge` if its size takes the body over the limit, and else `Chunks`.
    Refused(Bad),
}

/// The value of a hexadecimal digit.
fn hex_value(byte: u8) -> Option<u64>
    ensures { MatchOption result (IsFalse (is_ascii_hexdigit byte))
        (λ v. (is_ascii_hexdigit byte ≡ true) × (v ≡ digit_value byte) × (v < 16)) }
{
    match byte {
        b'0'..=b'9' => Some(u64::from(byte - b'0')),
        b'a'..=b'f' => Some(u64::from(byte - b'a') + 10),
        b'A'..=b'F' => Some(u64::from(byte - b'A') + 10),
        _ => None,
    }
}

/// A size line with one more byte.
fn line_step(state: LineState, byte: u8) -> LineStep
    requires { IsBounded state }
    ensures { (front : List ℕ) → StandsAt front state → StepSays (front ++ byte ∷ []) result }
{
    match state {
        LineState::Ended(value) => {
            if byte == b'\n' {
                LineStep::Whole(value)
            } else {
                LineStep::Broken
            }
        }
        LineState::Digits(count, value) => {
            if byte == b'\r' {
                if count == 0 {
                    LineStep::Broken
                } else {
                    LineStep::More(LineState::Ended(value))
                }
            } else if count == 8 {
                LineStep::Broken
            } else {
                match hex_value(byte) {
                    Some(digit) => LineStep::More(LineState::Digits(count + 1, value * 16 + digit)),
                    None => LineStep::Broken,
                }
            }
        }
    }
}

/// Reads a size line, and takes it.
fn read_line<S: ByteSource>(input: &mut Input<'_, S>) -> Result<LineRead, InputFault>
    ensures found { FindsLine (input_of S.state input.old) (input_of S.state input.new) result }
    ensures costs { ReadsAtMost S.state 10 (result ≡ Err InputFault.Read) input.old input.new }
{
    let mut state = LineState::Digits(0, 0);
    for at in 0..10usize {
        let Some(byte) = input.byte(at)? else {
            return Err(InputFault::Truncated);
        };
        match line_step(state, byte) {
            LineStep::More(next) => state = next,
            LineStep::Whole(size) => {
                input.take(at + 1);
                return Ok(LineRead::Size(size));
            }
            LineStep::Broken => return Ok(LineRead::Broken),
        }
    }
    unreachable!()
}

/// Reads a line end, CR LF, and takes it. `false`: a byte came that isn't one of it.
fn read_line_end<S: ByteSource>(input: &mut Input<'_, S>) -> Result<bool, InputFault>
    ensures found { FindsEnd (input_of S.state input.old) (input_of S.state input.new) result }
    ensures costs { ReadsAtMost S.state 2 (result ≡ Err InputFault.Read) input.old input.new }
{
    let Some(first) = input.byte(0)? else {
        return Err(InputFault::Truncated);
    };
    if first != b'\r' {
        return Ok(false);
    }
    let Some(second) = input.byte(1)? else {
        return Err(InputFault::Truncated);
    };
    if second != b'\n' {
        return Ok(false);
    }
    input.take(2);
    Ok(true)
}

/// Reads one chunk and adds its data to the body, or reads the end.
fn read_chunk<S: ByteSource, B: BodyBuffer>(
    input: &mut Input<'_, S>,
    body: &mut B,
    room: u64,
) -> Result<ChunkRead, BodyFault>
    requires { room ≤ 2 ^ 31 }
    ensures found { FindsChunk room (body_state (input_of S.state input.old) (B.bytes body.old))
        (body_state (input_of S.state input.new) (B.bytes body.new)) result }
    ensures costs { ReadsAtMost S.state (12 + room) (result ≡ Err BodyFault.Read)
        input.old input.new }
    ensures few { result ≡ Ok ChunkRead.More
        → CountsAtMost (S.state input.old.source.now).reads (S.state input.new.source.now).reads
        (12 + (length (B.bytes body.new) - length (B.bytes body.old))) }
{
    let LineRead::Size(size) = read_line(input)? else {
        return Ok(ChunkRead::Refused(Bad::Chunks));
    };
    if size > room {
        return Ok(ChunkRead::Refused(Bad::TooLarge));
    }
    read_bytes(input, body, size as usize)?;
    if !read_line_end(input)? {
        return Ok(ChunkRead::Refused(Bad::Chunks));
    }
    if size == 0 {
        Ok(ChunkRead::Last)
    } else {
        Ok(ChunkRead::More)
    }
}

/// Reads chunks up to the end, and puts their data, of at most so many bytes, into an empty buffer.
pub fn read_chunks<S: ByteSource, B: BodyBuffer>(
    input: &mut Input<'_, S>,
    body: &mut B,
    most: u64,
) -> Result<BodyEnd, BodyFault>
    requires limit { most ≤ 2 ^ 31 }
    requires empty { B.bytes body.old ≡ [] }
    ensures found { FindsBody (Framing.Chunked most) (input_of S.state input.old)
        (input_of S.state input.new) (B.bytes body.new) result }
    ensures costs { ReadsAtMost S.state (12 + 13 * most) (result ≡ Err BodyFault.Read)
        input.old input.new }
{
    // Each chunk but the last has a byte, so there are at most one more than the most bytes of a body.
    for _chunk in 0..most + 1 {
        let room = most - body.len() as u64;
        match read_chunk(input, body, room)? {
            ChunkRead::More => {}
            ChunkRead::Last => return Ok(BodyEnd::Whole),
            ChunkRead::Refused(bad) => return Ok(BodyEnd::Refused(bad)),
        }
    }
    unreachable!()
}
