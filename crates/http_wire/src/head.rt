//! Heads, read from a source of bytes.
ghost use Rattle.std.specs.Prelude.{◌≡◌, ◌+◌, ◌<◌, length, take, Err};
ghost use Rattle.http_wire.specs.Fronts.{line_feeds, HasNone};
ghost use Rattle.http_wire.specs.Reading.{Gave};
ghost use Rattle.http_wire.specs.Inputs.{ReadsAtMost, input_of};
ghost use Rattle.http_wire.specs.Inner.HeadReading.{Spans, AreLawful, Judges, JudgesAt, FindsHead};

use crate::bytes::ByteSource;
use crate::fault::InputFault;
use crate::input::Input;

/// The most bytes of a head, with its empty line.
pub const MAX_HEAD: usize = 16_384;

/// The most fields of a head.
pub const MAX_FIELDS: usize = 64;

/// What a prefix of the input is.
#[derive(Clone, Copy)]
pub enum Verdict<P> {
    /// It is a head.
    Complete(P),
    /// No head of the limits begins with it.
    Refused,
    /// It is no head yet.
    Open,
}

/// What stands at the front of the input.
#[derive(Clone, Copy)]
pub enum HeadRead<P> {
    /// The input has no more bytes.
    Over,
    /// No head.
    Refused,
    /// The most bytes of a head, and no head in them.
    TooLong,
    /// A head.
    Head(P),
}

/// A grammar of heads, and the parser that is asked for a verdict.
pub trait Grammar {
    /// Where the parts of a head are.
    type Parsed: Copy;

    // What the parser answers.
    ghost spans: { Spans Self.Parsed };

    /// Asks the parser for a verdict on a prefix of the input.
    fn judge(front: &[u8]) -> Verdict<Self::Parsed>
        ensures { Judges spans front.now result };
}

/// The verdict on the prefix that ends at a byte, if so many lines ended before it. A head ends in a line
/// feed, and one of 64 fields has 66 of them if no empty line stands in front of it: a prefix with as many
/// that is no head is given up, so that a hostile head costs at most 66 verdicts.
fn judge_at<G: Grammar>(text: &[u8], at: usize, lines: usize) -> Verdict<G::Parsed>
    requires lawful { AreLawful G.spans }
    requires in_range { at < length text.now }
    requires short { at < MAX_HEAD }
    requires counted { lines ≡ line_feeds (take at text.now) }
    requires none_before { HasNone G.spans.words (take at text.now) }
    ensures { JudgesAt G.spans text.now at result }
{
    if text[at] != b'\n' {
        return Verdict::Open;
    }
    let verdict = G::judge(&text[..at + 1]);
    if lines <= MAX_FIELDS {
        return verdict;
    }
    match verdict {
        Verdict::Open => Verdict::Refused,
        verdict => verdict,
    }
}

/// How many lines ended up to a byte, if so many ended before it.
pub fn lines_after(text: &[u8], at: usize, lines: usize) -> usize
    requires in_range { at < length text.now }
    requires short { at < MAX_HEAD }
    requires counted { lines ≡ line_feeds (take at text.now) }
    ensures { result ≡ line_feeds (take (at + 1) text.now) }
{
    if text[at] == b'\n' { lines + 1 } else { lines }
}

/// Reads a head, which isn't taken.
pub fn read_head<G: Grammar, S: ByteSource>(
    input: &mut Input<'_, S>,
) -> Result<HeadRead<G::Parsed>, InputFault>
    requires lawful { AreLawful G.spans }
    ensures gave { Gave (input_of S.state input.old) (S.state input.new.source.now)
        input.new.buffer.now }
    ensures found { FindsHead G.spans (input_of S.state input.new) result }
    ensures costs { ReadsAtMost S.state MAX_HEAD (result ≡ Err InputFault.Read)
        input.old input.new }
{
    let mut lines = 0;
    for at in 0..MAX_HEAD {
        if input.byte(at)?.is_none() {
            return if at == 0 {
                Ok(HeadRead::Over)
            } else {
                Err(InputFault::Truncated)
            };
        }
        match judge_at::<G>(input.unread(), at, lines) {
            Verdict::Complete(parsed) => return Ok(HeadRead::Head(parsed)),
            Verdict::Refused => return Ok(HeadRead::Refused),
            Verdict::Open => {}
        }
        lines = lines_after(input.unread(), at, lines);
    }
    Ok(HeadRead::TooLong)
}
