//! What the journal of a data directory begins with.
ghost use Rattle.std.specs.Prelude.{◌≡◌, ◌+◌, length, take};
ghost use Rattle.journal.specs.Line.{line_bytes, line_text};
ghost use Rattle.blobd_data.specs.Line.{parameters_of};

use journal::Line;
use upload_service::Limits;

/// What the records are.
const NAME: [u8; 8] = *b"uploads\n";

/// The version of their format.
const VERSION: u64 = 2;

/// How many bytes the parameters have.
const LENGTH: usize = 48;

fn parameters(limits: Limits) -> [u8; LENGTH]
    ensures { result ≡ parameters_of limits }
{
    let mut text = [0; LENGTH];
    text[..8].copy_from_slice(&NAME);
    text[8..16].copy_from_slice(&VERSION.to_be_bytes());
    text[16..24].copy_from_slice(&limits.max_blob.to_be_bytes());
    text[24..32].copy_from_slice(&limits.max_body.to_be_bytes());
    text[32..40].copy_from_slice(&u64::from(limits.max_open).to_be_bytes());
    text[40..].copy_from_slice(&limits.max_idle.to_be_bytes());
    text
}

/// The first line of the journal of a service with these limits. It says what the records are, and the version of their
/// format; a journal with another version or other limits has another line, so that it is refused. Its answers would
/// come out otherwise.
pub fn line_of(limits: Limits) -> Line
    ensures { take (32 + 48) (line_bytes result) ≡ line_text (parameters_of limits) }
{
    match Line::new(&parameters(limits)) {
        Some(line) => line,
        None => unreachable!(),
    }
}
