//! Where the parts of a reply's head are.
ghost use Rattle.std.specs.Prelude.{◌≤◌};

use httparse::spans::{HeaderSpan, ResponseSpans};

/// Where the parts of a head are: of its 64 places for fields the first `spans.headers` count.
#[derive(Clone, Copy)]
pub struct ParsedResponse {
    pub spans: ResponseSpans,
    pub headers: [HeaderSpan; 64],
    ghost count_fits: { spans.headers ≤ 64 },
}
