//! The bodies of an upload or of a blob, in order.
ghost use Rattle.std.specs.Prelude.{◌≡◌, ◌==◌};
ghost use Rattle.upload_claims.specs.Claims.{end_of};

use crate::change::Stretch;

/// How many bytes the bodies have together.
pub fn end_of(bodies: &[Stretch]) -> u64
    ensures { result ≡ end_of bodies.now }
{
    match bodies.last() {
        Some(last) => last.end,
        None => 0,
    }
}

/// Whether a body after so many bytes comes right after these.
pub fn is_next(bodies: &[Stretch], from: u64) -> bool
    ensures { result ≡ (end_of bodies.now == from) }
{
    end_of(bodies) == from
}
