//! How long ago a moment was.
use std::rt::Clock;
use std::time::Instant;

/// How many milliseconds have passed since a moment: none if there is no such moment or the clock can't be read, and
/// the greatest number there is if they are more.
pub fn millis_since<R: Clock>(rt: &R, begun: Option<Instant>) -> u64 {
    let Some(begun) = begun else {
        return 0;
    };
    match begun.elapsed(rt) {
        Ok(passed) => u64::try_from(passed.as_millis()).unwrap_or(u64::MAX),
        Err(_) => 0,
    }
}
