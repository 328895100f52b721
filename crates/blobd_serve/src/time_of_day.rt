//! The time of day as a log shows it.
use blobd_shared::TimeOfDay;
use std::alloc::{AllocError, Global};
use std::rt::Clock;
use std::time::{SystemTime, UNIX_EPOCH};

/// The seconds since the start of 1970, or 0 if no time can be told.
fn seconds_of_day<R: Clock>(rt: &R) -> u64 {
    match SystemTime::now(rt) {
        Ok(now) => now
            .duration_since(UNIX_EPOCH)
            .map_or(0, |passed| passed.as_secs()),
        Err(_) => 0,
    }
}

/// The time of day now. An error is out of memory.
pub(crate) fn time_now<R: Clock>(rt: &R, alloc: Global) -> Result<String, AllocError> {
    format!(in alloc; "{}", TimeOfDay(seconds_of_day(rt)))
}
