//! How long a push waits before it asks again, and before it dials again.
ghost use Rattle.std.specs.Prelude.{◌≡◌, ◌+◌, ◌≤◌, IfSome};
ghost use Rattle.blobd_push.specs.Pauses.{dial_pause, pause_after};

use upload_client::Heard;

/// How long a push waits after its first request that wasn't heard, in milliseconds.
const FIRST_PAUSE: u64 = 100;

/// How long it waits at most.
const LONGEST_PAUSE: u64 = 2_000;

/// How long a request is dialed for while nobody listens, in milliseconds.
pub(crate) const DIALED_MILLIS: u64 = 60_000;

/// The shortest wait between two of these dials, in milliseconds.
const FIRST_DIAL_PAUSE: u64 = 100;

/// The longest one.
const LONGEST_DIAL_PAUSE: u64 = 1_000;

/// The status of a server that can't serve now, which counts as nothing heard.
const UNAVAILABLE: u16 = 503;

/// How long to wait before the next request, in milliseconds, if that was `before` this one: not at all once
/// something is heard, and else twice as long.
pub(crate) fn pause_after(heard: &Option<Heard>, before: u64) -> u64
    ensures { result ≡ pause_after heard.now before }
{
    match heard {
        Some(heard) if heard.status != UNAVAILABLE => 0,
        _ => before.saturating_mul(2).clamp(FIRST_PAUSE, LONGEST_PAUSE),
    }
}

/// If nobody listens: how long to wait before the next dial of a request, in milliseconds, once this long has passed
/// since the first. It is as long as has passed, within bounds; `None` once a minute has passed.
pub(crate) fn dial_pause(passed: u64) -> Option<u64>
    ensures value { result ≡ dial_pause passed }
    ensures within { IfSome result (λ pause. (1 ≤ pause) × (passed + pause ≤ DIALED_MILLIS)) }
{
    let left = DIALED_MILLIS.saturating_sub(passed);
    let pause = passed.clamp(FIRST_DIAL_PAUSE, LONGEST_DIAL_PAUSE);
    (left > 0).then_some(pause.min(left))
}
