//! What is noted of a request before the step that takes it.
ghost use Rattle.std.specs.Prelude.{◌≡◌};
ghost use Rattle.upload_keeper.specs.Safety.{asked};

use std::marker::Model;
use std::snapshot::Snapshot;
use upload_names::UploadRef;
use upload_service::{Ask, Extent, Service};

/// A request that was noted. Contracts see it, with its secret and its moment.
#[derive(Drop)]
pub(crate) struct Note {
    ask: Snapshot<Ask>,
    secret: [u8; 12],
    moment: u64,
}

impl Model for Note {
    ghost use Rattle.upload_keeper.specs.Safety.{Asked, asked};

    ghost Value = { Asked };

    ghost view = { λ n. asked n.ask.value n.secret n.moment };
}

impl Note {
    pub(crate) fn of(ask: &Ask, secret: [u8; 12], moment: u64) -> Note
        ensures { result ≡ asked ask.now secret moment }
    {
        Note {
            ask: Snapshot::of(ask),
            secret,
            moment,
        }
    }
}

/// Whether a request may change something, by what it is and by where its session stands: else nothing is made ready
/// for it. It takes no memory, and hashes nothing.
pub(crate) fn may_change(service: &Service, ask: &Ask) -> bool {
    match ask {
        Ask::Opening { .. } | Ask::Mount { .. } => true,
        Ask::Single { digest, .. } => digest.is_some(),
        Ask::Chunk { at, range, .. } => may_fit(service, at, *range),
        Ask::Close {
            at,
            range,
            digest,
            ..
        } => digest.is_some() && may_fit(service, at, *range),
        Ask::Base | Ask::Has { .. } | Ask::Status { .. } | Ask::Refused(_) => false,
    }
}

/// Whether a body with this range may go behind what its session received.
fn may_fit(service: &Service, at: &UploadRef, range: Extent) -> bool {
    match (service.next_of(at), range) {
        (Some(_), Extent::Absent) => true,
        (Some(next), Extent::Given(range)) => range.first == next,
        (None, _) | (_, Extent::Bad) => false,
    }
}
