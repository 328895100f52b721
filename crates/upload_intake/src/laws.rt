//! What follows from the contracts of the parts.
ghost use Rattle.upload_intake.specs.Determined.{ServedOrdersAreDetermined};
ghost use Rattle.upload_intake.specs.SeatConversations.{ConversationsFillTheSeat};
ghost use Rattle.upload_intake.specs.Transcripts.{TranscriptsTellConnections};
ghost use Rattle.upload_intake.specs.Pools.Working.{lending, means};

use crate::lent::{Conns, Gate, Secrets};
use upload_wire::Observer;

/// Of every conversation over a seat with these secrets: its asks, in order, are what was added to what the seat sent,
/// and its answers are what was added to what it heard. The last ask was given back unsent, or got no answer, if the
/// desk was gone.
pub fn conversations_fill_the_seat<S: Secrets>()
    ensures { ConversationsFillTheSeat S.draws }
{}

/// If a worker is given connections on which nothing was read or written, the transcripts of each connection that it
/// served tell all: its reads gave what its conversation read, its writes took what its conversation wrote, and nothing
/// else.
pub fn transcripts_tell_connections<C: Conns, S: Secrets, G: Gate, O: Observer>()
    ensures { TranscriptsTellConnections
        (means (lending C.gives C.takes_back C.In.state C.Out.state) S.draws G.watches O.told) }
{}

/// Two services that begin in the same state, and serve the same jobs of the same seats in the same order, with the
/// same secrets and at the same moments, give the same answers and are left the same, unless memory was out. So
/// what a worker's conversations asked and were answered is determined by that order, if its desk wasn't gone.
pub fn served_orders_are_determined()
    ensures { ServedOrdersAreDetermined }
{}
