//! What follows from the contracts of the parts.
ghost use Rattle.upload_wire.specs.ConnectionRuns.{ConversationsRunTheService};
ghost use Rattle.upload_wire.specs.Determined.{ConversationsAreDetermined, IsDeterministic};
ghost use Rattle.upload_wire.specs.ServiceTurns.{StepsService};
ghost use Rattle.upload_wire.specs.Transcripts.{TranscriptsTellConversations};
ghost use Rattle.upload_wire.specs.Unambiguous.{RequestsAreUnambiguous};

use crate::desk::Desk;

/// Whatever is read on a connection over a service, the requests that were answered, the one inside its end among them,
/// are a run of the service's machine, one turn for each, with the desk's one secret and at its one moment, and the
/// desk is never gone.
pub fn connections_run_the_service()
    ensures { ConversationsRunTheService }
{}

/// What a conversation added to the transcripts of its reader and its writer, over sockets too. The reader gave the
/// requests that kept the connection, in order, and then what was read behind them. The writer took the replies to
/// them, in order, and then the reply at the end, or a prefix of that if a write failed. There is nothing else in them.
pub fn transcripts_tell_conversations<D: Desk>()
    ensures { TranscriptsTellConversations D.moves }
{}

/// A text is read in one way: as one request and what stands behind it, or as bad for one reason, or as cut short. Only
/// its head may be refused too, and not if it begins with one of at most 66 lines.
pub fn requests_are_unambiguous()
    ensures { RequestsAreUnambiguous }
{}

/// What is asked on a connection is determined by the bytes that were read, whatever the desk answers, unless it was
/// gone. What is answered and written is so too, if the desk is deterministic and memory wasn't out. Neither is
/// said if a request wanted memory, a write failed, or a head was refused.
pub fn conversations_are_determined<D: Desk>()
    ensures { ConversationsAreDetermined D.moves }
{}

/// A service of one's own is such a desk.
pub fn service_desks_are_deterministic()
    ensures { IsDeterministic StepsService }
{}
