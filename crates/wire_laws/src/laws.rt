//! What one half writes, the other reads.
ghost use Rattle.wire_laws.specs.Joined.{ConnectionsAreJoined};
ghost use Rattle.wire_laws.specs.WrittenAsks.{AsksAreReadBack};
ghost use Rattle.wire_laws.specs.WrittenExchanges.{AsksMayBeAsked, ExchangesAreHeard};
ghost use Rattle.wire_laws.specs.WrittenReplies.{RepliesAreHeard};

use upload_wire::Desk;

/// What a client writes to ask is read, by the definition of requests, as the same ask, whose connection goes
/// on, for every ask that may be written. Its head has to keep the limit of heads, and its body that of the reader.
pub fn written_asks_are_read()
    ensures { AsksAreReadBack }
{}

/// What the service writes to answer is read, by the definition of replies, as what the answer says, whether the
/// connection goes on, and what follows. It is read in no other way, and a reader of replies gives just that, unless
/// memory was out. In the reply to a HEAD no code is heard. A blob's bytes are read as a body of errors would be,
/// and more than 65,536 of them are too large. The numbers of bytes that an answer tells are at most 10^18 + 1, and an
/// answer without the bytes of its blob is one to a HEAD.
pub fn written_replies_are_heard()
    ensures { RepliesAreHeard }
{}

/// An ask that a client may write keeps the limits of a service's reader, if the host has at most 8,192 bytes and the
/// ask's body keeps its limit. Its head is short enough, whatever its name, its digest and its numbers are.
pub fn asks_may_be_asked()
    ensures { AsksMayBeAsked }
{}

/// What a client writes to ask a lawful service is read as the ask, and whatever the service answers, in any state and
/// at any moment, what is written of it is heard as that answer. The ask keeps the limits of the reader.
pub fn exchanges_are_heard()
    ensures { ExchangesAreHeard }
{}

/// A whole connection, over sockets too: if the reads of each end gave a prefix of what the writes of the other took,
/// then each request that was answered on it is what the client asked at its place, and what the client heard there is
/// what the answer says, or nothing. Of what it asked after these it heard nothing. So it is whichever bytes the
/// network lost, in either direction, and however the connection ended. Its answers have to be such that can be heard.
pub fn connections_are_joined<D: Desk>()
    ensures { ConnectionsAreJoined D.moves }
{}
