//! The laws, as functions that do nothing and whose contracts are the laws.
ghost use Rattle.end_to_end.specs.Dialing.{DialedConnectionsAreCarried, DialedPushesHaveConnections};
ghost use Rattle.end_to_end.specs.Gets.{FilesAreHandedBack};
ghost use Rattle.end_to_end.specs.Looks.{LooksAreServed};
ghost use Rattle.end_to_end.specs.Network.{PushesAreServed};
ghost use Rattle.end_to_end.specs.OneWorker.{PushesToOneAreServed};
ghost use Rattle.upload_intake.specs.Pools.Working.{lending, means};

use upload_client::written_places_are_read;
use upload_intake::{Conns, Gate, Moments, Secrets};
use upload_service::{headline_holds, others_leave_a_session};
use upload_wire::Observer;

/// Let a pool of workers have served, over sockets or anything else, and let a push have ended `Pushed` whose requests
/// went over connections to these workers. Then in the one order in which the pool served all requests there is the
/// step of the push's close. What its upload had received by that step is exactly the file: what it had when the pool
/// began, if it was open then, and the chunks that it took, in the order taken, each once. The file stood under its
/// digest and its name then. At the end the repository has the digest, with bytes that have it. If the push ended
/// `Already`, the repository had the digest at some step. The push's chunks aren't longer than the bodies that the
/// server takes.
///
/// The network may cut each connection in each direction, at any byte, and hold requests back: a request that the push
/// took to be lost may be served late. The premise is an account of it (`IsAccount`): which connection of which worker
/// each of the push's connections was; that what either end read there is a prefix of what the other wrote; that what
/// the push heard was served in the order in which it asked; and that no other client's request carried the reference
/// that the push had heard by then. The host that the push names has at most 8,192 bytes.
pub fn pushes_are_served<M: Moments, C: Conns, S: Secrets, G: Gate, O: Observer>()
    ensures { PushesAreServed
        (means (lending C.gives C.takes_back C.In.state C.Out.state) S.draws G.watches O.told)
        M.tells }
{
    headline_holds();
    others_leave_a_session();
    written_places_are_read();
}

/// The same of a push that heard all from one worker: over one connection, as `blobd push` does if none is lost, or
/// over several, in the order in which the worker took them. That what it heard was served in the order in which it
/// asked is no premise then: a worker's requests are served in the order in which it read them.
pub fn pushes_to_one_worker_are_served<M: Moments, C: Conns, S: Secrets, G: Gate, O: Observer>()
    ensures { PushesToOneAreServed
        (means (lending C.gives C.takes_back C.In.state C.Out.state) S.draws G.watches O.told)
        M.tells }
{
    headline_holds();
    others_leave_a_session();
    written_places_are_read();
}

/// Let a pool of workers have served, and let a client have heard a 200 to a HEAD of a blob over a connection to one of
/// them, as `blobd push` has before it prints `already`. Then at some step of the one order in which the pool served
/// all requests the repository had the digest, and so at the end, with bytes that have it.
///
/// The premise on the network is that the connection was one of a worker's: what either end read there is a prefix of
/// what the other wrote. The requests on it are such as their types have, with bodies that the server takes, to a host
/// of at most 8,192 bytes. No order is a premise, and nothing is asked of other clients.
/// `dialed_pushes_have_connections` gives the connection of a HEAD that was dialed.
pub fn looks_are_served<M: Moments, C: Conns, S: Secrets, G: Gate, O: Observer>()
    ensures { LooksAreServed
        (means (lending C.gives C.takes_back C.In.state C.Out.state) S.draws G.watches O.told)
        M.tells }
{
    headline_holds();
    others_leave_a_session();
    written_places_are_read();
}

/// Let a push have left its file in a pool, as `pushes_are_served` says of one that ended Pushed. After the step of
/// its close each GET of that name and digest, of any client on any worker's connection, is answered with the file: the
/// body of the reply is exactly that. It is answered out of memory instead, or with what was stored last under the
/// digest since then, if that was another content with the same digest.
pub fn files_are_handed_back<M: Moments, C: Conns, S: Secrets, G: Gate, O: Observer>()
    ensures { FilesAreHandedBack
        (means (lending C.gives C.takes_back C.In.state C.Out.state) S.draws G.watches O.told)
        M.tells }
{
    headline_holds();
    others_leave_a_session();
    written_places_are_read();
}

/// The connections of a push that makes them as it needs them, as `blobd push` does, are such as `pushes_are_served`
/// speaks of. Each began with nothing read and nothing written, and carried requests of the push; before them it may
/// have carried what the same client asked before the push. All that the push asked stands on them, in the order in
/// which it asked, with what was heard there. An ask for which no connection could be made is on none of them, and
/// nothing was heard of it.
///
/// So if such a connection was one of a worker's, as the premise on the network says, nothing is left to show of it but
/// that the host isn't too long, and that what was asked before the push is such as its types have.
pub fn dialed_pushes_have_connections<C: Conns, S: Secrets, G: Gate, O: Observer>()
    ensures connections { DialedPushesHaveConnections }
    ensures carried { DialedConnectionsAreCarried
        (means (lending C.gives C.takes_back C.In.state C.Out.state) S.draws G.watches O.told) }
{}
