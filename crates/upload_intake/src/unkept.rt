//! A pool that keeps nothing.
ghost use Rattle.std.specs.Prelude.{◌≡◌, ◌<◌, IfOk, vec_len};
ghost use Rattle.upload_service.specs.Machine.{IsLawful};
ghost use Rattle.upload_intake.specs.Pools.ServedPool.{IsServedPool};
ghost use Rattle.upload_intake.specs.Pools.Working.{ServedComeBack, lending, means};

use crate::lent::{Conns, Gate, Secrets};
use crate::pool::{KeptFault, Pool, ServeFault, serve_kept};
use crate::work::Worker;
use std::alloc::Global;
use std::sync::Wait;
use std::thread::Threads;
use upload_keeper::{KeptService, Moments, NoKeeping};
use upload_service::Service;
use upload_wire::Observer;

/// Serves the connections of all workers at once, each worker's one after the other until no more come. All workers are
/// started before the keeper runs on this thread, and every thread is joined. `moments` is asked once for each request,
/// and handed back, as is all that each worker was lent. What a worker reads through is taken before, once for all its
/// connections.
///
/// `NoMemory` comes if the workers' buffers or the lines found no memory: no worker was started. All memory that the
/// pool itself needs is taken before the first one is, so that what was served isn't lost. `NoThread` comes if a
/// worker couldn't be started, once those that were started have ended. They may wait for a connection: the first that
/// asks something ends `DeskGone`, and its worker takes no more. After either the service, the clock and the workers
/// are dropped.
pub fn serve_workers<R, M, C, S, G, O>(
    rt: &R,
    alloc: Global,
    service: Service,
    workers: Vec<Worker<C, S, G, O>>,
    moments: M,
) -> Result<Pool<M, Worker<C, S, G, O>>, ServeFault>
where
    R: Threads + Wait + Sync,
    M: Moments + Drop,
    C: Conns + Send + Drop,
    S: Secrets + Send + Drop,
    G: Gate + Send + Drop,
    O: Observer + Send + Drop,
    requires workers { 0 < vec_len workers }
    requires come_back { ServedComeBack
        (means (lending C.gives C.takes_back C.In.state C.Out.state) S.draws G.watches O.told)
        C.may_come_back }
    ensures served { IfOk result (λ pool. IsServedPool
        (means (lending C.gives C.takes_back C.In.state C.Out.state) S.draws G.watches O.told)
        M.tells
        (record { service = service; moments = moments; workers = workers.items })
        (record {
          service = pool.service;
          moments = pool.moments;
          workers = pool.workers.items;
          ends = pool.ends.items;
        })) }
    ensures lawful { IfOk result (λ pool. IsLawful pool.service) }
{
    let keeping = NoKeeping::from(&service);
    let kept = KeptService {
        service,
        keeping,
        since: 0,
    };
    match serve_kept(rt, alloc, kept, workers, moments) {
        Ok((pool, _)) => Ok(pool),
        Err(KeptFault::Serve(fault)) => Err(fault),
        Err(KeptFault::NotKept) => unreachable!(),
    }
}
