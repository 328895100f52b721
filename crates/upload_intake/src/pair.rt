//! Two workers.
ghost use Rattle.std.specs.Prelude.{◌≡◌, [], ◌∷◌, IfOk};
ghost use Rattle.upload_service.specs.Machine.{IsLawful};
ghost use Rattle.upload_intake.specs.Pools.Working.{ServedComeBack, lending, means};
ghost use Rattle.upload_intake.specs.Pools.ServedPool.{IsServedPool};

use crate::lent::{Conns, Gate, Secrets};
use crate::pool::{Pool, ServeFault};
use crate::unkept::serve_workers;
use crate::work::{Worker, WorkerEnd};
use std::alloc::{AllocError, Global};
use std::sync::Wait;
use std::thread::Threads;
use upload_keeper::Moments;
use upload_service::Service;
use upload_wire::Observer;

/// What is left of a pair of workers `W`.
#[derive(Drop)]
pub struct Pair<M, W> {
    /// The service as the last request left it.
    pub service: Service,
    /// What the left worker did.
    pub left: WorkerEnd,
    /// What the right one did.
    pub right: WorkerEnd,
    /// The left worker, with what it was lent as its last connection left that.
    pub left_worker: W,
    /// The right one.
    pub right_worker: W,
    /// The clock as the last request left it.
    pub moments: M,
}

// Two in order.
fn two<T: Drop>(alloc: Global, first: T, second: T) -> Result<Vec<T>, AllocError>
    ensures { IfOk result (λ both. both.items ≡ first ∷ second ∷ []) }
{
    let mut both = Vec::with_capacity(alloc, 2)?;
    both.push_reserved(first);
    both.push_reserved(second);
    Ok(both)
}

/// Serves the connections of two workers, as `serve_workers` does those of many.
pub fn serve_pair<R, M, C, S, G, O>(
    rt: &R,
    alloc: Global,
    service: Service,
    left: Worker<C, S, G, O>,
    right: Worker<C, S, G, O>,
    moments: M,
) -> Result<Pair<M, Worker<C, S, G, O>>, ServeFault>
where
    R: Threads + Wait + Sync,
    M: Moments + Drop,
    C: Conns + Send + Drop,
    S: Secrets + Send + Drop,
    G: Gate + Send + Drop,
    O: Observer + Send + Drop,
    requires come_back { ServedComeBack
        (means (lending C.gives C.takes_back C.In.state C.Out.state) S.draws G.watches O.told)
        C.may_come_back }
    ensures served { IfOk result (λ pair. IsServedPool
        (means (lending C.gives C.takes_back C.In.state C.Out.state) S.draws G.watches O.told)
        M.tells
        (record { service = service; moments = moments; workers = left ∷ right ∷ [] })
        (record {
          service = pair.service;
          moments = pair.moments;
          workers = pair.left_worker ∷ pair.right_worker ∷ [];
          ends = pair.left ∷ pair.right ∷ [];
        })) }
    ensures lawful { IfOk result (λ pair. IsLawful pair.service) }
{
    let Ok(workers) = two(alloc, left, right) else {
        return Err(ServeFault::NoMemory);
    };
    let Pool {
        service,
        workers,
        ends,
        moments,
    } = serve_workers(rt, alloc, service, workers, moments)?;
    let mut workers = workers.into_iter();
    let (Some(left_worker), Some(right_worker)) = (workers.next(), workers.next()) else {
        unreachable!()
    };
    let (left, right) = (ends[0], ends[1]);
    Ok(Pair {
        service,
        left,
        right,
        left_worker,
        right_worker,
        moments,
    })
}
