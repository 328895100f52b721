//! Workers round one upload service, as many as the caller likes. The service is owned by one thread, the keeper of
//! `upload_keeper`, and asked from a seat of each worker.
//!
//! A request goes from a connection over a worker's `desk` to its seat, and its answer back. Connections, secrets and
//! the clock are what the caller lends (`lent`). `work` serves one worker's connections, and `pool` starts all workers
//! and the keeper.
#![tactic(auto)]

mod desk;
mod laws;
mod lent;
mod pair;
mod pool;
mod unkept;
mod work;

pub use desk::SeatDesk;
pub use laws::{
    conversations_fill_the_seat, served_orders_are_determined, transcripts_tell_connections,
};
pub use lent::{Conns, DrawnSecrets, Gate, NoGate, Secrets, ZeroSecrets};
pub use pair::{Pair, serve_pair};
pub use pool::{KeptFault, Pool, ServeFault, serve_kept};
pub use unkept::serve_workers;
pub use upload_keeper::{
    Gone, Keeper, Keeping, KeptService, Moments, NotKept, Seat, SeatEnd, Served, Settled, lines,
    settle, told_is_kept,
};
pub use work::{Worker, WorkerEnd};
