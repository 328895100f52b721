//! What changes a service, kept in a store: each request that changed something, before its answer is heard.
//!
//! A request is noted before the step that takes it (`note`, `noted`). Its entry is written up to its answer then, and
//! ended after the step (`entry`), which rests on what is known of each request (`sound`). A large body is on the disk
//! before the step, mostly by a thread that has written it meanwhile (`writing`), and there is room for the entry: so a
//! full disk is known before anything changes. The entries of a round are put on the disk at once (`round`), with the
//! moment up to which answers may be given.
//!
//! All of this is what a pool keeps its changes in (`keeping`, over its `books`), from a recovery on (`begin`), or from
//! one without the records that are damaged (`salvaging`); either begins sooner by threads that read ahead (`ahead`).
//! `told` says what it comes to: what anybody heard, every recovery has.
#![tactic(auto)]

mod ahead;
mod begin;
mod books;
mod entry;
mod fault;
mod host;
mod keeping;
mod note;
mod noted;
mod round;
mod salvaging;
mod sound;
mod told;

pub use ahead::{open_ahead, salvage_ahead};
pub use begin::open;
pub use fault::KeepFault;
pub use host::KeepingHost;
pub use keeping::StoreKeeping;
pub use round::{Moments, keep_round, kept_is_on_the_disk};
pub use salvaging::{Salvaged, salvage};
pub use told::{headline_holds_over_restarts, kept_can_be_run_again, told_is_on_the_disk};
