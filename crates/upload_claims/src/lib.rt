//! What is claimed to be stored. A journal keeps changes, each absolute, in records of which each stands at its
//! address, and a start folds them into claims: which uploads are open and which blobs are stored, and where their
//! bytes are. No body is opened for it. This crate knows no disk, no socket and no thread.
#![tactic(auto)]

pub use address::Address;
pub use change::{Change, Place, Stretch};
pub use claimed::{Claimed, Damage};
pub use fault::{ReadError, RecordFault};
pub use laws::{
    adoption_can_wait, batches_are_read_back, checkpoint_is_enough, claims_are_the_state,
    only_its_own_is_lost, records_are_read_back, uploads_can_wait,
};
pub use noted::{Brought, Noted, changes_of};
pub use record::{LONGEST_BODY, Record, put_record};
pub use uploads::ClaimedUpload;

mod address;
mod blobs;
mod bodies;
mod change;
mod claimed;
mod fault;
mod laws;
mod noted;
mod pairs;
mod reading;
mod record;
mod saving;
mod uploads;
mod writing;
