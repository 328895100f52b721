//! How many bytes of bodies were read.
use std::alloc::{AllocError, Global};
use std::sync::Arc;
use std::sync::atomic::{AtomicU64, Ordering};

/// How many bytes of bodies were read, by a shelf and by all that it lent. No contract speaks of it: it is for people
/// who look on.
#[derive(Drop)]
pub struct Counter {
    count: Arc<AtomicU64, Global>,
}

impl Counter {
    /// Of no bytes.
    pub fn new(alloc: Global) -> Result<Counter, AllocError> {
        Ok(Counter {
            count: Arc::new(alloc, AtomicU64::new(0))?,
        })
    }

    /// The same counter, for somebody else, also in another thread.
    pub fn share(&self) -> Result<Counter, AllocError> {
        Ok(Counter {
            count: Arc::try_clone(&self.count)?,
        })
    }

    pub(crate) fn add(&self, bytes: usize) {
        self.count.fetch_add(bytes as u64, Ordering::SeqCst);
    }

    /// How many bytes were read until now.
    pub fn count(&self) -> u64 {
        self.count.load(Ordering::SeqCst)
    }
}
