//! The end of a thread, and who waits for it.
use std::alloc::{AllocError, Global};
use std::sync::atomic::{AtomicU64, Ordering};
use std::sync::{Arc, Wait};

/// The thread has something left to do.
const AT_WORK: u64 = 0;

/// The thread has nothing left to do.
const OVER: u64 = 1;

/// The end of a thread. Any thread may wait for it, and so may several. That the thread ended says nothing of what it
/// did.
#[derive(Drop)]
pub struct ThreadEnd {
    state: Arc<AtomicU64, Global>,
}

impl ThreadEnd {
    /// The end of a thread that isn't started yet.
    pub fn new(alloc: Global) -> Result<ThreadEnd, AllocError> {
        let Ok(state) = Arc::new(alloc, AtomicU64::new(AT_WORK)) else {
            return Err(AllocError);
        };
        Ok(ThreadEnd { state })
    }

    /// The same end, for one more to wait for or to tell. It takes no memory. An `Err` comes only if there are more
    /// owners than can be counted.
    pub fn share(&self) -> Result<ThreadEnd, AllocError> {
        let state = Arc::try_clone(&self.state)?;
        Ok(ThreadEnd { state })
    }

    /// Whether the thread has nothing left to do: who joins it doesn't wait.
    pub fn is_over(&self) -> bool {
        self.state.load(Ordering::SeqCst) == OVER
    }

    /// Ends each wait for this end. The thread tells it last.
    pub fn tell(self) {
        self.state.store(OVER, Ordering::SeqCst);
        self.state.wake_all();
    }

    /// Returns once the thread has ended.
    pub fn wait<R: Wait>(self, rt: &R) {
        for _ in rt.forever() {
            if self.is_over() {
                return;
            }
            self.state.park(rt, AT_WORK as u32);
        }
    }
}
