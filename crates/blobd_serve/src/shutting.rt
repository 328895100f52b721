//! How a server ends whose changes can't be kept any more: its listener is shut, so that no worker waits for a
//! connection, and none waits long for a client.
ghost use Rattle.std.specs.Prelude.{◌≡◌, IfOk};

use std::alloc::{AllocError, Global};
use std::io;
use std::net::{Shutdown, TcpListener, TcpStream};
use std::os::fd::OwnedFd;
use std::sync::Arc;
use std::sync::atomic::{AtomicBool, Ordering};
use upload_bytes::Spool;
use upload_intake::{Keeping, NotKept};
use upload_service::{Answer, Ask, Service};

/// Whether a server has ended. All that waits for its clients has a share.
#[derive(Drop)]
pub(crate) struct Ended(Arc<AtomicBool, Global>);

impl Ended {
    /// It goes on so far. An error is out of memory.
    pub(crate) fn new(alloc: Global) -> Result<Ended, AllocError> {
        Ok(Ended(Arc::new(alloc, AtomicBool::new(false))?))
    }

    /// The same for another. An error comes if too many share it.
    pub(crate) fn share(&self) -> Result<Ended, AllocError> {
        Ok(Ended(Arc::try_clone(&self.0)?))
    }

    pub(crate) fn has_ended(&self) -> bool {
        self.0.load(Ordering::SeqCst)
    }

    fn end(&self) {
        self.0.store(true, Ordering::SeqCst);
    }
}

/// What ends a server from within.
#[derive(Drop)]
pub(crate) struct Shutter {
    /// Its listener, as a stream: only of streams can the system be told to shut them.
    listener: TcpStream,
    ended: Ended,
}

impl Shutter {
    /// That of the server at this listener. An error is the system's.
    pub(crate) fn new(listener: &TcpListener, ended: Ended) -> io::Result<Shutter>
        ensures { IfOk result (λ shutter. shutter.ended ≡ ended) }
    {
        let listener = TcpStream::from(OwnedFd::from(listener.try_clone()?));
        Ok(Shutter { listener, ended })
    }

    /// Ends the server. Each accept that waits fails, and each later one; and no read or write is made again.
    fn shut(&self) {
        self.ended.end();
        // If that failed, a worker would end after the next connection that comes to it.
        let _ = self.listener.shutdown(Shutdown::Both);
    }
}

/// What keeps the changes of a server, which ends once one can't be kept.
#[derive(Drop)]
pub(crate) struct Shutting<K> {
    pub(crate) keeping: K,
    pub(crate) shutter: Shutter,
}

impl<K: Keeping> Keeping for Shutting<K> {
    ghost start = { λ k. K.start k.keeping };

    ghost kept = { λ k. K.kept k.keeping };

    ghost waiting = { λ k. K.waiting k.keeping };

    ghost last = { λ k. K.last k.keeping };

    ghost upto = { λ k. K.upto k.keeping };

    ghost failed = { λ k. K.failed k.keeping };

    ghost noted = { λ k. K.noted k.keeping };

    fn spool(&self) -> Option<Spool> {
        self.keeping.spool()
    }

    fn note(&mut self, service: &Service, ask: &Ask, secret: [u8; 12], now: u64) -> bool {
        self.keeping.note(service, ask, secret, now)
    }

    fn add(&mut self, answer: &Answer) {
        self.keeping.add(answer)
    }

    fn let_go(&mut self) {
        self.keeping.let_go()
    }

    fn linger(&mut self) -> bool {
        self.keeping.linger()
    }

    fn keep(&mut self) -> Result<(), NotKept> {
        let kept = self.keeping.keep();
        if kept.is_err() {
            self.shutter.shut();
        }
        kept
    }
}
