//! What keeps, lent: whoever lent it has it still when the pool has ended, also if it failed.
use crate::keeping::{Keeping, NotKept};
use upload_bytes::Spool;
use upload_service::{Answer, Ask, Service};

impl<K: Keeping> Keeping for &mut K {
    ghost start = { λ k. K.start k.now };

    ghost kept = { λ k. K.kept k.now };

    ghost waiting = { λ k. K.waiting k.now };

    ghost last = { λ k. K.last k.now };

    ghost upto = { λ k. K.upto k.now };

    ghost failed = { λ k. K.failed k.now };

    ghost noted = { λ k. K.noted k.now };

    fn spool(&self) -> Option<Spool> {
        (**self).spool()
    }

    fn note(&mut self, service: &Service, ask: &Ask, secret: [u8; 12], now: u64) -> bool {
        (**self).note(service, ask, secret, now)
    }

    fn add(&mut self, answer: &Answer) {
        (**self).add(answer)
    }

    fn let_go(&mut self) {
        (**self).let_go()
    }

    fn linger(&mut self) -> bool {
        (**self).linger()
    }

    fn keep(&mut self) -> Result<(), NotKept> {
        (**self).keep()
    }
}
