//! The records that a recovery has lost.
ghost use Rattle.std.specs.Prelude.{◌≡◌, ◌+◌, ◌++◌, ◌∷◌, min, max, [], OnOk};
ghost use Rattle.upload_service.specs.Machine.{last_number};
ghost use Rattle.upload_store.specs.Salvage.{one_more, listed_with};

use crate::fault::Loss;
use std::alloc::{AllocError, Global};
use upload_journal::Replay;

/// As many losses are listed.
const MOST_LISTED: usize = 64;

/// The records that a recovery has lost.
#[derive(Drop)]
pub struct Losses {
    /// How many they are.
    pub count: u64,
    /// The first 64 of them, in order.
    pub listed: Vec<Loss>,
    /// The highest number of a session that one of them names.
    pub(crate) named: u32,
    /// The first number above those of the files that they name, or 2^64 - 1.
    pub(crate) past: u64,
}

impl Losses {
    /// None.
    pub fn none(alloc: Global) -> Losses
        ensures { (result.count ≡ 0) × (result.listed.items ≡ []) × (result.named ≡ 0)
            × (result.past ≡ 0) }
    {
        Losses {
            count: 0,
            listed: Vec::new(alloc),
            named: 0,
            past: 0,
        }
    }

    /// The last number that counts as used up, if so many were issued: each loss may have had one, and some are named.
    pub(crate) fn last_number(&self, issued: u32) -> u32
        ensures { result ≡ min (max (issued + self.now.count) self.now.named) last_number }
    {
        let reach = self.count.saturating_add(u64::from(issued));
        let last = reach.max(u64::from(self.named));
        if last >= u64::from(u32::MAX) {
            u32::MAX
        } else {
            last as u32
        }
    }

    /// Adds one, which names sessions up to this number, and files up to the one before `past`. At `Err` there is no
    /// memory, and nothing is added.
    pub(crate) fn add(&mut self, loss: Loss, named: u32, past: u64) -> Result<(), AllocError>
        ensures count { OnOk result (self.new.count ≡ one_more self.old.count) }
        ensures listed { OnOk result
            (self.new.listed.items ≡ listed_with self.old.listed.items loss) }
        ensures named { OnOk result (self.new.named ≡ max self.old.named named) }
        ensures past { OnOk result (self.new.past ≡ max self.old.past past) }
    {
        list(&mut self.listed, loss)?;
        self.count = self.count.saturating_add(1);
        self.named = self.named.max(named);
        self.past = self.past.max(past);
        Ok(())
    }
}

/// Puts a loss behind these.
fn put(listed: &mut Vec<Loss>, loss: Loss) -> Result<(), AllocError>
    ensures { OnOk result (listed.new.items ≡ listed.old.items ++ loss ∷ []) }
{
    listed.push(loss)?;
    Ok(())
}

/// Lists a loss, if few are listed.
fn list(listed: &mut Vec<Loss>, loss: Loss) -> Result<(), AllocError>
    ensures { OnOk result (listed.new.items ≡ listed_with listed.old.items loss) }
{
    if listed.len() < MOST_LISTED {
        return put(listed, loss);
    }
    drop(loss);
    Ok(())
}

/// What a recovery that goes on after losses has come to.
#[derive(Drop)]
pub struct Salvage {
    /// The service, and the moment to go on at.
    pub replay: Replay,
    pub losses: Losses,
}
