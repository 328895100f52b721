//! Parts that are about to lose an owner, kept so that their bytes can go somewhere else.
use crate::part::Part;
use std::alloc::Global;

/// The fewest bytes that are worth a thread to let them go: they take about a millisecond.
const WORTH_LETTING_GO: u64 = 16_777_216;

/// One more owner of parts that others may let go. If they do, the bytes stay until these go too, which may be in
/// another thread (`HashPlace::let_go`). Nobody reads them.
#[derive(Drop)]
pub struct Shares {
    parts: Vec<Part>,
}

impl Shares {
    /// Of no parts. It takes no memory.
    pub fn none(alloc: Global) -> Shares {
        Shares {
            parts: Vec::new(alloc),
        }
    }

    /// Takes a share of each of these parts, as far as there is memory: of the others there is none, and they go where
    /// they are let go.
    pub(crate) fn add(&mut self, parts: &[Part]) {
        if self.parts.reserve(parts.len()).is_err() {
            return;
        }
        for part in parts {
            self.add_one(part);
        }
    }

    /// As `add`, of one part.
    pub(crate) fn add_one(&mut self, part: &Part) {
        if let Ok(share) = part.share() {
            let _ = self.parts.push(share);
        }
    }

    /// Whether so many bytes go with these that it is worth a thread: those of which there is no other owner.
    pub(crate) fn are_worth_a_thread(&self) -> bool {
        let mut size: u64 = 0;
        for part in self.parts.as_slice() {
            if part.has_one_owner() {
                size = size.saturating_add(part.as_slice().len() as u64);
            }
            if size >= WORTH_LETTING_GO {
                return true;
            }
        }
        false
    }
}
