//! What would be left out of a journal as it is written anew, by its records alone.
ghost use Rattle.std.specs.Prelude.{IfOk, IsTrue};
ghost use Rattle.std.specs.List.{All};
ghost use Rattle.journal.specs.Journal.{disk_of};
ghost use Rattle.journal.specs.Reads.{OnlyReads};
ghost use Rattle.upload_compact.specs.Leaving.{IsNotReferenced};

use crate::leaving::{Leaving, Pair};
use crate::survey::{Survey, Tables};
use crate::weighing::{Scales, Weight};
use journal::{Error, Journal, Machine};
use sqlite_disk::Disk;
use std::alloc::Global;
use std::io;
use upload_service::Limits;

/// What would be left out of a journal as it is written anew, and what its records come to then.
#[derive(Drop)]
pub struct Forecast {
    /// The repositories and blobs that would be left out.
    pub gone: Vec<Pair>,
    /// The records of a blob that no repository has then are dead.
    pub weight: Weight,
}

/// Records that are surveyed, and weighed.
#[derive(Drop)]
struct Outlook {
    survey: Survey,
    scales: Scales,
}

impl Machine for Outlook {
    // It is for people.
    ghost steps = { λ _ _ _ _. Unit {0} };

    ghost has_refused = { λ _. Unit {0} };

    fn apply(&mut self, time: u64, bytes: &[u8]) -> io::Result<()> {
        self.survey.apply(time, bytes)?;
        self.scales.apply(time, bytes)
    }
}

/// Has the scales forget the blobs that no repository has any more.
fn forget_all(scales: &mut Scales, tables: &Tables, gone: &[Pair]) {
    for (_, digest) in gone {
        if !tables.holders.contains_key(digest) {
            scales.forget(digest);
        }
    }
}

/// What would be left out of a journal of a service with these limits as it is written anew, as its records stand
/// (`Journal::look`). Nothing is written, and no body is read.
///
/// An error is one of `Journal::look`; `NoMemory` comes too if there is none for what is told.
pub fn foresee<D: Disk>(
    alloc: Global,
    journal: &mut Journal<D>,
    limits: Limits,
    leaving: &Leaving,
) -> Result<Forecast, Error>
    ensures gone { IfOk result (λ it. All (IsNotReferenced leaving.now) it.gone.items) }
    ensures reads { IsTrue (D.Disk.is_usable (disk_of journal.old))
        → OnlyReads D.Disk (disk_of journal.old) (disk_of journal.new) }
{
    let mut outlook = Outlook {
        survey: Survey::new(alloc, limits),
        scales: Scales::new(alloc, limits),
    };
    let looked = match journal.look(alloc, &mut outlook) {
        Ok(looked) => looked,
        Err(error) => return Err(error),
    };
    let Outlook { survey, mut scales } = outlook;
    let mut tables = survey.tables;
    let gone = match tables.leave_out(leaving) {
        Ok(gone) => gone,
        Err(_) => return Err(Error::NoMemory),
    };
    forget_all(&mut scales, &tables, &gone);
    Ok(Forecast {
        gone,
        weight: scales.weight(looked),
    })
}
