//! What holds of claims and of records, as laws: functions that do nothing and whose contracts are the laws.
ghost use Rattle.upload_claims.specs.Laws.{ClaimsAreTheState};
ghost use Rattle.upload_claims.specs.Checkpoint.{CheckpointIsEnough};
ghost use Rattle.upload_claims.specs.Adoption.{AdoptionCanWait, UploadsCanWait};
ghost use Rattle.upload_claims.specs.Lost.{OnlyItsOwnIsLost};
ghost use Rattle.upload_claims.specs.Damage.{RecordsAreReadBack, BatchesAreReadBack};

/// The claims that a start folds from the changes of a run are what the state after the run has: the state is what the
/// claims stand for, over a disk that has each body that was taken where its change says.
pub fn claims_are_the_state()
    ensures { ClaimsAreTheState }
{}

/// The changes of a checkpoint, which are written from claims alone, are folded to the same claims, whatever these are.
pub fn checkpoint_is_enough()
    ensures { CheckpointIsEnough }
{}

/// A record that is lost takes with it what names the references or the digests of its changes, and nothing else.
pub fn only_its_own_is_lost()
    ensures { OnlyItsOwnIsLost }
{}

/// Each record is read back from its bytes at its address, whatever follows them, and so is its body.
pub fn records_are_read_back()
    ensures { RecordsAreReadBack }
{}

/// The records of a batch are read back one after another. One that isn't whole is passed over, if it still tells how
/// many bytes it has, and those after it are read.
pub fn batches_are_read_back()
    ensures { BatchesAreReadBack }
{}

/// A claimed blob may be adopted as late as at the first request that names its digest: the turns before are the same
/// turns of the state in which it was adopted already.
pub fn adoption_can_wait()
    ensures { AdoptionCanWait }
{}

/// So may an open upload, up to the first request that carries its reference or may begin an upload.
pub fn uploads_can_wait()
    ensures { UploadsCanWait }
{}
