//! The steps of a push, by the table in `specs/Steps.antt`: what is asked next, and where what was heard leads.
ghost use Rattle.std.specs.Prelude.{IfOk, ◌≡◌, ◌≤◌, ◌<◌, ◌^◌, ◌==◌, if◌then◌else◌};
ghost use Rattle.upload_push.specs.Steps.{standing_at, IsWithin, IsStepOf, IsStepWithin, turn, retry, unheard};
ghost use Rattle.upload_push.specs.Steps.{phase_answered};
ghost use Rattle.upload_push.specs.Steps.{chunk_answered, close_answered, refused_by, place_of, send_from, count_to};
ghost use Rattle.upload_push.specs.Steps.{to_phase};

use std::alloc::{AllocError, Global};
use std::marker::Model;
use upload_client::{Heard, read_place};
use upload_names::{BlobDigest, ByteRange, Bytes, RepoName, UploadRef};

/// How a push ended well.
#[derive(Clone, Copy, Debug, PartialEq, Eq)]
pub enum Outcome {
    /// This push's close was answered 201: the registry stored the file.
    Pushed,
    /// The upload is gone, and the repository has a blob of the file's digest: a close whose reply was lost, or another
    /// client.
    Already,
}

/// Why a push was given up.
#[derive(Drop)]
pub enum Why {
    /// A reply that leads no further: its status, and its first error code if it had one.
    Refused(u16, Option<Bytes>),
    /// A reply that no registry of this form gives: a 202 without its place or its range, or an offset beyond the file.
    BadServer,
    /// Nothing or 503 was heard, or 416, once more than there were tries.
    OutOfTries,
}

impl Why {
    /// An equal value; an error is out of memory for the code.
    pub(crate) fn copy(&self, alloc: Global) -> Result<Why, AllocError>
        ensures { IfOk result (λ why. why ≡ self.now) }
    {
        match self {
            Why::Refused(status, None) => Ok(Why::Refused(*status, None)),
            Why::Refused(status, Some(code)) => {
                let code = code.as_slice().to_vec(alloc)?;
                Ok(Why::Refused(*status, Some(Bytes::of(code))))
            }
            Why::BadServer => Ok(Why::BadServer),
            Why::OutOfTries => Ok(Why::OutOfTries),
        }
    }
}

/// What a pusher asks next. The name and the digest are those of the push.
#[derive(Clone, Copy)]
pub enum PushAsk {
    /// Open an upload.
    Opening,
    /// Send the bytes of the file at these positions, both ends included.
    Chunk { at: UploadRef, range: ByteRange },
    /// Ask how much of the upload has arrived.
    Status { at: UploadRef },
    /// Close the upload under the file's digest, without a body.
    Close { at: UploadRef },
    /// Ask whether the repository has the file's digest.
    Head,
}

/// What a pusher does next.
#[derive(Drop)]
pub enum PushStep<'a> {
    /// It asks this, and wants to be told what was heard.
    Ask(PushAsk),
    /// The push ended well.
    Done(Outcome),
    /// The push was given up.
    GaveUp(&'a Why),
}

/// Where a push stands.
#[derive(Drop)]
pub(crate) enum Phase {
    /// No upload yet.
    Opening,
    /// The server has the file up to the offset; at the file's length the upload is to be closed.
    Sending { at: UploadRef, offset: u64 },
    /// A reply is missing: how much has arrived is to be asked.
    Asking { at: UploadRef },
    /// The upload is gone: whether the blob is there is to be asked.
    Looking,
    /// The push ended well.
    Done(Outcome),
    /// The push was given up.
    GaveUp(Why),
}

/// One push: what is pushed, and where it stands. It reads no file and no network; it says what to ask, and is told
/// what was heard. None of its calls takes memory.
#[derive(Drop)]
pub struct Pusher {
    name: RepoName,
    digest: BlobDigest,
    length: u64,
    chunk: u64,
    phase: Phase,
    tries: u32,
}

impl Model for Pusher {
    ghost use Rattle.std.specs.Prelude.{◌≤◌};
    ghost use Rattle.upload_push.specs.Steps.{PushState, IsLawfulPlan, IsWithin};

    ghost Value = { PushState };

    ghost view = { λ p. record {
      plan = record { name = p.name; digest = p.digest; size = p.length; chunk = p.chunk };
      stand = record { phase = p.phase; tries = p.tries };
    } };

    ghost invariant = { λ p.
        IsLawfulPlan (record { name = p.name; digest = p.digest; size = p.length; chunk = p.chunk })
        × IsWithin p.length p.phase };
}

impl Pusher {
    /// A push of `length` bytes (at most 2^40) of this digest under a name, in chunks of at most `chunk` bytes (1 to
    /// 2^31), that is given up at the first loss after `tries` (at most 1,000) of them.
    pub fn new(name: RepoName, digest: BlobDigest, length: u64, chunk: u64, tries: u32) -> Pusher
        requires length { length ≤ 2 ^ 40 }
        requires chunk { (1 ≤ chunk) × (chunk ≤ 2 ^ 31) }
        requires tries { tries ≤ 1000 }
        ensures { result ≡ record {
          plan = record { name = name; digest = digest; size = length; chunk = chunk };
          stand = record { phase = Phase.Opening; tries = tries };
        } }
    {
        Pusher {
            name,
            digest,
            length,
            chunk,
            phase: Phase::Opening,
            tries,
        }
    }

    /// What is asked next, or how the push ended.
    pub fn next(&self) -> PushStep<'_>
        ensures step { IsStepOf self.now result }
        ensures within { IsStepWithin self.now.plan.size result }
    {
        match &self.phase {
            Phase::Opening => PushStep::Ask(PushAsk::Opening),
            Phase::Sending { at, offset } => {
                if *offset < self.length {
                    let end = (*offset + self.chunk).min(self.length);
                    let range = ByteRange {
                        first: *offset,
                        last: end - 1,
                    };
                    PushStep::Ask(PushAsk::Chunk { at: *at, range })
                } else {
                    PushStep::Ask(PushAsk::Close { at: *at })
                }
            }
            Phase::Asking { at } => PushStep::Ask(PushAsk::Status { at: *at }),
            Phase::Looking => PushStep::Ask(PushAsk::Head),
            Phase::Done(outcome) => PushStep::Done(*outcome),
            Phase::GaveUp(why) => PushStep::GaveUp(why),
        }
    }

    /// Takes what was heard to the last ask, or None if nothing was. After the push has ended nothing changes.
    pub fn heard(&mut self, heard: Option<Heard>)
        ensures { self.new ≡ standing_at self.old (turn self.old.plan self.old.stand heard) }
    {
        match heard {
            None => self.unheard(),
            Some(reply) => {
                if reply.status == 503 {
                    self.unheard()
                } else {
                    self.answered(reply)
                }
            }
        }
    }

    /// Takes a try and goes on to a phase; with none left the push is given up.
    fn retry(&mut self, phase: Phase)
        requires { IsWithin self.old.plan.size phase }
        ensures { self.new ≡ standing_at self.old (retry self.old.stand phase) }
    {
        if self.tries == 0 {
            self.phase = Phase::GaveUp(Why::OutOfTries);
        } else {
            self.tries -= 1;
            self.phase = phase;
        }
    }

    /// Takes a try if nothing was heard: what became of a chunk or of a close is asked first.
    fn unheard(&mut self)
        ensures { self.new ≡ standing_at self.old (unheard self.old.stand self.old.stand.phase) }
    {
        match &self.phase {
            Phase::Opening => self.retry(Phase::Opening),
            Phase::Sending { at, offset: _ } => {
                let at = *at;
                self.retry(Phase::Asking { at })
            }
            Phase::Asking { at } => {
                let at = *at;
                self.retry(Phase::Asking { at })
            }
            Phase::Looking => self.retry(Phase::Looking),
            Phase::Done(_) | Phase::GaveUp(_) => {}
        }
    }

    /// Takes a reply other than 503.
    fn answered(&mut self, reply: Heard)
        ensures { self.new
            ≡ standing_at self.old
            (phase_answered self.old.plan self.old.stand self.old.stand.phase reply) }
    {
        match &self.phase {
            Phase::Opening => self.opening_answered(reply),
            Phase::Sending { at, offset } => {
                let at = *at;
                let offset = *offset;
                if offset < self.length {
                    self.chunk_answered(at, offset, reply)
                } else {
                    self.close_answered(reply)
                }
            }
            Phase::Asking { at } => {
                let at = *at;
                self.status_answered(at, reply)
            }
            Phase::Looking => self.head_answered(reply),
            Phase::Done(_) | Phase::GaveUp(_) => {}
        }
    }

    /// Gives up at a reply that leads no further.
    fn refuse(&mut self, reply: Heard)
        ensures { self.new ≡ standing_at self.old (to_phase self.old.stand (refused_by reply)) }
    {
        self.phase = Phase::GaveUp(Why::Refused(reply.status, reply.code));
    }

    /// The upload that a reply names, if it is one under this push's name.
    fn place_of(&self, reply: &Heard) -> Option<UploadRef>
        ensures { result ≡ place_of self.now.plan.name reply.now }
    {
        match &reply.place {
            None => None,
            Some(path) => read_place(path.as_slice(), &self.name),
        }
    }

    /// Takes a reply to the opening.
    fn opening_answered(&mut self, reply: Heard)
        ensures { self.new
            ≡ standing_at self.old
            (phase_answered self.old.plan self.old.stand Phase.Opening reply) }
    {
        if reply.status == 202 {
            self.phase = match self.place_of(&reply) {
                Some(at) => Phase::Sending { at, offset: 0 },
                None => Phase::GaveUp(Why::BadServer),
            };
        } else {
            self.refuse(reply)
        }
    }

    /// Sending from what the server has: behind the last position, or from the start if there is none. A position
    /// beyond the file is given up.
    fn send_from(&self, at: UploadRef, upto: Option<u64>) -> Phase
        ensures value { result ≡ send_from self.now.plan at (count_to upto) }
        ensures within { IsWithin self.now.plan.size result }
    {
        match upto {
            None => Phase::Sending { at, offset: 0 },
            Some(last) => {
                if last < self.length {
                    Phase::Sending {
                        at,
                        offset: last + 1,
                    }
                } else {
                    Phase::GaveUp(Why::BadServer)
                }
            }
        }
    }

    /// Takes a reply to the chunk from an offset on.
    fn chunk_answered(&mut self, at: UploadRef, offset: u64, reply: Heard)
        requires { offset < self.old.plan.size }
        ensures { self.new
            ≡ standing_at self.old (chunk_answered self.old.plan self.old.stand at offset reply) }
    {
        if reply.status == 202 {
            let end = (offset + self.chunk).min(self.length);
            self.phase = match (self.place_of(&reply), reply.upto) {
                (Some(at), Some(last)) => {
                    if last == end - 1 {
                        Phase::Sending { at, offset: end }
                    } else {
                        Phase::GaveUp(Why::BadServer)
                    }
                }
                _ => Phase::GaveUp(Why::BadServer),
            };
        } else if reply.status == 416 {
            let phase = self.send_from(at, reply.upto);
            self.retry(phase)
        } else {
            self.refuse(reply)
        }
    }

    /// Takes a reply to the close.
    fn close_answered(&mut self, reply: Heard)
        ensures { self.new ≡ standing_at self.old (close_answered self.old.stand reply) }
    {
        if reply.status == 201 {
            self.phase = Phase::Done(Outcome::Pushed);
        } else {
            self.refuse(reply)
        }
    }

    /// Takes a reply to how much has arrived.
    fn status_answered(&mut self, at: UploadRef, reply: Heard)
        ensures { self.new
            ≡ standing_at self.old
            (phase_answered self.old.plan self.old.stand (Phase.Asking at) reply) }
    {
        if reply.status == 204 {
            self.phase = self.send_from(at, reply.upto);
        } else if reply.status == 404 {
            self.phase = Phase::Looking;
        } else {
            self.refuse(reply)
        }
    }

    /// Takes a reply to whether the blob is there.
    fn head_answered(&mut self, reply: Heard)
        ensures { self.new
            ≡ standing_at self.old
            (phase_answered self.old.plan self.old.stand Phase.Looking reply) }
    {
        if reply.status == 200 {
            self.phase = Phase::Done(Outcome::Already);
        } else {
            self.refuse(reply)
        }
    }
}
