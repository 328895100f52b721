//! `blobd push`: a file goes up, over connections that are made anew after a fault.
ghost use Rattle.std.specs.Prelude.{length, ◌≡◌, ◌≤◌, ◌^◌, ◌++◌, codes, IfOk, OnErr, None, Some};
ghost use Rattle.upload_names.specs.Digest.{content_digest, digest_text};
ghost use Rattle.upload_names.specs.declared.digest.Algorithm.{Algorithm};
ghost use Rattle.upload_push.specs.Slices.{push_under};
ghost use Rattle.blobd_shared.specs.Status.{IsPrinted};
ghost use Rattle.blobd_push.specs.Dials.{dialing_of};
ghost use Rattle.blobd_push.specs.Pushed.{IsConfirmed, IsEndLine, IsLooked, IsLookedAt, IsPushedOver, IsSent};
ghost use Rattle.blobd_push.specs.Pushed.{Look, outcome_word, shown_code, why_text};

use crate::bar::Bar;
use crate::dialer::{Dialer, is_word};
use crate::dials::Dials;
use crate::notes::Notes;
use crate::sight::Sight;
use crate::trouble::{Course, NAME_RULE, Reason, Trouble, reason_of};
use blobd_shared::{DONE, FAULT, Quantity, REFUSED, print_line};
use sha2::{Digest, Sha256};
use std::alloc::{AllocError, Global};
use std::io::{Eprint, Write};
use std::rt::Clock;
use upload_names::{BlobDigest, Bytes, NameFault, RepoName};
use upload_push::{Outcome, PushFault, Why, push_under};

/// How often a push may go on after a request whose reply wasn't heard.
const TRIES: u32 = 5;

/// How many bytes are hashed between two looks at the clock.
const PIECE: usize = 1_048_576;

/// The code as it is printed: `-` if there is none, if it is empty, or if it isn't visible ASCII, since a
/// server could else write more lines than one.
fn printable(code: &Option<Bytes>) -> &str
    ensures { result.now ≡ shown_code code.now }
{
    match code {
        Some(code) if is_word(code.as_slice()) => { str::from_utf8(code.as_slice()).unwrap_or("-") }
        _ => "-",
    }
}

/// Prints why a push was given up, and gives the exit status.
fn print_why<W: Write>(out: &mut W, why: &Why) -> u8
    ensures { IsPrinted (Some (why_text why.now)) (W.contents out.old)
        (W.contents out.new) 1 result }
{
    match why {
        Why::Refused(status, code) => {
            let code = printable(code);
            print_line(out, format_args!("refused: {status} {code}"), REFUSED)
        }
        Why::BadServer => print_line(out, "refused: bad server", REFUSED),
        Why::OutOfTries => print_line(out, "refused: out of tries", REFUSED),
    }
}

/// The word for how a push ended well.
fn outcome_word(outcome: Outcome) -> &'static str
    ensures { result.now ≡ outcome_word outcome }
{
    match outcome {
        Outcome::Pushed => "pushed",
        Outcome::Already => "already",
    }
}

/// Prints a word and a digest, and gives the exit status.
fn print_digest<W: Write>(out: &mut W, word: &str, digest: BlobDigest) -> u8
    ensures { IsPrinted (Some (word.now ++ (codes " " ++ digest_text digest))) (W.contents out.old)
        (W.contents out.new) 0 result }
{
    let text = digest.text();
    let text = str::from_utf8(text.as_bytes()).unwrap_or("-");
    print_line(out, format_args!("{word} {text}"), DONE)
}

/// Prints how the push of this digest ended, and gives the exit status.
fn print_end<W: Write>(out: &mut W, ended: Result<Outcome, PushFault>, digest: BlobDigest) -> u8
    ensures { IsEndLine digest ended (W.contents out.old) (W.contents out.new) result }
{
    match ended {
        Ok(outcome) => print_digest(out, outcome_word(outcome), digest),
        Err(PushFault::NoMemory) => print_line(out, "fault: memory", FAULT),
        Err(PushFault::GaveUp(why)) => print_why(out, &why),
    }
}

/// The SHA-256 digest of a file. The bar shows how far it is hashed.
fn hash_file<R: Clock + Eprint>(file: &[u8], bar: &mut Bar<'_, R>) -> BlobDigest
    ensures { result ≡ content_digest Algorithm.Sha256 file.now }
{
    bar.begin("hashing");
    let mut hash = Sha256::new();
    let mut held = 0;
    while held < file.len() {
        bar.reached(held as u64);
        let end = file.len().min(held.saturating_add(PIECE));
        hash.update(&file[held..end]);
        held = end;
    }
    BlobDigest::of_hashed(hash)
}

/// Whether the repository has the blob already: a HEAD was answered 200, and the reply to another shows the blob. Any
/// server that answers 200 to everything would be taken for one that has it, if only the first was asked.
fn has_blob<D, R>(
    dialer: &mut Dialer<'_, D, R>,
    alloc: Global,
    name: &RepoName,
    digest: BlobDigest,
    size: u64,
) -> Result<bool, AllocError>
where
    D: Dials + Drop,
    R: Clock + Eprint,
    ensures looked { IfOk result (λ found. (look : Look dialer.old.host.now name.now digest
        (dialing_of D.history dialer.old.wire dialer.old.dials))
        × IsLooked size look found (dialing_of D.history dialer.new.wire dialer.new.dials)) }
    ensures begun { OnErr result (IsLookedAt dialer.old.host.now name.now digest
        (dialing_of D.history dialer.old.wire dialer.old.dials)
        (dialing_of D.history dialer.new.wire dialer.new.dials)) }
    ensures host { dialer.new.host ≡ dialer.old.host }
{
    match upload_push::has_blob(alloc, dialer, name, digest) {
        Ok(true) => match dialer.sight(name, digest, size) {
            Ok(sight) => Ok(sight.is_blob()),
            Err(_) => Err(AllocError),
        },
        Ok(false) => Ok(false),
        Err(_) => Err(AllocError),
    }
}

/// How a push ends whose table ended so: if it found the blob at its own HEAD, the reply to another has to show it.
fn confirmed<D, R>(
    dialer: &mut Dialer<'_, D, R>,
    name: &RepoName,
    digest: BlobDigest,
    size: u64,
    ended: Result<Outcome, PushFault>,
) -> Result<Outcome, PushFault>
where
    D: Dials + Drop,
    R: Clock + Eprint,
    ensures { IsConfirmed dialer.old.host.now name.now digest size
        (dialing_of D.history dialer.old.wire dialer.old.dials) ended
        (dialing_of D.history dialer.new.wire dialer.new.dials) result }
{
    match ended {
        Ok(Outcome::Already) => match dialer.sight(name, digest, size) {
            Ok(Sight::Blob) => Ok(Outcome::Already),
            Ok(Sight::Other) => Err(PushFault::GaveUp(Why::BadServer)),
            Ok(Sight::Nothing) => Err(PushFault::GaveUp(Why::OutOfTries)),
            Err(_) => Err(PushFault::NoMemory),
        },
        ended => ended,
    }
}

/// Pushes a file under its digest over a dialer, unless the repository has the blob already, and says how that ended.
fn send<D, R>(
    dialer: &mut Dialer<'_, D, R>,
    alloc: Global,
    name: &RepoName,
    file: &[u8],
    chunk: u64,
    digest: BlobDigest,
) -> Result<Outcome, PushFault>
where
    D: Dials + Drop,
    R: Clock + Eprint,
    requires size { length file.now ≤ 2 ^ 40 }
    requires chunk { (1 ≤ chunk) × (chunk ≤ 2 ^ 31) }
    ensures { IsSent dialer.old.host.now
        (push_under digest name.now file.now chunk 5)
        (dialing_of D.history dialer.old.wire dialer.old.dials)
        (dialing_of D.history dialer.new.wire dialer.new.dials) result }
{
    let size = file.len() as u64;
    match has_blob(dialer, alloc, name, digest, size) {
        Ok(true) => Ok(Outcome::Already),
        Ok(false) => {
            let ended = push_under(alloc, dialer, file, name, chunk, TRIES, digest);
            confirmed(dialer, name, digest, size, ended)
        }
        Err(_) => Err(PushFault::NoMemory),
    }
}

/// Prints that a name is none, and on standard error what one is; gives the exit status.
fn refuse_name<R: Eprint, W: Write>(rt: &R, out: &mut W) -> u8
    ensures { IsPrinted (Some (codes "refused: name"))
        (W.contents out.old) (W.contents out.new) 1 result }
{
    // Nothing is promised of standard error.
    let _ = eprintln!(rt; "blobd: {NAME_RULE}");
    print_line(out, "refused: name", REFUSED)
}

/// Tells on standard error why a push was given up, if its line says too little. Nothing is promised of it.
fn tell_why<R: Eprint>(rt: &R, host: &str, why: &Why, course: Course, notes: &Notes) {
    let message = notes.message();
    let _ = match reason_of(why, course, notes.kind(), notes.trouble()) {
        Some(Reason::Lost(Trouble::Unavailable, count)) if !message.is_empty() => {
            let tries = Quantity(count, "time");
            eprintln!(rt;
                "blobd: can't push to {host}: the server answers 503: {message} (tried {tries})"
            )
        }
        Some(reason) => eprintln!(rt; "blobd: can't push to {host}: {reason}"),
        None if !message.is_empty() => {
            eprintln!(rt; "blobd: can't push to {host}: the server says: {message}")
        }
        None => Ok(()),
    };
}

/// A file that is to be pushed.
#[derive(Clone, Copy)]
pub struct Job<'a> {
    /// The repository's name.
    pub name: &'a [u8],
    pub file: &'a [u8],
    /// How many bytes a chunk has at most.
    pub chunk: u64,
    /// Whether a bar is drawn on standard error.
    pub seen: bool,
}

/// Pushes a file over connections to `host`, which it makes and gives back, and prints one line; gives the exit
/// status, and hands back what it was lent: see [`run_push`](crate::run_push). What it heard was read over these
/// connections, and it made no other.
pub fn push_over<D, R, W>(rt: &R, dials: D, host: &str, job: Job<'_>, out: &mut W) -> (u8, D)
where
    D: Dials + Drop,
    R: AllocGlobal + Clock + Eprint,
    W: Write,
    requires size { length job.file.now ≤ 2 ^ 40 }
    requires chunk { (1 ≤ job.chunk) × (job.chunk ≤ 2 ^ 31) }
    ensures { IsPushedOver host.now job.entry.name.now job.entry.file.now job.entry.chunk
        (D.history dials) (D.history result.1) (W.contents out.old) (W.contents out.new) result.0 }
{
    let name = match RepoName::read(rt.alloc(), job.name) {
        Ok(name) => name,
        Err(NameFault::NoMemory) => return (print_line(out, "fault: memory", FAULT), dials),
        Err(NameFault::NotAName) => return (refuse_name(rt, out), dials),
        Err(NameFault::TooLong) => return (refuse_name(rt, out), dials),
    };
    let mut bar = Bar::new(rt, job.file.len() as u64, job.seen);
    let digest = hash_file(job.file, &mut bar);
    bar.begin("sending");
    let notes = Notes::new();
    let mut dialer = Dialer::new(rt, rt.alloc(), dials, host, &notes, bar);
    let ended = send(&mut dialer, rt.alloc(), &name, job.file, job.chunk, digest);
    let (course, mut bar, dials) = dialer.into_parts();
    bar.clear();
    if let Err(PushFault::GaveUp(why)) = &ended {
        tell_why(rt, host, why, course, &notes);
    }
    (print_end(out, ended, digest), dials)
}
