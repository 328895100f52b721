//! What is told of records that are lost, and of what a start mended or removed.
use crate::open::{BODIES, Missing, Repairs};
use crate::texts::{AT_THE_END, RecordText};
use blobd_shared::{ByteCount, Quantity};
use std::io::{self, Eprint};
use std::{fmt, fs};
use upload_compact::Amount;
use upload_journal::{
    BodyFault, BodyFile, Entry, KeptAnswer, KeptAsk, KeptBody, KeptExchange, ReplayFault,
};
use upload_store::{Loss, Losses};

/// What is told of a record that is lost: why, what the system says of that, and what goes with it.
#[derive(Drop)]
struct LossText<'a>(&'a Loss, Option<io::Error>);

/// What an entry stands for. An upload is named by its number, since whoever has its reference can go on with it.
#[derive(Drop)]
struct EntryText<'a>(&'a Entry);

/// Which files have the body of an entry, if it is in files.
#[derive(Drop)]
struct FilesText<'a>(&'a Entry);

#[derive(Drop)]
struct ExchangeText<'a>(&'a KeptExchange);

impl<'a> fmt::Display for LossText<'a> {
    fn fmt<W: fmt::Write>(&self, f: &mut fmt::Formatter<W>) -> fmt::Result {
        let loss = self.0;
        let record = RecordText {
            time: loss.time,
            place: loss.place,
            fault: loss.fault,
        };
        write!(f, "{record}")?;
        if let Some(error) = &self.1 {
            write!(f, ": {error}")?;
        }
        match &loss.entry {
            Some(entry) => write!(f, "{}; lost: {}", FilesText(entry), EntryText(entry)),
            None => Ok(()),
        }
    }
}

impl<'a> fmt::Display for FilesText<'a> {
    fn fmt<W: fmt::Write>(&self, f: &mut fmt::Formatter<W>) -> fmt::Result {
        let mut before = "; its body is in ";
        for file in files_of(self.0) {
            let (number, low) = (file.number, file.number % 256);
            write!(f, "{before}{BODIES}/{low:02x}/{number}")?;
            before = ", ";
        }
        Ok(())
    }
}

/// The files that have the body of a request.
fn files_of(entry: &Entry) -> &[BodyFile] {
    let Entry::Exchange(exchange) = entry else {
        return &[];
    };
    match &exchange.ask {
        KeptAsk::Single { body, .. } => files_in(body),
        KeptAsk::Chunk { body, .. } => files_in(body),
        KeptAsk::Close { body, .. } => files_in(body),
        _ => &[],
    }
}

fn files_in(body: &KeptBody) -> &[BodyFile] {
    match body {
        KeptBody::InFiles(files) => files.as_slice(),
        KeptBody::Here(_) => &[],
    }
}

impl<'a> fmt::Display for EntryText<'a> {
    fn fmt<W: fmt::Write>(&self, f: &mut fmt::Formatter<W>) -> fmt::Result {
        match self.0 {
            Entry::Exchange(exchange) => write!(f, "{}", ExchangeText(exchange)),
            Entry::NumbersUpTo(number) => write!(f, "that the uploads up to {number} were"),
            Entry::MomentsUpTo(moment) => write!(f, "that the moment {moment} may have been"),
        }
    }
}

/// The repository that a request is sent to.
fn name_of(ask: &KeptAsk) -> &str {
    match ask {
        KeptAsk::Opening { name } => name.as_str(),
        KeptAsk::Single { name, .. } => name.as_str(),
        KeptAsk::Mount { name, .. } => name.as_str(),
        KeptAsk::Chunk { name, .. } => name.as_str(),
        KeptAsk::Close { name, .. } => name.as_str(),
    }
}

/// The number of the upload that a request is sent to, or 0.
fn upload_of(ask: &KeptAsk) -> u32 {
    match ask {
        KeptAsk::Chunk { at, .. } => at.number(),
        KeptAsk::Close { at, .. } => at.number(),
        _ => 0,
    }
}

impl<'a> fmt::Display for ExchangeText<'a> {
    fn fmt<W: fmt::Write>(&self, f: &mut fmt::Formatter<W>) -> fmt::Result {
        let exchange = self.0;
        let name = name_of(&exchange.ask);
        match exchange.answer {
            KeptAnswer::Begun(at) => write!(f, "upload {} of {name}", at.number()),
            KeptAnswer::Taken(next) => write!(
                f,
                "upload {} of {name}, up to byte {next}",
                upload_of(&exchange.ask)
            ),
            KeptAnswer::Stored(digest) => write!(f, "blob {digest} of {name}"),
        }
    }
}

/// What the system says of the body that a lost record names, if that can't be read. Its file has the folder of the low
/// byte of its number.
fn system_error(host: &HostRuntime, path: &str, loss: &Loss) -> Option<io::Error> {
    let ReplayFault::NoBody {
        number,
        fault: BodyFault::NotRead,
    } = loss.fault
    else {
        return None;
    };
    let low = number % 256;
    let name = format!(in host.alloc(); "{path}/{BODIES}/{low:02x}/{number}").ok()?;
    fs::File::open(host, name.as_str()).err()
}

/// Tells on standard error what of the directory at `path` is lost, a line for each record that is listed, and how many
/// more there are.
pub fn tell_losses<R: Eprint>(rt: &R, host: &HostRuntime, path: &str, losses: &Losses) {
    for loss in losses.listed.iter() {
        let text = LossText(loss, system_error(host, path, loss));
        let _ = eprintln!(rt; "blobd: damage in {path}: {text}");
    }
    let more = losses.count.saturating_sub(losses.listed.len() as u64);
    if more > 0 {
        let more = Quantity(more, "more record");
        let _ = eprintln!(rt; "blobd: damage in {path}: {more} lost");
    }
}

/// Tells on standard error what a journal that is only looked at tells of lost records of the directory at `path`.
pub fn tell_end<R: Eprint>(rt: &R, path: &str, missing: Missing) {
    let _ = match missing {
        Missing::None => Ok(()),
        Missing::Here => eprintln!(rt;
            "blobd: damage in {path}: journal: {AT_THE_END}; a start goes on without what it can't mend"
        ),
        Missing::Before => tell_before(rt, path),
    };
}

/// Tells on standard error, if records of the directory at `path` are missing, which files a compaction removes for
/// good: these, which no record names.
pub fn tell_final<R: Eprint>(rt: &R, path: &str, unnamed: Amount) {
    if unnamed.files == 0 {
        return;
    }
    let (files, bytes) = (Quantity(unnamed.files, "file"), ByteCount(unnamed.in_files));
    let _ = eprintln!(rt;
        "blobd: {path}: records may be missing, and a compaction makes that final: {files}, {bytes}, go that no record names"
    );
}

/// Tells on standard error that files which records of the directory at `path` name are missing, or have another
/// length.
pub fn tell_files<R: Eprint>(rt: &R, path: &str) {
    let _ = eprintln!(rt;
        "blobd: damage in {path}: a body that a record names is missing, or has another length: a start says which, and a compaction is refused"
    );
}

/// Tells on standard error how many damaged sectors of the journal of the directory at `path` are mended.
pub(crate) fn tell_mended<R: Eprint>(rt: &R, path: &str, mended: u64) {
    let sectors = Quantity(mended, "damaged sector");
    let _ = eprintln!(rt;
        "blobd: damage in {path}: journal: {sectors} mended, so that what stands there is read again"
    );
}

/// Tells on standard error what a start has mended in the directory at `path`, and how many files it has removed, which
/// no record named.
pub fn tell_repairs<R: Eprint>(rt: &R, path: &str, repairs: Repairs) {
    if repairs.mended > 0 {
        tell_mended(rt, path, repairs.mended);
    }
    if repairs.removed > 0 {
        let files = Quantity(repairs.removed, "file");
        let _ = eprintln!(rt; "blobd: {path}: {files} of bodies removed, which no record named");
    }
}

/// Tells that a start has gone on without records of the directory at `path`.
fn tell_before<R: Eprint>(rt: &R, path: &str) -> io::Result<()> {
    eprintln!(rt;
        "blobd: {path}: an earlier start went on without records that were missing; no file is removed before `blobd compact {path}`"
    )
}

/// Tells on standard error what tells of lost records of the directory at `path` that can't be named.
pub fn tell_missing<R: Eprint>(rt: &R, path: &str, missing: Missing) {
    let _ = match missing {
        Missing::None => Ok(()),
        Missing::Here => eprintln!(rt;
            "blobd: damage in {path}: journal: {AT_THE_END}; it goes on without them, and no file is removed before `blobd compact {path}`"
        ),
        Missing::Before => tell_before(rt, path),
    };
}
