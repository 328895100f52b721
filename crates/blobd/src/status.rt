//! `blobd status`: what a data directory holds.
use blobd_data::{Missing, Status, hint_on, read_status, tell_end};
use blobd_serve::limits;
use blobd_shared::{DONE, FAULT, Quantity, WholeHolding, print_line};
use journal_file::Wary;
use std::{fmt, io};
use upload_service::Counts;

/// The numbers as JSON; how many records can't be read, if there are any; and what tells of missing ones, if something
/// does.
#[derive(Clone, Copy)]
struct Json(Status);

/// What JSON says of missing records.
fn missing_text(missing: Missing) -> &'static str {
    match missing {
        Missing::None => "",
        Missing::Here => ",\"missing\":\"at the end\"",
        Missing::Before => ",\"missing\":\"before\"",
    }
}

impl fmt::Display for Json {
    fn fmt<W: fmt::Write>(&self, f: &mut fmt::Formatter<W>) -> fmt::Result {
        let Counts {
            blobs,
            stored,
            uploads,
            received,
        } = self.0.counts;
        f.write_str("{")?;
        write!(f, "\"blobs\":{blobs},\"stored\":{stored},")?;
        write!(f, "\"uploads\":{uploads},\"received\":{received}")?;
        if self.0.unread > 0 {
            write!(f, ",\"unread\":{}", self.0.unread)?;
        }
        f.write_str(missing_text(self.0.missing))?;
        f.write_str("}")
    }
}

/// Prints what the data directory at `path` holds, by the records of its journal; gives the exit status. Records that
/// can't be read, or are missing, are told on standard error.
///
/// `fault: data` is printed if the journal can't be read, and standard error says why.
pub fn print_status(rt: &HostRuntime, path: &str, json: bool) -> u8 {
    let mut out = io::writer(rt);
    let status = match read_status(rt, path, limits(), Wary) {
        Ok(status) => status,
        Err(fault) => {
            let hint = hint_on(&fault);
            let _ = eprintln!(rt; "blobd: can't read {path}: {fault}{hint}");
            return print_line(&mut out, "fault: data", FAULT);
        }
    };
    if status.unread > 0 {
        let unread = Quantity(status.unread, "record");
        let _ = eprintln!(rt; "blobd: damage in {path}: {unread} can't be read");
    }
    tell_end(rt, path, status.missing);
    if json {
        return print_line(&mut out, Json(status), DONE);
    }
    print_line(&mut out, WholeHolding(status.counts), DONE)
}
