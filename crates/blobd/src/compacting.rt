//! `blobd compact`: room in a data directory.

use blobd_data::{
    AnyBodies, CompactingFault, ListFault, Missing, Waste, compact_data, foresee_data, hint_on,
    read_list, read_status, seconds_now, tell_end, tell_files, tell_final, weigh_data,
};
use blobd_serve::limits;
use blobd_shared::{DONE, FAULT, Quantity, REFUSED, print_line};
use blobd_words::Keep;
use journal_file::Wary;
use std::io::{self, Write};
use std::thread::Threads;
use upload_compact::Leaving;

/// Says why a data directory isn't compacted, and what to do; gives the exit status.
fn print_fault(rt: &HostRuntime, path: &str, fault: &CompactingFault) -> u8 {
    let hint = match fault {
        CompactingFault::Data(fault) => hint_on(fault),
        _ => "",
    };
    let _ = eprintln!(rt; "blobd: can't compact {path}: {fault}{hint}");
    print_line(&mut io::writer(rt), "fault: data", FAULT)
}

/// Says why a list can't be read, and gives the exit status.
fn print_no_list(rt: &HostRuntime, list: &str, fault: &ListFault) -> u8 {
    let hint = if list.starts_with("--") {
        "; options stand before DIR"
    } else {
        ""
    };
    let _ = eprintln!(rt; "blobd: can't read {list}: {fault}{hint}");
    print_line(&mut io::writer(rt), "refused: keep", REFUSED)
}

/// Tells on standard error if bodies or records of a directory are missing, of which so much would go, and what goes
/// for good. A server may add to its journal meanwhile, so it is looked at again.
fn tell_its_end(rt: &HostRuntime, path: &str, waste: &Waste) {
    if !waste.is_whole {
        tell_files(rt, path);
    }
    if waste.weight.looked.is_sure() {
        return;
    }
    let Ok(status) = read_status(rt, path, limits(), Wary) else {
        return;
    };
    tell_end(rt, path, status.missing);
    if status.missing != Missing::None {
        tell_final(rt, path, waste.unnamed);
    }
}

/// Says how much would go, and gives the exit status.
fn print_waste(rt: &HostRuntime, path: &str) -> u8 {
    match weigh_data(rt, path, limits(), Wary) {
        Ok(waste) => {
            tell_its_end(rt, path, &waste);
            print_line(&mut io::writer(rt), format_args!("would go: {waste}"), DONE)
        }
        Err(fault) => print_fault(rt, path, &fault),
    }
}

/// Says which blobs of repositories would go, a line for each, and then how much; gives the exit status.
fn print_forecast(rt: &HostRuntime, path: &str, leaving: &Leaving) -> u8 {
    let (gone, waste) = match foresee_data(rt, path, limits(), Wary, leaving) {
        Ok(forecast) => forecast,
        Err(fault) => return print_fault(rt, path, &fault),
    };
    tell_its_end(rt, path, &waste);
    let mut out = io::writer(rt);
    for (name, digest) in gone.iter() {
        if writeln!(out, "{name} {digest}").is_err() {
            return FAULT;
        }
    }
    let gone = Quantity(gone.len() as u64, "blob");
    let text = format_args!("would go: {waste}, repositories would give up {gone}");
    print_line(&mut out, text, DONE)
}

/// Writes the journal of the data directory at `path` anew, without what needn't stay if that is said; gives the exit
/// status.
fn print_room<R: Threads>(rt: &R, host: &HostRuntime, path: &str, leaving: Option<&Leaving>) -> u8 {
    let made = compact_data::<R, Wary, Wary, Wary, AnyBodies>(
        rt,
        host,
        path,
        limits(),
        None,
        Wary,
        Wary,
        leaving,
    );
    match made {
        Ok(room) => print_line(
            &mut io::writer(host),
            format_args!("compacted: {room}"),
            DONE,
        ),
        Err(fault) => print_fault(host, path, &fault),
    }
}

/// The same with this list of what is referred to, without which the others go, or says what would go.
fn run_keeping<R: Threads>(rt: &R, host: &HostRuntime, path: &str, dry: bool, keep: Keep) -> u8 {
    let Keep { list, grace } = keep;
    let since = seconds_now(host).saturating_sub(grace);
    match read_list(host, list, since) {
        Ok(leaving) if dry => print_forecast(host, path, &leaving),
        Ok(leaving) => print_room(rt, host, path, Some(&leaving)),
        Err(fault) => print_no_list(host, list, &fault),
    }
}

/// Gives room back in the data directory at `path`, or only says what would go; gives the exit status. With a list of
/// what is referred to, the other blobs of repositories go too, but those that are young.
///
/// `fault: data` is printed if that can't be done, and `refused: keep` if the list can't be read; standard error says why.
pub fn run_compact<R: Threads>(
    rt: &R,
    host: &HostRuntime,
    path: &str,
    dry: bool,
    keep: Option<Keep>,
) -> u8 {
    match keep {
        Some(keep) => run_keeping(rt, host, path, dry, keep),
        None if dry => print_waste(host, path),
        None => print_room(rt, host, path, None),
    }
}
