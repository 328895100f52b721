//! The program: the blob upload part of an image registry.
//!
//!     blobd once                  one connection over standard input and output, over a new service
//!     blobd serve ADDR [COUNT]    listens; each worker takes COUNT connections, or all that come
//!     blobd push ADDR NAME FILE [CHUNK]
//!                                 pushes a file in chunks, connecting again after a fault
//!     blobd status [--json] DIR   tells what a data directory holds
//!     blobd compact [--dry-run] DIR
//!     blobd compact [--dry-run] [--grace SECONDS] DIR KEEP
//!                                 gives room back in a data directory, or tells how much that would be
//!     blobd --help, blobd --version
#![tactic(auto)]

ghost use Rattle.std.specs.Prelude.{◌≡◌, ◌≤◌, IfOk};

mod compacting;
mod listening;
mod once;
mod status;
mod streams;

use crate::compacting::run_compact;
use crate::listening::{Audience, listen, listen_keeping};
use crate::once::run_once;
use crate::status::print_status;
use crate::streams::hold_standard_streams;
use blobd_data::Damaged;
use blobd_push::run_push;
use blobd_serve::{Demand, Terms};
use blobd_shared::{DONE, FAULT, print_line};
use blobd_words::{
    Command, Complaint, HELP, USAGE, VERSION, complaint_on, complaint_text, is_slow, read_memory,
    read_switch, read_words, read_workers, usual_memory,
};
use http_wire::{FromRead, ToWrite};
use std::env::VarError;
use std::fs::Files;
use std::io::{Eprint, ErrorKind, IsTerminal};
use std::net::{Net, SocketAddr, TcpListener, TcpStream};
use std::process::ExitCode;
use std::random::RandomSource;
use std::rt::Clock;
use std::sync::Wait;
use std::thread::Threads;
use std::{env, fs, io};

/// The exit status if the words are no command.
const NO_COMMAND: u8 = 2;

/// The most bytes of a file that is pushed.
const LARGEST_FILE: usize = 1_099_511_627_776;

/// What is asked of a client: 60 KiB in each minute in which it is waited for.
const DEMAND: Demand = Demand {
    window: 60_000_000,
    least: 61_440,
};

/// A variable of the environment that is a switch.
#[derive(Clone, Copy)]
struct Switch {
    name: &'static str,
    /// What it has a server do if it is 1.
    on: &'static str,
}

const LOG: Switch = Switch {
    name: "BLOBD_LOG",
    on: "log requests",
};

const STRICT: Switch = Switch {
    name: "BLOBD_STRICT",
    on: "refuse a damaged folder",
};

/// The variable of the environment that says how many workers a server has.
const WORKERS: &str = "BLOBD_WORKERS";

/// How many it has without that.
const USUAL_WORKERS: usize = 2;

/// The variable of the environment that says how many bytes a server may hold.
const MEMORY: &str = "BLOBD_MEMORY";

/// The variable of the environment that the C library reads.
const TUNABLES: &str = "GLIBC_TUNABLES";

/// The variable of the environment that says where a server keeps what it has.
const DATA: &str = "BLOBD_DATA";

/// More connections than ever come.
const ENDLESS: u64 = u64::MAX;

/// Prints the usage, and to somebody who looks on what is wrong with the words; gives the exit status.
fn print_usage(rt: &HostRuntime, complaint: Complaint, seen: bool) -> u8 {
    let _ = eprintln!(rt; "{USAGE}");
    if seen {
        let _ = eprintln!(rt; "blobd: {}", complaint_text(complaint));
    }
    NO_COMMAND
}

fn serve_input(rt: &HostRuntime) -> u8 {
    let mut reader = FromRead::new(rt.stdin());
    let mut writer = ToWrite::new(rt.stdout());
    run_once(rt.alloc(), &mut reader, &mut writer)
}

/// Says what may stand in the variable, and gives the exit status.
fn print_workers_usage(rt: &HostRuntime) -> u8 {
    let _ = eprintln!(rt; "blobd: {WORKERS} is a number from 1 to 256");
    NO_COMMAND
}

/// Tells whoever pushes that the chunks are small.
fn print_slow<R: Eprint>(rt: &R, chunk: u64) {
    let _ = eprintln!(rt;
        "blobd: chunks of {chunk} bytes make a slow push, since each is a request: 16M is a good CHUNK"
    );
}

fn push_file<R>(rt: &R, addr: SocketAddr, name: &str, path: &str, chunk: u64, seen: bool) -> u8
where
    R: AllocGlobal + Clock + Files + Print + Eprint + Net<Stream = TcpStream> + 'static,
    requires { (1 ≤ chunk) × (chunk ≤ 2147483648) }
{
    let mut out = io::writer(rt);
    let fault = match fs::read(rt, path) {
        Ok(file) if file.len() <= LARGEST_FILE => {
            if is_slow(chunk, file.len() as u64) {
                print_slow(rt, chunk);
            }
            return run_push(rt, addr, name.as_bytes(), &file, chunk, seen, &mut out);
        }
        Ok(_) => io::Error::from(ErrorKind::FileTooLarge),
        Err(error) => error,
    };
    let _ = eprintln!(rt; "blobd: can't push {path}: {fault}");
    print_line(&mut out, "fault: file", FAULT)
}

/// The words behind the program's name. An error is out of memory, or says that a word isn't UTF-8.
fn args_of(rt: &HostRuntime) -> io::Result<Vec<String>> {
    Ok(env::args(rt)?.skip(1).collect::<Vec<String>>(rt.alloc())?)
}

fn print_no_memory(rt: &HostRuntime) -> u8 {
    print_line(&mut io::writer(rt), "fault: memory", FAULT)
}

/// Says what may stand in the variable, and gives the exit status.
fn print_no_switch(rt: &HostRuntime, switch: Switch) -> u8 {
    let Switch { name, on } = switch;
    let _ = eprintln!(rt; "blobd: {name} is 1 to {on}, or 0, or not set");
    NO_COMMAND
}

/// Whether the environment has a switch on. An error is the exit status if it says neither yes nor no, or out of
/// memory.
fn is_on(rt: &HostRuntime, switch: Switch) -> Result<bool, u8> {
    match env::var(rt, switch.name) {
        Ok(value) => match read_switch(&value) {
            Some(is_on) => Ok(is_on),
            None => Err(print_no_switch(rt, switch)),
        },
        Err(VarError::NotPresent) => Ok(false),
        Err(VarError::NotUnicode) => Err(print_no_switch(rt, switch)),
        Err(VarError::OutOfMemory) => Err(print_no_memory(rt)),
    }
}

/// How many workers a server has, as the environment says. An error is the exit status if it says anything else, or out
/// of memory.
fn workers_of(rt: &HostRuntime) -> Result<usize, u8>
    ensures { IfOk result (λ workers. 1 ≤ workers) }
{
    match env::var(rt, WORKERS) {
        Ok(value) => match read_workers(value.as_str()) {
            Some(workers) => Ok(workers as usize),
            None => Err(print_workers_usage(rt)),
        },
        Err(VarError::NotPresent) => Ok(USUAL_WORKERS),
        Err(VarError::NotUnicode) => Err(print_workers_usage(rt)),
        Err(VarError::OutOfMemory) => Err(print_no_memory(rt)),
    }
}

/// Says what may stand in the variable, and gives the exit status.
fn print_no_folder(rt: &HostRuntime) -> u8 {
    let _ = eprintln!(rt; "blobd: {DATA} is the path of a folder, or not set");
    NO_COMMAND
}

/// Says what may stand in the variable, and gives the exit status.
fn print_no_memory_size(rt: &HostRuntime) -> u8 {
    let _ = eprintln!(rt; "blobd: {MEMORY} is a number of bytes, as 512M or 8G");
    NO_COMMAND
}

/// How many bytes a server with so many workers may hold, as the environment says, or else as the machine does. An
/// error is the exit status if the environment says anything else, or out of memory.
fn memory_of(rt: &HostRuntime, workers: usize) -> Result<Option<u64>, u8> {
    match env::var(rt, MEMORY) {
        Ok(value) => match read_memory(value.as_str()) {
            Some(memory) => Ok(Some(memory)),
            None => Err(print_no_memory_size(rt)),
        },
        Err(VarError::NotPresent) => {
            let told = env::var(rt, TUNABLES).unwrap_or_else(|_| String::new(rt.alloc()));
            Ok(usual_memory(rt, (workers as u64).saturating_add(1), &told))
        }
        Err(VarError::NotUnicode) => Err(print_no_memory_size(rt)),
        Err(VarError::OutOfMemory) => Err(print_no_memory(rt)),
    }
}

/// What becomes of a damaged directory, as the environment says. An error is the exit status if it says what can't be
/// read, or out of memory.
fn damaged_of(rt: &HostRuntime) -> Result<Damaged, u8> {
    if is_on(rt, STRICT)? {
        return Ok(Damaged::Refused);
    }
    Ok(Damaged::Opened)
}

/// Where a server keeps what it has, if the environment says so. An error is the exit status if that is no path, or out
/// of memory.
fn data_of(rt: &HostRuntime) -> Result<Option<String>, u8> {
    match env::var(rt, DATA) {
        Ok(path) if !path.is_empty() => Ok(Some(path)),
        Ok(_) | Err(VarError::NotUnicode) => Err(print_no_folder(rt)),
        Err(VarError::NotPresent) => Ok(None),
        Err(VarError::OutOfMemory) => Err(print_no_memory(rt)),
    }
}

/// A server, as its words and the environment say; gives the exit status. Both are the same: a server has threads, and
/// what it keeps is in files.
fn serve<R>(rt: &R, host: &HostRuntime, addr: SocketAddr, count: Option<u64>, seen: bool) -> u8
where
    R: Threads + Wait + Sync + Copy + Send + 'static,
    R: AllocGlobal + Clock + RandomSource + Print + Eprint,
    R: Net<Listener = TcpListener, Stream = TcpStream>,
{
    let terms = match terms_of(host, count) {
        Ok(terms) => terms,
        Err(status) => return status,
    };
    let damaged = match damaged_of(host) {
        Ok(damaged) => damaged,
        Err(status) => return status,
    };
    let limited = env::var(host, MEMORY).is_ok();
    let audience = Audience { seen, limited };
    match data_of(host) {
        Ok(None) => listen(rt, addr, terms, audience),
        Ok(Some(path)) => listen_keeping(rt, host, addr, terms, path.as_str(), damaged, audience),
        Err(status) => status,
    }
}

/// The terms of a server, as its words and the environment say. An error is the exit status if the environment says
/// what can't be read.
fn terms_of(rt: &HostRuntime, count: Option<u64>) -> Result<Terms, u8>
    ensures { IfOk result (λ terms. 1 ≤ terms.workers) }
{
    let workers = workers_of(rt)?;
    let logged = is_on(rt, LOG)?;
    let memory = memory_of(rt, workers)?;
    Ok(Terms {
        workers,
        memory,
        count: count.unwrap_or(ENDLESS),
        demand: DEMAND,
        logged,
    })
}

/// Says why there are no words, and gives the exit status. Words that aren't UTF-8 are no command.
fn print_no_args(rt: &HostRuntime, error: &io::Error, seen: bool) -> u8 {
    match error.kind() {
        ErrorKind::OutOfMemory => print_no_memory(rt),
        _ => print_usage(rt, Complaint::NoText, seen),
    }
}

/// Says that the numbers of the closed standard streams can't be held, and gives the exit status.
fn print_no_streams(rt: &HostRuntime, error: &io::Error) -> u8 {
    let _ = eprintln!(rt; "blobd: can't open /dev/null in place of a closed stream: {error}");
    print_line(&mut io::writer(rt), "fault: streams", FAULT)
}

fn main(rt: HostRuntime) -> ExitCode {
    if let Err(error) = hold_standard_streams(&rt) {
        return ExitCode::from(print_no_streams(&rt, &error));
    }
    // Whether somebody looks on.
    let seen = rt.stderr().is_terminal();
    let args = match args_of(&rt) {
        Ok(args) => args,
        Err(error) => return ExitCode::from(print_no_args(&rt, &error, seen)),
    };
    let Ok(words) = args
        .iter()
        .map(|word| word.as_str())
        .collect::<Vec<&str>>(rt.alloc())
    else {
        return ExitCode::from(print_no_memory(&rt));
    };
    ExitCode::from(match read_words(&words) {
        Some(Command::Once) => serve_input(&rt),
        Some(Command::Serve { addr, count }) => serve(&rt, &rt, addr, count, seen),
        Some(Command::Status { path, json }) => print_status(&rt, path, json),
        Some(Command::Compact { path, dry, keep }) => run_compact(&rt, &rt, path, dry, keep),
        Some(Command::Help) => print_line(&mut io::writer(&rt), HELP, DONE),
        Some(Command::Version) => print_line(&mut io::writer(&rt), VERSION, DONE),
        Some(
            Command::Push {
                addr,
                name,
                file,
                chunk,
            },
        ) => push_file(&rt, addr, name, file, chunk, seen),
        None => print_usage(&rt, complaint_on(&words), seen),
    })
}
