//! A server, and pushes to it, in one process.
ghost use Rattle.std.specs.Prelude.{◌<◌};
ghost use Rattle.std.specs.Thread.{IsSync};

use blobd_push::run_push;
use blobd_serve::{Demand, Terms, run_serve};
use blobd_shared::DONE;
use std::alloc::Global;
use std::io::{Eprint, Read, Write};
use std::net::{Net, SocketAddr, TcpListener, TcpStream};
use std::random::RandomSource;
use std::rt::Clock;
use std::sync::Wait;
use std::test::Fail;
use std::thread::{Threads, join};
use std::time::Duration;
use std::{io, thread};

/// How long the windows are in which a client has to move its bytes, in microseconds.
const SECOND: u64 = 1_000_000;

/// Short ones.
const FIFTH: u64 = 200_000;

const OPENING: &[u8] =
    b"POST /v2/lib/a/blobs/uploads/ HTTP/1.1\r\nContent-Length: 0\r\nConnection: close\r\n\r\n";

/// A line, and the exit status.
type Printed = (Vec<u8>, u8);

fn pushed<R>(rt: &R, addr: SocketAddr, name: &[u8]) -> Printed
where
    R: Net<Stream = TcpStream> + AllocGlobal + Clock + Eprint + 'static,
{
    let mut out = Vec::new(rt.alloc());
    let status = run_push(rt, addr, name, b"abc", 2, false, &mut out);
    (out, status)
}

/// A connection for each of two workers, whose client has to move so many bytes in each window.
fn terms(window: u64, least: u64) -> Terms
    ensures { 0 < result.workers }
{
    Terms {
        memory: None,
        workers: 2,
        count: 1,
        demand: Demand { window, least },
        logged: false,
    }
}

fn served<R>(rt: &R, listener: &TcpListener, least: u64) -> Printed
where
    R: Threads + Wait + Sync + AllocGlobal + Clock + RandomSource + Eprint + Copy + Send + 'static,
{
    let mut out = Vec::new(rt.alloc());
    let status = run_serve(rt, listener, terms(SECOND, least), &mut out);
    (out, status)
}

/// What a server whose workers take a connection each prints, and two pushes to it.
fn all_printed<R>(rt: &R, listener: &TcpListener, addr: SocketAddr) -> (Printed, (Printed, Printed))
where
    R: Threads
        + Wait
        + Sync
        + AllocGlobal
        + Clock
        + RandomSource
        + Eprint
        + Copy
        + Send
        + 'static
        + Net<Stream = TcpStream>,
{
    join(
        rt,
        || -> Printed
            requires { IsSync R.row }
        { served(rt, listener, 0) },
        || -> (Printed, Printed)
            requires { IsSync R.row }
        {
            let left = pushed(rt, addr, b"lib/a");
            (left, pushed(rt, addr, b"lib/b"))
        },
    )
}

#[test]
fn a_server_and_two_pushes(rt: HostRuntime) -> Result<(), Fail> {
    let any: SocketAddr = "127.0.0.1:0".parse()?;
    let listener = TcpListener::bind(&rt, any)?;
    let addr = listener.local_addr()?;
    let lines = format!(in rt.alloc(); "listening {addr}\nserved\n")?;
    let line = "pushed sha256:ba7816bf8f01cfea414140de5dae2223b00361a396177a9cb410ff61f20015ad\n";
    let (server, (left, right)) = all_printed(&rt, &listener, addr);
    assert_eq!(rt; server.0.as_slice(), lines.as_bytes());
    assert_eq!(rt; server.1, 0);
    assert_eq!(rt; left.0.as_slice(), line.as_bytes());
    assert_eq!(rt; left.1, 0);
    assert_eq!(rt; right.0.as_slice(), line.as_bytes());
    assert_eq!(rt; right.1, 0);
    Ok(())
}

#[test]
fn a_name_that_is_none_is_refused(rt: HostRuntime) -> Result<(), Fail> {
    let nowhere: SocketAddr = "127.0.0.1:1".parse()?;
    let printed = pushed(&rt, nowhere, b"A");
    assert_eq!(rt;
        (printed.0.as_slice(), printed.1),
        (b"refused: name\n".as_slice(), 1)
    );
    Ok(())
}

/// The reply to an opening that is sent in pieces, a tenth of a second apart, for about a second and a half.
fn opened_slowly<R>(rt: &R, addr: SocketAddr) -> io::Result<Vec<u8>>
where
    R: Net<Stream = TcpStream> + AllocGlobal + Clock,
{
    let mut client = TcpStream::connect(rt, addr)?;
    for piece in OPENING.chunks(6) {
        thread::sleep(rt, Duration::from_millis(100));
        client.write_all(piece)?;
    }
    let mut reply = Vec::new(rt.alloc());
    client.read_to_end(&mut reply)?;
    Ok(reply)
}

/// What a server prints of whose clients so many bytes are asked in each second, and the replies to two that send
/// slowly.
fn slow_replies<R>(
    rt: &R,
    listener: &TcpListener,
    addr: SocketAddr,
    least: u64,
) -> (Printed, [io::Result<Vec<u8>>; 2])
where
    R: Threads
        + Wait
        + Sync
        + AllocGlobal
        + Clock
        + RandomSource
        + Eprint
        + Copy
        + Send
        + 'static
        + Net<Stream = TcpStream>,
{
    join(
        rt,
        || -> Printed
            requires { IsSync R.row }
        { served(rt, listener, least) },
        || -> [io::Result<Vec<u8>>; 2]
            requires { IsSync R.row }
        { [opened_slowly(rt, addr), opened_slowly(rt, addr)] },
    )
}

/// A request that takes longer than a second, and of which enough comes in each, is served.
#[test]
fn a_slow_client_is_served(rt: HostRuntime) -> Result<(), Fail> {
    let any: SocketAddr = "127.0.0.1:0".parse()?;
    let listener = TcpListener::bind(&rt, any)?;
    let addr = listener.local_addr()?;
    let (server, replies) = slow_replies(&rt, &listener, addr, 20);
    assert_eq!(rt; server.1, 0);
    for reply in replies {
        assert!(rt; reply?.starts_with(b"HTTP/1.1 202 Accepted\r\n"));
    }
    Ok(())
}

/// A client that is never silent for a tenth of a second, and sends less than is asked in a second, gets no reply.
#[test]
fn a_client_that_is_too_slow_is_cut(rt: HostRuntime) -> Result<(), Fail> {
    let any: SocketAddr = "127.0.0.1:0".parse()?;
    let listener = TcpListener::bind(&rt, any)?;
    let addr = listener.local_addr()?;
    let (server, replies) = slow_replies(&rt, &listener, addr, 200);
    assert_eq!(rt; server.1, 0);
    for reply in replies {
        // The system may reset a connection that is cut.
        assert!(rt; reply.map_or(true, |text| text.is_empty()));
    }
    Ok(())
}

fn reply(alloc: Global, client: &mut TcpStream) -> io::Result<String> {
    let mut reply = String::new(alloc);
    client.read_to_string(&mut reply)?;
    Ok(reply)
}

/// Both connections wait to be accepted, with a request each, before the listener is served.
#[test]
fn a_connection_for_each_worker(rt: HostRuntime) -> Result<(), Fail> {
    let alloc = rt.alloc();
    let listener = TcpListener::bind(&rt, "127.0.0.1:0")?;
    let addr = listener.local_addr()?;
    let mut left = TcpStream::connect(&rt, addr)?;
    let mut right = TcpStream::connect(&rt, addr)?;
    left.write_all(OPENING)?;
    right.write_all(OPENING)?;
    let mut printed = Vec::new(alloc);
    assert_eq!(rt;
        run_serve(&rt, &listener, terms(FIFTH, 1), &mut printed),
        DONE
    );
    let wanted = format!(in alloc; "listening {addr}\nserved\n")?;
    assert_eq!(rt; printed.as_slice(), wanted.as_bytes());
    for reply in [reply(alloc, &mut left)?, reply(alloc, &mut right)?] {
        assert!(rt;
            reply.starts_with("HTTP/1.1 202 Accepted\r\nLocation: /v2/lib/a/blobs/uploads/0000000")
        );
        assert!(rt; reply.ends_with("Content-Length: 0\r\nConnection: close\r\n\r\n"));
    }
    Ok(())
}

/// A client that sends nothing and one that sends half a head: neither holds its worker for long.
#[test]
fn silent_clients_are_ended(rt: HostRuntime) -> Result<(), Fail> {
    let alloc = rt.alloc();
    let listener = TcpListener::bind(&rt, "127.0.0.1:0")?;
    let addr = listener.local_addr()?;
    let mut silent = TcpStream::connect(&rt, addr)?;
    let mut halting = TcpStream::connect(&rt, addr)?;
    halting.write_all(&OPENING[..20])?;
    let mut printed = Vec::new(alloc);
    assert_eq!(rt;
        run_serve(&rt, &listener, terms(FIFTH, 1), &mut printed),
        DONE
    );
    assert_eq!(rt; reply(alloc, &mut silent)?.as_str(), "");
    assert_eq!(rt; reply(alloc, &mut halting)?.as_str(), "");
    Ok(())
}
