//! `blobd once`: one connection over a reader and a writer, over a new service.
ghost use Rattle.std.specs.Prelude.{◌≡◌};
ghost use Rattle.blobd.specs.Once.{IsOnce, status_of};

use blobd_serve::limits;
use blobd_shared::{DONE, FAULT, REFUSED};
use http_wire::{ByteSink, ByteSource};
use std::alloc::Global;
use upload_service::{Service, headline_holds};
use upload_wire::{ConnEnd, ServiceDesk, connections_run_the_service, serve_connection};

/// The exit status of a connection's end: 0 if the client ended it, 1 if the service did, 3 after a fault.
fn status_of(end: ConnEnd) -> u8
    ensures { result ≡ status_of end }
{
    match end {
        ConnEnd::Clean | ConnEnd::AfterClose => DONE,
        ConnEnd::AfterBad | ConnEnd::TooMany => REFUSED,
        ConnEnd::DeskGone | ConnEnd::Fault(_) => FAULT,
    }
}

/// Serves one connection over a new service, whose secrets are zero and whose clock stands at 0, and gives the exit
/// status.
pub fn run_once<R: ByteSource, W: ByteSink>(alloc: Global, reader: &mut R, writer: &mut W) -> u8
    ensures { IsOnce (R.state reader.old) (R.state reader.new) (W.state writer.old)
        (W.state writer.new) result }
{
    // The laws over all conversations and over all runs, of which this will be one. The calls do nothing.
    connections_run_the_service();
    headline_holds();
    let limits = limits();
    let service = Service::new(alloc, limits);
    // Each service is lawful, and this call says so.
    let _ = service.limits();
    let mut desk = ServiceDesk::new(service, [0; 12], 0);
    status_of(serve_connection(alloc, reader, writer, &mut desk, limits))
}
