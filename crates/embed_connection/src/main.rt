//! A connection over standard input and output, with a desk of one's own: it counts what it is asked, and has a service
//! answer. Behind the replies the program prints how the connection ended, and the count.
#![tactic(auto)]

ghost use Rattle.upload_wire.specs.Conversation.{IsConversation, connection};
ghost use Rattle.embed_connection.specs.Counting.{StepsAndCounts};

use http_wire::{ByteSink, ByteSource, FromRead, ToWrite};
use std::alloc::Global;
use std::io;
use upload_service::{Answer, Ask, Limits, Service};
use upload_wire::{ConnEnd, Desk, serve_connection};

const LIMITS: Limits = Limits {
    max_blob: 1 << 30,
    max_body: 1 << 20,
    max_open: 16,
    max_idle: 3_600,
};

/// A service, and how many requests it was asked.
#[derive(Drop)]
struct CountingDesk {
    service: Service,
    asked: u64,
}

impl Desk for CountingDesk {
    ghost moves = { StepsAndCounts };

    fn ask(&mut self, ask: Ask) -> Option<Answer> {
        self.asked = self.asked.saturating_add(1);
        // A server draws the secret at random, so that nobody guesses an upload's reference.
        Some(self.service.step(ask, [0; 12], 0))
    }
}

/// Serves one connection: each request that is read is one turn of the service, counted, and its answer is written.
fn serve<R: ByteSource, W: ByteSink>(
    alloc: Global,
    reader: &mut R,
    writer: &mut W,
    desk: &mut CountingDesk,
) -> ConnEnd
    ensures { IsConversation StepsAndCounts 1048576
        (connection (R.state reader.old) desk.old (W.state writer.old))
        (connection (R.state reader.new) desk.new (W.state writer.new)) result }
{
    serve_connection(alloc, reader, writer, desk, LIMITS)
}

fn main(rt: HostRuntime) -> io::Result<()> {
    let mut reader = FromRead::new(rt.stdin());
    let mut writer = ToWrite::new(rt.stdout());
    let mut desk = CountingDesk {
        service: Service::new(rt.alloc(), LIMITS),
        asked: 0,
    };
    let end = serve(rt.alloc(), &mut reader, &mut writer, &mut desk);
    println!(rt; "{end:?} after {} requests", desk.asked)
}
