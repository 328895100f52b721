//! Which bodies carry the hash of their bytes, and by which algorithm. No contract says it: a hash that is there is
//! right, and if there is none the service makes it, so that only speed hangs on it.

use crate::expect::same;
use crate::texts::{LIMITS, OPENING};
use std::alloc::{AllocError, Global};
use std::test::Fail;
use test_support::{MemorySink, MemorySource};
use upload_bytes::Body;
use upload_names::Algorithm;
use upload_service::{Answer, Ask, Service};
use upload_wire::{ConnEnd, Desk, ServiceDesk, serve_connection};

const SINGLE: &str = "POST /v2/lib/a/blobs/uploads/?digest=sha512:\
    ddaf35a193617abacc417349ae20413112e6fa4e89a97ea20a9eeee64b55d39a\
    2192992a274fc1a836ba3c23a3feebbd454d4423643ce80e2a9ac94fa54ca49f";

const PATCH: &str = "PATCH /v2/lib/a/blobs/uploads/00000001-0000-8000-8000-000000000000";

const LARGE: &str = " HTTP/1.1\r\nContent-Length: 65537\r\n\r\n";

const CHUNKED: &str = " HTTP/1.1\r\nTransfer-Encoding: chunked\r\n\r\n3\r\naaa\r\n0\r\n\r\n";

/// The requests of one connection: two pieces of a text, how many bytes come behind them, and by what the body is
/// hashed as it comes. A body for an upload that was answered to have bytes isn't.
static REQUESTS: [(&str, &str, usize, Option<Algorithm>); 6] = [
    (OPENING, "", 0, None),
    (SINGLE, LARGE, 65_537, Some(Algorithm::Sha512)),
    (SINGLE, CHUNKED, 0, Some(Algorithm::Sha512)),
    (PATCH, LARGE, 65_537, Some(Algorithm::Sha256)),
    (PATCH, LARGE, 65_537, None),
    (PATCH, CHUNKED, 0, None),
];

/// By what the body of a request was hashed, if it has one.
fn hash_of(ask: &Ask) -> Option<Algorithm> {
    match ask {
        Ask::Single { body, .. } | Ask::Chunk { body, .. } | Ask::Close { body, .. } => {
            algorithm_of(body)
        }
        _ => None,
    }
}

fn algorithm_of(body: &Body) -> Option<Algorithm> {
    if body.sha512().is_some() {
        return Some(Algorithm::Sha512);
    }
    body.sha256().map(|_| Algorithm::Sha256)
}

/// A service that is asked what is wanted: the place of the first request that isn't hashed so.
#[derive(Drop)]
struct NotingDesk {
    desk: ServiceDesk,
    asked: usize,
    is_wrong: Option<usize>,
}

impl Desk for NotingDesk {
    ghost moves = { λ _ _ _ _. Unit {0} };

    fn ask(&mut self, ask: Ask) -> Option<Answer> {
        let wanted = REQUESTS.get(self.asked).map(|request| request.3);
        if self.is_wrong.is_none() && wanted != Some(hash_of(&ask)) {
            self.is_wrong = Some(self.asked);
        }
        self.asked = self.asked.saturating_add(1);
        self.desk.ask(ask)
    }
}

/// All that is sent.
fn sent(alloc: Global) -> Result<Vec<u8>, AllocError> {
    let mut text = Vec::new(alloc);
    for (front, rest, size, _) in REQUESTS.iter() {
        text.extend_from_slice(front.as_bytes())?;
        text.extend_from_slice(rest.as_bytes())?;
        text.resize(text.len().saturating_add(*size), b'a')?;
    }
    Ok(text)
}

/// Serves the connection, and says how it ended, how much was asked, and what was wrong first.
fn asked(alloc: Global, text: &[u8]) -> (ConnEnd, usize, Option<usize>) {
    let mut desk = NotingDesk {
        desk: ServiceDesk::new(Service::new(alloc, LIMITS), [0; 12], 0),
        asked: 0,
        is_wrong: None,
    };
    let mut reader = MemorySource::new(text, 65_536, false);
    let mut writer = MemorySink::new(Vec::new(alloc), 65_536, 65_536);
    let end = serve_connection(alloc, &mut reader, &mut writer, &mut desk, LIMITS);
    (end, desk.asked, desk.is_wrong)
}

#[test]
fn bodies_are_hashed_where_it_pays(rt: HostRuntime) -> Result<(), Fail> {
    let text = sent(rt.alloc())?;
    same(
        &rt,
        asked(rt.alloc(), &text),
        (ConnEnd::Clean, REQUESTS.len(), None),
        &"what is hashed",
    );
    Ok(())
}
