//! A seat asks the keeper, and waits for the answer.
ghost use Rattle.std.specs.Prelude.{◌≡◌, ℕ, List, IfOk, IfErr};
ghost use Rattle.upload_keeper.specs.declared.message.Message.TheVariants.{Job};
ghost use Rattle.upload_service.specs.declared.ask.Request.TheVariants.{Held};
ghost use Rattle.upload_keeper.specs.Kept.{IsJob, IsHeld};

use crate::ends::{SendEnd, TakeEnd};
use crate::gone::Gone;
use crate::heard::Heard;
use crate::line::Item;
use crate::message::{Message, Wish, WishReply};
use crossbeam_channel::Receiver;
use std::marker::Model;
use std::sync::Wait;
use upload_bytes::{Body, Spool};
use upload_names::{Algorithm, BlobDigest, RepoName, UploadRef};
use upload_service::{Answer, Ask, Extent, GoneChunk, Request};

/// How often a seat waits at most for the hash of an upload before it asks for a chunk or the close. Twice are enough if
/// nothing comes meanwhile: for the thread that was at work, and for the one that takes the rest in.
const MOST_WAITS: u32 = 4;

/// How often a seat hashes the body of a close at most, if chunks come meanwhile.
const MOST_HASHES: u32 = 4;

/// The fewest bytes of a body that the keeper doesn't hash, and of a chunk that waits for the hash of its upload.
const WORTH_HASHING: u64 = 262_144;

/// How many times as fast bytes are compared as hashed, at least.
const COMPARING: u64 = 16;

/// What a seat has, before and after its finish: its number, its ends of the lines, and whether a call of it ended
/// `Gone`.
#[derive(Drop)]
pub(crate) struct Place {
    pub(crate) seat: usize,
    pub(crate) jobs: SendEnd<Message>,
    pub(crate) replies: TakeEnd<Heard>,
    pub(crate) gone: bool,
}

/// One of the places from which the keeper is asked. Contracts see what it sent and heard.
#[derive(Drop)]
pub struct Seat {
    place: Place,
    ends: Receiver<WishReply>,
}

impl Model for Seat {
    ghost use Rattle.crossbeam_channel.specs.Claims.{view as known};
    ghost use Rattle.upload_keeper.specs.Seats.{SeatState};
    ghost use Rattle.upload_keeper.specs.Kept.{Sits, seat_at};

    ghost Value = { SeatState };

    ghost view = { λ s. seat_at s.place };

    ghost invariant = { λ s. Sits s.place.seat s.place.gone
        (known s.place.jobs.pass) (known s.place.replies.pass) };
}

/// A seat that asks no more. Contracts see the same of it.
#[derive(Drop)]
pub struct SeatEnd {
    pub(crate) place: Place,
}

impl Model for SeatEnd {
    ghost use Rattle.crossbeam_channel.specs.Claims.{view as known};
    ghost use Rattle.upload_keeper.specs.Seats.{SeatState};
    ghost use Rattle.upload_keeper.specs.Kept.{SatToTheEnd, seat_at};

    ghost Value = { SeatState };

    ghost view = { λ s. seat_at s.place };

    ghost invariant = { λ s. SatToTheEnd s.place.seat s.place.gone
        (known s.place.jobs.pass) (known s.place.replies.pass) };
}

/// A request for a close, without its body.
#[derive(Drop)]
struct Close {
    name: RepoName,
    at: UploadRef,
    range: Extent,
    digest: Option<BlobDigest>,
}

impl Close {
    // The request with this body.
    fn with(self, body: Body) -> Ask
        ensures { result ≡ Ask.Close self.name self.at self.range self.digest body }
    {
        let Close {
            name,
            at,
            range,
            digest,
        } = self;
        Ask::Close {
            name,
            at,
            range,
            digest,
            body,
        }
    }
}

// A close and its body. An `Err` gives a request back that is another one.
fn close_of(ask: Ask) -> Result<(Close, Body), Ask>
    ensures ok { IfOk result
        (λ parts. ask ≡ Ask.Close parts.0.name parts.0.at parts.0.range parts.0.digest parts.1) }
    ensures err { IfErr result (λ back. back ≡ ask) }
{
    match ask {
        Ask::Close {
            name,
            at,
            range,
            digest,
            body,
        } => Ok((
            Close {
                name,
                at,
                range,
                digest,
            },
            body,
        )),
        other => Err(other),
    }
}

impl Seat {
    ghost use Rattle.std.specs.Prelude.{◌≡◌, [], false};
    ghost use Rattle.crossbeam_channel.specs.Claims.{view as known};
    ghost use Rattle.crossbeam_channel.specs.Ends.{sends_on, receives_on};
    ghost use Rattle.upload_keeper.specs.Passes.{line_of, sender_view, taker_view};
    ghost use Rattle.upload_service.specs.Requests.{chunk_ask};
    ghost use Rattle.upload_keeper.specs.Seats.{Asks, Hears};
    ghost use Rattle.upload_keeper.specs.Kept.{Exchanges};

    pub(crate) fn new(
        seat: usize,
        jobs: SendEnd<Message>,
        replies: TakeEnd<Heard>,
        ends: Receiver<WishReply>,
    ) -> Seat
        requires jobs { known jobs.pass ≡ sender_view seat [] }
        requires replies { known replies.pass ≡ taker_view 1 [] }
        ensures { result ≡ record {
          jobs = line_of (sends_on jobs.sender);
          replies = line_of (receives_on replies.receiver);
          seat = seat;
          sent = [];
          heard = [];
          gone = false;
          sends = jobs.is_open;
          takes = replies.is_open;
        } }
    {
        let place = Place {
            seat,
            jobs,
            replies,
            gone: false,
        };
        Seat { place, ends }
    }

    /// Sends a request to the keeper, and waits for the answer. Before a large chunk it waits for the hash of what the
    /// upload received, if that lags far behind. Before a close with a digest it waits for all of that hash, and hashes a
    /// large body behind that itself, while the keeper serves others.
    ///
    /// `NotSent` comes only if the line handed the request back or an earlier call ended `Gone`. `NoAnswer` comes
    /// only if no answer came after the request was sent.
    pub fn ask<R: Wait>(&mut self, rt: &R, ask: Ask, secret: [u8; 12]) -> Result<Answer, Gone>
        ensures { Asks self.old ask secret result self.new }
    {
        self.keep_pace(rt, &ask);
        let ask = self.prepare(rt, ask);
        self.ask_at_once(rt, ask, secret)
    }

    // Waits for the hashes of a session that is to take a large chunk, if they lag far behind what it received. Nothing
    // that is seen changes.
    fn keep_pace<R: Wait>(&mut self, rt: &R, ask: &Ask)
        ensures { self.new ≡ self.old }
    {
        if let Ask::Chunk { at, body, .. } = ask {
            if body.len() as u64 >= WORTH_HASHING && !self.place.gone {
                self.wait_for(rt, *at, None);
            }
        }
    }

    // The same request, with all hashed that can be hashed before it is asked.
    fn prepare<R: Wait>(&mut self, rt: &R, ask: Ask) -> Ask
        ensures ask { result ≡ ask }
        ensures same { self.new ≡ self.old }
    {
        let (close, body) = match close_of(ask) {
            Ok(parts) => parts,
            Err(ask) => return ask,
        };
        let body = self.prepare_body(rt, close.at, close.digest, body);
        close.with(body)
    }

    // The same body of a close with this digest, for which the hash of its session is waited for; of a gone keeper
    // nothing is.
    fn prepare_body<R: Wait>(
        &mut self,
        rt: &R,
        at: UploadRef,
        digest: Option<BlobDigest>,
        body: Body,
    ) -> Body
        ensures body { result ≡ body }
        ensures same { self.new ≡ self.old }
    {
        match digest {
            Some(digest) if !self.place.gone => {
                let algorithm = digest.algorithm();
                self.wait_for(rt, at, Some(algorithm));
                self.hash_body(rt, at, algorithm, body)
            }
            _ => body,
        }
    }

    // Waits until the hash of a session by this algorithm holds all that the session received but for little, or, if there
    // is none, until its hashes keep up; or chunks went on coming. Nothing that is seen changes.
    fn wait_for<R: Wait>(&mut self, rt: &R, at: UploadRef, closing: Option<Algorithm>)
        ensures { self.new ≡ self.old }
    {
        'waits: for _ in 0..MOST_WAITS {
            let wish = match closing {
                Some(algorithm) => Wish::GoesOn(at, algorithm),
                None => Wish::KeepsUp(at),
            };
            let WishReply::AtWork(end) = self.wish(rt, wish) else {
                break;
            };
            end.wait(rt);
        }
    }

    // The same body, hashed here behind what a session received, if the keeper would hold others up with it: by the
    // hash of a large body, or by comparing what the session received. If chunks come meanwhile it is hashed anew,
    // unless they go on coming.
    fn hash_body<R: Wait>(
        &mut self,
        rt: &R,
        at: UploadRef,
        algorithm: Algorithm,
        body: Body,
    ) -> Body
        ensures body { result ≡ body }
        ensures same { self.new ≡ self.old }
    {
        let size = body.len() as u64;
        if size < WORTH_HASHING {
            return body;
        }
        let mut body = body;
        let mut behind = 0;
        'hashes: for _ in 0..MOST_HASHES {
            let WishReply::Front(front) = self.wish(rt, Wish::Front(at, algorithm)) else {
                break;
            };
            let received = front.len();
            // Of an empty upload the hash that the body carries is the whole one.
            if received == behind || received / COMPARING > size {
                break;
            }
            behind = received;
            body = body.hashed_behind(front);
            self.wait_for(rt, at, Some(algorithm));
        }
        body
    }

    /// Where bodies are written as they come, if they are. Nothing that is seen changes.
    pub fn spool<R: Wait>(&mut self, rt: &R) -> Option<Spool>
        ensures { self.new ≡ self.old }
    {
        match self.wish(rt, Wish::Spool) {
            WishReply::Spool(spool) => Some(spool),
            _ => None,
        }
    }

    // Wishes something, and hears what comes of it: nothing, if the keeper goes meanwhile. Nothing that is seen
    // changes.
    fn wish<R: Wait>(&mut self, rt: &R, wish: Wish) -> WishReply
        ensures { self.new ≡ self.old }
    {
        let seat = self.place.seat;
        let item = Item {
            seat,
            what: Message::Wish(wish),
        };
        let Ok(()) = self.place.jobs.offer(rt, item) else {
            return WishReply::Nothing;
        };
        match self.ends.recv(rt) {
            Ok(told) => told,
            Err(_) => WishReply::Nothing,
        }
    }

    /// Asks the keeper a chunk whose bytes were let go, and waits for the answer. `None` says that none came.
    pub fn turn_away<R: Wait>(
        &mut self,
        rt: &R,
        chunk: GoneChunk,
        secret: [u8; 12],
    ) -> Option<Answer>
        ensures { Hears self.old (chunk_ask chunk) secret result self.new }
    {
        self.exchange(rt, Request::Gone(chunk), secret).ok()
    }

    // Sends an ask to the keeper, and waits for the answer.
    fn ask_at_once<R: Wait>(&mut self, rt: &R, ask: Ask, secret: [u8; 12]) -> Result<Answer, Gone>
        ensures { Asks self.old ask secret result self.new }
    {
        match self.exchange(rt, Request::Held(ask), secret) {
            Ok(answer) => Ok(answer),
            Err(Some(back)) => Err(Gone::NotSent(held_of(back))),
            Err(None) => Err(Gone::NoAnswer),
        }
    }

    // Sends a request to the keeper, and waits for the answer. An `Err` gives it back if it wasn't sent.
    fn exchange<R: Wait>(
        &mut self,
        rt: &R,
        request: Request,
        secret: [u8; 12],
    ) -> Result<Answer, Option<Request>>
        ensures { Exchanges self.old request secret result self.new }
    {
        if self.place.gone {
            return Err(Some(request));
        }
        let job = Item {
            seat: self.place.seat,
            what: Message::Job(request, secret),
        };
        if let Err(back) = self.place.jobs.send(rt, job) {
            self.place.gone = true;
            return Err(Some(request_of(back)));
        }
        match self.place.replies.take(rt) {
            Some(reply) => Ok(reply.what.into_answer()),
            None => {
                self.place.gone = true;
                Err(None)
            }
        }
    }

    /// Tells the keeper that no more comes.
    pub fn finish<R: Wait>(self, rt: &R) -> SeatEnd
        ensures { result ≡ self }
    {
        let Seat { mut place, .. } = self;
        let finish = Item {
            seat: place.seat,
            what: Message::Finish,
        };
        let _ = place.jobs.offer(rt, finish);
        SeatEnd { place }
    }
}

// The request of a job.
fn request_of(item: Item<Message>) -> Request
    requires { IsJob item.what }
    ensures { (secret : List ℕ) × (item.what ≡ Job result secret) }
{
    match item.what {
        Message::Job(request, _) => request,
        Message::Wish(_) | Message::Finish => unreachable!(),
    }
}

// The ask of a request that has its bytes.
fn held_of(request: Request) -> Ask
    requires { IsHeld request }
    ensures { request ≡ Held result }
{
    match request {
        Request::Held(ask) => ask,
        Request::Gone(_) => unreachable!(),
    }
}
