//! The connections of a push, which are made anew after a fault.
ghost use Rattle.std.specs.Prelude.{◌≡◌, ◌++◌, ◌∷◌, [], false, true, IfSome, IfNone, IfOk, OnErr, None};
ghost use Rattle.std.specs.List.{list_all};
ghost use Rattle.std.specs.Char.{is_ascii_graphic};
ghost use Rattle.upload_client.specs.AskText.{CanBeWritten, ask_of_chunk};
ghost use Rattle.upload_push.specs.Dialed.{IsNew};
ghost use Rattle.blobd_push.specs.Dials.{AsksIn, Gets, GetsNone, behind_ask, dialing, dialing_of};
ghost use Rattle.blobd_push.specs.Dials.{history_at_end, with_back};
ghost use Rattle.blobd_shared.specs.Connections.ConnEvent.{made};
ghost use Rattle.blobd_push.specs.Pushed.{is_word};
ghost use Rattle.blobd_push.specs.Sights.{AreSeen, IsSightOver};
ghost use Rattle.blobd_push.specs.Trouble.{course_after, new_course};
ghost use Rattle.blobd_push.specs.Pauses.{pause_after};

use crate::bar::Bar;
use crate::connection::{CountedHalf, counted, stream_of};
use crate::dials::Dials;
use crate::notes::Notes;
use crate::pauses::pause_after;
use crate::sight::{Marks, Sight, look_over};
use crate::trouble::{Course, course_after, status_trouble};
use http_wire::ReadBuffer;
use std::alloc::{AllocError, Global};
use std::io::Eprint;
use std::rt::Clock;
use std::thread;
use std::time::{Duration, Instant};
use upload_client::{Heard, LentChunk, Transport, WireTransport};
use upload_names::{BlobDigest, RepoName};
use upload_service::{Ask, Extent};

fn are_visible(text: &[u8]) -> bool
    ensures { result ≡ list_all is_ascii_graphic text.now }
{
    text.iter().all(u8::is_ascii_graphic)
}

/// Whether a text is a word: at least one byte, all of them visible ASCII. So it may stand as a Host. The text of an
/// address is one, which std's contract doesn't say.
pub(crate) fn is_word(text: &[u8]) -> bool
    ensures { result ≡ is_word text.now }
{
    !text.is_empty() && are_visible(text)
}

/// A connection of a dialer.
type Wire<'r, D> = WireTransport<
    CountedHalf<'r, <D as Dials>::In>,
    CountedHalf<'r, <D as Dials>::Out>,
>;

/// The asks of one push, over a connection to its server. After a fault, and after a reply that ends it, the
/// connection is given back, and the next ask makes another.
#[derive(Drop)]
pub(crate) struct Dialer<'r, D: Dials, R> {
    rt: &'r R,
    alloc: Global,
    /// Where its connections come from.
    dials: D,
    host: &'r str,
    /// The connection that is kept.
    wire: Option<WireTransport<CountedHalf<'r, D::In>, CountedHalf<'r, D::Out>>>,
    /// How long it waits before the next ask, in milliseconds.
    pause: u64,
    /// How its asks went.
    course: Course,
    /// What went wrong with the last ask; its connection notes it.
    notes: &'r Notes,
    bar: Bar<'r, R>,
}

impl<'r, D: Dials + Drop, R> Dialer<'r, D, R> {
    /// Asks to this host. No connection is made before the first.
    pub(crate) fn new(
        rt: &'r R,
        alloc: Global,
        dials: D,
        host: &'r str,
        notes: &'r Notes,
        bar: Bar<'r, R>,
    ) -> Dialer<'r, D, R>
        ensures host { result.host.now ≡ host.now }
        ensures unconnected { dialing_of D.history result.wire result.dials
            ≡ dialing (D.history dials) }
        ensures fresh { (result.pause ≡ 0) × (result.course ≡ new_course) }
    {
        Dialer {
            rt,
            alloc,
            dials,
            host,
            wire: None,
            pause: 0,
            course: Course {
                losses: 0,
                opened: false,
            },
            notes,
            bar,
        }
    }

    /// Gives back the connection that is kept. How its asks went, the bar, which is needed no more here, and where its
    /// connections came from.
    pub(crate) fn into_parts(self) -> (Course, Bar<'r, R>, D)
        ensures parts { (result.0 ≡ self.entry.course) × (result.1 ≡ self.entry.bar) }
        ensures history { D.history result.2
            ≡ history_at_end (dialing_of D.history self.entry.wire self.entry.dials) }
    {
        let Dialer {
            course,
            bar,
            mut dials,
            wire,
            ..
        } = self;
        if let Some(wire) = wire {
            hand_back(&mut dials, wire);
        }
        (course, bar, dials)
    }

    /// The two ends of a new connection, or `None` if it can't be made; why is noted.
    fn ends(&mut self) -> Option<(D::In, D::Out)>
        ensures word { IfSome result (λ ends. is_word self.old.host.now ≡ true) }
        ensures some { IfSome result (λ ends.
            (D.In.given ends.0 ≡ record { bytes = []; ended = false })
            × (D.Out.taken ends.1 ≡ [])
            × (D.history self.new.dials ≡ D.history self.old.dials ++ made ∷ [])) }
        ensures none { IfNone result (D.history self.new.dials ≡ D.history self.old.dials) }
        ensures same { (self.new.host ≡ self.old.host) × (self.new.pause ≡ self.old.pause)
            × (self.new.course ≡ self.old.course) × (self.new.wire ≡ self.old.wire) }
    {
        if !is_word(self.host.as_bytes()) {
            return None;
        }
        match self.dials.dial() {
            Ok(ends) => Some(ends),
            Err(error) => {
                self.notes.note_error(&error);
                None
            }
        }
    }

    /// A new connection, or `None` if it can't be made, also if memory is full.
    fn dial(&mut self) -> Option<Wire<'r, D>>
        ensures some { IfSome result (λ wire. IsNew self.old.host.now wire
            × (D.history self.new.dials ≡ D.history self.old.dials ++ made ∷ [])) }
        ensures none { IfNone result (GetsNone self.old.host.now None
            (D.history self.old.dials) (D.history self.new.dials)) }
        ensures same { (self.new.host ≡ self.old.host) × (self.new.pause ≡ self.old.pause)
            × (self.new.course ≡ self.old.course) × (self.new.wire ≡ self.old.wire) }
    {
        let (source, sink) = self.ends()?;
        let source = counted(source, self.notes);
        let sink = counted(sink, self.notes);
        match WireTransport::over(self.alloc, source, sink, self.host.as_bytes()) {
            Ok(wire) => Some(wire),
            Err((source, sink)) => {
                self.dials.take_back(stream_of(source), stream_of(sink));
                None
            }
        }
    }

    /// The connection that was kept, or a new one.
    fn connected(&mut self) -> Option<Wire<'r, D>>
        ensures some { IfSome result (λ wire. Gets self.old.host.now self.old.wire
            (D.history self.old.dials) wire (D.history self.new.dials)) }
        ensures none { IfNone result (GetsNone self.old.host.now self.old.wire
            (D.history self.old.dials) (D.history self.new.dials)) }
        ensures left { self.new.wire ≡ None }
        ensures same { (self.new.host ≡ self.old.host) × (self.new.pause ≡ self.old.pause)
            × (self.new.course ≡ self.old.course) }
    {
        match self.wire.take() {
            Some(wire) => Some(wire),
            None => self.dial(),
        }
    }

    /// Keeps a connection over which more can be asked, and gives another back.
    fn keep(&mut self, wire: Wire<'r, D>)
        requires { self.old.wire ≡ None }
        ensures kept { dialing_of D.history self.new.wire self.new.dials
            ≡ behind_ask (D.history self.old.dials) wire.entry }
        ensures same { (self.new.host ≡ self.old.host) × (self.new.pause ≡ self.old.pause)
            × (self.new.course ≡ self.old.course) }
    {
        if wire.stays_open() {
            self.wire = Some(wire);
        } else {
            hand_back(&mut self.dials, wire);
        }
    }

    /// The reply to a request over the connection, or over a new one if there is none.
    fn exchange(&mut self, ask: Ask) -> Option<Heard>
        requires { CanBeWritten ask }
        ensures asked { AsksIn self.old.host.now
            (dialing_of D.history self.old.wire self.old.dials) ask
            result (dialing_of D.history self.new.wire self.new.dials) }
        ensures same { (self.new.host ≡ self.old.host) × (self.new.pause ≡ self.old.pause)
            × (self.new.course ≡ self.old.course) }
    {
        let mut wire = self.connected()?;
        let heard = wire.ask(ask);
        self.keep(wire);
        heard
    }

    /// The same of a chunk, which is written from the bytes that are lent.
    fn exchange_chunk(&mut self, chunk: &LentChunk<'_>) -> Option<Heard>
        requires { CanBeWritten (ask_of_chunk chunk.now) }
        ensures asked { AsksIn self.old.host.now
            (dialing_of D.history self.old.wire self.old.dials) (ask_of_chunk chunk.now)
            result (dialing_of D.history self.new.wire self.new.dials) }
        ensures same { (self.new.host ≡ self.old.host) × (self.new.pause ≡ self.old.pause)
            × (self.new.course ≡ self.old.course) }
    {
        let mut wire = self.connected()?;
        // It takes no memory for a copy: there is always an answer.
        let heard = wire.ask_chunk(chunk).unwrap_or(None);
        self.keep(wire);
        heard
    }
}

impl<'r, D: Dials + Drop, R> Dialer<'r, D, R> {
    /// Gives back the connection that is kept.
    fn let_go(&mut self)
        ensures given_back { dialing_of D.history self.new.wire self.new.dials
            ≡ dialing (history_at_end (dialing_of D.history self.old.wire self.old.dials)) }
        ensures same { (self.new.host ≡ self.old.host) × (self.new.pause ≡ self.old.pause)
            × (self.new.course ≡ self.old.course) }
    {
        if let Some(wire) = self.wire.take() {
            hand_back(&mut self.dials, wire);
        }
    }

    /// Asks for a blob by a HEAD over a new connection, which is given back after it.
    fn look(&mut self, buffer: &mut ReadBuffer, ask: &Ask, marks: Marks<'_>) -> Sight
        requires writable { CanBeWritten ask.now }
        requires empty { buffer.old ≡ [] }
        requires unconnected { self.old.wire ≡ None }
        ensures seen { IsSightOver self.old.host.now ask.now marks.entry.size.now
            marks.entry.digest.now (D.history self.old.dials) result (D.history self.new.dials) }
        ensures same { (self.new.host ≡ self.old.host) × (self.new.pause ≡ self.old.pause)
            × (self.new.course ≡ self.old.course) × (self.new.wire ≡ self.old.wire) }
    {
        let Some((source, sink)) = self.ends() else {
            return Sight::Nothing;
        };
        let mut source = counted(source, self.notes);
        let mut sink = counted(sink, self.notes);
        let host = self.host.as_bytes();
        let sight = look_over(buffer, &mut source, &mut sink, host, ask, marks);
        self.dials.take_back(stream_of(source), stream_of(sink));
        sight
    }
}

/// Gives a connection back.
fn hand_back<'r, D: Dials>(dials: &mut D, wire: Wire<'r, D>)
    ensures { D.history dials.new ≡ with_back (D.history dials.old) wire.entry }
{
    let (source, sink) = wire.into_halves();
    dials.take_back(stream_of(source), stream_of(sink));
}

impl<'r, D: Dials + Drop, R: Clock + Eprint> Dialer<'r, D, R> {
    /// Waits as long as what was heard last wants. Nothing has gone wrong with the next ask yet.
    fn begin(&self) {
        if self.pause > 0 {
            self.tell_wait();
            thread::sleep(self.rt, Duration::from_millis(self.pause));
        } else {
            self.notes.begin(Instant::now(self.rt).ok());
        }
        self.notes.clear();
    }

    /// Tells of a server that can't serve for a while. Nothing is promised of standard error.
    fn tell_wait(&self) {
        if self.notes.tells_wait(self.rt) {
            let (begin, host) = (self.bar.line_begin(), self.host);
            let _ = eprintln!(self.rt; "{begin}blobd: waits for {host}, which answers 503");
        }
    }

    /// What a further HEAD of a blob of so many bytes shows, over a connection of its own. An error means that there
    /// was no memory for it; nothing was asked.
    pub(crate) fn sight(
        &mut self,
        name: &RepoName,
        digest: BlobDigest,
        size: u64,
    ) -> Result<Sight, AllocError>
        ensures seen { IfOk result (λ sight. AreSeen self.old.host.now name.now digest size
            (dialing_of D.history self.old.wire self.old.dials) sight
            (dialing_of D.history self.new.wire self.new.dials)) }
        ensures unasked { OnErr result (self.new ≡ self.old) }
        ensures host { self.new.host ≡ self.old.host }
    {
        let name = name.copy(self.alloc)?;
        let Ok(length) = format!(in self.alloc; "{size}") else {
            return Err(AllocError);
        };
        let mut buffer = ReadBuffer::new(self.alloc)?;
        let text = digest.text();
        let marks = Marks {
            size: length.as_bytes(),
            digest: text.as_bytes(),
        };
        let head = true;
        self.begin();
        self.let_go();
        Ok(self.look(&mut buffer, &Ask::Has { name, digest, head }, marks))
    }

    /// Keeps what follows from what was heard: how long to wait, and how the asks went.
    fn end(&mut self, heard: &Option<Heard>)
        ensures kept { (self.new.host ≡ self.old.host) × (self.new.wire ≡ self.old.wire)
            × (self.new.dials ≡ self.old.dials) }
        ensures pause { self.new.pause ≡ pause_after heard.now self.old.pause }
        ensures course { self.new.course ≡ course_after heard.now self.old.course }
    {
        self.pause = pause_after(heard, self.pause);
        self.course = course_after(heard, self.course);
        if let Some(trouble) = heard
            .as_ref()
            .and_then(|reply| status_trouble(reply.status))
        {
            self.notes.set(trouble);
        }
    }
}

impl<'r, D: Dials + Drop, R: Clock + Eprint> Transport for Dialer<'r, D, R> {
    // What is heard is what its connections say, and how long it waits before the next ask is kept; nothing is said of
    // what a network delivers.
    ghost asked = { λ old ask heard new.
        AsksIn old.host.now (dialing_of D.history old.wire old.dials) ask heard
        (dialing_of D.history new.wire new.dials)
        × (new.host ≡ old.host) × (new.pause ≡ pause_after heard old.pause)
        × (new.course ≡ course_after heard old.course) };

    fn ask(&mut self, ask: Ask) -> Option<Heard> {
        self.begin();
        let heard = self.exchange(ask);
        self.end(&heard);
        heard
    }

    fn ask_chunk(&mut self, chunk: &LentChunk<'_>) -> Result<Option<Heard>, AllocError> {
        self.begin();
        if let Extent::Given(range) = chunk.range {
            self.bar.reached(range.first);
        }
        let heard = self.exchange_chunk(chunk);
        self.end(&heard);
        Ok(heard)
    }
}
