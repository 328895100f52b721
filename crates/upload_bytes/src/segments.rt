//! Bodies one after another. Each is kept as it came, moved in and not copied, but that small ones are joined
//! into one segment, so that a session which is fed a byte at a time takes little more than its bytes.
ghost use Rattle.std.specs.Prelude.{◌≡◌, ◌+◌, ◌-◌, ◌<◌, ◌≤◌, ◌^◌, ◌++◌, ◌∷◌, [], ℕ, List, length, take, min};
ghost use Rattle.std.specs.Prelude.{vec_len, vec_capacity, IfSome, IfNone, OnOk, OnErr, IsFalse};
ghost use Rattle.std.specs.List.{concat};
ghost use Rattle.upload_bytes.specs.Body.{bytes_in};
ghost use Rattle.upload_bytes.specs.Before.{bytes_before};
ghost use Rattle.upload_bytes.specs.Segments.{with_part, whole};

use crate::before::{Before, KeptSegments};
use crate::body::{Body, Pieces};
use crate::granted::Granted;
use crate::in_files::InFiles;
use crate::part::Part;
use crate::room::Grant;
use crate::stretch::{Stretch, share_parts_into};
use http_wire::Given;
use std::alloc::{AllocError, Global};
use std::marker::Model;
use std::mem;

/// The most bytes of a segment that small bodies are joined into.
const JOINED_SIZE: usize = 65_536;

/// Segments, seen as those that stay as they are and the last one.
#[derive(Drop)]
pub struct Segments {
    alloc: Global,
    /// The bytes before the segments, which left memory, for contracts; and how many there are.
    gone: Given,
    gone_len: u64,
    /// The segments that stay as they are.
    settled: Vec<Part>,
    /// The last segment, which small bodies are joined to. It is empty if there is none.
    tail: Granted,
    /// The bytes of these once more, for a blob: those of a body that is in files are in these, and others in
    /// their parts, which are shared; before these what left memory. None if there was no memory for that.
    stretches: Option<Vec<Stretch>>,
    /// So many of the stretches had been there as bytes left memory last.
    left: usize,
    /// How many bytes there are in all.
    total: u64,
}

impl Model for Segments {
    ghost use Rattle.std.specs.Prelude.{option_map};
    ghost use Rattle.upload_bytes.specs.Segments.{Parts, IsCounted};

    ghost Value = { Parts };

    ghost view = { λ a. record { base = a.gone; settled = a.settled.items; tail = a.tail } };

    ghost invariant = { λ a. IsCounted a.total a.gone_len
        (option_map (λ stretches. stretches.items) a.stretches)
        (record { base = a.gone; settled = a.settled.items; tail = a.tail }) };
}

impl Segments {
    /// No segments. It takes no memory.
    pub fn new(alloc: Global) -> Segments
        ensures { result ≡ record { base = []; settled = []; tail = [] } }
    {
        Segments {
            alloc,
            gone: Given::none(),
            gone_len: 0,
            settled: Vec::new(alloc),
            tail: Granted::none(alloc, Grant::unlimited()),
            stretches: Some(Vec::new(alloc)),
            left: 0,
            total: 0,
        }
    }

    /// Bytes that are in files, and not in memory: what these were given, so many bytes.
    pub(crate) fn of_files(alloc: Global, files: InFiles, given: Given, len: u64) -> Segments
        requires files { files ≡ given }
        requires len { len ≡ length given }
        ensures { result ≡ record { base = given; settled = []; tail = [] } }
    {
        let stretches = files.into_stretches();
        Segments {
            alloc,
            gone: given,
            gone_len: len,
            settled: Vec::new(alloc),
            tail: Granted::none(alloc, Grant::unlimited()),
            left: stretches.len(),
            stretches: Some(stretches),
            total: len,
        }
    }

    /// How many bytes there are in all.
    pub fn total(&self) -> u64
        ensures { result ≡ length (whole self.now) }
    {
        self.total
    }

    /// All but those of the last segment, as stretches, if there was memory for these.
    pub(crate) fn stretches(&self) -> Option<&[Stretch]>
        ensures { IfSome result (λ stretches.
            concat stretches.now ≡ self.now.base ++ concat self.now.settled) }
    {
        match &self.stretches {
            Some(stretches) => Some(stretches.as_slice()),
            None => None,
        }
    }

    /// Whether some of the bytes left memory.
    pub fn has_gone(&self) -> bool
        ensures { IsFalse result → self.now.base ≡ [] }
    {
        self.gone_len > 0
    }

    /// The segments that stay as they are, in their order.
    pub fn settled(&self) -> &[Part]
        ensures { result.now ≡ self.now.settled }
    {
        self.settled.as_slice()
    }

    /// The last segment.
    pub fn tail(&self) -> &[u8]
        ensures { result.now ≡ self.now.tail }
    {
        self.tail.as_slice()
    }

    /// Moves the last segment to an empty part behind the segments. It takes no memory, and if that part has other
    /// owners it does nothing.
    pub fn hand_over(&mut self, last: &mut Stretch)
        requires { last.old ≡ [] }
        ensures { whole self.new ++ last.new ≡ whole self.old }
    {
        let size = self.tail.len() as u64;
        if last.trade(&mut self.tail) {
            self.total -= size;
        }
    }

    /// Gives the spare room of the lists of segments and of the last one back.
    pub fn shrink(&mut self)
        ensures { self.new ≡ self.old }
    {
        self.settled.shrink_to_fit();
        if let Some(stretches) = &mut self.stretches {
            stretches.shrink_to_fit();
        }
        self.tail.shrink();
    }

    /// Puts a body behind the others. An empty one adds no segment. An `Err` changes nothing.
    pub fn append(&mut self, body: Body) -> Result<(), AllocError>
        requires { length (whole self.old) + length body < 2 ^ 64 }
        ensures more { OnOk result (whole self.new ≡ whole self.old ++ body) }
        ensures base { OnOk result (self.new.base ≡ self.old.base) }
        ensures front { OnOk result
            (take (length self.old.settled) self.new.settled ≡ self.old.settled) }
        ensures longer { OnOk result (length self.old.settled ≤ length self.new.settled) }
        ensures err { OnErr result (self.new ≡ self.old) }
    {
        let size = body.len();
        let (pieces, files) = body.into_filed();
        if !pieces.parts.is_empty() || size > JOINED_SIZE {
            return self.settle(pieces, files, size);
        }
        if self.tail.len() > JOINED_SIZE.saturating_sub(size) {
            return self.roll_over(pieces, size);
        }
        self.join(pieces, size)
    }

    /// Joins a small body to the last segment. An `Err` changes nothing.
    fn join(&mut self, body: Pieces, size: usize) -> Result<(), AllocError>
        requires alone { body.parts.items ≡ [] }
        requires size { size ≡ length (bytes_in body) }
        requires fits { length (whole self.old) + size < 2 ^ 64 }
        ensures more { OnOk result (whole self.new ≡ whole self.old ++ bytes_in body) }
        ensures base { OnOk result (self.new.base ≡ self.old.base) }
        ensures same { OnOk result (self.new.settled ≡ self.old.settled) }
        ensures err { OnErr result (self.new ≡ self.old) }
    {
        let Pieces { last, .. } = body;
        self.tail.join(last)?;
        self.total += size as u64;
        Ok(())
    }

    /// Settles the last segment and has a small body be the last one. An `Err` changes nothing.
    fn roll_over(&mut self, body: Pieces, size: usize) -> Result<(), AllocError>
        requires alone { body.parts.items ≡ [] }
        requires size { size ≡ length (bytes_in body) }
        requires fits { length (whole self.old) + size < 2 ^ 64 }
        ensures more { OnOk result (whole self.new ≡ whole self.old ++ bytes_in body) }
        ensures base { OnOk result (self.new.base ≡ self.old.base) }
        ensures front { OnOk result
            (take (length self.old.settled) self.new.settled ≡ self.old.settled) }
        ensures longer { OnOk result (length self.old.settled ≤ length self.new.settled) }
        ensures err { OnErr result (self.new ≡ self.old) }
    {
        let Pieces { last, .. } = body;
        self.make_room(1)?;
        self.settled.reserve(1)?;
        let had = self.settled.len();
        settle_tail(self.alloc, &mut self.settled, &mut self.tail)?;
        let stretches = mem::replace(&mut self.stretches, None);
        self.stretches = with_parts(stretches, had, self.settled.as_slice());
        self.tail = last;
        self.total += size as u64;
        Ok(())
    }

    /// Settles the last segment and puts a body behind it. An `Err` changes nothing.
    fn settle(
        &mut self,
        body: Pieces,
        files: Option<InFiles>,
        size: usize,
    ) -> Result<(), AllocError>
        requires size { size ≡ length (bytes_in body) }
        requires filed { IfSome files (λ files. files ≡ bytes_in body) }
        requires fits { length (whole self.old) + size < 2 ^ 64 }
        ensures more { OnOk result (whole self.new ≡ whole self.old ++ bytes_in body) }
        ensures base { OnOk result (self.new.base ≡ self.old.base) }
        ensures front { OnOk result
            (take (length self.old.settled) self.new.settled ≡ self.old.settled) }
        ensures longer { OnOk result (length self.old.settled ≤ length self.new.settled) }
        ensures err { OnErr result (self.new ≡ self.old) }
    {
        let Pieces { parts, last } = body;
        self.make_room(stretches_in(&parts, &files))?;
        self.settled.reserve(parts.len().saturating_add(2))?;
        let Ok(last) = Part::of(self.alloc, last) else {
            return Err(AllocError);
        };
        let had = self.settled.len();
        settle_tail(self.alloc, &mut self.settled, &mut self.tail)?;
        let stretches = mem::replace(&mut self.stretches, None);
        let stretches = with_parts(stretches, had, self.settled.as_slice());
        self.stretches = settle_body(&mut self.settled, parts, last, stretches, files);
        self.total += size as u64;
        Ok(())
    }

    /// Whether memory comes back as the segments leave it that stay as they are: files have some of them.
    pub fn may_evict(&self) -> bool {
        match &self.stretches {
            Some(stretches) => stretches
                .iter()
                .skip(self.left)
                .any(|stretch| stretch.is_filed()),
            None => false,
        }
    }

    /// Has the segments leave memory that stay as they are, and gives them: the stretches have their bytes. None says
    /// that there are no stretches, and nothing changes then.
    pub fn evict(&mut self) -> Option<Vec<Part>>
        ensures gone { IfSome result (λ parts. (parts.items ≡ self.old.settled) × (self.new ≡ record {
          base = self.old.base ++ concat self.old.settled;
          settled = [];
          tail = self.old.tail;
        })) }
        ensures none { IfNone result (self.new ≡ self.old) }
    {
        let Some(stretches) = &self.stretches else {
            return None;
        };
        self.left = stretches.len();
        let settled = mem::replace(&mut self.settled, Vec::new(self.alloc));
        let gone = mem::replace(&mut self.gone, Given::none());
        self.gone = given_with(gone, settled.as_slice());
        self.gone_len = self.total - self.tail.len() as u64;
        Some(settled)
    }

    /// Has room for so many stretches more. Without memory for them there are no stretches from then on; if bytes left
    /// memory, that is an `Err`. Nothing that is seen changes.
    fn make_room(&mut self, more: usize) -> Result<(), AllocError>
        ensures { self.new ≡ self.old }
    {
        let Some(stretches) = &mut self.stretches else {
            return Ok(());
        };
        if stretches.reserve(more).is_ok() {
            return Ok(());
        }
        if self.gone_len > 0 {
            return Err(AllocError);
        }
        self.stretches = None;
        Ok(())
    }

    /// What a blob keeps of these. It takes no memory.
    pub fn into_before(self) -> Before
        ensures { bytes_before result ≡ whole self }
    {
        let Segments {
            alloc,
            gone,
            gone_len,
            settled,
            tail,
            stretches,
            left,
            total,
        } = self;
        match stretches {
            Some(stretches) => Before::Kept(KeptSegments::of(stretches, tail, total)),
            None => Before::Here(Segments {
                alloc,
                gone,
                gone_len,
                settled,
                tail,
                stretches: None,
                left,
                total,
            }),
        }
    }
}

/// How many stretches a body has at most that comes behind a last segment.
fn stretches_in(parts: &Vec<Part>, files: &Option<InFiles>) -> usize {
    let count = match files {
        Some(files) => files.count(),
        None => parts.len().saturating_add(1),
    };
    count.saturating_add(1)
}

/// What was given, and parts behind it.
fn given_with(gone: Given, parts: &[Part]) -> Given
    ensures { result ≡ gone ++ concat parts.now }
{
    let mut given = gone;
    for part in parts {
        given = given.and(part.as_slice());
    }
    given
}

/// Stretches of bytes and of the first so many parts behind them, and of the other parts, which are shared. None if there
/// is no memory.
fn with_parts(stretches: Option<Vec<Stretch>>, had: usize, parts: &[Part]) -> Option<Vec<Stretch>>
    requires { had ≤ length parts.now }
    ensures { (base : List ℕ)
        → IfSome stretches (λ before. concat before.items ≡ base ++ concat (take had parts.now))
        → IfSome result (λ all. concat all.items ≡ base ++ concat parts.now) }
{
    let mut stretches = stretches?;
    match share_parts_into(&mut stretches, &parts[had..]) {
        Ok(()) => Some(stretches),
        Err(_) => None,
    }
}

/// Stretches, and files behind them. None if there is no memory.
fn with_files(stretches: Option<Vec<Stretch>>, files: InFiles) -> Option<Vec<Stretch>>
    ensures { (before : List ℕ) → IfSome stretches (λ before'. concat before'.items ≡ before)
        → IfSome result (λ all. concat all.items ≡ before ++ files) }
{
    let mut stretches = stretches?;
    let mut behind = files.into_stretches();
    stretches.append(&mut behind).ok()?;
    Some(stretches)
}

/// Puts a body behind parts, and behind the stretches of these: its files, if it is in some, else its own parts, which
/// are shared. Gives those stretches. None if there is no memory.
fn settle_body(
    settled: &mut Vec<Part>,
    parts: Vec<Part>,
    last: Part,
    stretches: Option<Vec<Stretch>>,
    files: Option<InFiles>,
) -> Option<Vec<Stretch>>
    requires { vec_len settled.old + vec_len parts + 1 ≤ vec_capacity settled.old }
    ensures items { settled.new.items ≡ with_part (settled.old.items ++ parts.items) last }
    ensures same { (base : List ℕ)
        → IfSome stretches (λ before. concat before.items ≡ base ++ concat settled.old.items)
        → IfSome files (λ files. files ≡ concat parts.items ++ last)
        → IfSome result (λ all. concat all.items ≡ base ++ concat settled.new.items) }
{
    let had = settled.len();
    settle_all(settled, parts);
    settle(settled, last);
    match files {
        Some(files) => with_files(stretches, files),
        None => with_parts(stretches, had, settled.as_slice()),
    }
}

/// Makes the last segment one that stays as it is. An `Err` changes nothing.
fn settle_tail(alloc: Global, settled: &mut Vec<Part>, tail: &mut Granted) -> Result<(), AllocError>
    requires { vec_len settled.old + 1 ≤ vec_capacity settled.old }
    ensures items { OnOk result (settled.new.items ≡ with_part settled.old.items tail.old) }
    ensures none { OnOk result (tail.new ≡ []) }
    ensures one { OnOk result (vec_len settled.new ≤ vec_len settled.old + 1) }
    ensures room { OnOk result (vec_capacity settled.old ≤ vec_capacity settled.new) }
    ensures err { OnErr result
        ((settled.new.items ≡ settled.old.items) × (tail.new ≡ tail.old)) }
{
    match Part::of(
        alloc,
        mem::replace(tail, Granted::none(alloc, Grant::unlimited())),
    ) {
        Ok(part) => {
            settle(settled, part);
            Ok(())
        }
        Err(back) => {
            *tail = back;
            Err(AllocError)
        }
    }
}

/// Makes a part a segment that stays as it is, if it isn't empty.
fn settle(settled: &mut Vec<Part>, part: Part)
    requires { vec_len settled.old + 1 ≤ vec_capacity settled.old }
    ensures items { settled.new.items ≡ with_part settled.old.items part }
    ensures one { vec_len settled.new ≤ vec_len settled.old + 1 }
    ensures room { vec_capacity settled.old ≤ vec_capacity settled.new }
{
    if part.as_slice().is_empty() {
        return;
    }
    match settled.push(part) {
        Ok(()) => {}
        Err(_) => unreachable!(),
    }
}

/// Makes parts segments that stay as they are.
fn settle_all(settled: &mut Vec<Part>, parts: Vec<Part>)
    requires { vec_len settled.old + vec_len parts ≤ vec_capacity settled.old }
    ensures items { settled.new.items ≡ settled.old.items ++ parts.items }
    ensures room { vec_capacity settled.old ≤ vec_capacity settled.new }
{
    for part in parts {
        match settled.push(part) {
            Ok(()) => {}
            Err(_) => unreachable!(),
        }
    }
}

/// How many bytes these parts have, or the greatest number there is if they have more.
pub fn size_of(parts: &[Part]) -> u64
    ensures { result ≡ min (length (concat parts.now)) (2 ^ 64 - 1) }
{
    let mut size: u64 = 0;
    for part in parts {
        size = size.saturating_add(part.as_slice().len() as u64);
    }
    size
}
