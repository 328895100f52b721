//! A shelf in memory, for tests. It keeps its calls, so that a crash may leave all that its contract allows.
ghost use Rattle.std.specs.Prelude.{◌≡◌, ◌≤◌, ◌↔◌, ◌∷◌, ◌++◌, [], ℕ, List, Option, Some, None, length, take, Contains};
ghost use Rattle.std.specs.Prelude.{IsSome, IfOk, IfSome, IfNone, OnOk, OnErr, IsTrue};
ghost use Rattle.bodies.specs.MemoryFiles.{held_in, left_in, named, memory_may_leave, AreListed, MayBeAny};
ghost use Rattle.sqlite_disk.specs.Disk.{CountsFault, MoreFaults, Only};
ghost use Rattle.bodies.specs.Shelf.{IsPiece};
ghost use Rattle.sqlite_disk.specs.Memory.{memory_bytes};

use crate::body::Body;
use crate::calls::Call;
use crate::fault::BodyFault;
use crate::shelf::Shelf;
use sqlite_disk::{Disk, Memory};
use std::alloc::Global;
use std::io::{self, ErrorKind};
use upload_bytes::{Spool, SyncedFile};

/// Files in memory by their numbers.
#[derive(Drop)]
pub struct MemoryShelf {
    alloc: Global,
    /// The calls that changed something, the newest last.
    calls: Vec<Call<Memory>>,
    is_usable: bool,
    /// How many calls found no memory.
    faults: u64,
    /// What the next power cut goes by.
    seed: u64,
}

impl MemoryShelf {
    ghost use Rattle.bodies.specs.Shelf.{KeepsOthers};
    ghost use Rattle.bodies.specs.MemoryShelf.{calls_of, is_usable_of, faults_of, held_of, left_of};
    ghost use Rattle.bodies.specs.MemoryShelf.{IsCut, IsCutAt};

    /// No file.
    pub fn new(alloc: Global) -> MemoryShelf
        ensures empty { calls_of result ≡ [] }
        ensures usable { IsTrue (is_usable_of result) }
    {
        MemoryShelf {
            alloc,
            calls: Vec::new(alloc),
            is_usable: true,
            faults: 0,
            seed: 1,
        }
    }

    /// Has the next power cut go by this seed. Nothing else changes.
    pub fn reseed(&mut self, seed: u64)
        ensures calls { calls_of self.new ≡ calls_of self.old }
        ensures usable { is_usable_of self.new ≡ is_usable_of self.old }
        ensures faults { faults_of self.new ≡ faults_of self.old }
    {
        self.seed = seed;
    }

    /// The machine goes down and comes back: of each file that a crash may lose or tear, the seed says whether it does.
    /// Without memory it leaves all as it is, as a crash may, too.
    pub fn power_cut(&mut self)
        ensures cut { IsCut self.old self.new }
        ensures usable { IsTrue (is_usable_of self.new) }
        ensures faults { faults_of self.old ≤ faults_of self.new }
    {
        self.is_usable = true;
        let Ok(numbers) = list(&self.calls, self.alloc) else {
            return;
        };
        for number in numbers.iter() {
            self.cut_one(*number);
        }
    }

    /// What a crash may do to the file of this number, by the seed.
    fn cut_one(&mut self, number: u64)
        ensures cut { IsCutAt self.old self.new number }
        ensures usable { is_usable_of self.new ≡ is_usable_of self.old }
        ensures faults { faults_of self.old ≤ faults_of self.new }
    {
        self.seed = self
            .seed
            .wrapping_mul(6_364_136_223_846_793_005)
            .wrapping_add(1_442_695_040_888_963_407);
        match (self.seed >> 33) % 3 {
            0 => {
                let _ = self.lose(number);
            }
            1 => {
                let _ = self.tear(number, b"torn");
            }
            _ => {}
        }
    }

    /// What a crash may do: the file of this number is lost, unless its name is on the disk.
    pub fn lose(&mut self, number: u64) -> io::Result<()>
        ensures left { left_of self.old number (held_of self.new number) }
        ensures fewer { (file : Option (List ℕ)) → left_of self.new number file
            → left_of self.old number file }
        ensures others { KeepsOthers held_of left_of self.old self.new number }
        ensures usable { is_usable_of self.new ≡ is_usable_of self.old }
        ensures faults { faults_of self.old ≤ faults_of self.new }
    {
        if may_be_lost(&self.calls, number) {
            self.note(Call::Removed(number))?;
        }
        Ok(())
    }

    /// What a crash may do: the file of this number has these bytes, if it was being written.
    pub fn tear(&mut self, number: u64, bytes: &[u8]) -> io::Result<()>
        ensures left { left_of self.old number (held_of self.new number) }
        ensures fewer { (file : Option (List ℕ)) → left_of self.new number file
            → left_of self.old number file }
        ensures others { KeepsOthers held_of left_of self.old self.new number }
        ensures usable { is_usable_of self.new ≡ is_usable_of self.old }
        ensures faults { faults_of self.old ≤ faults_of self.new }
    {
        if is_being_written(&self.calls, number) {
            let mut file = Memory::new(self.alloc);
            file.write_at(0, bytes)?;
            self.note(Call::Closed(number, file))?;
        }
        Ok(())
    }

    fn note(&mut self, call: Call<Memory>) -> io::Result<()>
        ensures ok { OnOk result (calls_of self.new ≡ call ∷ calls_of self.old) }
        ensures err { OnErr result (calls_of self.new ≡ calls_of self.old) }
        ensures faults { CountsFault result (faults_of self.old) (faults_of self.new) }
        ensures usable { is_usable_of self.new ≡ is_usable_of self.old }
    {
        if self.calls.push(call).is_err() {
            return Err(self.fail());
        }
        Ok(())
    }

    /// Counts a call that found no memory.
    fn fail(&mut self) -> io::Error
        ensures calls { calls_of self.new ≡ calls_of self.old }
        ensures faults { MoreFaults (faults_of self.old) (faults_of self.new)
            × (faults_of self.old ≤ faults_of self.new) }
        ensures usable { is_usable_of self.new ≡ is_usable_of self.old }
    {
        self.faults = self.faults.saturating_add(1);
        io::ErrorKind::OutOfMemory.into()
    }
}

/// The bytes of a number's file, if there is one.
fn find(calls: &[Call<Memory>], number: u64) -> Option<&[u8]>
    ensures some { IfSome result (λ bytes. held_in calls.now number ≡ Some bytes.now) }
    ensures none { IfNone result (held_in calls.now number ≡ None) }
{
    let mut left = calls.len();
    while left > 0 {
        left -= 1;
        match &calls[left] {
            Call::Made(made) if *made == number => return Some(&[]),
            Call::Closed(closed, file) if *closed == number => return Some(file.bytes()),
            Call::Removed(removed) if *removed == number => return None,
            _ => {}
        }
    }
    None
}

/// Whether a crash may leave no file of this number.
fn may_be_lost(calls: &[Call<Memory>], number: u64) -> bool
    ensures { IsTrue result → left_in calls.now number None }
{
    let mut left = calls.len();
    while left > 0 {
        left -= 1;
        match &calls[left] {
            Call::Made(made) if *made == number => return true,
            Call::Closed(closed, _) if *closed == number => return true,
            Call::Removed(removed) if *removed == number => return true,
            Call::Synced(synced) if *synced == number => return false,
            _ => {}
        }
    }
    true
}

/// Whether a crash may leave anything of this number's file.
fn is_being_written(calls: &[Call<Memory>], number: u64) -> bool
    ensures { IsTrue result → MayBeAny calls.now number }
{
    let mut left = calls.len();
    while left > 0 {
        left -= 1;
        match &calls[left] {
            Call::Made(made) if *made == number => return true,
            Call::Closed(closed, _) if *closed == number => return false,
            Call::Removed(removed) if *removed == number => return false,
            Call::Synced(synced) if *synced == number => return false,
            _ => {}
        }
    }
    false
}

/// The number whose file a call makes.
fn named(call: &Call<Memory>) -> Option<u64>
    ensures { result ≡ named call.now }
{
    match call {
        Call::Made(number) | Call::Closed(number, _) => Some(*number),
        _ => None,
    }
}

/// The number that a call names, if it has a file and isn't listed.
fn unlisted(calls: &[Call<Memory>], call: &Call<Memory>, numbers: &[u64]) -> Option<u64>
    ensures some { IfSome result (λ number.
        (named call.now ≡ Some number) × IsSome (held_in calls.now number)) }
    ensures none { IfNone result (AreListed calls.now call.now numbers.now) }
{
    let number = named(call)?;
    if find(calls, number).is_none() || numbers.contains(&number) {
        return None;
    }
    Some(number)
}

/// The numbers that have a file.
fn list(calls: &[Call<Memory>], alloc: Global) -> io::Result<Vec<u64>>
    ensures { IfOk result (λ numbers. (number : ℕ)
        → Contains numbers.items number ↔ IsSome (held_in calls.now number)) }
{
    let mut numbers = Vec::new(alloc);
    let mut left = calls.len();
    while left > 0 {
        left -= 1;
        if let Some(number) = unlisted(calls, &calls[left], &numbers) {
            numbers.push(number)?;
        }
    }
    Ok(numbers)
}

/// Copies bytes at an offset, and says how many.
fn copy(bytes: &[u8], at: usize, buf: &mut [u8]) -> usize
    ensures count { result ≤ length buf.old }
    ensures copied { IsPiece (Some bytes.now) at (length buf.old) (take result buf.new) }
{
    if at >= bytes.len() {
        return 0;
    }
    let rest = &bytes[at..];
    let n = rest.len().min(buf.len());
    buf[..n].copy_from_slice(&rest[..n]);
    n
}

/// A file that has what a file of a spool has, on the disk. One of a spool on a disk is refused.
fn copy_of(alloc: Global, file: &SyncedFile) -> Result<Memory, BodyFault>
    ensures seen { IfOk result (λ copy. memory_bytes copy ≡ file.now) }
    ensures stored { IfOk result (λ copy. Only file.now (memory_may_leave copy)) }
{
    let Some(bytes) = file.in_memory() else {
        return Err(BodyFault::Io(ErrorKind::InvalidInput.into()));
    };
    let mut copy = Body::new(0, Memory::new(alloc));
    if let Err(fault) = copy.append(bytes) {
        return Err(fault);
    }
    let (copy, synced) = copy.end();
    synced?;
    Ok(copy)
}

impl Shelf for MemoryShelf {
    ghost use Rattle.std.specs.Prelude.{true};
    ghost use Rattle.bodies.specs.MemoryFiles.{held_in as held_in_calls, left_in};

    type File = Memory;

    ghost held = { λ shelf. held_in_calls shelf.calls.items };

    ghost may_leave = { λ shelf. left_in shelf.calls.items };

    ghost is_usable = { λ shelf. shelf.is_usable };

    ghost IsClean = { λ _. Unit {0} };

    ghost faults = { λ shelf. shelf.faults };

    fn may_be_used(&self) -> bool {
        self.is_usable
    }

    fn make(&mut self, number: u64) -> Result<Memory, BodyFault> {
        if find(&self.calls, number).is_some() {
            return Err(BodyFault::Taken);
        }
        self.note(Call::Made(number))?;
        Ok(Memory::new(self.alloc))
    }

    fn close(&mut self, number: u64, file: Memory) -> io::Result<()> {
        self.note(Call::Closed(number, file))
    }

    fn sync(&mut self, number: u64) -> io::Result<()> {
        self.is_usable = false;
        self.note(Call::Synced(number))?;
        self.is_usable = true;
        Ok(())
    }

    fn spool(&self) -> Option<Spool> {
        Spool::in_memory(self.alloc).ok()
    }

    fn name(&mut self, number: u64, file: &SyncedFile) -> Result<(), BodyFault> {
        if find(&self.calls, number).is_some() {
            return Err(BodyFault::Taken);
        }
        match copy_of(self.alloc, file) {
            Ok(file) => self.note(Call::Closed(number, file))?,
            Err(_) => return Err(BodyFault::Io(self.fail())),
        }
        Ok(())
    }

    fn read_at(&mut self, number: u64, at: usize, buf: &mut [u8]) -> Result<usize, BodyFault> {
        match find(&self.calls, number) {
            Some(bytes) => Ok(copy(bytes, at, buf)),
            None => Err(BodyFault::Missing),
        }
    }

    fn remove(&mut self, number: u64) -> Result<(), BodyFault> {
        if find(&self.calls, number).is_none() {
            return Err(BodyFault::Missing);
        }
        self.note(Call::Removed(number))?;
        Ok(())
    }

    fn numbers(&mut self, alloc: Global) -> Result<Vec<u64>, BodyFault> {
        match list(&self.calls, alloc) {
            Ok(numbers) => Ok(numbers),
            Err(_) => Err(BodyFault::Io(self.fail())),
        }
    }
}
