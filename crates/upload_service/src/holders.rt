//! Which repositories have a blob. Nearly all blobs have one, whose name is kept once for all its blobs.
ghost use Rattle.std.specs.Prelude.{◌≡◌, ◌||◌, ◌&&◌, ◌∷◌, [], true, false, not, map as list_map, ℕ, List};
ghost use Rattle.std.specs.Prelude.{IsTrue, IfSome, IfNone, IfOk, OnOk, OnErr};
ghost use Rattle.std.specs.Arc.{arc_value};
ghost use Rattle.std.specs.List.{list_any};
ghost use Rattle.upload_service.specs.Machine.{same};
ghost use Rattle.upload_service.specs.Kept.Holders.{is_alone};

use std::alloc::{AllocError, Global};
use std::collections::{BTreeMap, BTreeSet};
use std::marker::Model;
use std::sync::Arc;
use upload_names::RepoName;

/// Names that blobs share: of a repository one, however many blobs it has. It is seen as the list of them.
#[derive(Drop)]
pub struct Names {
    alloc: Global,
    shared: BTreeMap<RepoName, Arc<RepoName, Global>>,
}

impl Model for Names {
    ghost use Rattle.std.specs.Prelude.{List, ℕ};
    ghost use Rattle.std.specs.Map.{keys_of};

    ghost Value = { List (List ℕ) };

    ghost view = { λ a. keys_of a.shared.entries };

    ghost use Rattle.upload_service.specs.Kept.Holders.{AreShared};

    ghost invariant = { λ a. AreShared a.shared.entries };
}

impl Names {
    /// No names. It takes no memory.
    pub fn new(alloc: Global) -> Names
        ensures { result ≡ [] }
    {
        Names {
            alloc,
            shared: BTreeMap::new(alloc),
        }
    }

    /// A name that blobs share, if there is one. It takes no memory.
    pub fn find(&self, name: &RepoName) -> Option<&Arc<RepoName, Global>>
        ensures found { IfSome result (λ shared. arc_value shared.now ≡ name.now) }
        ensures none { IfNone result (list_any (same name.now) self.now ≡ false) }
    {
        self.shared.get(name)
    }

    /// One more owner of a name, which is copied if it is the first. It is among the names then, and no other that
    /// wasn't. An `Err` changes nothing.
    pub fn share(&mut self, name: &RepoName) -> Result<Arc<RepoName, Global>, AllocError>
        ensures shared { IfOk result (λ shared. arc_value shared ≡ name.now) }
        ensures known { OnOk result (list_any (same name.now) self.new ≡ true) }
        ensures kept { (q : List ℕ) → list_any (same q) self.old ≡ true
            → list_any (same q) self.new ≡ true }
        ensures names { OnOk result ((q : List ℕ)
            → list_any (same q) self.new ≡ (same q name.now || list_any (same q) self.old)) }
        ensures err { OnErr result (self.new ≡ self.old) }
    {
        if let Some(shared) = self.shared.get(name) {
            return Arc::try_clone(shared);
        }
        let kept = name.copy(self.alloc)?;
        let Ok(shared) = Arc::new(self.alloc, name.copy(self.alloc)?) else {
            return Err(AllocError);
        };
        let given = Arc::try_clone(&shared)?;
        self.shared.insert(kept, shared)?;
        Ok(given)
    }
}

/// In what the repositories of a blob are kept.
#[derive(Drop)]
pub enum Held {
    One(Arc<RepoName, Global>),
    /// Or the one that is left of several.
    Several(Box<BTreeSet<Arc<RepoName, Global>>>),
}

/// The repositories that have a blob, seen as a list of their names.
#[derive(Drop)]
pub struct Holders {
    held: Held,
}

impl Model for Holders {
    ghost use Rattle.std.specs.Prelude.{List, ℕ};
    ghost use Rattle.upload_service.specs.Kept.Holders.{names_in};

    ghost Value = { List (List ℕ) };

    ghost view = { λ a. names_in a.held };
}

impl Holders {
    /// One repository. It takes no memory.
    pub fn of(name: Arc<RepoName, Global>) -> Holders
        ensures { result ≡ arc_value name ∷ [] }
    {
        Holders {
            held: Held::One(name),
        }
    }

    /// Whether a repository is among them. It takes no memory.
    pub fn has(&self, name: &Arc<RepoName, Global>) -> bool
        ensures { result ≡ list_any (same (arc_value name.now)) self.now }
    {
        match &self.held {
            Held::One(only) => only.same(name),
            Held::Several(names) => names.contains(name),
        }
    }

    /// Puts a repository beside them. It takes no memory if that one is among them. An `Err` changes nothing.
    pub fn add(&mut self, alloc: Global, name: Arc<RepoName, Global>) -> Result<(), AllocError>
        ensures ok { OnOk result ((q : List ℕ) → list_any (same q) self.new
            ≡ (same q (arc_value name) || list_any (same q) self.old)) }
        ensures err { OnErr result (self.new ≡ self.old) }
    {
        if self.has(&name) {
            return Ok(());
        }
        match &mut self.held {
            Held::One(only) => {
                let names = both(alloc, Arc::try_clone(only)?, name)?;
                self.held = Held::Several(names);
            }
            Held::Several(names) => {
                names.insert(name)?;
            }
        }
        Ok(())
    }

    /// Takes a repository from among them. Says whether it was the only one: what is left then is to be let go. It
    /// takes no memory.
    pub fn remove(&mut self, name: &Arc<RepoName, Global>) -> bool
        ensures only { result ≡ is_alone (arc_value name.now) self.old }
        ensures removed { result ≡ false → (q : List ℕ) → list_any (same q) self.new
            ≡ (not (same q (arc_value name.now)) && list_any (same q) self.old) }
    {
        match &mut self.held {
            Held::One(only) => only.same(name),
            Held::Several(names) => take_out(names, name),
        }
    }

    /// Whether the same repositories are among both.
    pub fn is_same(&self, other: &Holders) -> bool
        ensures { IsTrue result → self.now ≡ other.now }
    {
        match (&self.held, &other.held) {
            (Held::One(mine), Held::One(theirs)) => mine.same(theirs),
            (Held::Several(mine), Held::Several(theirs)) => are_same(mine, theirs),
            (Held::One(mine), Held::Several(theirs)) => is_alone_in(mine, theirs),
            (Held::Several(mine), Held::One(theirs)) => is_alone_in(theirs, mine),
        }
    }
}

/// Whether both sets have the same names.
fn are_same(
    names: &BTreeSet<Arc<RepoName, Global>>,
    others: &BTreeSet<Arc<RepoName, Global>>,
) -> bool
    ensures { IsTrue result
        → list_map arc_value names.now.keys ≡ list_map arc_value others.now.keys }
{
    let mut left = others.iter();
    for name in names.iter() {
        let Some(other) = left.next() else {
            return false;
        };
        if !name.same(other) {
            return false;
        }
    }
    left.next().is_none()
}

/// Whether a set has this name and no other.
fn is_alone_in(name: &Arc<RepoName, Global>, names: &BTreeSet<Arc<RepoName, Global>>) -> bool
    ensures { IsTrue result
        → list_map arc_value names.now.keys ≡ arc_value name.now ∷ [] }
{
    if names.len() != 1 {
        return false;
    }
    names.contains(name)
}

/// Takes a name out of a set. Says whether it was the only one.
fn take_out(names: &mut BTreeSet<Arc<RepoName, Global>>, name: &Arc<RepoName, Global>) -> bool
    ensures only { result ≡ is_alone (arc_value name.now) (list_map arc_value names.old.keys) }
    ensures removed { (q : List ℕ) → list_any (same q) (list_map arc_value names.new.keys)
        ≡ (not (same q (arc_value name.now))
        && list_any (same q) (list_map arc_value names.old.keys)) }
{
    if !names.remove(name) {
        return false;
    }
    names.is_empty()
}

/// Two names as a set.
fn both(
    alloc: Global,
    one: Arc<RepoName, Global>,
    other: Arc<RepoName, Global>,
) -> Result<Box<BTreeSet<Arc<RepoName, Global>>>, AllocError>
    ensures { IfOk result
        (λ names. (q : List ℕ) → list_any (same q) (list_map arc_value names.value.keys)
        ≡ (same q (arc_value other) || list_any (same q) (arc_value one ∷ []))) }
{
    let mut names = BTreeSet::new(alloc);
    names.insert(one)?;
    names.insert(other)?;
    match Box::new(alloc, names) {
        Ok(names) => Ok(names),
        Err(_) => Err(AllocError),
    }
}
