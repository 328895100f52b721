//! Whether bytes that lie in other parts are the same.
ghost use Rattle.std.specs.Prelude.{◌≡◌, ◌++◌, [], List, ℕ, IsTrue};
ghost use Rattle.std.specs.List.{concat};

use crate::body::Body;
use crate::front;
use crate::shared::BlobBytes;
use crate::stretch::Stretch;

impl BlobBytes {
    /// Whether both are the same bytes, in whatever stretches they are. Of bytes in files this isn't found here.
    pub fn is_same(&self, other: &BlobBytes) -> bool
        ensures { IsTrue result → self.now ≡ other.now }
    {
        are_same(self.stretches(), other.stretches())
    }
}

impl Body {
    /// Whether both are the same bytes, in the same parts: so a share of a body is.
    pub fn is_same(&self, other: &Body) -> bool
        ensures { IsTrue result → self.now ≡ other.now }
    {
        let mine = self.pieces();
        let theirs = other.pieces();
        front::are_same(mine.parts.as_slice(), theirs.parts.as_slice())
            && is_same(mine.last.as_slice(), theirs.last.as_slice())
    }
}

/// Whether parts are of the same bytes, wherever one ends and the next begins.
fn are_same(parts: &[Stretch], others: &[Stretch]) -> bool
    ensures { IsTrue result → concat parts.now ≡ concat others.now }
{
    let mut piece: &[u8] = &[];
    let mut behind = others;
    for part in parts {
        if !take_part(&mut piece, &mut behind, part) {
            return false;
        }
    }
    is_same(piece, &[]) && are_empty(behind)
}

/// Takes the bytes of a stretch from the front of a piece and the stretches behind it, if it is in memory.
fn take_part<'a>(piece: &mut &'a [u8], behind: &mut &'a [Stretch], part: &Stretch) -> bool
    ensures { IsTrue result → piece.old.now ++ concat behind.old.now
        ≡ part.now ++ (piece.new.now ++ concat behind.new.now) }
{
    match part.as_slice() {
        Ok(bytes) => take(piece, behind, bytes),
        Err(_) => false,
    }
}

/// Whether a stretch has no bytes. Of one in a file this isn't found here.
fn is_none(part: &Stretch) -> bool
    ensures { IsTrue result → part.now ≡ [] }
{
    match part.as_slice() {
        Ok(bytes) => is_same(bytes, &[]),
        Err(_) => false,
    }
}

/// Takes bytes from the front of a piece and the parts behind it, if they come next there.
fn take<'a>(piece: &mut &'a [u8], behind: &mut &'a [Stretch], bytes: &[u8]) -> bool
    ensures { IsTrue result → piece.old.now ++ concat behind.old.now
        ≡ bytes.now ++ (piece.new.now ++ concat behind.new.now) }
{
    let mut wanted = bytes;
    for _ in 0..u64::MAX {
        if wanted.is_empty() {
            return true;
        }
        if !take_some(piece, behind, &mut wanted) {
            return false;
        }
    }
    false
}

/// Takes as many of these bytes as the piece has, if they come next. Where it has none left, the next part is the piece
/// from then on.
fn take_some<'a>(piece: &mut &'a [u8], behind: &mut &'a [Stretch], wanted: &mut &[u8]) -> bool
    ensures { IsTrue result → (rest : List ℕ)
        → piece.new.now ++ concat behind.new.now ≡ wanted.new.now ++ rest
        → piece.old.now ++ concat behind.old.now ≡ wanted.old.now ++ rest }
{
    if piece.is_empty() {
        return next_piece(piece, behind);
    }
    let len = piece.len().min(wanted.len());
    let (front, piece_rest) = piece.split_at(len);
    let (first, wanted_rest) = wanted.split_at(len);
    if !is_same(front, first) {
        return false;
    }
    *piece = piece_rest;
    *wanted = wanted_rest;
    true
}

/// Has the next part be the piece, if there is one.
fn next_piece<'a>(piece: &mut &'a [u8], behind: &mut &'a [Stretch]) -> bool
    ensures { IsTrue result
        → piece.new.now ++ concat behind.new.now ≡ concat behind.old.now }
{
    match *behind {
        [] => false,
        [first, rest @ ..] => {
            let Ok(bytes) = first.as_slice() else {
                return false;
            };
            *piece = bytes;
            *behind = rest;
            true
        }
    }
}

/// Whether parts have no bytes.
fn are_empty(parts: &[Stretch]) -> bool
    ensures { IsTrue result → concat parts.now ≡ [] }
{
    for part in parts {
        if !is_none(part) {
            return false;
        }
    }
    true
}

/// Whether these are the same bytes.
fn is_same(bytes: &[u8], others: &[u8]) -> bool
    ensures { IsTrue result → bytes.now ≡ others.now }
{
    bytes == others
}
