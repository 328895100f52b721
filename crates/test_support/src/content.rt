//! A content that tests send, store and fetch: it repeats after 251 bytes, so that bytes which are lost, doubled or
//! moved show.
ghost use Rattle.std.specs.Prelude.{◌≡◌, ◌%◌, IfOk, map};
ghost use Rattle.std.specs.List.{range_with_len};

use std::alloc::{AllocError, Global};

/// The first `count` bytes of the content.
pub fn content_of(alloc: Global, count: usize) -> Result<Vec<u8>, AllocError>
    ensures { IfOk result (λ v. v.items ≡ map (λ at. at % 251) (range_with_len 0 count)) }
{
    (0..count).map(|at| (at % 251) as u8).collect(alloc)
}
