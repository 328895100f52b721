//! The parameters of a query (the form encoding of the URL Standard, section 5).
ghost use Rattle.std.specs.Prelude.{◌≡◌, IfOk, option_map};
ghost use Rattle.std.specs.Cow.{cow_str_bytes};
ghost use Rattle.http_wire.specs.Query.{parameter};

use std::alloc::{AllocError, Global};
use std::borrow::CowStr;

/// The value of a parameter, decoded. Of a repeated one the first counts. The error is out of memory.
pub fn parameter<'q>(
    alloc: Global,
    query: &'q [u8],
    name: &str,
) -> Result<Option<CowStr<'q>>, AllocError>
    ensures { IfOk result (λ o. option_map cow_str_bytes o ≡ parameter name.now query.now) }
{
    for pair in form_urlencoded::parse(alloc, query) {
        let (key, value) = pair?;
        if key.as_str() == name {
            return Ok(Some(value));
        }
    }
    Ok(None)
}
