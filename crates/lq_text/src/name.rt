//! Names in texts.

ghost use Rattle.std.specs.Prelude.{◌↔◌, IsTrue, IfOk};
ghost use Rattle.lq_text.specs.Name.{IsIdentifier, IsName};
ghost use Rattle.lq_text.specs.Reads.{Reads};

use crate::byte::{is_letter, is_name_byte};
use crate::word::is_reserved;
use sqlite_items::Items;
use std::alloc::{AllocError, Global};

/// Whether a text is a name: a letter or `_`, then letters, digits and `_`, and no word of the
/// language (docs/LANGUAGE.md, "Tokens"). Takes no memory.
pub fn is_name(text: &[u8]) -> bool
    ensures { IsTrue result ↔ IsName text.now }
{
    is_identifier(text) && !is_reserved(text)
}

// Whether a text is a letter or `_` and then letters, digits and `_`.
fn is_identifier(text: &[u8]) -> bool
    ensures { IsTrue result ↔ IsIdentifier text.now }
{
    match text.split_first() {
        None => false,
        Some((first, more)) => is_letter(*first) && more.iter().all(|byte| is_name_byte(*byte)),
    }
}

// The name that a text is.
pub(crate) fn read_name(alloc: Global, text: &[u8]) -> Result<Option<Items<u8>>, AllocError>
    ensures { IfOk result (Reads IsName (λ name. name) text.now) }
{
    if !is_name(text) {
        return Ok(None);
    }
    let name = Items::from_slice(alloc, text)?;
    Ok(Some(name))
}
