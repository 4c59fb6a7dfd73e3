//! The characters of quoted texts.
ghost use Rattle.std.specs.Prelude.{◌≡◌, IfOk, IsUtf8, chars};
ghost use Rattle.language_model.specs.Building as building;
ghost use Rattle.dsl_faults.specs.Quotes.{between_quotes};

use dsl_faults::between_quotes;
use std::alloc::{AllocError, Global};
use std::str::from_utf8;

fn chars_of(alloc: Global, text: &str) -> Result<Vec<char>, AllocError>
    ensures { IfOk result (λ v. v.items ≡ chars text.now) }
{
    text.chars().collect(alloc)
}

// What stands between the quotes, which are characters of one byte.
fn inner_text(text: &str) -> &str
    requires { IsUtf8 (between_quotes text.now) }
    ensures { result.now ≡ between_quotes text.now }
{
    match from_utf8(between_quotes(text.as_bytes())) {
        Ok(inner) => inner,
        Err(_) => unreachable!(),
    }
}

/// The characters that a quoted text stands for.
pub fn quoted(alloc: Global, text: &str) -> Result<Vec<char>, AllocError>
    requires { IsUtf8 (between_quotes text.now) }
    ensures { IfOk result (λ characters. characters.items ≡ building.quoted text.now) }
{
    chars_of(alloc, inner_text(text))
}
