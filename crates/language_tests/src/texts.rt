//! What is read and built of a text.
ghost use Rattle.std.specs.Prelude.{List, map, IfOk};
ghost use Rattle.language_model.specs.declared.token.Token.{Token};
ghost use Rattle.language_model.specs.Tokens.{AreTokens, spelled_at};
ghost use Rattle.language_model.specs.Description.{Describes};
ghost use Rattle.language_model.specs.Texts.{IsDescription, IsBuilt};

use dsl_build::{Built, build};
use dsl_reader::{Description, StatementRefusal, parse};
use dsl_tokens::tokens;
use slif_base::{Chars, chars_of};
use std::alloc::Global;
use std::test::Fail;

/// What characters say.
pub(crate) fn parsed(alloc: Global, chars: &Chars) -> Result<Description, StatementRefusal>
    ensures { IfOk result (λ d. (ts : List Token) × AreTokens chars.now ts ×
        Describes d (map (spelled_at chars.now) ts)) }
{
    let Ok(tokens) = tokens(alloc, chars) else {
        return Err(StatementRefusal::NoMemory);
    };
    parse(alloc, chars, &tokens)
}

// What a text says.
fn described(alloc: Global, text: &[u8]) -> Result<Description, Fail>
    ensures { IfOk result (λ d. IsDescription d) }
{
    if text.len() > 1_048_576 {
        return Err(Fail::new("too long"));
    }
    let chars = chars_of(alloc, text)?;
    let said = parsed(alloc, &chars);
    drop(chars);
    Ok(said?)
}

/// What is built of a text.
pub(crate) fn built(alloc: Global, text: &[u8]) -> Result<Built, Fail>
    ensures { IfOk result (λ b. IsBuilt b) }
{
    let description = described(alloc, text)?;
    let said = build(alloc, &description);
    drop(description);
    Ok(said?)
}
