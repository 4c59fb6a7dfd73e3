//! The symbols of the lexical grammar other than character sets.
ghost use Rattle.std.specs.Prelude.{◌≡◌, ◌++◌, [], map, flat_map, filter, not, ◌&&◌, ◌∷◌, if◌then◌else◌, false, IfOk, OnOk};
ghost use Rattle.language_model.specs.Building as building;
ghost use Rattle.language_model.specs.Building.{is_one_of, new_tokens};
ghost use Rattle.dsl_faults.specs.Uses.{used_of};
ghost use Rattle.dsl_build.specs.Lexical.{is_placed, placed_part};
ghost use Rattle.dsl_faults.specs.Texts.{AllNew};

use dsl_faults::{Names, Use, is_bracket, is_left, is_quote, is_right, text_of};
use dsl_statement::Spelled;
use std::alloc::{AllocError, Global};

/// The tokens that have a place in the lexical grammar, each text once, and their texts.
#[derive(Drop)]
pub struct Placed<'a> {
    pub tokens: Vec<&'a Spelled>,
    pub names: Names,
}

/// Whether the token is a quoted text or a class.
pub fn is_quote_or_bracket(token: &Spelled) -> bool
    ensures { result ≡ building.is_quote_or_bracket token.now }
{
    is_quote(token) || is_bracket(token)
}

fn is_placed(used: &Use<'_>) -> bool
    ensures { result ≡ is_placed (used_of used.now) }
{
    let lexical = used.level.is_lexical();
    (is_left(used) && lexical) || (is_right(used) && (lexical || is_quote_or_bracket(used.token)))
}

fn is_new(used: &Use<'_>, names: &Names) -> bool
    ensures { result ≡ (is_placed (used_of used.now) && not (is_one_of names.now (used_of used.now).token.content)) }
{
    is_placed(used) && !names.has(text_of(used))
}

/// The tokens of lexical rules and discards, and the quoted texts and classes of structural rules.
pub fn placed_tokens<'a>(alloc: Global, uses: &[Use<'a>]) -> Result<Placed<'a>, AllocError>
    ensures tokens { IfOk result (λ p. map (λ t. t.now) p.tokens.items ≡ new_tokens [] (flat_map placed_part (map used_of uses.now))) }
    ensures names { IfOk result (λ p. p.names ≡ map (λ t. t.content) (new_tokens [] (flat_map placed_part (map used_of uses.now)))) }
{
    let mut tokens = Vec::new(alloc);
    let mut names = Names::new(alloc);
    for used in uses {
        if is_new(used, &names) {
            names.add_new(text_of(used))?;
            tokens.push(used.token)?;
        }
    }
    Ok(Placed { tokens, names })
}

fn add_unless(names: &mut Names, others: &Names, text: &str) -> Result<(), AllocError>
    requires { is_one_of names.old text.now ≡ false }
    ensures { OnOk result (names.new ≡ names.old ++ (if not (is_one_of others.now text.now) then text.now ∷ [] else [])) }
{
    if !others.has(text) {
        names.add_new(text)?;
    }
    Ok(())
}

/// The texts that are none of others.
pub fn without(alloc: Global, texts: &Names, others: &Names) -> Result<Names, AllocError>
    requires { AllNew [] texts.now }
    ensures { IfOk result (λ names. names ≡ filter (λ t. not (is_one_of others.now t)) texts.now) }
{
    let mut names = Names::new(alloc);
    for place in 0..texts.len() {
        add_unless(&mut names, others, texts.text(place))?;
    }
    Ok(names)
}

/// Puts texts that are not there after the others.
pub fn append(names: &mut Names, more: &Names) -> Result<(), AllocError>
    requires { AllNew [] (names.old ++ more.now) }
    ensures { OnOk result (names.new ≡ names.old ++ more.now) }
{
    for place in 0..more.len() {
        names.add_new(more.text(place))?;
    }
    Ok(())
}

/// Puts those of the texts that are not there after the names.
pub fn add_others(names: &mut Names, texts: &Names) -> Result<(), AllocError>
    requires { AllNew [] texts.now }
    ensures { OnOk result (names.new ≡ names.old ++ filter (λ t. not (is_one_of names.old t)) texts.now) }
{
    for place in 0..texts.len() {
        names.add(texts.text(place))?;
    }
    Ok(())
}
