//! The texts that name the starts of the lexical grammar and its symbols.
ghost use Rattle.std.specs.Prelude.{◌≡◌, ◌++◌, List, [], filter, flat_map, not, map, IfOk};
ghost use Rattle.language_model.specs.Building.{is_one_of, new_tokens};
ghost use Rattle.language_model.specs.Description.{Statement};
ghost use Rattle.dsl_build.specs.Built.{AreTexts, AreStarts};
ghost use Rattle.dsl_build.specs.Lexical.{placed_part};
ghost use Rattle.dsl_faults.specs.Texts.{AllNew};
ghost use Rattle.dsl_faults.specs.Named.{AreTables};
ghost use Rattle.dsl_faults.specs.Uses.{used_of, uses_of};

use crate::placed::{Placed, add_others, append, placed_tokens, without};
use dsl_faults::{Named, Names, Use, Which, names_of};
use std::alloc::{AllocError, Global};

/// The texts of the starts of the lexical grammar.
#[derive(Drop)]
pub struct Starts {
    /// the structural symbols that no structural rule defines
    pub lexemes: Names,
    /// what is discarded
    pub discards: Names,
    /// both, each text once
    pub texts: Names,
}

/// The texts of a lexical grammar's starts and symbols.
#[derive(Drop)]
pub struct Texts<'a> {
    pub starts: Starts,
    /// the tokens that have a place in the lexical grammar, and all its symbols other than character sets
    pub placed: Placed<'a>,
}

fn start_texts(alloc: Global, lexemes: &Names, discards: &Names) -> Result<Names, AllocError>
    requires lexemes { AllNew [] lexemes.now }
    requires discards { AllNew [] discards.now }
    ensures { IfOk result (λ texts. texts ≡ lexemes.now ++ filter (λ t. not (is_one_of lexemes.now t)) discards.now) }
{
    let mut texts = Names::new(alloc);
    append(&mut texts, lexemes)?;
    add_others(&mut texts, discards)?;
    Ok(texts)
}

fn starts_of(
    alloc: Global,
    uses: &[Use<'_>],
    symbols: &Names,
    left: &Names,
) -> Result<Starts, AllocError>
    requires { AllNew [] symbols.now }
    ensures { IfOk result (AreStarts (map used_of uses.now) symbols.now left.now) }
{
    let lexemes = without(alloc, symbols, left)?;
    let discards = names_of(alloc, Which::Discarded, uses)?;
    let texts = start_texts(alloc, &lexemes, &discards)?;
    Ok(Starts {
        lexemes,
        discards,
        texts,
    })
}

fn placed_of<'a>(alloc: Global, uses: &[Use<'a>], lexemes: &Names) -> Result<Placed<'a>, AllocError>
    requires { AllNew [] lexemes.now }
    ensures tokens { IfOk result (λ p. map (λ t. t.now) p.tokens.items ≡ new_tokens [] (flat_map placed_part (map used_of uses.now))) }
    ensures names { IfOk result (λ p. p.names ≡ map (λ t. t.content) (new_tokens [] (flat_map placed_part (map used_of uses.now)))
        ++ filter (λ t. not (is_one_of (map (λ u. u.content) (new_tokens [] (flat_map placed_part (map used_of uses.now)))) t)) lexemes.now) }
{
    let Placed { tokens, mut names } = placed_tokens(alloc, uses)?;
    add_others(&mut names, lexemes)?;
    Ok(Placed { tokens, names })
}

/// The texts of a description with these names.
pub fn texts_of<'a>(alloc: Global, named: &Named<'a>) -> Result<Texts<'a>, AllocError>
    requires { AreTables named.now }
    ensures { IfOk result (λ texts. (d : List Statement) → map used_of named.now.uses.items ≡ flat_map uses_of d → AreTexts d named.now texts) }
{
    let starts = starts_of(alloc, &named.uses, &named.symbols, &named.structural)?;
    let placed = placed_of(alloc, &named.uses, &starts.lexemes)?;
    Ok(Texts { starts, placed })
}
