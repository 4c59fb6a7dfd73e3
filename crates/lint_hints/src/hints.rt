// All hints about a grammar.
ghost use Rattle.std.specs.Prelude.{◌≡◌, ◌++◌, IfOk, OnOk, map, flat_map};
ghost use Rattle.std.specs.List.{list_any};
ghost use Rattle.dsl_statement.specs.Statements.{adverb_of, adverbs_of, statement_of, statements_of};
ghost use Rattle.lint_hints.specs.Hints as found;
ghost use Rattle.lint_hints.specs.Hints.{hint_of, latm_hints, statement_hints};
ghost use Rattle.lint_hints.specs.All.{AreHints};

use crate::hint::{Fault, Hint};
use crate::nullable::look_at_sequences;
use crate::operators::look_at_groups;
use crate::sides::left_of;
use crate::spellings::{look_at_spellings, push_if};
use crate::uses::look_at_uses;
use dsl_statement::{Adverb, Statement};
use std::alloc::{AllocError, Global};

fn is_latm(adverb: &Adverb) -> bool
    ensures { result ≡ found.is_latm (adverb_of adverb.now) }
{
    match adverb {
        Adverb::Pair { name, .. } => name.content.as_str() == "latm",
        Adverb::Comma { .. } => false,
    }
}

/// Whether adverbs say how lexemes are looked for.
fn has_latm(adverbs: &[Adverb]) -> bool
    ensures { result ≡ list_any found.is_latm (adverbs_of adverbs.now) }
{
    for adverb in adverbs {
        if is_latm(adverb) {
            return true;
        }
    }
    false
}

/// Whether a statement says how lexemes are looked for.
fn says_latm(statement: &Statement) -> bool
    ensures { result ≡ found.says_latm (statement_of statement.now) }
{
    match statement {
        Statement::LexemeDefault { adverbs, .. } => has_latm(adverbs),
        _ => false,
    }
}

fn any_says_latm(statements: &[Statement]) -> bool
    ensures { result ≡ list_any found.says_latm (statements_of statements.now) }
{
    for statement in statements {
        if says_latm(statement) {
            return true;
        }
    }
    false
}

fn is_lexical_rule(statement: &Statement) -> bool
    ensures { result ≡ found.is_lexical_rule (statement_of statement.now) }
{
    match left_of(statement) {
        Some((lexical, _)) => lexical,
        None => false,
    }
}

fn has_lexical(statements: &[Statement]) -> bool
    ensures { result ≡ list_any found.is_lexical_rule (statements_of statements.now) }
{
    for statement in statements {
        if is_lexical_rule(statement) {
            return true;
        }
    }
    false
}

/// Where the first rule stands.
fn first_place(statements: &[Statement]) -> usize
    ensures { result ≡ found.first_place (statements_of statements.now) }
{
    for statement in statements {
        if let Some((_, left)) = left_of(statement) {
            return left.at;
        }
    }
    0
}

/// Appends a hint where no statement says how lexemes are looked for, and there are lexical rules.
fn look_at_latm<'d>(
    statements: &'d [Statement],
    hints: &mut Vec<Hint<'d>>,
) -> Result<(), AllocError>
    ensures { OnOk result (map hint_of hints.new.items ≡ map hint_of hints.old.items ++ latm_hints
        (statements_of statements.now)) }
{
    let holds = has_lexical(statements) && !any_says_latm(statements);
    push_if(holds, first_place(statements), Fault::NoLatm, hints)
}

fn look_at_statement<'d>(
    statement: &'d Statement,
    hints: &mut Vec<Hint<'d>>,
) -> Result<(), AllocError>
    ensures { OnOk result (map hint_of hints.new.items ≡ map hint_of hints.old.items ++ statement_hints
        (statement_of statement.now)) }
{
    look_at_spellings(statement, hints)?;
    look_at_groups(statement, hints)
}

fn look_at_each<'d>(
    statements: &'d [Statement],
    hints: &mut Vec<Hint<'d>>,
) -> Result<(), AllocError>
    ensures { OnOk result (map hint_of hints.new.items ≡ map hint_of hints.old.items ++ flat_map
        statement_hints (statements_of statements.now)) }
{
    for statement in statements {
        look_at_statement(statement, hints)?;
    }
    Ok(())
}

/// The hints about a grammar of these statements.
pub fn hints_of<'d>(alloc: Global, statements: &'d [Statement]) -> Result<Vec<Hint<'d>>, AllocError>
    ensures { IfOk result (λ all. AreHints (statements_of statements.now) (map hint_of all.items)) }
{
    let mut hints = Vec::new(alloc);
    look_at_latm(statements, &mut hints)?;
    look_at_each(statements, &mut hints)?;
    look_at_uses(alloc, statements, &mut hints)?;
    look_at_sequences(alloc, statements, &mut hints)?;
    Ok(hints)
}
