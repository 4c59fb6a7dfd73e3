//! The text of a refusal.
ghost use Rattle.std.specs.Prelude.{◌≡◌, ℕ, ◌<◌, ◌++◌, length, decimal, codes, IfOk, OnOk, OnErr};
ghost use Rattle.grammar_model.specs.Grammar.{rule_at, lhs_of};
ghost use Rattle.grammar_model.specs.Values.{name_of};
ghost use Rattle.grammar_check.specs.Message.{IsOf, cycle_text, refusal_text, AreOf};

use crate::GrammarRefusal;
use grammar_core::{RuleId, SymbolId, Written};
use itoa::Buffer;
use std::alloc::{AllocError, Global};

fn phrase(alloc: Global, before: &[u8], name: &str, after: &[u8]) -> Result<Vec<u8>, AllocError>
    ensures { IfOk result (λ text. text.items ≡ before.now ++ (name.now ++ after.now)) }
{
    let mut text = Vec::from_slice(alloc, before)?;
    text.extend_from_slice(name.as_bytes())?;
    text.extend_from_slice(after)?;
    Ok(text)
}

fn symbol_name(w: &Written, s: SymbolId) -> &str
    requires { s < length w.now.names }
    ensures { result.now ≡ name_of w.now s }
{
    w.name(s)
}

// The name of the rule's left side.
fn left_name(w: &Written, rule: RuleId) -> &str
    requires { rule < length w.now.rules }
    ensures { result.now ≡ name_of w.now (lhs_of (rule_at w.now rule)) }
{
    symbol_name(w, w.lhs(rule.0 as usize))
}

fn duplicate_text(alloc: Global, w: &Written, rule: RuleId) -> Result<Vec<u8>, AllocError>
    requires { rule < length w.now.rules }
    ensures { IfOk result (λ text. text.items ≡
        codes "rule " ++
        (decimal rule ++
        (codes " of " ++
        (name_of w.now (lhs_of (rule_at w.now rule)) ++ codes " is a duplicate")))) }
{
    let before = phrase(alloc, b"rule ", Buffer::new().format(rule.0), b" of ")?;
    let text = phrase(alloc, &before, left_name(w, rule), b" is a duplicate")?;
    Ok(text)
}

fn names_text(alloc: Global, w: &Written, cycle: &[(SymbolId, u32)]) -> Result<Vec<u8>, AllocError>
    requires { AreOf w.now cycle.now }
    ensures { IfOk result (λ text. text.items ≡ cycle_text w.now cycle.now) }
{
    if cycle.is_empty() {
        let text = Vec::from_slice(alloc, b"cyclic: none")?;
        return Ok(text);
    }
    let mut text = phrase(alloc, b"cyclic: ", symbol_name(w, cycle[0].0), b"")?;
    for k in 1..cycle.len() {
        text.extend_from_slice(b", ")?;
        text.extend_from_slice(symbol_name(w, cycle[k].0).as_bytes())?;
    }
    Ok(text)
}

fn text_of(alloc: Global, w: &Written, r: &GrammarRefusal) -> Result<Vec<u8>, AllocError>
    requires { IsOf w.now r.now }
    ensures { IfOk result (λ text. text.items ≡ refusal_text w.now r.now) }
{
    match r {
        GrammarRefusal::NoRules => Vec::from_slice(alloc, b"no rules"),
        GrammarRefusal::NoStart => Vec::from_slice(alloc, b"no start symbol"),
        GrammarRefusal::StartNotLhs { symbol } => {
            phrase(
                alloc,
                b"start symbol ",
                symbol_name(w, *symbol),
                b" has no rule",
            )
        }
        GrammarRefusal::SequenceLhs { symbol } => {
            let after = b" is a sequence and has another rule";
            phrase(alloc, b"", symbol_name(w, *symbol), after)
        }
        GrammarRefusal::Duplicate { rule } => duplicate_text(alloc, w, *rule),
        GrammarRefusal::CountedNullable { rule } => {
            let after = b" has a nullable item or separator";
            phrase(alloc, b"sequence ", left_name(w, *rule), after)
        }
        GrammarRefusal::UnproductiveStart { symbol } => {
            phrase(
                alloc,
                b"start symbol ",
                symbol_name(w, *symbol),
                b" is unproductive",
            )
        }
        GrammarRefusal::Cyclic { cycle } => names_text(alloc, w, cycle),
        GrammarRefusal::NoMemory => Ok(Vec::new(alloc)),
    }
}

/// Appends the text of a refusal, and nothing for want of memory. The symbols and rules in it have to be the grammar's.
/// Where memory runs out nothing is appended.
pub fn append_refusal(w: &Written, r: &GrammarRefusal, out: &mut Vec<u8>) -> Result<(), AllocError>
    requires { IsOf w.now r.now }
    ensures ok { OnOk result (out.new.items ≡ out.old.items ++ refusal_text w.now r.now) }
    ensures err { OnErr result (out.new.items ≡ out.old.items) }
{
    let text = text_of(*out.allocator(), w, r)?;
    out.extend_from_slice(&text)?;
    Ok(())
}
