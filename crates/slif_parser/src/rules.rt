//! Rules as they are written.
ghost use Rattle.std.specs.Prelude.{◌≡◌, ◌<◌, ◌≤◌, ◌++◌, ◌∷◌, All, codes, length, IfSome, OnOk};
ghost use Rattle.grammar_core.specs.Written.{IsWritten, rule_of, symbols_of};
ghost use Rattle.grammar_model.specs.Grammar.{rule_at};
ghost use Rattle.grammar_model.specs.Values.{name_of};
ghost use Rattle.slif_parser.specs.Rules.{parts_text, plain_text, rule_text, separator_text, sequence_text, sign_text};

use crate::{NoMemory, RuleId, SymbolId};
use grammar_core::{Rule, SeqRule, Written, WrittenRule};

fn append(bytes: &[u8], line: &mut Vec<u8>) -> Result<(), NoMemory>
    ensures { OnOk result (line.new.items ≡ line.old.items ++ bytes.now) }
{
    line.extend_from_slice(bytes)?;
    Ok(())
}

fn append_name(w: &Written, symbol: SymbolId, line: &mut Vec<u8>) -> Result<(), NoMemory>
    requires { symbol < length w.now.names }
    ensures { OnOk result (line.new.items ≡ line.old.items ++ name_of w.now symbol) }
{
    append(w.name(symbol).as_bytes(), line)
}

// Appends the parts of a rule, each after a space.
fn append_parts(w: &Written, symbols: &[SymbolId], line: &mut Vec<u8>) -> Result<(), NoMemory>
    requires { All (λ s. s < length w.now.names) symbols.now }
    ensures { OnOk result (line.new.items ≡ line.old.items ++ parts_text w.now symbols.now) }
{
    for symbol in symbols {
        append(b" ", line)?;
        append_name(w, *symbol, line)?;
    }
    Ok(())
}

fn append_plain(w: &Written, rule: &Rule, line: &mut Vec<u8>) -> Result<(), NoMemory>
    requires lhs { rule.now.lhs < length w.now.names }
    requires rhs { All (λ s. s < length w.now.names) rule.now.rhs }
    ensures { OnOk result (line.new.items ≡ line.old.items ++ plain_text w.now rule.now) }
{
    append_name(w, rule.lhs, line)?;
    append(b" ::=", line)?;
    append_parts(w, &rule.rhs, line)
}

fn append_sign(plus: bool, line: &mut Vec<u8>) -> Result<(), NoMemory>
    ensures { OnOk result (line.new.items ≡ line.old.items ++ sign_text plus) }
{
    if plus {
        append(b"+", line)
    } else {
        append(b"*", line)
    }
}

fn append_separator(
    w: &Written,
    separator: Option<SymbolId>,
    line: &mut Vec<u8>,
) -> Result<(), NoMemory>
    requires { IfSome separator (λ s. s < length w.now.names) }
    ensures { OnOk result (line.new.items ≡ line.old.items ++ separator_text w.now separator) }
{
    match separator {
        None => Ok(()),
        Some(symbol) => {
            append(b" separator => ", line)?;
            append_name(w, symbol, line)
        }
    }
}

fn append_sequence(w: &Written, rule: &SeqRule, line: &mut Vec<u8>) -> Result<(), NoMemory>
    requires lhs { rule.now.lhs < length w.now.names }
    requires item { rule.now.item < length w.now.names }
    requires separator { IfSome rule.now.separator (λ s. s < length w.now.names) }
    ensures { OnOk result (line.new.items ≡ line.old.items ++ sequence_text w.now rule.now) }
{
    append_name(w, rule.lhs, line)?;
    append(b" ::= ", line)?;
    append_name(w, rule.item, line)?;
    append_sign(rule.plus, line)?;
    append_separator(w, rule.separator, line)
}

/// Appends a rule.
pub fn append_rule(w: &Written, rule: RuleId, line: &mut Vec<u8>) -> Result<(), NoMemory>
    requires { rule < length w.now.rules }
    ensures { OnOk result (line.new.items ≡ line.old.items ++ rule_text w.now
        (rule_at w.now rule)) }
{
    w.known();
    match w.written_rule(rule) {
        WrittenRule::Plain(rule) => append_plain(w, rule, line),
        WrittenRule::Sequence(rule) => append_sequence(w, rule, line),
    }
}
