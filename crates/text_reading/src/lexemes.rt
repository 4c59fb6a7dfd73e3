//! Lexemes by their names.
ghost use Rattle.std.specs.Prelude.{◌≡◌, ◌<◌, length, All, Contains, IfSome, IsNone};
ghost use Rattle.grammar_model.specs.Values.{name_of};
ghost use Rattle.dsl_build.specs.declared.built.LexemeRow.{LexemeRow as HeldRow};
ghost use Rattle.run_model.specs.Given.{IsLexeme, NamesNoLexeme};

use dsl_build::LexemeRow;
use grammar_core::{SymbolId, Written};
use scanless::Prepared;

// The symbol of a row with this name.
fn row_named(rows: &[LexemeRow], w: &Written, name: &str) -> Option<SymbolId>
    requires { All (λ (r : HeldRow). r.symbol < length w.now.names) rows.now }
    ensures some { IfSome result (λ symbol. ((r : HeldRow) × Contains rows.now r ×
        (r.symbol ≡ symbol)) × (name_of w.now symbol ≡ name.now)) }
    ensures none { IsNone result → (r : HeldRow) → Contains rows.now r →
        name_of w.now r.symbol ≡ name.now → ⊥ }
{
    for row in rows {
        if w.name(row.symbol) == name {
            return Some(row.symbol);
        }
    }
    None
}

/// The lexeme that has this name, as it is printed, where there is one.
pub fn lexeme_named(prepared: &Prepared, name: &str) -> Option<SymbolId>
    ensures some { IfSome result (λ symbol. IsLexeme prepared.now symbol ×
        (name_of prepared.now.g1 symbol ≡ name.now)) }
    ensures none { IsNone result → NamesNoLexeme prepared.now name.now }
{
    prepared.known();
    row_named(prepared.lexemes(), prepared.written(), name)
}
