//! The values of differences.
ghost use Rattle.std.specs.Prelude.{◌≡◌, Ok, pos};
ghost use Rattle.library_tests.specs.Differences.{NumberGives, difference};

use slif_parser::{NoMemory, RuleId, Semantics, SymbolId, Token};

/// Differences of whole numbers. A sign is 0.
#[derive(Clone, Copy)]
pub(crate) struct Differences;

impl Semantics for Differences {
    type Value = i64;

    type Error = NoMemory;

    ghost token_gives = { λ before after symbol name token result. NumberGives token.text result };

    ghost nulled_gives = { λ before after symbol name result. result ≡ Ok (pos 0) };

    ghost rule_gives = { λ before after rule name children result.
        result ≡ Ok (difference children) };

    fn token(&mut self, token: Token<'_>) -> Result<i64, NoMemory> {
        Ok(token.text.parse::<i64>().unwrap_or(0))
    }

    fn nulled(&mut self, _symbol: SymbolId, _name: &str) -> Result<i64, NoMemory> {
        Ok(0)
    }

    fn rule(&mut self, _rule: RuleId, _name: &str, children: Vec<i64>) -> Result<i64, NoMemory>
        ensures { result ≡ Ok (difference children.items) }
    {
        match children.as_slice() {
            [one] => Ok(*one),
            [_, one] => Ok(one.wrapping_neg()),
            [left, _, right] => Ok(left.wrapping_sub(*right)),
            _ => Ok(0),
        }
    }
}
