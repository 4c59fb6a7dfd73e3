//! The lists that a derivation's value is made of, in a pool.
ghost use Rattle.std.specs.Prelude.{◌≡◌, ◌∷◌, [], IfOk};
ghost use Rattle.grammar_model.specs.Values.{Text, Number, list_of};
ghost use Rattle.value_text.specs.Pool.{AreIds};
ghost use Rattle.valuator.specs.Made.{values_at};
ghost use Rattle.script_trees.specs.Stack.{IsAdded};

use grammar_core::RuleId;
use std::alloc::AllocError;
use value_text::{Pool, ValueId};

/// The list of a token.
pub fn put_token(pool: &mut Pool, name: &str, from: u32, to: u32) -> Result<ValueId, AllocError>
    ensures { IfOk result (λ id. IsAdded pool.old pool.new id
        (list_of (Text name.now ∷ Number from ∷ Number to ∷ []))) }
{
    let name = pool.text(name)?;
    let from = pool.num(u64::from(from))?;
    let to = pool.num(u64::from(to))?;
    pool.list(&[name, from, to])
}

/// The list of a symbol that spans nothing.
pub fn put_nulled(pool: &mut Pool, name: &str) -> Result<ValueId, AllocError>
    ensures { IfOk result (λ id. IsAdded pool.old pool.new id (list_of (Text name.now ∷ []))) }
{
    let name = pool.text(name)?;
    pool.list(&[name])
}

/// The list of a rule. `parts` is for its parts, in place of what was listed.
pub fn put_rule(
    pool: &mut Pool,
    rule: RuleId,
    name: &str,
    children: &[ValueId],
    parts: &mut Vec<ValueId>,
) -> Result<ValueId, AllocError>
    requires { AreIds pool.old children.now }
    ensures { IfOk result (λ id. IsAdded pool.old pool.new id
        (list_of (Text name.now ∷ Number rule ∷ values_at pool.old children.now))) }
{
    parts.clear();
    let left = pool.text(name)?;
    parts.push(left)?;
    let number = pool.num(u64::from(rule.0))?;
    parts.push(number)?;
    parts.extend_from_slice(children)?;
    pool.list(parts)
}
