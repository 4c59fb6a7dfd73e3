//! The values that actions make, in a pool.
ghost use Rattle.std.specs.Prelude.{◌≡◌, [], ◌∷◌, ◌++◌, length, IfOk, OnOk};
ghost use Rattle.std.specs.List.{flat_map};
ghost use Rattle.grammar_model.specs.Values.{Text, Number, item_values, made_by};
ghost use Rattle.value_text.specs.Meaning.{action_of};
ghost use Rattle.value_text.specs.Pool.{AreIds};
ghost use Rattle.valuator.specs.Made.{made_of, values_at, IsGrown, StandsFor};

use value_text::{Action, DescItem, NoMemory, Pool, ValueId};

/// What an action may put into a value.
#[derive(Clone, Copy)]
pub struct Parts<'p> {
    pub name: &'p str,
    pub start: u32,
    pub length: u32,
    pub g1start: u32,
    pub g1length: u32,
    pub children: &'p [ValueId],
}

/// Adds a text.
pub fn add_text(pool: &mut Pool, text: &str, ids: &mut Vec<ValueId>) -> Result<(), NoMemory>
    requires { AreIds pool.old ids.old.items }
    ensures ok { OnOk result (values_at pool.new ids.new.items ≡
        values_at pool.old ids.old.items ++ Text text.now ∷ []) }
    ensures ids { AreIds pool.new ids.new.items }
    ensures grown { IsGrown pool.old pool.new }
{
    let id = pool.text(text)?;
    ids.push(id)?;
    Ok(())
}

/// Adds a number.
pub fn add_num(pool: &mut Pool, n: u32, ids: &mut Vec<ValueId>) -> Result<(), NoMemory>
    requires { AreIds pool.old ids.old.items }
    ensures ok { OnOk result (values_at pool.new ids.new.items ≡
        values_at pool.old ids.old.items ++ Number n ∷ []) }
    ensures ids { AreIds pool.new ids.new.items }
    ensures grown { IsGrown pool.old pool.new }
{
    let id = pool.num(u64::from(n))?;
    ids.push(id)?;
    Ok(())
}

/// Adds the values that an item of a descriptor gives.
fn add_item(
    pool: &mut Pool,
    parts: &Parts<'_>,
    of: DescItem,
    ids: &mut Vec<ValueId>,
) -> Result<(), NoMemory>
    requires children { AreIds pool.old parts.now.children.now }
    requires ids { AreIds pool.old ids.old.items }
    ensures ok { OnOk result (values_at pool.new ids.new.items ≡
        values_at pool.old ids.old.items ++ item_values (made_of pool.old parts.now) of) }
    ensures ids { AreIds pool.new ids.new.items }
    ensures grown { IsGrown pool.old pool.new }
{
    match of {
        DescItem::Name | DescItem::Symbol => add_text(pool, parts.name, ids),
        DescItem::Start => add_num(pool, parts.start, ids),
        DescItem::Length => add_num(pool, parts.length, ids),
        DescItem::G1Start => add_num(pool, parts.g1start, ids),
        DescItem::G1Length => add_num(pool, parts.g1length, ids),
        DescItem::Values => {
            ids.extend_from_slice(parts.children)?;
            Ok(())
        }
    }
}

/// Adds the values that the items of a descriptor give, in order.
fn add_items(
    pool: &mut Pool,
    parts: &Parts<'_>,
    items: &[DescItem],
    ids: &mut Vec<ValueId>,
) -> Result<(), NoMemory>
    requires children { AreIds pool.old parts.now.children.now }
    requires ids { AreIds pool.old ids.old.items }
    ensures ok { OnOk result (values_at pool.new ids.new.items ≡
        values_at pool.old ids.old.items ++ flat_map (item_values (made_of pool.old parts.now))
        items.now) }
    ensures ids { AreIds pool.new ids.new.items }
    ensures grown { IsGrown pool.old pool.new }
{
    for item in items {
        add_item(pool, parts, *item, ids)?;
    }
    Ok(())
}

/// Puts in the value that an action makes. `ids` are for the items of a descriptor, in place of what was listed.
pub fn make(
    pool: &mut Pool,
    action: &Action,
    parts: &Parts<'_>,
    ids: &mut Vec<ValueId>,
) -> Result<ValueId, NoMemory>
    requires { AreIds pool.old parts.now.children.now }
    ensures ok { IfOk result (λ id. StandsFor pool.new id
        (made_by (action_of action.now) (made_of pool.old parts.now))) }
    ensures grown { IsGrown pool.old pool.new }
{
    match action {
        Action::Array => pool.list(parts.children),
        Action::First => match parts.children.first() {
            Some(first) => Ok(*first),
            None => pool.undef(),
        },
        Action::Undef => pool.undef(),
        Action::Items(items) => {
            ids.clear();
            add_items(pool, parts, items.as_slice(), ids)?;
            pool.list(ids.as_slice())
        }
    }
}
