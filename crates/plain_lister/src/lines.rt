//! The values of the trees of a list, for their lines.
ghost use Rattle.std.specs.Prelude.{◌≡◌, ◌<◌, ◌≤◌, ◌++◌, ◌∷◌, ℕ, suc, [], length, map, IfOk, OnOk, OnErr, slice_get, Some};
ghost use Rattle.grammar_model.specs.Text.{text_of};
ghost use Rattle.grammar_model.specs.Grammar.{lhs_of, rule_at};
ghost use Rattle.grammar_model.specs.Trees.{Leaf};
ghost use Rattle.grammar_model.specs.Values.{Text, Number, name_of, list_of};
ghost use Rattle.value_text.specs.Nodes.{value_at};
ghost use Rattle.value_text.specs.Pool.{AreIds};
ghost use Rattle.plain_lister.specs.Told.{grammar_of, tree_value, Puts, Stays, IsTold, IsPrefixTold, IsValueTold, AllTold};
ghost use Rattle.plain_lister.specs.Arena.{meant, meanings};

use crate::{Cell, Derivations};
use std::alloc::{AllocError, Global};
use value_text::{Pool, ValueId, append_text};

/// The value of a tree, or the values of children.
#[derive(Drop)]
pub enum Told {
    Value(ValueId),
    Prefix(Vec<ValueId>),
}

// The name of a symbol, as a value.
fn name_value(list: &Derivations, pool: &mut Pool, symbol: usize) -> Result<ValueId, AllocError>
    ensures { IfOk result (λ id. Puts pool.old pool.new id (Text (name_of (grammar_of list.now)
        symbol))) }
{
    if symbol >= list.names.len() {
        return Err(AllocError);
    }
    match pool.text(list.names[symbol].as_str()) {
        Ok(id) => Ok(id),
        Err(_) => Err(AllocError),
    }
}

// The value of a leaf.
fn leaf_value(
    list: &Derivations,
    pool: &mut Pool,
    symbol: u32,
    from: u32,
) -> Result<ValueId, AllocError>
    ensures { IfOk result (λ id. Puts pool.old pool.new id (tree_value list.now (Leaf symbol from
        (suc from)))) }
{
    let name = name_value(list, pool, symbol as usize)?;
    let place = from as usize;
    if place >= list.input.len() {
        return Err(AllocError);
    }
    let text = byte_value(pool, list.input[place])?;
    list_value(pool, &[name, text])
}

// A byte, as a text.
fn byte_value(pool: &mut Pool, byte: u8) -> Result<ValueId, AllocError>
    ensures { IfOk result (λ id. Puts pool.old pool.new id (Text (byte ∷ []))) }
{
    match std::str::from_utf8(&[byte]) {
        Ok(text) => match pool.text(text) {
            Ok(id) => Ok(id),
            Err(_) => Err(AllocError),
        },
        Err(_) => Err(AllocError),
    }
}

fn list_value(pool: &mut Pool, items: &[ValueId]) -> Result<ValueId, AllocError>
    requires { AreIds pool.old items.now }
    ensures { IfOk result (λ id. Puts pool.old pool.new id (list_of (map (value_at pool.old)
        items.now))) }
{
    match pool.list(items) {
        Ok(id) => Ok(id),
        Err(_) => Err(AllocError),
    }
}

// The value of a rule's node.
fn node_value(
    alloc: Global,
    list: &Derivations,
    pool: &mut Pool,
    rule: u32,
    children: &[ValueId],
) -> Result<ValueId, AllocError>
    requires { AreIds pool.old children.now }
    ensures { IfOk result (λ id. Puts pool.old pool.new id (list_of (Text (name_of (grammar_of list.now) (lhs_of (rule_at
        (grammar_of list.now) rule))) ∷
        Number rule ∷ map (value_at pool.old) children.now))) }
{
    let place = rule as usize;
    if place >= list.lefts.len() {
        return Err(AllocError);
    }
    let name = name_value(list, pool, list.lefts[place] as usize)?;
    let number = number_value(pool, rule as u64)?;
    let mut items = Vec::new(alloc);
    items.push(name)?;
    items.push(number)?;
    items.extend_from_slice(children)?;
    list_value(pool, &items)
}

fn number_value(pool: &mut Pool, n: u64) -> Result<ValueId, AllocError>
    ensures { IfOk result (λ id. Puts pool.old pool.new id (Number n)) }
{
    match pool.num(n) {
        Ok(id) => Ok(id),
        Err(_) => Err(AllocError),
    }
}

// The values of the children that a cell stands for.
fn prefix_told(told: &[Told], k: usize) -> Result<&[ValueId], AllocError>
    ensures { IfOk result (λ s. IsPrefixTold told.now k s.now) }
{
    match told.get(k) {
        Some(Told::Prefix(ids)) => Ok(ids.as_slice()),
        _ => Err(AllocError),
    }
}

/// The value of the tree that a cell stands for.
pub fn value_told(told: &[Told], k: usize) -> Result<ValueId, AllocError>
    ensures { IfOk result (λ id. IsValueTold told.now k id) }
{
    match told.get(k) {
        Some(Told::Value(id)) => Ok(*id),
        _ => Err(AllocError),
    }
}

// These values, and after them the value of the tree that a cell stands for.
fn with_last(
    alloc: Global,
    told: &[Told],
    children: &[ValueId],
    last: usize,
) -> Result<Vec<ValueId>, AllocError>
    ensures { IfOk result (λ ids. (id : ℕ) × IsValueTold told.now last id ×
        (ids.items ≡ children.now ++ id ∷ [])) }
{
    let id = value_told(told, last)?;
    let mut ids = Vec::new(alloc);
    ids.extend_from_slice(children)?;
    ids.push(id)?;
    Ok(ids)
}

// What a cell stands for, from what earlier ones do.
fn told_of(
    alloc: Global,
    list: &Derivations,
    pool: &mut Pool,
    done: &[Cell],
    told: &[Told],
    cell: Cell,
) -> Result<Told, AllocError>
    requires { AllTold list.now pool.old told.now done.now }
    ensures { IfOk result (λ x. Stays pool.old pool.new ×
        IsTold list.now pool.new x (meant (meanings done.now) cell)) }
{
    match cell {
        Cell::Leaf(symbol, from) => Ok(Told::Value(leaf_value(list, pool, symbol, from)?)),
        Cell::Node(rule, prefix, _, _) => {
            let children = prefix_told(told, prefix as usize)?;
            Ok(Told::Value(node_value(alloc, list, pool, rule, children)?))
        }
        Cell::First(last) => Ok(Told::Prefix(with_last(alloc, told, &[], last as usize)?)),
        Cell::Next(prefix, last) => {
            let children = prefix_told(told, prefix as usize)?;
            Ok(Told::Prefix(with_last(alloc, told, children, last as usize)?))
        }
    }
}

/// Appends the text of a value and a line feed.
pub fn append_value_line(
    alloc: Global,
    pool: &Pool,
    id: ValueId,
    out: &mut Vec<u8>,
) -> Result<(), AllocError>
    requires { id < length pool.now }
    ensures ok { OnOk result (out.new.items ≡
        out.old.items ++ (text_of (value_at pool.now id) ++ 10 ∷ [])) }
    ensures err { OnErr result (out.new.items ≡ out.old.items) }
{
    let mut line = Vec::new(alloc);
    if append_text(pool, id, &mut line).is_err() {
        return Err(AllocError);
    }
    line.push(b'\n')?;
    out.extend_from_slice(&line)?;
    Ok(())
}

/// What the cells of a list stand for.
pub fn tell_cells(
    alloc: Global,
    list: &Derivations,
    pool: &mut Pool,
) -> Result<Vec<Told>, AllocError>
    requires { pool.old ≡ [] }
    ensures { IfOk result (λ told. AllTold list.now pool.new told.items list.now.cells.items) }
{
    let mut told = Vec::new(alloc);
    for i in 0..list.cells.len() {
        let x = told_of(alloc, list, pool, &list.cells[..i], &told, list.cells[i])?;
        told.push(x)?;
    }
    Ok(told)
}
