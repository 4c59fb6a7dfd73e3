//! The teller that makes trees of a derivation.
ghost use Rattle.std.specs.Prelude.{◌≡◌, ◌∷◌, ◌++◌, [], IfOk};
ghost use Rattle.grammar_model.specs.declared.Show.TheVariants.{Tree as ShowTree};
ghost use Rattle.grammar_model.specs.Values.{Text, Number, list_of};
ghost use Rattle.value_text.specs.Pool.{AreIds};
ghost use Rattle.valuator.specs.Made.{values_at, IsGrown, StandsFor};

use crate::make::{add_num, add_text};
use crate::stack::{append_line, newest, replace};
use crate::{Show, Teller};
use grammar_core::RuleId;
use std::alloc::Global;
use std::marker::Model;
use value_text::{Action, NoMemory, Pool, ValueId};

/// Makes of each node the list of its left side's name, its rule's number and its children, hidden ones included; of
/// a leaf the list of its lexeme's name and its text, and of a nulled leaf the list of its symbol's name.
#[derive(Drop)]
pub struct TreeTeller {
    pool: Pool,
    ids: Vec<ValueId>,
    // the parts of the list that was made last
    parts: Vec<ValueId>,
}

impl Model for TreeTeller {
    ghost use Rattle.std.specs.Prelude.{List};
    ghost use Rattle.std.specs.Coded.{coded_list};
    ghost use Rattle.grammar_model.specs.Values.{Value as Told};
    ghost use Rattle.value_text.specs.ValueCode.{value_code};
    ghost use Rattle.value_text.specs.Pool.{AreIds};
    ghost use Rattle.valuator.specs.Made.{values_at};

    ghost Value = { List Told };

    ghost coded = { coded_list value_code };

    ghost view = { λ t. values_at t.pool t.ids.items };

    ghost invariant = { λ t. AreIds t.pool t.ids.items };
}

impl TreeTeller {
    /// A teller that holds nothing. It takes no memory.
    pub fn new(alloc: Global) -> TreeTeller
        ensures { result ≡ [] }
    {
        TreeTeller {
            pool: Pool::new(alloc),
            ids: Vec::new(alloc),
            parts: Vec::new(alloc),
        }
    }
}

/// A leaf's list.
fn put_leaf(pool: &mut Pool, name: &str, text: &str) -> Result<ValueId, NoMemory>
    ensures ok { IfOk result (λ id. StandsFor pool.new id
        (list_of (Text name.now ∷ Text text.now ∷ []))) }
    ensures grown { IsGrown pool.old pool.new }
{
    let name = pool.text(name)?;
    let text = pool.text(text)?;
    pool.list(&[name, text])
}

/// A nulled leaf's list.
fn put_nulled(pool: &mut Pool, name: &str) -> Result<ValueId, NoMemory>
    ensures ok { IfOk result (λ id. StandsFor pool.new id (list_of (Text name.now ∷ []))) }
    ensures grown { IsGrown pool.old pool.new }
{
    let name = pool.text(name)?;
    pool.list(&[name])
}

/// A node's list. `parts` is for its parts, in place of what was listed.
fn put_node(
    pool: &mut Pool,
    rule: RuleId,
    name: &str,
    children: &[ValueId],
    parts: &mut Vec<ValueId>,
) -> Result<ValueId, NoMemory>
    requires { AreIds pool.old children.now }
    ensures ok { IfOk result (λ id. StandsFor pool.new id
        (list_of (Text name.now ∷ Number rule ∷ values_at pool.old children.now))) }
    ensures grown { IsGrown pool.old pool.new }
{
    parts.clear();
    add_text(pool, name, parts)?;
    add_num(pool, rule.0, parts)?;
    parts.extend_from_slice(children)?;
    pool.list(parts.as_slice())
}

impl Teller for TreeTeller {
    ghost held = { λ t. t };

    ghost shows = { λ _. ShowTree };

    fn kind(&self) -> Show {
        Show::Tree
    }

    fn token(
        &mut self,
        name: &str,
        text: &str,
        _start: u32,
        _length: u32,
        _g1start: u32,
        _action: Option<&Action>,
    ) -> Result<(), NoMemory> {
        let id = put_leaf(&mut self.pool, name, text)?;
        self.ids.push(id)?;
        Ok(())
    }

    fn nulling(
        &mut self,
        name: &str,
        _start: u32,
        _g1start: u32,
        _action: Option<&Action>,
    ) -> Result<(), NoMemory> {
        let id = put_nulled(&mut self.pool, name)?;
        self.ids.push(id)?;
        Ok(())
    }

    fn rule(
        &mut self,
        rule: RuleId,
        name: &str,
        children: u32,
        _shown: &[bool],
        _start: u32,
        _length: u32,
        _g1start: u32,
        _g1length: u32,
        _action: &Action,
    ) -> Result<(), NoMemory> {
        let count = children as usize;
        let held = newest(self.ids.as_slice(), count);
        let id = put_node(&mut self.pool, rule, name, held, &mut self.parts)?;
        replace(&mut self.ids, count, id)?;
        Ok(())
    }

    fn finish(&mut self, out: &mut Vec<u8>) -> Result<(), NoMemory> {
        append_line(&self.pool, self.ids[0], out)?;
        self.ids.clear();
        self.pool.clear();
        Ok(())
    }
}
