//! The teller that makes the values of actions.
ghost use Rattle.std.specs.Prelude.{◌≡◌, ◌<◌, [], length, IfOk};
ghost use Rattle.grammar_model.specs.declared.Show.TheVariants.{Array as ShowArray};
ghost use Rattle.grammar_model.specs.Values.{made_by_option};
ghost use Rattle.value_text.specs.Nodes.{value_at};
ghost use Rattle.value_text.specs.Pool.{AreIds};
ghost use Rattle.valuator.specs.Made.{made_of, IsGrown, StandsFor};
ghost use Rattle.valuator.specs.Told.{action_in};

use crate::make::{Parts, make};
use crate::stack::{append_line, list_visible, newest, replace};
use crate::{Show, Teller};
use grammar_core::RuleId;
use std::alloc::Global;
use std::marker::Model;
use value_text::{Action, NoMemory, Pool, ValueId};

/// Makes the values that the actions of rules and lexemes make.
#[derive(Drop)]
pub struct ArrayTeller {
    pool: Pool,
    ids: Vec<ValueId>,
    // lent to each call in turn: the children that are shown, and the items of a descriptor
    seen: Vec<ValueId>,
    items: Vec<ValueId>,
}

impl Model for ArrayTeller {
    ghost use Rattle.std.specs.Prelude.{List};
    ghost use Rattle.std.specs.Coded.{coded_list};
    ghost use Rattle.grammar_model.specs.Values.{Value as Told};
    ghost use Rattle.value_text.specs.ValueCode.{value_code};
    ghost use Rattle.value_text.specs.Pool.{AreIds};
    ghost use Rattle.valuator.specs.Made.{values_at};

    ghost Value = { List Told };

    ghost coded = { coded_list value_code };

    ghost view = { λ t. values_at t.pool t.ids.items };

    ghost invariant = { λ t. AreIds t.pool t.ids.items };
}

impl ArrayTeller {
    /// A teller that holds nothing. It takes no memory.
    pub fn new(alloc: Global) -> ArrayTeller
        ensures { result ≡ [] }
    {
        ArrayTeller {
            pool: Pool::new(alloc),
            ids: Vec::new(alloc),
            seen: Vec::new(alloc),
            items: Vec::new(alloc),
        }
    }
}

/// The value that an action makes, or another where there is no action.
fn made_or(
    pool: &mut Pool,
    action: Option<&Action>,
    parts: &Parts<'_>,
    otherwise: ValueId,
    items: &mut Vec<ValueId>,
) -> Result<ValueId, NoMemory>
    requires otherwise { otherwise < length pool.old }
    requires children { AreIds pool.old parts.now.children.now }
    ensures ok { IfOk result (λ id. StandsFor pool.new id
        (made_by_option (action_in action.entry) (value_at pool.old otherwise)
        (made_of pool.old parts.now))) }
    ensures grown { IsGrown pool.old pool.new }
{
    match action {
        None => Ok(otherwise),
        Some(action) => make(pool, action, parts, items),
    }
}

impl Teller for ArrayTeller {
    ghost held = { λ t. t };

    ghost shows = { λ _. ShowArray };

    fn kind(&self) -> Show {
        Show::Array
    }

    fn token(
        &mut self,
        name: &str,
        text: &str,
        start: u32,
        length: u32,
        g1start: u32,
        action: Option<&Action>,
    ) -> Result<(), NoMemory> {
        let value = self.pool.text(text)?;
        let parts = Parts {
            name,
            start,
            length,
            g1start,
            g1length: 1,
            children: &[value],
        };
        let id = made_or(&mut self.pool, action, &parts, value, &mut self.items)?;
        self.ids.push(id)?;
        Ok(())
    }

    fn nulling(
        &mut self,
        name: &str,
        start: u32,
        g1start: u32,
        action: Option<&Action>,
    ) -> Result<(), NoMemory> {
        let value = self.pool.undef()?;
        let parts = Parts {
            name,
            start,
            length: 0,
            g1start,
            g1length: 0,
            children: &[],
        };
        let id = made_or(&mut self.pool, action, &parts, value, &mut self.items)?;
        self.ids.push(id)?;
        Ok(())
    }

    fn rule(
        &mut self,
        _rule: RuleId,
        name: &str,
        children: u32,
        shown: &[bool],
        start: u32,
        length: u32,
        g1start: u32,
        g1length: u32,
        action: &Action,
    ) -> Result<(), NoMemory> {
        let count = children as usize;
        let held = newest(self.ids.as_slice(), count);
        list_visible(shown, held, &mut self.seen)?;
        let parts = Parts {
            name,
            start,
            length,
            g1start,
            g1length,
            children: self.seen.as_slice(),
        };
        let id = make(&mut self.pool, action, &parts, &mut self.items)?;
        replace(&mut self.ids, count, id)?;
        Ok(())
    }

    fn finish(&mut self, out: &mut Vec<u8>) -> Result<(), NoMemory> {
        append_line(&self.pool, self.ids[0], out)?;
        self.ids.clear();
        self.pool.clear();
        Ok(())
    }
}
