// Names and where they are declared.
ghost use Rattle.std.specs.Prelude.{◌≡◌, [], string_bytes};
ghost use Rattle.declared_names.specs.Scope.{IsFound, DeclarationGives, UseGives, RuleGives, TokenGives, NulledGives};

use crate::fault::Fault;
use slif_parser::{RuleId, Semantics, SymbolId, Token};
use std::alloc::Global;
use std::collections::HashMap;

// The rules that say something of a name, by their numbers: from 0, in the order of the grammar's text.
const DECLARATION: u32 = 3;

const USE: u32 = 8;

/// The value of a part: a word with the character where it begins, or nothing.
#[derive(Debug, Drop)]
pub(crate) enum Value {
    Word { text: String, start: u32 },
    Nothing,
}

/// The names that are declared, each with the character where that is.
#[derive(Drop)]
pub(crate) struct Scope {
    alloc: Global,
    declared: HashMap<String, u32>,
}

impl Scope {
    /// No name is declared yet.
    pub(crate) fn new(alloc: Global) -> Scope
        ensures { result.declared.entries ≡ [] }
    {
        Scope {
            alloc,
            declared: HashMap::new(alloc),
        }
    }

    /// Where a name is declared, if it is.
    fn find(&self, name: &str) -> Option<u32>
        ensures { IsFound self.now name.now result }
    {
        self.declared.get(name).copied()
    }

    /// Declares a name.
    fn declare(&mut self, name: String, start: u32) -> Result<Value, Fault>
        ensures { DeclarationGives self.old self.new (string_bytes name) start result }
    {
        if let Some(first) = self.find(&name) {
            return Err(Fault::DeclaredTwice { name, start, first });
        }
        self.declared.insert(name, start)?;
        Ok(Value::Nothing)
    }

    /// Uses a name.
    fn use_of(&self, name: String, start: u32) -> Result<Value, Fault>
        ensures { UseGives self.now (string_bytes name) start result }
    {
        match self.find(&name) {
            Some(_) => Ok(Value::Nothing),
            None => Err(Fault::NotDeclared { name, start }),
        }
    }
}

impl Semantics for Scope {
    type Value = Value;

    type Error = Fault;

    ghost token_gives = { λ before after symbol name token result.
        TokenGives before after token result };

    ghost nulled_gives = { λ before after symbol name result. NulledGives before after result };

    ghost rule_gives = { λ before after rule name children result.
        RuleGives before after rule children result };

    fn token(&mut self, token: Token<'_>) -> Result<Value, Fault> {
        let text = String::from_str(self.alloc, token.text)?;
        Ok(Value::Word {
            text,
            start: token.start,
        })
    }

    fn nulled(&mut self, _symbol: SymbolId, _name: &str) -> Result<Value, Fault> {
        Ok(Value::Nothing)
    }

    fn rule(&mut self, rule: RuleId, _name: &str, mut children: Vec<Value>) -> Result<Value, Fault>
        ensures { RuleGives self.old self.new rule children.items result }
    {
        match (rule.0, children.pop()) {
            (DECLARATION, Some(Value::Word { text, start })) => self.declare(text, start),
            (USE, Some(Value::Word { text, start })) => self.use_of(text, start),
            _ => Ok(Value::Nothing),
        }
    }
}
