//! A grammar that several handles may have.
ghost use Rattle.std.specs.Prelude.{◌≡◌, IfOk};

use slif_parser::{Grammar, NoMemory};
use std::alloc::Global;
use std::marker::Model;
use std::sync::Arc;

/// A grammar that several handles may have, in any threads; the last of them lets it go. It is seen as the grammar.
#[derive(Drop)]
pub struct SharedGrammar {
    grammar: Arc<Grammar, Global>,
}

impl Model for SharedGrammar {
    ghost use Rattle.language_model.specs.Building.{Built};

    ghost Value = { Built };

    ghost view = { λ s. s.grammar.value };
}

impl SharedGrammar {
    /// A grammar that no handle has yet.
    pub fn new(alloc: Global, grammar: Grammar) -> Result<SharedGrammar, NoMemory>
        ensures { IfOk result (λ s. s ≡ grammar) }
    {
        match Arc::new(alloc, grammar) {
            Ok(grammar) => Ok(SharedGrammar { grammar }),
            Err(_) => Err(NoMemory),
        }
    }

    /// The same grammar for one more handle.
    pub fn share(&self) -> Result<SharedGrammar, NoMemory>
        ensures { IfOk result (λ s. s ≡ self.now) }
    {
        let grammar = Arc::try_clone(&self.grammar)?;
        Ok(SharedGrammar { grammar })
    }

    /// The grammar itself.
    pub fn grammar(&self) -> &Grammar
        ensures { result.now ≡ self.now }
    {
        &self.grammar
    }
}
