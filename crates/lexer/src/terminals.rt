//! The terminals of characters.
ghost use Rattle.std.specs.Prelude.{OnOk};
ghost use Rattle.lexer.specs.Terminals.{AreTerminalsOf};

use char_class::CharSet;
use grammar_core::SymbolId;
use std::alloc::AllocError;

/// Lists the terminals that have a set with the character, a terminal again for each of its sets.
pub fn list_terminals(
    sets: &[(SymbolId, CharSet)],
    c: char,
    terminals: &mut Vec<SymbolId>,
) -> Result<(), AllocError>
    ensures { OnOk result (AreTerminalsOf sets.now c terminals.new.items) }
{
    terminals.clear();
    for (terminal, set) in sets {
        if set.contains(c) {
            terminals.push(*terminal)?;
        }
    }
    Ok(())
}
