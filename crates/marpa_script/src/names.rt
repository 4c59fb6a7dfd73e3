//! Names of symbols, parted by commas.
ghost use Rattle.std.specs.Prelude.{◌≡◌, ◌<◌, ◌++◌, All, codes, length, map, OnOk};
ghost use Rattle.std.specs.List.{flat_map};
ghost use Rattle.grammar_model.specs.Values.{name_of};
ghost use Rattle.grammar_model.specs.Refusals.{listed};

use crate::answers::put;
use grammar_core::{SymbolId, Written};
use std::alloc::AllocError;

fn symbol_name(w: &Written, symbol: SymbolId) -> &str
    requires { symbol < length w.now.names }
    ensures { result.now ≡ name_of w.now symbol }
{
    w.name(symbol)
}

// Appends names, each after a comma.
fn append_names(w: &Written, symbols: &[SymbolId], line: &mut Vec<u8>) -> Result<(), AllocError>
    requires { All (λ s. s < length w.now.names) symbols.now }
    ensures { OnOk result (line.new.items ≡ line.old.items ++ flat_map (λ n. codes ", " ++ n) (map (name_of w.now) symbols.now)) }
{
    for symbol in symbols {
        line.extend_from_slice(b", ")?;
        line.extend_from_slice(symbol_name(w, *symbol).as_bytes())?;
    }
    Ok(())
}

/// Puts names in place of what the line held.
pub fn put_names(w: &Written, symbols: &[SymbolId], line: &mut Vec<u8>) -> Result<(), AllocError>
    requires { All (λ s. s < length w.now.names) symbols.now }
    ensures { OnOk result (line.new.items ≡ listed (map (name_of w.now) symbols.now)) }
{
    let Some((first, others)) = symbols.split_first() else {
        return put("none", line);
    };
    put(symbol_name(w, *first), line)?;
    append_names(w, others, line)
}
