//! An input that is read, with some of its derivations.
ghost use Rattle.std.specs.Prelude.{◌≡◌, [], IsFalse};

use crate::Step;
use std::alloc::Global;

/// Some derivations of an input, each by its steps, and by its line where lines are kept, and whether there are more behind them.
#[derive(Drop)]
pub struct Parse {
    pub derivations: Vec<Vec<Step>>,
    pub lines: Vec<Vec<u8>>,
    pub more: bool,
}

impl Parse {
    /// No derivation.
    pub fn none(alloc: Global) -> Parse
        ensures derivations { result.derivations.items ≡ [] }
        ensures lines { result.lines.items ≡ [] }
        ensures more { IsFalse result.more }
    {
        Parse {
            derivations: Vec::new(alloc),
            lines: Vec::new(alloc),
            more: false,
        }
    }
}
