//! Who supplies lexemes.
ghost use Rattle.std.specs.Prelude.{◌≡◌, OnOk, OnErr, IfOk};
ghost use Rattle.slippers.specs.Stock.{Stock, told, Offers};

use grammar_core::SymbolId;
use std::alloc::AllocError;

/// Supplies lexemes where reading is stuck. It is seen as the lexemes that it has, the place where it last was asked, and those that it
/// gave there. After an `Err` nothing has changed. Places are in characters.
pub trait Supplier: Drop {
    ghost stock: { Self → Stock };

    /// Gives it these lexemes, in the order in which they are to be supplied. It then stands at place 0, where it gave none.
    fn tell(&mut self, names: &[SymbolId]) -> Result<(), AllocError>
        ensures ok { OnOk result (stock self.new ≡ told names.now) }
        ensures err { OnErr result (stock self.new ≡ stock self.old) };

    /// The first of its lexemes that is expected and that it has not given at this place, if there is one.
    fn offer(&mut self, at: u32, expected: &[SymbolId]) -> Result<Option<SymbolId>, AllocError>
        ensures ok { IfOk result (λ offered. Offers (stock self.old) at expected.now offered
            (stock self.new)) }
        ensures err { OnErr result (stock self.new ≡ stock self.old) };
}
