//! Terminals that threads are asked for, many of one row.
ghost use Rattle.std.specs.Prelude.{◌≡◌, ◌↔◌, IsTrue, Contains};
ghost use Rattle.std.specs.List.Sorted.{IsNonDecreasing};

use grammar_core::SymbolId;
use std::marker::Model;

/// Terminals. Where they stand in order, one is found by binary search.
#[derive(Drop)]
pub struct Terminals<'t> {
    list: &'t [SymbolId],
    ordered: bool,
}

impl<'t> Model for Terminals<'t> {
    ghost use Rattle.std.specs.Prelude.{List, ℕ, IsTrue};
    ghost use Rattle.std.specs.List.Sorted.{IsNonDecreasing};

    ghost Value = { List ℕ };

    ghost view = { λ t. t.list.now };

    ghost invariant = { λ t. IsTrue t.ordered → IsNonDecreasing t.list.now };
}

/// The same terminals, with the note whether they stand in order.
pub fn terminals_of(list: &[SymbolId]) -> Terminals<'_>
    ensures { result ≡ list.now }
{
    Terminals {
        list,
        ordered: list.is_sorted(),
    }
}

// Whether a terminal is one of some in order.
fn has_ordered(list: &[SymbolId], t: SymbolId) -> bool
    requires { IsNonDecreasing list.now }
    ensures { IsTrue result ↔ Contains list.now t }
{
    list.binary_search(&t).is_ok()
}

fn has_any(list: &[SymbolId], t: SymbolId) -> bool
    ensures { IsTrue result ↔ Contains list.now t }
{
    list.contains(&t)
}

impl<'t> Terminals<'t> {
    /// Whether the terminal is one of them.
    pub fn has(&self, t: SymbolId) -> bool
        ensures { IsTrue result ↔ Contains self.now t }
    {
        if self.ordered {
            has_ordered(self.list, t)
        } else {
            has_any(self.list, t)
        }
    }
}
