//! What the symbols of a grammar can do, kept when its check is over.
ghost use Rattle.std.specs.Prelude.{◌≡◌, ℕ, ◌<◌, length, IfOk};
ghost use Rattle.prepared_grammars.specs.Abilities.{IsAbility, AreAbilities};

use grammar_check::Checked;
use grammar_core::SymbolId;
use std::alloc::{AllocError, Global};

/// What a symbol can do.
#[derive(Clone, Copy, Debug)]
pub struct Ability {
    pub nullable: bool,
    pub productive: bool,
    /// whether some slot of it is
    pub accessible: bool,
}

/// What one symbol can do.
fn ability_of(c: &Checked<'_>, s: SymbolId) -> Ability
    requires { s < length c.now.names }
    ensures { IsAbility c.now s result }
{
    Ability {
        nullable: c.nullable(s),
        productive: c.productive(s),
        accessible: c.accessible(s),
    }
}

/// What each symbol can do, in order.
pub fn abilities_of(alloc: Global, c: &Checked<'_>) -> Result<Vec<Ability>, AllocError>
    ensures { IfOk result (λ abilities. AreAbilities c.now abilities.items) }
{
    let mut abilities = Vec::new(alloc);
    for s in 0..c.written().symbol_count() {
        abilities.push(ability_of(c, SymbolId(s as u32)))?;
    }
    Ok(abilities)
}
