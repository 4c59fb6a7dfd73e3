// What glades of one kind share, and what one of them is chosen by.
ghost use Rattle.std.specs.Prelude.{◌≡◌};
ghost use Rattle.glade_groups.specs.Groups.{kind_of, token_count};

use glades::Glade;

/// A symbol and a level, and the rules of the first two shapes.
#[derive(Clone, Copy, PartialEq, Eq, Hash)]
pub struct Kind {
    pub symbol: u32,
    pub level: u32,
    pub first: u32,
    pub second: u32,
}

/// The kind of a glade.
pub fn kind_of(glade: &Glade) -> Kind
    ensures { result ≡ kind_of glade.now }
{
    Kind {
        symbol: glade.symbol.0,
        level: glade.level,
        first: glade.first.rule.0,
        second: glade.second.rule.0,
    }
}

/// How many tokens a glade spans.
pub fn token_count(glade: &Glade) -> u32
    ensures { result ≡ token_count glade.now }
{
    glade.to.saturating_sub(glade.from)
}
