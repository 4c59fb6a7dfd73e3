//! Laws of what is built.
ghost use Rattle.std.specs.Prelude.{ℕ, List};
ghost use Rattle.language_model.specs.Description.{Statement};
ghost use Rattle.language_model.specs.Building.{Built};
ghost use Rattle.language_model.specs.Texts.{IsBuiltOf};
ghost use Rattle.dsl_build.specs.Ranges.{IsInRange, TerminalsHaveSets};

/// The numbers in what is built are those of symbols and starts that there are.
pub fn built_is_in_range()
    ensures { (d : List Statement) (b : Built) → IsBuiltOf d b → IsInRange b }
{}

/// A terminal of the lexical grammar has a character set, or is a start that no rule has.
pub fn terminals_have_sets()
    ensures { (d : List Statement) (b : Built) → IsBuiltOf d b → TerminalsHaveSets b }
{}
