//! Why the grammars of a text are not accepted.

use grammar_check::GrammarRefusal;
use grammar_core::Written;

/// What preparing refuses. Of several reasons the first in this order is told, but want of memory may come at any point.
#[derive(Drop)]
pub enum PrepareRefusal {
    /// The check refuses the structural grammar. Its refusal is not want of memory.
    Grammar { w: Written, refusal: GrammarRefusal },
    /// The check refuses the lexical grammar. Its refusal is not want of memory.
    Lexical { w: Written, refusal: GrammarRefusal },
    /// The structural grammar, or else the lexical one, has more than 65,536 flat rules.
    TooManyRules { lexical: bool },
    /// Memory ran out.
    NoMemory,
}
