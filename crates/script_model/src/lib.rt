//! What a script is answered. Nothing here computes for a program. Each function is a law, which its contract states.
#![tactic(auto)]

ghost use Rattle.script_model.specs.Parsing.{CommandsAreParsed};

/// The command that is found from the first word of a line on is the one that its words spell.
pub fn commands_are_parsed()
    ensures { CommandsAreParsed }
{}
