//! Laws of scripts: each is shown by a contract alone, and its function does nothing.
#![tactic(auto)]

ghost use Rattle.script_laws.specs.Laws.{AnswersAreOne, AnswersExist, AnswersGoOn, MachinesAreSound};

/// Each text has a list of answers.
pub fn answers_exist()
    ensures { AnswersExist }
{}

/// A text has one list of answers at most.
pub fn answers_are_one()
    ensures { AnswersAreOne }
{}

/// What follows a line changes nothing of the answers to it and to those before.
pub fn answers_go_on()
    ensures { AnswersGoOn }
{}

/// A machine that reads has a grammar that passes the check, with few flat rules.
pub fn machines_are_sound()
    ensures { MachinesAreSound }
{}
