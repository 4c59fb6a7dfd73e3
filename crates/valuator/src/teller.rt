//! Who is told of a derivation.
ghost use Rattle.std.specs.Prelude.{◌≡◌, List, [], ◌∷◌, ◌++◌, OnOk, OnErr};
ghost use Rattle.grammar_model.specs.Values.{Value, token_value, nulling_value, rule_value};
ghost use Rattle.grammar_model.specs.declared.Show.{Show};
ghost use Rattle.value_text.specs.Meaning.{action_of};
ghost use Rattle.valuator.specs.Told.{action_in, HoldsAtLeast, IsOneEach, replace_newest, HoldsOne, line_of};

use grammar_core::RuleId;
use grammar_model::Show;
use value_text::{Action, NoMemory};

/// Makes values of a derivation's steps, where children come before their rule. It is seen as the list of the values
/// that it holds, the newest last, and as its kind, which never changes. After an `Err` it holds what it held.
/// Starts and lengths are in characters, `g1start` and `g1length` in places.
pub trait Teller: Drop {
    ghost held: { Self → List Value };

    ghost shows: { Self → Show };

    /// What it makes of a derivation.
    fn kind(&self) -> Show
        ensures { result ≡ shows self.now };

    /// Adds the value of a token; with no action it is the text.
    fn token(
        &mut self,
        name: &str,
        text: &str,
        start: u32,
        length: u32,
        g1start: u32,
        action: Option<&Action>,
    ) -> Result<(), NoMemory>
        ensures ok { OnOk result (held self.new ≡ held self.old ++ token_value
            (shows self.old) name.now text.now start length g1start (action_in action.entry) ∷ []) }
        ensures err { OnErr result (held self.new ≡ held self.old) }
        ensures kind { shows self.new ≡ shows self.old };

    /// Adds the value of a nulled symbol; with no action it is `undef`.
    fn nulling(
        &mut self,
        name: &str,
        start: u32,
        g1start: u32,
        action: Option<&Action>,
    ) -> Result<(), NoMemory>
        ensures ok { OnOk result (held self.new ≡ held self.old ++ nulling_value
            (shows self.old) name.now start g1start (action_in action.entry) ∷ []) }
        ensures err { OnErr result (held self.new ≡ held self.old) }
        ensures kind { shows self.new ≡ shows self.old };

    /// Replaces the newest `children` values by the value of a rule; `shown` says of each whether its action sees it.
    fn rule(
        &mut self,
        rule: RuleId,
        name: &str,
        children: u32,
        shown: &[bool],
        start: u32,
        length: u32,
        g1start: u32,
        g1length: u32,
        action: &Action,
    ) -> Result<(), NoMemory>
        requires held { HoldsAtLeast children (held self.old) }
        requires shown { IsOneEach children shown.now }
        ensures ok { OnOk result (held self.new ≡
            replace_newest children (rule_value (shows self.old) rule name.now shown.now start
            length g1start g1length (action_of action.now)) (held self.old)) }
        ensures err { OnErr result (held self.new ≡ held self.old) }
        ensures kind { shows self.new ≡ shows self.old };

    /// Appends the line of the one value that is held, and forgets it.
    fn finish(&mut self, out: &mut Vec<u8>) -> Result<(), NoMemory>
        requires { HoldsOne (held self.old) }
        ensures line { OnOk result (out.new.items ≡ out.old.items ++ line_of (held self.old)) }
        ensures ok { OnOk result (held self.new ≡ []) }
        ensures err { OnErr result (held self.new ≡ held self.old) }
        ensures out { OnErr result (out.new.items ≡ out.old.items) }
        ensures kind { shows self.new ≡ shows self.old };
}
