// Sequences whose item or separator can span nothing, each told where that comes from.
ghost use Rattle.std.specs.Prelude.{◌≡◌, ◌||◌, ◌++◌, [], ℕ, List, IfOk, OnOk, option_map, map, flat_map};
ghost use Rattle.std.specs.List.{list_all};
ghost use Rattle.dsl_statement.specs.Statements.{element_of, statement_of, statements_of, adverbs_of};
ghost use Rattle.language_model.specs.Building as built;
ghost use Rattle.lint_hints.specs.Hints.{hint_of};
ghost use Rattle.lint_hints.specs.Nullable as nothing;
ghost use Rattle.lint_hints.specs.Nullable.{IsCauseOf, cause_of_part, sequence_hints};
ghost use Rattle.lint_hints.specs.Found.{cause_of, causes_of, knows, own, found_last, found_alternative, found_group, found_groups, found_item, found, Updates, IsAdded, AreSound, IsRound};
ghost use Rattle.lint_hints.specs.All.{AddsSequences};

use crate::hint::{Fault, Hint};
use crate::operators::last_of;
use crate::sides::{left_name, separator_of};
use dsl_statement::{Adverb, Alternative, Element, Spelled, Statement, TokenKind};
use std::alloc::{AllocError, Global};
use std::collections::HashMap;

/// The left side of a rule that can span nothing by itself: an empty rule, or a sequence with a star.
#[derive(Clone, Copy)]
struct Cause<'d> {
    name: &'d str,
    at: usize,
}

/// The names that can span nothing, each with the rule that this comes from.
#[derive(Drop)]
struct Nullable<'d> {
    causes: HashMap<&'d str, Cause<'d>>,
}

impl<'d> Nullable<'d> {
    /// Where it comes from that a part can span nothing.
    fn cause_of(&self, part: &Spelled) -> Option<Cause<'d>>
        ensures { option_map cause_of result ≡ cause_of_part (causes_of self.now) part.now }
    {
        match part.kind {
            TokenKind::Word | TokenKind::Angle => {
                let name = part.content.as_str();
                self.causes.get(&name).copied()
            }
            _ => None,
        }
    }

    fn spans_part(&self, part: &Spelled) -> bool
        ensures { result ≡ nothing.spans_part (knows (causes_of self.now)) part.now }
    {
        self.cause_of(part).is_some()
    }

    fn spans_parts(&self, parts: &[Spelled]) -> bool
        ensures { result ≡ list_all (nothing.spans_part (knows (causes_of self.now))) parts.now }
    {
        for part in parts {
            if !self.spans_part(part) {
                return false;
            }
        }
        true
    }

    fn spans_element(&self, element: &Element) -> bool
        ensures { result ≡ nothing.spans_element (knows (causes_of self.now))
            (element_of element.now) }
    {
        match element {
            Element::Bare(part) => self.spans_part(part),
            Element::Hidden(parts) => self.spans_parts(parts),
        }
    }

    fn spans_elements(&self, elements: &[Element]) -> bool
        ensures { result ≡ list_all (nothing.spans_element (knows (causes_of self.now)))
            (map element_of elements.now) }
    {
        for element in elements {
            if !self.spans_element(element) {
                return false;
            }
        }
        true
    }

    fn spans_alternative(&self, alternative: &Alternative) -> bool
        ensures { result ≡ nothing.spans_alternative (knows (causes_of self.now)) alternative.now }
    {
        self.spans_elements(&alternative.elements)
    }

    fn cause_of_last(&self, left: &'d Spelled, part: Option<&Spelled>) -> Option<Cause<'d>>
        ensures { option_map cause_of result ≡ found_last (causes_of self.now) left.now
            (option_map (λ t. t.now) part.entry) }
    {
        match part {
            Some(part) => self.cause_of(part),
            None => Some(own_cause(left)),
        }
    }

    /// Where it comes from that an alternative can span nothing.
    fn cause_of_alternative(
        &self,
        left: &'d Spelled,
        alternative: &Alternative,
    ) -> Option<Cause<'d>>
        ensures { option_map cause_of result ≡ found_alternative (causes_of self.now) left.now
            alternative.now }
    {
        if self.spans_alternative(alternative) {
            self.cause_of_last(left, last_of(alternative))
        } else {
            None
        }
    }

    fn cause_of_group(&self, left: &'d Spelled, group: &[Alternative]) -> Option<Cause<'d>>
        ensures { option_map cause_of result ≡ found_group (causes_of self.now) left.now group.now }
    {
        for alternative in group {
            if let Some(cause) = self.cause_of_alternative(left, alternative) {
                return Some(cause);
            }
        }
        None
    }

    fn cause_of_groups(&self, left: &'d Spelled, groups: &[Vec<Alternative>]) -> Option<Cause<'d>>
        ensures { option_map cause_of result ≡ found_groups (causes_of self.now) left.now
            (map (λ g. g.items) groups.now) }
    {
        for group in groups {
            if let Some(cause) = self.cause_of_group(left, group) {
                return Some(cause);
            }
        }
        None
    }

    fn cause_of_sequence(&self, left: &'d Spelled, plus: bool, item: &Spelled) -> Option<Cause<'d>>
        ensures { option_map cause_of result ≡ found_item (causes_of self.now) left.now plus item.now }
    {
        if plus {
            self.cause_of(item)
        } else {
            Some(own_cause(left))
        }
    }

    /// Where it comes from that the right side of a statement can span nothing.
    fn cause_of_right(&self, statement: &'d Statement) -> Option<Cause<'d>>
        ensures { option_map cause_of result ≡ found (causes_of self.now)
            (statement_of statement.now) }
    {
        match statement {
            Statement::Empty { left, .. } => Some(own_cause(left)),
            Statement::Quantified {
                left,
                item,
                plus,
                ..
            } => self.cause_of_sequence(left, *plus, item),
            Statement::Rules { left, groups, .. } => self.cause_of_groups(left, groups),
            _ => None,
        }
    }

    fn has(&self, name: &str) -> bool
        ensures { result ≡ knows (causes_of self.now) name.now }
    {
        self.causes.get(&name).is_some()
    }

    fn put(&mut self, name: &'d str, cause: Cause<'d>) -> Result<(), AllocError>
        ensures { OnOk result (Updates name.now (cause_of cause.entry) (causes_of self.old)
            (causes_of self.new)) }
    {
        self.causes.insert(name, cause)?;
        Ok(())
    }

    /// Looks at a statement, and tells whether its left side is a new one that can span nothing.
    fn add(&mut self, statement: &'d Statement) -> Result<bool, AllocError>
        ensures { IfOk result (λ grew. IsAdded (statement_of statement.now) (causes_of self.old)
            (causes_of self.new) grew) }
    {
        let Some(cause) = self.cause_of_right(statement) else {
            return Ok(false);
        };
        let left = left_name(statement);
        if self.has(left) {
            return Ok(false);
        }
        self.put(left, cause)?;
        Ok(true)
    }

    /// Looks at all statements, and tells whether there was a new left side.
    fn add_all(&mut self, statements: &'d [Statement]) -> Result<bool, AllocError>
        ensures round { IfOk result (λ grew. IsRound (statements_of statements.now)
            (causes_of self.old) (causes_of self.new) grew) }
        ensures sound { OnOk result (AreSound (statements_of statements.now) (causes_of self.old)
            → AreSound (statements_of statements.now) (causes_of self.new)) }
    {
        let mut grew = false;
        for statement in statements {
            let new = self.add(statement)?;
            grew = either(grew, new);
        }
        Ok(grew)
    }

    /// Appends a hint for a part of a sequence that can span nothing.
    fn look_at_part(
        &self,
        sequence: &'d str,
        part: &Spelled,
        hints: &mut Vec<Hint<'d>>,
    ) -> Result<(), AllocError>
        ensures { OnOk result (map hint_of hints.new.items ≡ map hint_of hints.old.items ++
            nothing.nullable (causes_of self.now) sequence.now part.now) }
    {
        let Some(cause) = self.cause_of(part) else {
            return Ok(());
        };
        let fault = Fault::Nullable {
            cause: cause.name,
            sequence,
        };
        hints.push(Hint {
            at: cause.at,
            fault,
        })?;
        Ok(())
    }

    fn look_at_separator(
        &self,
        sequence: &'d str,
        adverbs: &[Adverb],
        hints: &mut Vec<Hint<'d>>,
    ) -> Result<(), AllocError>
        ensures { OnOk result (map hint_of hints.new.items ≡ map hint_of hints.old.items ++ flat_map
            (nothing.nullable (causes_of self.now) sequence.now)
            (built.separator_of (adverbs_of adverbs.now))) }
    {
        match separator_of(adverbs) {
            Some(part) => self.look_at_part(sequence, part, hints),
            None => Ok(()),
        }
    }

    /// Appends the hints about a statement, if it is of a sequence.
    fn look_at_statement(
        &self,
        statement: &'d Statement,
        hints: &mut Vec<Hint<'d>>,
    ) -> Result<(), AllocError>
        ensures { OnOk result (map hint_of hints.new.items ≡ map hint_of hints.old.items ++
            sequence_hints (causes_of self.now) (statement_of statement.now)) }
    {
        match statement {
            Statement::Quantified {
                left,
                item,
                adverbs,
                ..
            } => {
                let sequence = left.content.as_str();
                self.look_at_part(sequence, item, hints)?;
                self.look_at_separator(sequence, adverbs, hints)
            }
            _ => Ok(()),
        }
    }

    fn look_at_each(
        &self,
        statements: &'d [Statement],
        hints: &mut Vec<Hint<'d>>,
    ) -> Result<(), AllocError>
        ensures { OnOk result (map hint_of hints.new.items ≡ map hint_of hints.old.items ++ flat_map
            (sequence_hints (causes_of self.now)) (statements_of statements.now)) }
    {
        for statement in statements {
            self.look_at_statement(statement, hints)?;
        }
        Ok(())
    }
}

fn either(one: bool, other: bool) -> bool
    ensures { result ≡ (one || other) }
{
    one || other
}

/// The left side of a rule that can span nothing by itself.
fn own_cause(left: &Spelled) -> Cause<'_>
    ensures { cause_of result ≡ own left.now }
{
    Cause {
        name: left.content.as_str(),
        at: left.at,
    }
}

fn no_causes<'d>(alloc: Global) -> Nullable<'d>
    ensures { result.causes.entries ≡ [] }
{
    Nullable {
        causes: HashMap::new(alloc),
    }
}

/// The names that can span nothing.
fn nullable_of(alloc: Global, statements: &[Statement]) -> Result<Nullable<'_>, AllocError>
    ensures { IfOk result (λ nullable. (name : List ℕ) → IsCauseOf (statements_of statements.now)
        name (causes_of nullable name)) }
{
    let mut nullable = no_causes(alloc);
    // Each round but the last has a new name.
    loop {
        let grew = nullable.add_all(statements)?;
        if !grew {
            return Ok(nullable);
        }
    }
}

/// Appends a hint for each sequence whose item or separator can span nothing, where that comes from.
pub(crate) fn look_at_sequences<'d>(
    alloc: Global,
    statements: &'d [Statement],
    hints: &mut Vec<Hint<'d>>,
) -> Result<(), AllocError>
    ensures { OnOk result (AddsSequences (statements_of statements.now) (map hint_of hints.old.items)
        (map hint_of hints.new.items)) }
{
    let nullable = nullable_of(alloc, statements)?;
    nullable.look_at_each(statements, hints)
}
