// Lexical rules that nothing uses.
ghost use Rattle.std.specs.Prelude.{◌≡◌, ◌++◌, ◌&&◌, ◌||◌, not, [], ℕ, List, IfOk, OnOk, map, flat_map, bytes_eq};
ghost use Rattle.std.specs.List.{list_any};
ghost use Rattle.dsl_statement.specs.Statements.{statement_of, statements_of};
ghost use Rattle.lint_hints.specs.Hints.{hint_of};
ghost use Rattle.lint_hints.specs.Uses as found;
ghost use Rattle.lint_hints.specs.Uses.{use_of, uses_of, is_used, unused_hints};
ghost use Rattle.lint_hints.specs.Found.{has};

use crate::hint::{Fault, Hint};
use crate::sides::{left_name, left_of, push_right};
use crate::spellings::push_if;
use dsl_statement::{Spelled, Statement, TokenKind};
use std::alloc::{AllocError, Global};
use std::collections::HashMap;

/// Whether a part is a name, and not this one.
fn is_other(part: &Spelled, left: &str) -> bool
    ensures { result ≡ found.is_other left.now part.now }
{
    match part.kind {
        TokenKind::Word | TokenKind::Angle => part.content.as_str() != left,
        _ => false,
    }
}

fn push_use<'d>(left: &str, part: &'d Spelled, names: &mut Vec<&'d str>) -> Result<(), AllocError>
    ensures { OnOk result (map (λ n. n.now) names.new.items ≡ map (λ n. n.now) names.old.items ++
        use_of left.now part.now) }
{
    if is_other(part, left) {
        names.push(part.content.as_str())?;
    }
    Ok(())
}

fn push_uses_in<'d>(
    left: &str,
    parts: &[&'d Spelled],
    names: &mut Vec<&'d str>,
) -> Result<(), AllocError>
    ensures { OnOk result (map (λ n. n.now) names.new.items ≡ map (λ n. n.now) names.old.items ++
        flat_map (use_of left.now) (map (λ t. t.now) parts.now)) }
{
    for part in parts {
        push_use(left, *part, names)?;
    }
    Ok(())
}

/// Appends the names on the right side of a statement that are not its left side.
fn push_uses<'d>(
    alloc: Global,
    statement: &'d Statement,
    names: &mut Vec<&'d str>,
) -> Result<(), AllocError>
    ensures { OnOk result (map (λ n. n.now) names.new.items ≡ map (λ n. n.now) names.old.items ++
        uses_of (statement_of statement.now)) }
{
    let mut parts = Vec::new(alloc);
    push_right(statement, &mut parts)?;
    push_uses_in(left_name(statement), &parts, names)
}

/// The uses of all statements.
fn uses_in(alloc: Global, statements: &[Statement]) -> Result<Vec<&str>, AllocError>
    ensures { IfOk result (λ names. map (λ n. n.now) names.items ≡ flat_map uses_of
        (statements_of statements.now)) }
{
    let mut names = Vec::new(alloc);
    for statement in statements {
        push_uses(alloc, statement, &mut names)?;
    }
    Ok(names)
}

/// Names, each with whether it is among those that are used.
#[derive(Drop)]
struct Names<'d> {
    used: HashMap<&'d str, bool>,
}

impl<'d> Names<'d> {
    fn has(&self, name: &str) -> bool
        ensures { result ≡ has self.now name.now }
    {
        self.used.contains_key(&name)
    }

    fn put(&mut self, name: &'d str) -> Result<(), AllocError>
        ensures { OnOk result ((q : List ℕ) → has self.new q ≡ (has self.old q || bytes_eq q name.now)) }
    {
        self.used.insert(name, true)?;
        Ok(())
    }

    fn put_all(&mut self, names: &[&'d str]) -> Result<(), AllocError>
        ensures { OnOk result ((q : List ℕ) → has self.new q ≡ (has self.old q || list_any
            (λ n. bytes_eq q n.now) names.now)) }
    {
        for name in names {
            self.put(*name)?;
        }
        Ok(())
    }

    /// Whether a rule is lexical, and its left side none of these.
    fn is_unused(&self, lexical: bool, name: &str) -> bool
        ensures { result ≡ (lexical && not (has self.now name.now)) }
    {
        lexical && !self.has(name)
    }

    /// Appends a hint for a lexical rule whose name is not among these.
    fn look_at_use(
        &self,
        statement: &'d Statement,
        hints: &mut Vec<Hint<'d>>,
    ) -> Result<(), AllocError>
        ensures { OnOk result (map hint_of hints.new.items ≡ map hint_of hints.old.items ++ found.unused
            (has self.now) (statement_of statement.now)) }
    {
        let Some((lexical, left)) = left_of(statement) else {
            return Ok(());
        };
        let name = left.content.as_str();
        push_if(
            self.is_unused(lexical, name),
            left.at,
            Fault::Unused(name),
            hints,
        )
    }

    fn look_at_each(
        &self,
        statements: &'d [Statement],
        hints: &mut Vec<Hint<'d>>,
    ) -> Result<(), AllocError>
        ensures { OnOk result (map hint_of hints.new.items ≡ map hint_of hints.old.items ++ flat_map
            (found.unused (has self.now)) (statements_of statements.now)) }
    {
        for statement in statements {
            self.look_at_use(statement, hints)?;
        }
        Ok(())
    }
}

/// No names.
fn no_names<'d>(alloc: Global) -> Names<'d>
    ensures { result.used.entries ≡ [] }
{
    Names {
        used: HashMap::new(alloc),
    }
}

/// The names that are used.
fn names_of(alloc: Global, statements: &[Statement]) -> Result<Names<'_>, AllocError>
    ensures { IfOk result (λ names. (q : List ℕ) → has names q ≡ is_used
        (statements_of statements.now) q) }
{
    let uses = uses_in(alloc, statements)?;
    let mut names = no_names(alloc);
    names.put_all(&uses)?;
    Ok(names)
}

/// Appends a hint for each lexical rule whose name no other rule, separator or discard has.
pub(crate) fn look_at_uses<'d>(
    alloc: Global,
    statements: &'d [Statement],
    hints: &mut Vec<Hint<'d>>,
) -> Result<(), AllocError>
    ensures { OnOk result (map hint_of hints.new.items ≡ map hint_of hints.old.items ++ unused_hints
        (statements_of statements.now)) }
{
    let names = names_of(alloc, statements)?;
    names.look_at_each(statements, hints)
}
