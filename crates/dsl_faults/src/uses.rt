//! The tokens of a description that name symbols.
ghost use Rattle.std.specs.Prelude.{◌≡◌, ◌∷◌, [], map, flat_map, option_map, OnOk, IfOk};
ghost use Rattle.language_model.specs.Building.{parts_of, separator_of, new_texts};
ghost use Rattle.dsl_statement.specs.Statements.{adverbs_of, is_lexical, statement_of};
ghost use Rattle.dsl_faults.specs.Uses.{used, used_of, uses_of, is_asked, texts_asked, AddsUses, on_right};
ghost use Rattle.dsl_faults.specs.Found.{first_of};
ghost use Rattle.dsl_faults.specs.declared.uses.Role.TheVariants.{Right};

use crate::adverbs::value_of;
use crate::names::Names;
use crate::parts;
use dsl_statement::{Adverb, Alternative, Level, Spelled, Statement};
use std::alloc::{AllocError, Global};

/// What a token stands as.
#[derive(Clone, Copy, Debug, PartialEq, Eq)]
pub enum Role {
    /// the name of a `:start`
    Start,
    /// the left side of a rule
    Left,
    /// a part, an item or a separator of a rule
    Right,
    /// what `:discard` names
    Discard,
}

/// A token that names a symbol, and the level of the rule that it stands in. `:discard` is lexical.
#[derive(Clone, Copy)]
pub struct Use<'a> {
    pub role: Role,
    pub level: Level,
    pub token: &'a Spelled,
}

fn push<'a>(
    uses: &mut Vec<Use<'a>>,
    role: Role,
    level: Level,
    token: &'a Spelled,
) -> Result<(), AllocError>
    ensures { OnOk result (AddsUses uses.old.items uses.new.items (used role (is_lexical level) token.now ∷ [])) }
{
    uses.push(Use { role, level, token })?;
    Ok(())
}

fn push_parts<'a>(
    uses: &mut Vec<Use<'a>>,
    level: Level,
    parts: &[&'a Spelled],
) -> Result<(), AllocError>
    ensures { OnOk result (AddsUses uses.old.items uses.new.items (map (λ t. used Right (is_lexical level) t.now) parts.now)) }
{
    for part in parts {
        push(uses, Role::Right, level, part)?;
    }
    Ok(())
}

fn push_alternative<'a>(
    alloc: Global,
    uses: &mut Vec<Use<'a>>,
    level: Level,
    alternative: &'a Alternative,
) -> Result<(), AllocError>
    ensures { OnOk result (AddsUses uses.old.items uses.new.items (on_right level (parts_of alternative.now))) }
{
    let parts = parts::parts_of(alloc, alternative)?;
    push_parts(uses, level, &parts)
}

fn push_group<'a>(
    alloc: Global,
    uses: &mut Vec<Use<'a>>,
    level: Level,
    group: &'a [Alternative],
) -> Result<(), AllocError>
    ensures { OnOk result (AddsUses uses.old.items uses.new.items (flat_map (λ a. on_right level (parts_of a)) group.now)) }
{
    for alternative in group {
        push_alternative(alloc, uses, level, alternative)?;
    }
    Ok(())
}

fn push_groups<'a>(
    alloc: Global,
    uses: &mut Vec<Use<'a>>,
    level: Level,
    groups: &'a [Vec<Alternative>],
) -> Result<(), AllocError>
    ensures { OnOk result (AddsUses uses.old.items uses.new.items (flat_map (λ g. flat_map (λ a. on_right level (parts_of a)) g.items) groups.now)) }
{
    for group in groups {
        push_group(alloc, uses, level, group)?;
    }
    Ok(())
}

fn push_separator<'a>(
    uses: &mut Vec<Use<'a>>,
    level: Level,
    adverbs: &'a [Adverb],
) -> Result<(), AllocError>
    ensures { OnOk result (AddsUses uses.old.items uses.new.items (on_right level (separator_of (adverbs_of adverbs.now)))) }
{
    match value_of("separator", adverbs) {
        Some(token) => push(uses, Role::Right, level, token),
        None => Ok(()),
    }
}

fn push_statement<'a>(
    alloc: Global,
    uses: &mut Vec<Use<'a>>,
    s: &'a Statement,
) -> Result<(), AllocError>
    ensures { OnOk result (AddsUses uses.old.items uses.new.items (uses_of (statement_of s.now))) }
{
    match s {
        Statement::Start { name, .. } => push(uses, Role::Start, Level::Structural, name),
        Statement::Default { .. } | Statement::LexemeDefault { .. } => Ok(()),
        Statement::Lexeme { .. } => Ok(()),
        Statement::Discard { item, .. } => push(uses, Role::Discard, Level::Lexical, item),
        Statement::Empty { left, level, .. } => push(uses, Role::Left, *level, left),
        Statement::Quantified {
            left,
            level,
            item,
            adverbs,
            ..
        } => {
            push(uses, Role::Left, *level, left)?;
            push(uses, Role::Right, *level, item)?;
            push_separator(uses, *level, adverbs)
        }
        Statement::Rules {
            left,
            level,
            groups,
        } => {
            push(uses, Role::Left, *level, left)?;
            push_groups(alloc, uses, *level, groups)
        }
    }
}

/// The tokens that name symbols, in order.
pub fn uses_of(alloc: Global, statements: &[Statement]) -> Result<Vec<Use<'_>>, AllocError>
    ensures { IfOk result (λ uses. map used_of uses.items ≡ flat_map uses_of (map statement_of statements.now)) }
{
    let mut uses = Vec::new(alloc);
    for s in statements {
        push_statement(alloc, &mut uses, s)?;
    }
    Ok(uses)
}

/// Uses that are asked for.
#[derive(Clone, Copy, Debug)]
pub enum Which {
    StructuralLeft,
    LexicalLeft,
    Structural,
    Discarded,
    Started,
}

/// Whether the use is one of them.
pub fn is_asked(which: Which, used: &Use<'_>) -> bool
    ensures { result ≡ is_asked which (used_of used.now) }
{
    match which {
        Which::StructuralLeft => matches!(used.role, Role::Left) && !used.level.is_lexical(),
        Which::LexicalLeft => matches!(used.role, Role::Left) && used.level.is_lexical(),
        Which::Structural => !used.level.is_lexical(),
        Which::Discarded => matches!(used.role, Role::Discard),
        Which::Started => matches!(used.role, Role::Start),
    }
}

/// The text of the token.
pub fn text_of<'a>(used: &Use<'a>) -> &'a str
    ensures { result.now ≡ (used_of used.now).token.content }
{
    let token = used.token;
    token.content.as_str()
}

/// The texts of the uses that are asked for, each once, in order of their first appearance.
pub fn names_of(alloc: Global, which: Which, uses: &[Use<'_>]) -> Result<Names, AllocError>
    ensures { IfOk result (λ names. names ≡ new_texts [] (flat_map (texts_asked which) (map used_of uses.now))) }
{
    let mut names = Names::new(alloc);
    for used in uses {
        if is_asked(which, used) {
            names.add(text_of(used))?;
        }
    }
    Ok(names)
}

/// The token of the first use that is asked for.
pub fn first_asked<'a>(which: Which, uses: &[Use<'a>]) -> Option<&'a Spelled>
    ensures { option_map (λ t. t.now.content) result ≡ first_of (flat_map (texts_asked which) (map used_of uses.now)) }
{
    let used = uses.iter().find(|used| is_asked(which, used))?;
    Some(used.token)
}
