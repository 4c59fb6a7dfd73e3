//! Whether a description has a fault.
ghost use Rattle.std.specs.Prelude.{◌≡◌, IfOk, flat_map, map};
ghost use Rattle.language_model.specs.Building.{faults_of};
ghost use Rattle.dsl_statement.specs.Statements.{statement_of};
ghost use Rattle.dsl_faults.specs.Found.{Tells};
ghost use Rattle.dsl_faults.specs.Named.{AreTables};
ghost use Rattle.dsl_faults.specs.Uses.{used_of, uses_of};

use crate::BuildRefusal;
use crate::names::Names;
use crate::telling::tell_all;
use crate::uses::{Use, Which, names_of, uses_of};
use dsl_statement::{Description, Statement};
use std::alloc::{AllocError, Global};

/// The tokens of statements that name symbols, and the names that they give.
#[derive(Drop)]
pub struct Named<'a> {
    /// the tokens, in order
    pub uses: Vec<Use<'a>>,
    /// the structural symbols
    pub symbols: Names,
    /// the left sides of structural rules
    pub structural: Names,
    /// the left sides of lexical rules
    pub lexical: Names,
}

/// The names in statements.
pub fn named_of(alloc: Global, statements: &[Statement]) -> Result<Named<'_>, AllocError>
    ensures uses { IfOk result (λ n. map used_of n.uses.items ≡ flat_map uses_of (map statement_of statements.now)) }
    ensures tables { IfOk result AreTables }
{
    let uses = uses_of(alloc, statements)?;
    Ok(Named {
        symbols: names_of(alloc, Which::Structural, &uses)?,
        structural: names_of(alloc, Which::StructuralLeft, &uses)?,
        lexical: names_of(alloc, Which::LexicalLeft, &uses)?,
        uses,
    })
}

/// Whether statements with these names have no fault, else their first.
pub fn check_named(
    alloc: Global,
    statements: &[Statement],
    named: &Named<'_>,
) -> Result<(), BuildRefusal>
    requires uses { map used_of named.now.uses.items ≡ flat_map uses_of (map statement_of statements.now) }
    requires tables { AreTables named.now }
    ensures { Tells (faults_of (map statement_of statements.now)) result }
{
    tell_all(
        alloc,
        statements,
        &named.uses,
        &named.symbols,
        &named.structural,
        &named.lexical,
    )
}

/// Whether a description has no fault, else its first.
pub fn check(alloc: Global, d: &Description) -> Result<(), BuildRefusal>
    ensures { Tells (faults_of d.now) result }
{
    let named = named_of(alloc, &d.statements)?;
    check_named(alloc, &d.statements, &named)
}
