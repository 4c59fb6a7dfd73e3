//! Reading the description of a list of tokens.
ghost use Rattle.std.specs.Prelude.{◌≡◌, IfOk, IfErr, map};
ghost use Rattle.dsl_statement.specs.Statements.{statement_of as statement_seen};
ghost use Rattle.language_model.specs.Tokens.{AreTokens, spelled_at};
ghost use Rattle.language_model.specs.Description.{Describes};
ghost use Rattle.dsl_reader.specs.Cutting.{IsAdded, IsNoStatement, Refuses};

use crate::StatementRefusal;
use crate::piece::{Piece, piece_of};
use crate::statements::read_statement;
use dsl_statement::{Description, Statement};
use dsl_tokens::Tokens;
use slif_base::Chars;
use std::alloc::{AllocError, Global};

// Adds the statement of a piece, if it has a token.
fn add_statement(
    alloc: Global,
    piece: &Piece<'_>,
    statements: &mut Vec<Statement>,
) -> Result<(), StatementRefusal>
    ensures added { IfOk result (λ _. IsAdded (map statement_seen statements.old.items) piece.now
        (map statement_seen statements.new.items)) }
    ensures refused { IfErr result (λ e. IsNoStatement piece.now e) }
{
    if piece.len() == 0 {
        return Ok(());
    }
    let Some(statement) = read_statement(alloc, piece)? else {
        let at = piece.place(0);
        return Err(StatementRefusal::BadStatement { at });
    };
    statements.push(statement)?;
    Ok(())
}

/// The description of a text's tokens.
pub fn parse(alloc: Global, chars: &Chars, tokens: &Tokens) -> Result<Description, StatementRefusal>
    requires { AreTokens chars.now tokens.now }
    // The statements, printed, are the pieces of the tokens.
    ensures described { IfOk result (λ d. Describes d (map (spelled_at chars.now) tokens.now)) }
    // The first piece that is no statement begins at the place.
    ensures refused { IfErr result (λ e. Refuses (map (spelled_at chars.now) tokens.now) e) }
{
    let whole = piece_of(chars, tokens.as_slice());
    let mut statements = Vec::new(alloc);
    let mut from = 0;
    for at in 0..whole.len() {
        if whole.is_mark(at, ";") {
            add_statement(alloc, &whole.part(from, at), &mut statements)?;
            from = at + 1;
        } else if whole.behind(at).begins_piece() {
            add_statement(alloc, &whole.part(from, at), &mut statements)?;
            from = at;
        }
    }
    add_statement(alloc, &whole.part(from, whole.len()), &mut statements)?;
    Ok(Description { statements })
}
