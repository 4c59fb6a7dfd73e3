//! Reading statements.
ghost use Rattle.std.specs.Prelude.{◌≡◌, IfOk, codes, drop, option_map};
ghost use Rattle.language_model.specs.Description.{is_mark};
ghost use Rattle.dsl_statement.specs.Statements.{is_lexical, statement_of as statement_seen};
ghost use Rattle.dsl_reader.specs.Pieces.{first_is};
ghost use Rattle.dsl_reader.specs.Forms.{start_of, default_of, lexeme_default_of, lexeme_of, discard_of, pseudo_of, quantified_of, rules_of, right_of, rule_of, statement_in};

use crate::adverbs::read_adverbs;
use crate::alternatives::read_groups;
use crate::piece::Piece;
use dsl_statement::{Level, Spelled, Statement};
use std::alloc::{AllocError, Global};

/// A statement, or none where the tokens are none.
type Found = Result<Option<Statement>, AllocError>;

#[tactic(auto, unfolding(crate::specs::Forms::start_of))]
fn read_start(alloc: Global, piece: &Piece<'_>) -> Found
    ensures { IfOk result (λ r. option_map statement_seen r ≡ start_of piece.now) }
{
    let Some(name) = piece.name(alloc, 2)? else {
        return Ok(None);
    };
    if piece.len() > 3 {
        return Ok(None);
    }
    Ok(Some(Statement::Start {
        at: piece.place(0),
        name,
    }))
}

#[tactic(auto, unfolding(crate::specs::Forms::default_of))]
fn read_default(alloc: Global, piece: &Piece<'_>) -> Found
    ensures { IfOk result (λ r. option_map statement_seen r ≡ default_of piece.now) }
{
    let Some(adverbs) = read_adverbs(alloc, &piece.behind(2))? else {
        return Ok(None);
    };
    Ok(Some(Statement::Default {
        at: piece.place(0),
        adverbs,
    }))
}

#[tactic(auto, unfolding(crate::specs::Forms::lexeme_default_of))]
fn read_lexeme_default(alloc: Global, piece: &Piece<'_>) -> Found
    ensures { IfOk result (λ r. option_map statement_seen r ≡ lexeme_default_of piece.now) }
{
    let Some(adverbs) = read_adverbs(alloc, &piece.behind(3))? else {
        return Ok(None);
    };
    Ok(Some(Statement::LexemeDefault {
        at: piece.place(0),
        adverbs,
    }))
}

#[tactic(auto, unfolding(crate::specs::Forms::lexeme_of))]
fn read_lexeme(alloc: Global, piece: &Piece<'_>) -> Found
    ensures { IfOk result (λ r. option_map statement_seen r ≡ lexeme_of piece.now) }
{
    let Some(name) = piece.name(alloc, 2)? else {
        return Ok(None);
    };
    let Some(adverbs) = read_adverbs(alloc, &piece.behind(3))? else {
        return Ok(None);
    };
    Ok(Some(Statement::Lexeme {
        at: piece.place(0),
        name,
        adverbs,
    }))
}

#[tactic(auto, unfolding(crate::specs::Forms::discard_of))]
fn read_discard(alloc: Global, piece: &Piece<'_>) -> Found
    ensures { IfOk result (λ r. option_map statement_seen r ≡ discard_of piece.now) }
{
    let Some(item) = piece.single(alloc, 2)? else {
        return Ok(None);
    };
    let Some(adverbs) = read_adverbs(alloc, &piece.behind(3))? else {
        return Ok(None);
    };
    Ok(Some(Statement::Discard {
        at: piece.place(0),
        item,
        adverbs,
    }))
}

#[tactic(auto, unfolding(crate::specs::Forms::pseudo_of))]
fn read_pseudo(alloc: Global, piece: &Piece<'_>) -> Found
    ensures { IfOk result (λ r. option_map statement_seen r ≡ pseudo_of piece.now) }
{
    if piece.is_pseudo_of(0, ":start") && piece.is_mark(1, "::=") {
        read_start(alloc, piece)
    } else if piece.is_pseudo_of(0, ":default") && piece.is_mark(1, "::=") {
        read_default(alloc, piece)
    } else if piece.is_pseudo_of(0, ":lexeme") && piece.is_mark(1, "~") {
        read_lexeme(alloc, piece)
    } else if piece.is_pseudo_of(0, ":discard") && piece.is_mark(1, "~") {
        read_discard(alloc, piece)
    } else {
        Ok(None)
    }
}

#[tactic(auto, unfolding(crate::specs::Forms::quantified_of))]
fn read_quantified(alloc: Global, left: Spelled, level: Level, piece: &Piece<'_>) -> Found
    ensures { IfOk result (λ r. option_map statement_seen r ≡
        quantified_of left (is_lexical level) piece.now) }
{
    let Some(item) = piece.single(alloc, 2)? else {
        return Ok(None);
    };
    let Some(adverbs) = read_adverbs(alloc, &piece.behind(4))? else {
        return Ok(None);
    };
    Ok(Some(Statement::Quantified {
        left,
        level,
        item,
        plus: piece.is_mark(3, "+"),
        adverbs,
    }))
}

#[tactic(auto, unfolding(crate::specs::Forms::rules_of))]
fn read_rules(alloc: Global, left: Spelled, level: Level, piece: &Piece<'_>) -> Found
    ensures { IfOk result (λ r. option_map statement_seen r ≡
        rules_of left (is_lexical level) piece.now) }
{
    let Some(groups) = read_groups(alloc, &piece.behind(2))? else {
        return Ok(None);
    };
    if level.is_lexical() && groups.len() != 1 {
        return Ok(None);
    }
    Ok(Some(Statement::Rules {
        left,
        level,
        groups,
    }))
}

#[tactic(auto, unfolding(crate::specs::Forms::right_of))]
fn read_right(alloc: Global, left: Spelled, level: Level, piece: &Piece<'_>) -> Found
    ensures { IfOk result (λ r. option_map statement_seen r ≡
        right_of left (is_lexical level) piece.now) }
{
    if piece.ends_elements(2) {
        let Some(adverbs) = read_adverbs(alloc, &piece.behind(2))? else {
            return Ok(None);
        };
        return Ok(Some(Statement::Empty {
            left,
            level,
            adverbs,
        }));
    }
    if piece.is_mark(3, "*") || piece.is_mark(3, "+") {
        read_quantified(alloc, left, level, piece)
    } else {
        read_rules(alloc, left, level, piece)
    }
}

// The level that the operator after the left side tells.
fn level_of(piece: &Piece<'_>) -> Level
    ensures { is_lexical result ≡ first_is (is_mark (codes "~")) (drop 1 piece.now) }
{
    if piece.is_mark(1, "~") {
        Level::Lexical
    } else {
        Level::Structural
    }
}

#[tactic(auto, unfolding(crate::specs::Forms::rule_of))]
fn read_rule(alloc: Global, piece: &Piece<'_>) -> Found
    ensures { IfOk result (λ r. option_map statement_seen r ≡ rule_of piece.now) }
{
    let Some(left) = piece.name(alloc, 0)? else {
        return Ok(None);
    };
    read_right(alloc, left, level_of(piece), piece)
}

/// The statement that the tokens are, all of them.
#[tactic(auto, unfolding(crate::specs::Forms::statement_in))]
pub fn read_statement(alloc: Global, piece: &Piece<'_>) -> Found
    ensures { IfOk result (λ r. option_map statement_seen r ≡ statement_in piece.now) }
{
    if piece.is_pseudo(0) {
        read_pseudo(alloc, piece)
    } else if piece.is_mark(1, "::=") || piece.is_mark(1, "~") {
        read_rule(alloc, piece)
    } else if piece.begins_default() {
        read_lexeme_default(alloc, piece)
    } else {
        Ok(None)
    }
}
