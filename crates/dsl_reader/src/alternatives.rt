//! Reading alternatives and their groups.
ghost use Rattle.std.specs.Prelude.{◌≡◌, ◌<◌, [], length, IfOk, IfSome, None, Some, option_map, map};
ghost use Rattle.dsl_reader.specs.Reading.{alternative_of};
ghost use Rattle.dsl_reader.specs.Forms.{full_alternative_of, group_of, groups_of, hidden_behind};

use crate::adverbs::read_adverbs;
use crate::piece::Piece;
use dsl_statement::{Alternative, Element, Spelled};
use std::alloc::{AllocError, Global};

/// The parts up to a closing bracket, of which there is one at least.
fn read_hidden(alloc: Global, piece: &Piece<'_>) -> Result<Option<Vec<Spelled>>, AllocError>
    ensures read { IfOk result (λ r. hidden_behind (option_map (λ v. v.items) r) piece.now ≡
        alternative_of piece.now (Some [])) }
    ensures within { IfOk result (λ r. IfSome r (λ v. length v.items < length piece.now)) }
{
    let mut parts = Vec::new(alloc);
    while piece.is_part(parts.len()) {
        let Some(part) = piece.spelled(alloc, parts.len())? else {
            return Ok(None);
        };
        parts.push(part)?;
    }
    let count = parts.len();
    if count == 0 || !piece.is_mark(count, ")") {
        return Ok(None);
    }
    Ok(Some(parts))
}

/// The elements and the adverbs that the tokens are.
fn read_alternative(alloc: Global, piece: &Piece<'_>) -> Result<Option<Alternative>, AllocError>
    ensures { IfOk result (λ r. r ≡ alternative_of piece.now None) }
{
    let mut elements = Vec::new(alloc);
    let mut at = 0;
    while !piece.ends_elements(at) {
        if piece.is_mark(at, "(") {
            let Some(parts) = read_hidden(alloc, &piece.behind(at + 1))? else {
                return Ok(None);
            };
            at += 2 + parts.len();
            elements.push(Element::Hidden(parts))?;
        } else if piece.is_part(at) {
            let Some(part) = piece.spelled(alloc, at)? else {
                return Ok(None);
            };
            elements.push(Element::Bare(part))?;
            at += 1;
        } else {
            return Ok(None);
        }
    }
    let Some(adverbs) = read_adverbs(alloc, &piece.behind(at))? else {
        return Ok(None);
    };
    Ok(Some(Alternative { elements, adverbs }))
}

/// An alternative with one element at least.
fn read_full(alloc: Global, piece: &Piece<'_>) -> Result<Option<Alternative>, AllocError>
    ensures { IfOk result (λ r. r ≡ full_alternative_of piece.now) }
{
    let Some(alternative) = read_alternative(alloc, piece)? else {
        return Ok(None);
    };
    if alternative.elements.len() == 0 {
        return Ok(None);
    }
    Ok(Some(alternative))
}

/// The alternatives between single bars.
fn read_group(alloc: Global, piece: &Piece<'_>) -> Result<Option<Vec<Alternative>>, AllocError>
    ensures { IfOk result (λ r. option_map (λ v. v.items) r ≡ group_of piece.now) }
{
    let mut group = Vec::new(alloc);
    let mut at = 0;
    'alternatives: loop {
        let to = piece.mark_from(at, "|");
        let Some(alternative) = read_full(alloc, &piece.part(at, to))? else {
            return Ok(None);
        };
        group.push(alternative)?;
        if to == piece.len() {
            return Ok(Some(group));
        }
        at = to + 1;
    }
}

/// The groups between double bars.
pub fn read_groups(
    alloc: Global,
    piece: &Piece<'_>,
) -> Result<Option<Vec<Vec<Alternative>>>, AllocError>
    ensures { IfOk result (λ r. option_map (λ v. map (λ g. g.items) v.items) r ≡
        groups_of piece.now) }
{
    let mut groups = Vec::new(alloc);
    let mut at = 0;
    'groups: loop {
        let to = piece.mark_from(at, "||");
        let Some(group) = read_group(alloc, &piece.part(at, to))? else {
            return Ok(None);
        };
        groups.push(group)?;
        if to == piece.len() {
            return Ok(Some(groups));
        }
        at = to + 1;
    }
}
