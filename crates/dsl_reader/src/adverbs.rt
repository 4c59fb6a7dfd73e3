//! Reading adverbs.
ghost use Rattle.std.specs.Prelude.{◌≡◌, IfOk, option_map, map};
ghost use Rattle.dsl_statement.specs.Statements.{adverb_of as adverb_seen};
ghost use Rattle.dsl_reader.specs.Reading.{adverbs_of};
ghost use Rattle.dsl_reader.specs.Forms.{pair_of};

use crate::piece::Piece;
use dsl_statement::Adverb;
use std::alloc::{AllocError, Global};

fn read_pair(alloc: Global, piece: &Piece<'_>) -> Result<Option<Adverb>, AllocError>
    ensures { IfOk result (λ r. option_map adverb_seen r ≡ pair_of piece.now) }
{
    if piece.is_adverb_name(0) && piece.is_mark(1, "=>") && piece.is_value(2) {
        let Some(name) = piece.spelled(alloc, 0)? else {
            return Ok(None);
        };
        let Some(value) = piece.spelled(alloc, 2)? else {
            return Ok(None);
        };
        return Ok(Some(Adverb::Pair { name, value }));
    }
    Ok(None)
}

/// The adverbs that the tokens are, all of them.
pub fn read_adverbs(alloc: Global, piece: &Piece<'_>) -> Result<Option<Vec<Adverb>>, AllocError>
    ensures { IfOk result (λ r. option_map (λ v. map adverb_seen v.items) r ≡
        adverbs_of piece.now) }
{
    let mut adverbs = Vec::new(alloc);
    let mut at = 0;
    while at < piece.len() {
        if piece.is_mark(at, ",") {
            let place = piece.place(at);
            adverbs.push(Adverb::Comma { at: place })?;
            at += 1;
        } else {
            let Some(adverb) = read_pair(alloc, &piece.behind(at))? else {
                return Ok(None);
            };
            adverbs.push(adverb)?;
            at += 3;
        }
    }
    Ok(Some(adverbs))
}
