//! The line by which a grammar gets ready to be read by.
ghost use Rattle.std.specs.Prelude.{◌≡◌, IfOk, IfSome, OnOk};
ghost use Rattle.grammar_model.specs.Checked.{IsChecked};
ghost use Rattle.grammar_check.specs.Message.{IsOf, refusal_text};
ghost use Rattle.grammar_check.specs.Refused.{IsTold};
ghost use Rattle.flat_model.specs.Flattened.{IsFlattened};
ghost use Rattle.script_model.specs.Replies.{says, PrecomputeReplies};
ghost use Rattle.marpa_script.specs.Machines.{building, after_precompute};

use crate::answers::put;
use flat_rules::{FlatRefusal, flatten};
use grammar_check::{Checked, GrammarRefusal, append_refusal, check};
use grammar_core::{Flat, Written};
use std::alloc::{AllocError, Global};

// The text of a refusal, in place of what the line held.
fn put_refusal(w: &Written, refusal: &GrammarRefusal, line: &mut Vec<u8>) -> Result<(), AllocError>
    requires { IsOf w.now refusal.now }
    ensures { OnOk result (line.new.items ≡ refusal_text w.now refusal.now) }
{
    line.clear();
    match append_refusal(w, refusal, line) {
        Ok(()) => Ok(()),
        Err(_) => Err(AllocError),
    }
}

// What a check refuses, as the answer.
fn answer_refused(
    w: &Written,
    refusal: &GrammarRefusal,
    line: &mut Vec<u8>,
) -> Result<(), AllocError>
    requires told { IsTold w.now refusal.now }
    requires of { IsOf w.now refusal.now }
    ensures { OnOk result (PrecomputeReplies (building w.now) (says (building w.now) line.new.items)) }
{
    match refusal {
        GrammarRefusal::NoMemory => Err(AllocError),
        _ => put_refusal(w, refusal, line),
    }
}

// The answer where the check is passed.
fn answer_checked(
    alloc: Global,
    checked: &Checked<'_>,
    line: &mut Vec<u8>,
) -> Result<Option<Flat>, AllocError>
    ensures replies { IfOk result (λ o. PrecomputeReplies (building checked.now) (says (after_precompute checked.now o) line.new.items)) }
    ensures flat { IfOk result (λ o. IfSome o (λ flat. IsFlattened checked.now flat)) }
{
    checked.known();
    match flatten(alloc, checked) {
        Ok(flat) => {
            put("ready", line)?;
            Ok(Some(flat))
        }
        Err(FlatRefusal::TooManyRules) => {
            put("more than 65536 flat rules", line)?;
            Ok(None)
        }
        Err(FlatRefusal::NoMemory) => Err(AllocError),
    }
}

/// Answers `precompute`: the flat grammar, where the grammar is ready to be read by. Only memory may be wanting.
pub fn answer_precompute(
    alloc: Global,
    w: &Written,
    line: &mut Vec<u8>,
) -> Result<Option<Flat>, AllocError>
    ensures replies { IfOk result (λ o. PrecomputeReplies (building w.now) (says (after_precompute w.now o) line.new.items)) }
    ensures flat { IfOk result (λ o. IfSome o (λ flat. IsFlattened w.now flat)) }
{
    match check(alloc, w) {
        Ok(checked) => answer_checked(alloc, &checked, line),
        Err(refusal) => {
            answer_refused(w, &refusal, line)?;
            Ok(None)
        }
    }
}
