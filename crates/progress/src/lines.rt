//! The report of a place, from the items of its set.
ghost use Rattle.std.specs.Prelude.{◌≡◌, ◌<◌, ◌≤◌, ◌↔◌, Contains, Some, Err, IfOk, OnOk};
ghost use Rattle.std.specs.List.Sorted.{IsStrictlySortedBy};
ghost use Rattle.grammar_core.specs.Written.{rule_of};
ghost use Rattle.recognizer_model.specs.declared.ReportLine.{ReportLine};
ghost use Rattle.recognizer_model.specs.declared.Item.{Item as TheItem};
ghost use Rattle.recognizer_model.specs.Flat.{IsRule};
ghost use Rattle.recognizer_model.specs.Items.{InSet};
ghost use Rattle.recognizer_model.specs.FlatForm.{IsFlatOf};
ghost use Rattle.recognizer_model.specs.Report.{IsLine, line_of as line_of_item, written_dot as dot_by};
ghost use Rattle.report_model.specs.Report.{line_cmp};
ghost use Rattle.report_model.specs.FlatReport.{IsFlatReport};
ghost use Rattle.earley_sets.specs.Recognizer.{IsRecognizer, edges_of, earleme_of, top_of};
ghost use Rattle.progress.specs.declared.refusal.ProgressRefusal.TheVariants.{NoSuchSet};

use crate::ProgressRefusal;
use earley_sets::Recce;
use grammar_core::{Flat, FlatSource, Written, WrittenRule};
use recognizer_model::{Item, ReportLine};
use slif_base::Steps;
use std::alloc::{AllocError, Global};
use std::marker::Brand;
use std::sync::ledger::{Blank, Ledger};

// The dot in the written rule. A sequence's rule tells only what stands before the dot: nothing, an item, or a separator.
fn written_dot(rule: &WrittenRule, dot: u32) -> u32
    ensures { result ≡ dot_by (rule_of rule.now) dot }
{
    match rule {
        WrittenRule::Plain(_) => dot,
        WrittenRule::Sequence(rule) => match dot {
            0 => 0,
            2 if rule.separator.is_some() => 2,
            _ => 1,
        },
    }
}

// The line of an item. The items of tops have none.
fn line_of(w: &Written, flat: &Flat, item: Item) -> Option<ReportLine>
    requires flat { IsFlatOf flat.now w.now }
    requires rule { IsRule flat.now item.rule }
    ensures { result ≡ line_of_item w.now flat.now item }
{
    match flat.origin_of(item.rule) {
        FlatSource::Written(rule) => Some(ReportLine {
            rule: rule.0,
            dot: written_dot(w.written_rule(rule), item.dot),
            origin: item.origin,
        }),
        FlatSource::Top(_) => None,
    }
}

// The items of the full set of a place: those that are not kept, and those that are. They are counted on a counter of its own.
fn items_of<L: Ledger>(
    blank: Blank,
    alloc: Global,
    recce: &Recce<'_>,
    j: u32,
) -> Result<Vec<Item>, AllocError>
    requires name { blank.name ≡ L.name }
    requires parts { blank.parts ≡ L.parts }
    requires some { 0 < blank.parts }
    requires is { IsRecognizer recce.now }
    requires place { j ≤ earleme_of recce.now }
    ensures { IfOk result (λ items. (item : TheItem) → Contains items.items item ↔
        InSet recce.now.flat (edges_of recce.now) (top_of recce.now) j item) }
{
    let mut steps = Steps::<L>::of_blank(blank);
    let mut items = recce.expand(alloc, j, 0, &mut steps)?;
    let set = recce.kept(j);
    for k in 0..set.len() {
        items.push(set.at(k))?;
    }
    Ok(items)
}

// The lines of items, in their order.
fn lines_of(
    alloc: Global,
    w: &Written,
    flat: &Flat,
    items: &[Item],
) -> Result<Vec<ReportLine>, AllocError>
    requires flat { IsFlatOf flat.now w.now }
    requires rules { (item : TheItem) → Contains items.now item → IsRule flat.now item.rule }
    ensures { IfOk result (λ lines. (line : ReportLine) → Contains lines.items line ↔
        ((item : TheItem) × Contains items.now item ×
        (line_of_item w.now flat.now item ≡ Some line))) }
{
    let mut lines = Vec::new(alloc);
    for item in items {
        if let Some(line) = line_of(w, flat, *item) {
            lines.push(line)?;
        }
    }
    Ok(lines)
}

fn sort(lines: &mut Vec<ReportLine>) -> Result<(), AllocError>
    ensures sorted { OnOk result (IsStrictlySortedBy line_cmp lines.new.items) }
    ensures same { OnOk result ((line : ReportLine) →
        Contains lines.new.items line ↔ Contains lines.old.items line) }
{
    lines.sort()?;
    lines.dedup();
    Ok(())
}

/// The report of a place: a line for each item of its full set, in terms of written rules, each line once, by rule, dot and origin.
/// Of a sequence rule the dot is 0 before anything, 1 after an item and 2 after a separator.
pub fn report(
    alloc: Global,
    w: &Written,
    recce: &Recce<'_>,
    j: u32,
) -> Result<Vec<ReportLine>, ProgressRefusal>
    requires { IsFlatOf recce.now.flat w.now }
    ensures report { IfOk result (λ lines. IsFlatReport w.now recce.now.flat recce.now.edges
        recce.now.start j lines.items) }
    ensures no_such_set { (result ≡ Err NoSuchSet) ↔ (earleme_of recce.now < j) }
{
    if j > recce.place() {
        return Err(ProgressRefusal::NoSuchSet);
    }
    let items = items_of::<Brand>(Blank::new(1), alloc, recce, j)?;
    let mut lines = lines_of(alloc, w, recce.flat(), &items)?;
    sort(&mut lines)?;
    Ok(lines)
}
