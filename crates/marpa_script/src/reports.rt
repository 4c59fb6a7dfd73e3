//! The lines of a report, each written as one piece.
ghost use Rattle.std.specs.Prelude.{◌≡◌, ◌<◌, ◌≤◌, ◌++◌, ◌∷◌, [], All, Err, codes, decimal, length, map, IfOk, OnOk, OnErr};
ghost use Rattle.std.specs.List.{concat};
ghost use Rattle.std.specs.Io.KnownBytes.{Appends};
ghost use Rattle.outside_model.specs.Causes.{Rose};
ghost use Rattle.outside_model.specs.Told.{AppendsPrefix};
ghost use Rattle.report_model.specs.Lines.{report_line};
ghost use Rattle.script_model.specs.Replies.{as_line, ReportReplies};
ghost use Rattle.marpa_script.specs.Machines.{reading, ReadsBy};
ghost use Rattle.marpa_script.specs.Written.{Replied, BreaksOff};
ghost use Rattle.marpa_script.specs.declared.refusal.ScriptRefusal.TheVariants.{WriteFault};

use crate::ScriptRefusal;
use crate::answers::{write_count, write_piece};
use earley_sets::Recce;
use grammar_core::Written;
use progress::{ProgressRefusal, ReportLine, report};
use slif_base::Sink;
use std::alloc::{AllocError, Global};

fn line_of(alloc: Global, w: &Written, at: u32, item: &ReportLine) -> Result<Vec<u8>, AllocError>
    requires { item.now.rule < length w.now.rules }
    ensures { IfOk result (λ line. line.items ≡ report_line w.now at item.now) }
{
    let ReportLine { rule, dot, origin } = *item;
    let name = w.name(w.lhs(rule as usize));
    let line = format!(in alloc; "{rule}:{dot} @{origin}-{at} {name}\n")?;
    Ok(line.into_bytes())
}

// Writes the line of an item.
fn write_item<K: Sink>(
    alloc: Global,
    w: &Written,
    at: u32,
    item: &ReportLine,
    out: &mut K,
) -> Result<(), ScriptRefusal>
    requires { item.now.rule < length w.now.rules }
    ensures ok { OnOk result (Appends (K.contents out.old) (K.contents out.new) (report_line w.now at item.now)) }
    ensures err { OnErr result (AppendsPrefix (K.contents out.old) (K.contents out.new) (report_line w.now at item.now)) }
    ensures fault { result ≡ Err WriteFault → Rose (K.fault_count out.old) (K.fault_count out.new) }
    ensures later { K.fault_count out.old ≤ K.fault_count out.new }
{
    match line_of(alloc, w, at, item) {
        Ok(line) => write_piece(&line, out),
        Err(_) => Err(ScriptRefusal::NoMemory),
    }
}

// Writes the lines of items.
fn write_items<K: Sink>(
    alloc: Global,
    w: &Written,
    at: u32,
    items: &[ReportLine],
    out: &mut K,
) -> Result<(), ScriptRefusal>
    requires { All (λ l. l.rule < length w.now.rules) items.now }
    ensures ok { OnOk result (Appends (K.contents out.old) (K.contents out.new) (concat (map (report_line w.now at) items.now))) }
    ensures err { OnErr result (AppendsPrefix (K.contents out.old) (K.contents out.new) (concat (map (report_line w.now at) items.now))) }
    ensures fault { result ≡ Err WriteFault → Rose (K.fault_count out.old) (K.fault_count out.new) }
    ensures later { K.fault_count out.old ≤ K.fault_count out.new }
{
    for item in items {
        match write_item(alloc, w, at, item, out) {
            Ok(()) => {}
            Err(refusal) => return Err(refusal),
        }
    }
    Ok(())
}

// Writes the lines of items, and how many there are.
fn write_report<K: Sink>(
    alloc: Global,
    w: &Written,
    at: u32,
    items: &[ReportLine],
    line: &mut Vec<u8>,
    out: &mut K,
) -> Result<(), ScriptRefusal>
    requires { All (λ l. l.rule < length w.now.rules) items.now }
    ensures ok { OnOk result (Appends (K.contents out.old) (K.contents out.new)
        (concat (map (report_line w.now at) items.now ++ as_line (codes "reported " ++ decimal (length items.now)) ∷ []))) }
    ensures err { OnErr result (AppendsPrefix (K.contents out.old) (K.contents out.new)
        (concat (map (report_line w.now at) items.now ++ as_line (codes "reported " ++ decimal (length items.now)) ∷ []))) }
    ensures fault { result ≡ Err WriteFault → Rose (K.fault_count out.old) (K.fault_count out.new) }
    ensures later { K.fault_count out.old ≤ K.fault_count out.new }
{
    match write_items(alloc, w, at, items, out) {
        Ok(()) => write_count("reported ", items.len(), line, out),
        Err(refusal) => Err(refusal),
    }
}

/// Plays `report PLACE`.
pub fn play_report<K: Sink>(
    alloc: Global,
    w: &Written,
    recce: &Recce<'_>,
    at: u32,
    line: &mut Vec<u8>,
    out: &mut K,
) -> Result<(), ScriptRefusal>
    requires { ReadsBy w.now recce.now }
    ensures played { OnOk result (Replied (ReportReplies (reading w.now recce.now) at) (reading w.now recce.now) (K.contents out.old) (K.contents out.new)) }
    ensures breaks { OnErr result (BreaksOff (ReportReplies (reading w.now recce.now) at) (K.contents out.old) (K.contents out.new)) }
    ensures fault { result ≡ Err WriteFault → Rose (K.fault_count out.old) (K.fault_count out.new) }
    ensures later { K.fault_count out.old ≤ K.fault_count out.new }
{
    let _place = recce.place();
    match report(alloc, w, recce, at) {
        Ok(items) => write_report(alloc, w, at, &items, line, out),
        Err(ProgressRefusal::NoSuchSet) => write_count("no set ", at as usize, line, out),
        Err(ProgressRefusal::NoMemory) => Err(ScriptRefusal::NoMemory),
    }
}
