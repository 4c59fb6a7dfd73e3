// What job `check` writes.
ghost use Rattle.std.specs.Prelude.{◌≡◌, ◌≤◌, ◌<◌, ◌++◌, All, map, length, IfOk, IfErr, OnOk, slice_set, true};
ghost use Rattle.grammar_model.specs.Values.{name_of};
ghost use Rattle.run_model.specs.Outcome.{IsCheckOutcome};
ghost use Rattle.run_model.specs.Checking.{IsRowOf, AreRows, AreCheckLines, head_line, row_line, word_if};
ghost use Rattle.run_model.specs.Outside.{stream};
ghost use Rattle.tellings.specs.Stops.{Does, WriteStops};
ghost use Rattle.slif_cli.specs.Stops.{told_row};

use grammar_core::{SymbolId, Written};
use scanless::Prepared;
use slif_base::Sink;
use std::alloc::{AllocError, Global};
use tellings::{Stop, write_lines};

/// What a left side can do.
#[derive(Clone, Copy, Debug)]
pub struct SymbolRow {
    symbol: SymbolId,
    nullable: bool,
    productive: bool,
    accessible: bool,
}

/// Writes what job `check` tells of the grammars.
pub fn write_check<'a, O: Sink>(
    alloc: Global,
    prepared: &Prepared,
    out: &mut O,
) -> Result<(), Stop<'a>>
    ensures done { OnOk result (Does (IsCheckOutcome prepared.now) (O.contents out.old) (O.contents out.new)) }
    ensures stops { IfErr result (WriteStops (IsCheckOutcome prepared.now)
        (stream O.contents O.fault_count out.old) (stream O.contents O.fault_count out.new)) }
    ensures out_later { O.fault_count out.old ≤ O.fault_count out.new }
{
    let lines = check_lines(alloc, prepared)?;
    write_lines(&lines, out)
}

fn check_lines(alloc: Global, prepared: &Prepared) -> Result<Vec<Vec<u8>>, AllocError>
    ensures { IfOk result (λ lines. AreCheckLines prepared.now (map (λ l. l.items) lines.items)) }
{
    let rows = rows_of(alloc, prepared)?;
    let mut lines = Vec::new(alloc);
    lines.push(first_line(alloc, prepared)?)?;
    for row in &rows {
        lines.push(line_of(alloc, prepared.written(), row)?)?;
    }
    Ok(lines)
}

fn first_line(alloc: Global, prepared: &Prepared) -> Result<Vec<u8>, AllocError>
    ensures { IfOk result (λ line. line.items ≡ head_line prepared.now) }
{
    let rules = prepared.written().rule_count();
    let lexemes = prepared.lexemes().len();
    let discards = prepared.discard_count();
    let line = format!(in alloc;
        "accepted: {rules} rules, {lexemes} lexemes, {discards} discards\n"
    )?;
    Ok(line.into_bytes())
}

fn line_of(alloc: Global, w: &Written, row: &SymbolRow) -> Result<Vec<u8>, AllocError>
    requires { row.now.symbol < length w.now.names }
    ensures { IfOk result (λ line. line.items ≡ row_line w.now (told_row row.now)) }
{
    let mut line = Vec::from_slice(alloc, w.name(row.symbol).as_bytes())?;
    add_where(row.nullable, b" nullable", &mut line)?;
    add_where(!row.productive, b" unproductive", &mut line)?;
    add_where(!row.accessible, b" inaccessible", &mut line)?;
    line.push(b'\n')?;
    Ok(line)
}

fn add_where(holds: bool, word: &[u8], line: &mut Vec<u8>) -> Result<(), AllocError>
    ensures { OnOk result (line.new.items ≡ line.old.items ++ word_if holds word.now) }
{
    if holds {
        line.extend_from_slice(word)?;
    }
    Ok(())
}

// The left sides, in the order of their first rules.
fn rows_of(alloc: Global, prepared: &Prepared) -> Result<Vec<SymbolRow>, AllocError>
    ensures known { IfOk result (λ rows. All (λ r. r.symbol < length prepared.now.g1.names) rows.items) }
    ensures rows { IfOk result (λ rows. AreRows prepared.now.g1 (map told_row rows.items)) }
{
    let w = prepared.written();
    let mut seen = vec![in alloc; false; w.symbol_count()]?;
    let mut rows = Vec::new(alloc);
    for i in 0..w.rule_count() {
        let symbol = w.lhs(i);
        if !seen[symbol.0 as usize] {
            mark(&mut seen, symbol.0 as usize);
            rows.push(row_of(prepared, symbol))?;
        }
    }
    Ok(rows)
}

fn mark(seen: &mut Vec<bool>, at: usize)
    requires { at < length seen.old.items }
    ensures { seen.new.items ≡ slice_set seen.old.items at true }
{
    seen[at] = true;
}

fn row_of(prepared: &Prepared, symbol: SymbolId) -> SymbolRow
    requires { symbol < length prepared.now.g1.names }
    ensures same { result.symbol ≡ symbol }
    ensures told { IsRowOf prepared.now.g1 (told_row result) }
{
    SymbolRow {
        symbol,
        nullable: prepared.nullable(symbol),
        productive: prepared.productive(symbol),
        accessible: prepared.accessible(symbol),
    }
}
