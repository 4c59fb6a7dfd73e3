// The line of a glade.
ghost use Rattle.std.specs.Prelude.{◌≡◌, ◌<◌, ◌++◌, codes, decimal, length, OnOk};
ghost use Rattle.std.specs.List.{flat_map, join_by};
ghost use Rattle.grammar_model.specs.Values.{name_of};
ghost use Rattle.run_model.specs.Glades.{glade_line, level_text, place_text, shape_text, shapes_text, span_text};

use glades::{Glade, Shape};
use grammar_core::{SymbolId, Written};
use itoa::Buffer;
use std::alloc::AllocError;

fn append(bytes: &[u8], line: &mut Vec<u8>) -> Result<(), AllocError>
    ensures { OnOk result (line.new.items ≡ line.old.items ++ bytes.now) }
{
    line.extend_from_slice(bytes)?;
    Ok(())
}

fn append_number(number: u32, line: &mut Vec<u8>) -> Result<(), AllocError>
    ensures { OnOk result (line.new.items ≡ line.old.items ++ decimal number) }
{
    append(Buffer::new().format(number).as_bytes(), line)
}

// Appends places, each after a comma.
fn append_more(places: &[u32], line: &mut Vec<u8>) -> Result<(), AllocError>
    ensures { OnOk result (line.new.items ≡ line.old.items ++ flat_map (λ p. codes "," ++ decimal p) places.now) }
{
    for place in places {
        append(b",", line)?;
        append_number(*place, line)?;
    }
    Ok(())
}

// Appends places, with a comma between them.
fn append_places(places: &[u32], line: &mut Vec<u8>) -> Result<(), AllocError>
    ensures { OnOk result (line.new.items ≡ line.old.items ++ join_by decimal (codes ",") places.now) }
{
    let Some((first, more)) = places.split_first() else {
        return Ok(());
    };
    append_number(*first, line)?;
    append_more(more, line)
}

fn append_shape(shape: &Shape, line: &mut Vec<u8>) -> Result<(), AllocError>
    ensures { OnOk result (line.new.items ≡ line.old.items ++ shape_text shape.now) }
{
    append_number(shape.rule.0, line)?;
    append(b" at ", line)?;
    append_places(shape.starts.as_slice(), line)
}

fn append_shapes(glade: &Glade, line: &mut Vec<u8>) -> Result<(), AllocError>
    ensures { OnOk result (line.new.items ≡ line.old.items ++ shapes_text glade.now) }
{
    append_shape(&glade.first, line)?;
    append(b"; ", line)?;
    append_shape(&glade.second, line)
}

fn append_level(level: u32, line: &mut Vec<u8>) -> Result<(), AllocError>
    ensures { OnOk result (line.new.items ≡ line.old.items ++ level_text level) }
{
    if level == 0 {
        return Ok(());
    }
    append(b"/", line)?;
    append_number(level, line)
}

fn append_span(from: u32, to: u32, line: &mut Vec<u8>) -> Result<(), AllocError>
    ensures { OnOk result (line.new.items ≡ line.old.items ++ span_text from to) }
{
    append(b" ", line)?;
    append_number(from, line)?;
    append(b"-", line)?;
    append_number(to, line)
}

fn append_name(w: &Written, symbol: SymbolId, line: &mut Vec<u8>) -> Result<(), AllocError>
    requires { symbol < length w.now.names }
    ensures { OnOk result (line.new.items ≡ line.old.items ++ name_of w.now symbol) }
{
    append(w.name(symbol).as_bytes(), line)
}

fn append_place(w: &Written, glade: &Glade, line: &mut Vec<u8>) -> Result<(), AllocError>
    requires { glade.now.slot.symbol < length w.now.names }
    ensures { OnOk result (line.new.items ≡ line.old.items ++ place_text w.now glade.now) }
{
    append_name(w, glade.symbol, line)?;
    append_level(glade.level, line)?;
    append_span(glade.from, glade.to, line)
}

/// Appends the line of a glade of the grammar.
pub fn append_glade(w: &Written, glade: &Glade, line: &mut Vec<u8>) -> Result<(), AllocError>
    requires { glade.now.slot.symbol < length w.now.names }
    ensures { OnOk result (line.new.items ≡ line.old.items ++ glade_line w.now glade.now) }
{
    append_place(w, glade, line)?;
    append(b": ", line)?;
    append_shapes(glade, line)?;
    append(b"\n", line)
}
