//! Cursors, written.
ghost use Rattle.std.specs.Prelude.{◌≡◌, ◌∷◌, ◌++◌, map, OnOk, OnErr};
ghost use Rattle.grammar_core.specs.Steps.{step_of};
ghost use Rattle.cursor_model.specs.Cursor.{numeral, step_text, cursor_text};
ghost use Rattle.value_text.specs.Parts.{IsExtended};

use grammar_core::TreeStep;
use itoa::Buffer;
use value_text::NoMemory;

// Appends a number's digits.
fn append_number(number: u32, out: &mut Vec<u8>) -> Result<(), NoMemory>
    ensures ok { OnOk result (out.new.items ≡ out.old.items ++ numeral number) }
    ensures extended { IsExtended out.old.items out.new.items }
{
    out.extend_from_slice(Buffer::new().format(number).as_bytes())?;
    Ok(())
}

// Appends a letter and a number.
fn append_symbol(letter: u8, number: u32, out: &mut Vec<u8>) -> Result<(), NoMemory>
    ensures ok { OnOk result (out.new.items ≡ out.old.items ++ letter ∷ numeral number) }
    ensures extended { IsExtended out.old.items out.new.items }
{
    out.push(letter)?;
    append_number(number, out)
}

// Appends a step.
fn append_step(step: TreeStep, out: &mut Vec<u8>) -> Result<(), NoMemory>
    ensures ok { OnOk result (out.new.items ≡ out.old.items ++ step_text (step_of step)) }
    ensures extended { IsExtended out.old.items out.new.items }
{
    match step {
        TreeStep::Token { symbol, .. } => append_symbol(b't', symbol.0, out),
        TreeStep::Nulled { symbol, .. } => append_symbol(b'n', symbol.0, out),
        TreeStep::Rule { rule, children, .. } => {
            append_symbol(b'r', rule.0, out)?;
            append_symbol(b',', children, out)
        }
    }
}

// Appends steps; where memory ends, a part of them.
fn append_steps(list: &[TreeStep], out: &mut Vec<u8>) -> Result<(), NoMemory>
    ensures ok { OnOk result (out.new.items ≡ out.old.items ++ cursor_text (map step_of list.now)) }
    ensures extended { IsExtended out.old.items out.new.items }
{
    for (k, step) in list.iter().enumerate() {
        if k > 0 {
            out.push(b'.')?;
        }
        append_step(*step, out)?;
    }
    Ok(())
}

/// Appends the cursor of a derivation that has these steps.
pub fn write_cursor(list: &[TreeStep], out: &mut Vec<u8>) -> Result<(), NoMemory>
    ensures ok { OnOk result (out.new.items ≡ out.old.items ++ cursor_text (map step_of list.now)) }
    ensures err { OnErr result (out.new.items ≡ out.old.items) }
{
    let before = out.len();
    let appended = append_steps(list, out);
    if appended.is_err() {
        out.truncate(before);
    }
    appended
}
