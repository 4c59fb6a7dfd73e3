// The text that is told of a glade.
ghost use Rattle.std.specs.Prelude.{◌≡◌, ◌++◌, List, ℕ, take, OnOk, IfOk};
ghost use Rattle.grammar_model.specs.Values.{name_of};
ghost use Rattle.run_model.specs.Texts.{place_text};
ghost use Rattle.run_model.specs.Glades.{level_text};
ghost use Rattle.slif_glades.specs.Lines.{AreLinesOf};
ghost use Rattle.slif_glades.specs.Told.{glade_text, head_line, more_line, parts_text, shape_line, shape_lines, tokens_text, written_rule};

use crate::lines::Lines;
use crate::pieces::{push, push_number, push_shown, push_spaces};
use slif_parser::{Forest, Glade, Grammar, RuleId, Shape, SymbolId};
use std::alloc::{AllocError, Global};

// Pushes the text of the tokens between two places, of which there may be none.
fn push_tokens(
    forest: &Forest<'_>,
    from: u32,
    to: u32,
    text: &mut Vec<u8>,
) -> Result<(), AllocError>
    ensures { OnOk result (text.new.items ≡ text.old.items ++
        tokens_text forest.now.read from to) }
{
    if from < to {
        return push_shown(forest.text(forest.start(from), forest.end(to)), text);
    }
    push(b"()", text)
}

// Pushes the text of each part, with bars between them.
fn push_parts(
    forest: &Forest<'_>,
    starts: &[u32],
    to: u32,
    text: &mut Vec<u8>,
) -> Result<(), AllocError>
    ensures { OnOk result (text.new.items ≡ text.old.items ++
        parts_text forest.now.read starts.now to) }
{
    let Some((first, more)) = starts.split_first() else {
        return Ok(());
    };
    let mut from = *first;
    for next in more {
        push_tokens(forest, from, *next, text)?;
        push(b" | ", text)?;
        from = *next;
    }
    push_tokens(forest, from, to, text)
}

// The rule of a number as it is written, if there is one.
fn rule_of(alloc: Global, grammar: &Grammar, rule: RuleId) -> Result<Vec<u8>, AllocError>
    ensures { IfOk result (λ text. text.items ≡ written_rule grammar.now.g1 rule) }
{
    let mut text = Vec::new(alloc);
    grammar.append_rule(rule, &mut text)?;
    Ok(text)
}

// Pushes a rule in so many columns, and the text of each of its parts.
fn push_shape(
    forest: &Forest<'_>,
    shape: &Shape,
    to: u32,
    rule: &[u8],
    width: usize,
    text: &mut Vec<u8>,
) -> Result<(), AllocError>
    ensures { OnOk result (text.new.items ≡ text.old.items ++
        shape_line forest.now.read rule.now width shape.now.starts to) }
{
    push(b"  ", text)?;
    push(rule, text)?;
    push_spaces(width.saturating_sub(rule.len()), text)?;
    push(b"    ", text)?;
    push_parts(forest, shape.starts.as_slice(), to, text)?;
    push(b"\n", text)
}

// Pushes the two shapes, whose rules stand one below the other.
fn push_shapes(
    forest: &Forest<'_>,
    glade: &Glade,
    first: &[u8],
    second: &[u8],
    text: &mut Vec<u8>,
) -> Result<(), AllocError>
    ensures { OnOk result (text.new.items ≡ text.old.items ++
        shape_lines forest.now.read first.now second.now glade.now) }
{
    let width = first.len().max(second.len());
    push_shape(forest, &glade.first, glade.to, first, width, text)?;
    push_shape(forest, &glade.second, glade.to, second, width, text)
}

// Pushes a symbol's name, where there is such a symbol.
fn push_name(grammar: &Grammar, symbol: SymbolId, text: &mut Vec<u8>) -> Result<(), AllocError>
    ensures { OnOk result (text.new.items ≡ text.old.items ++ name_of grammar.now.g1 symbol) }
{
    match grammar.name(symbol) {
        Some(name) => push(name.as_bytes(), text),
        None => Ok(()),
    }
}

// Pushes a level that is not the loosest.
fn push_level(level: u32, text: &mut Vec<u8>) -> Result<(), AllocError>
    ensures { OnOk result (text.new.items ≡ text.old.items ++ level_text level) }
{
    if level == 0 {
        return Ok(());
    }
    push(b"/", text)?;
    push_number(level as usize, text)
}

// Pushes the line and the column of a character.
fn push_place(lines: &Lines, character: u32, text: &mut Vec<u8>) -> Result<(), AllocError>
    ensures { (cs : List ℕ) → AreLinesOf cs lines.now →
        OnOk result (text.new.items ≡ text.old.items ++ place_text cs character) }
{
    let (line, column) = lines.place(character);
    push(b"line ", text)?;
    push_number(line, text)?;
    push(b" column ", text)?;
    push_number(column, text)
}

// Pushes where the glade is, its symbol, and its text.
fn push_head(
    grammar: &Grammar,
    forest: &Forest<'_>,
    lines: &Lines,
    glade: &Glade,
    text: &mut Vec<u8>,
) -> Result<(), AllocError>
    requires { AreLinesOf forest.now.read.characters lines.now }
    ensures { OnOk result (text.new.items ≡ text.old.items ++
        head_line grammar.now.g1 forest.now.read glade.now) }
{
    push_place(lines, forest.start(glade.from), text)?;
    push(b": ", text)?;
    push_name(grammar, glade.symbol, text)?;
    push_level(glade.level, text)?;
    push(b" over `", text)?;
    push_tokens(forest, glade.from, glade.to, text)?;
    push(b"`\n", text)
}

// Pushes how many more glades there are of the two rules.
fn push_more(more: usize, text: &mut Vec<u8>) -> Result<(), AllocError>
    ensures { OnOk result (text.new.items ≡ text.old.items ++ more_line more) }
{
    if more == 0 {
        return Ok(());
    }
    push_number(more, text)?;
    push(b" more of these two rules\n", text)
}

/// The text of a glade: where it is, its two rules with their parts, and how many more there are of these.
pub(crate) fn glade_text(
    alloc: Global,
    grammar: &Grammar,
    forest: &Forest<'_>,
    lines: &Lines,
    glade: &Glade,
    more: usize,
) -> Result<Vec<u8>, AllocError>
    requires { AreLinesOf forest.now.read.characters lines.now }
    ensures { IfOk result (λ text. text.items ≡
        glade_text grammar.now.g1 forest.now.read glade.now more) }
{
    let first = rule_of(alloc, grammar, glade.first.rule)?;
    let second = rule_of(alloc, grammar, glade.second.rule)?;
    let mut text = Vec::new(alloc);
    push_head(grammar, forest, lines, glade, &mut text)?;
    push_shapes(forest, glade, &first, &second, &mut text)?;
    push_more(more, &mut text)?;
    Ok(text)
}
