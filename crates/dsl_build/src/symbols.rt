//! The numbers that texts have in tables of names.
ghost use Rattle.std.specs.Prelude.{◌≡◌, ◌≤◌, map, length, true, All, IfOk, option_to_list};
ghost use Rattle.grammar_model.specs.declared.limits.TheConstants.{MOST_ENTRIES};
ghost use Rattle.language_model.specs.Building.{is_one_of, place_in};
ghost use Rattle.dsl_faults.specs.Uses.{used_of, starts_asked};

use dsl_faults::{Names, Use, Which, first_asked};
use dsl_statement::Spelled;
use grammar_core::SymbolId;
use std::alloc::{AllocError, Global};

/// The number of the text, which is one of the names.
pub fn symbol_of(names: &Names, text: &str) -> SymbolId
    requires named { is_one_of names.now text.now ≡ true }
    requires few { length names.now ≤ MOST_ENTRIES }
    ensures { result ≡ place_in names.now text.now }
{
    match names.position(text) {
        Some(place) => SymbolId(place as u32),
        None => unreachable!(),
    }
}

/// The numbers of texts that are all among the names.
pub fn symbols_of(alloc: Global, names: &Names, texts: &Names) -> Result<Vec<SymbolId>, AllocError>
    requires named { All (λ t. is_one_of names.now t ≡ true) texts.now }
    requires few { length names.now ≤ MOST_ENTRIES }
    ensures { IfOk result (λ symbols. symbols.items ≡ map (place_in names.now) texts.now) }
{
    let mut symbols = Vec::new(alloc);
    for place in 0..texts.len() {
        let symbol = symbol_of(names, texts.text(place));
        symbols.push(symbol)?;
    }
    Ok(symbols)
}

/// The places of texts that are all among the names.
pub fn places_of(alloc: Global, names: &Names, texts: &Names) -> Result<Vec<u32>, AllocError>
    requires named { All (λ t. is_one_of names.now t ≡ true) texts.now }
    requires few { length names.now ≤ MOST_ENTRIES }
    ensures { IfOk result (λ places. places.items ≡ map (place_in names.now) texts.now) }
{
    let mut places = Vec::new(alloc);
    for k in 0..texts.len() {
        let symbol = symbol_of(names, texts.text(k));
        places.push(symbol.0)?;
    }
    Ok(places)
}

/// What `:start` names, else the first left side of a structural rule.
pub fn start_of<'a>(uses: &[Use<'a>]) -> Option<&'a Spelled>
    ensures { map (λ t. t.now.content) (option_to_list result) ≡ starts_asked (map used_of uses.now) }
{
    match first_asked(Which::Started, uses) {
        Some(name) => Some(name),
        None => first_asked(Which::StructuralLeft, uses),
    }
}

/// The number of the start, if there is one.
pub fn starts_of(
    alloc: Global,
    symbols: &Names,
    start: Option<&Spelled>,
) -> Result<Vec<SymbolId>, AllocError>
    requires named { All (λ t. is_one_of symbols.now t ≡ true) (map (λ t. t.now.content) (option_to_list start)) }
    requires few { length symbols.now ≤ MOST_ENTRIES }
    ensures { IfOk result (λ starts. starts.items ≡ map (place_in symbols.now) (map (λ t. t.now.content) (option_to_list start.entry))) }
{
    let mut starts = Vec::new(alloc);
    if let Some(name) = start {
        starts.push(symbol_of(symbols, name.content.as_str()))?;
    }
    Ok(starts)
}
