// The way from a text to its first derivation, and to the JSON of that.
ghost use Rattle.std.specs.Prelude.{◌≡◌, IfOk, IfErr, string_bytes};
ghost use Rattle.grammar_model.specs.declared.Ranking.TheVariants.{Rule};
ghost use Rattle.ini_json.specs.Settings.{groups_of};
ghost use Rattle.ini_json.specs.Nodes.{part_of};
ghost use Rattle.ini_json.specs.Json.{file_json};
ghost use Rattle.ini_json.specs.Texts.{IsFirstJson, IsNotDerived, IsJsonOf, IsRefusalOf};

use crate::json::put_json;
use crate::node::Node;
use crate::tree::TreeMaker;
use slif_parser::{Forest, Grammar, NoMemory, ParseError, Ranking, Reading};
use std::alloc::Global;

/// The JSON of a text.
pub(crate) fn json_of(alloc: Global, grammar: &Grammar, text: &[u8]) -> Result<String, ParseError>
    ensures json { IfOk result (IsJsonOf grammar.now text.now) }
    ensures refused { IfErr result (IsRefusalOf grammar.now text.now) }
{
    let reading = grammar.read(alloc, text)?;
    let json = json_of_reading(alloc, &reading);
    drop(reading);
    json
}

fn json_of_reading(alloc: Global, reading: &Reading<'_>) -> Result<String, ParseError>
    ensures json { IfOk result (IsFirstJson reading.now) }
    ensures refused { IfErr result (IsNotDerived reading.now) }
{
    let forest = reading.forest(alloc, Ranking::Rule)?;
    let json = first_json(alloc, &forest);
    drop(forest);
    match json {
        Ok(json) => Ok(json),
        Err(_) => Err(ParseError::NoMemory),
    }
}

/// The JSON of the first derivation. There is one, and the grammar gives no more.
fn first_json(alloc: Global, forest: &Forest<'_>) -> Result<String, NoMemory>
    requires { forest.now.forest.ranking ≡ Rule }
    ensures { IfOk result (IsFirstJson forest.now.read) }
{
    let mut derivations = forest.derivations(alloc)?;
    if !derivations.next()? {
        unreachable!();
    }
    derivations.known();
    let mut maker = TreeMaker::new(alloc);
    match derivations.fold(alloc, &mut maker) {
        Ok(file) => json_of_file(alloc, file),
        Err(_) => Err(NoMemory),
    }
}

/// The JSON of a whole tree.
fn json_of_file(alloc: Global, file: Node) -> Result<String, NoMemory>
    ensures { IfOk result (λ json. string_bytes json ≡ file_json (groups_of (part_of file))) }
{
    let mut json = String::new(alloc);
    put_json(&file.sections(alloc), &mut json)?;
    Ok(json)
}
