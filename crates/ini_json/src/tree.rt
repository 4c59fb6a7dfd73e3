// The semantics that makes the syntax tree: each rule moves its children into its node.
ghost use Rattle.std.specs.Prelude.{◌≡◌, IfOk, map};
ghost use Rattle.ini_json.specs.Settings.{Blank, Word, part_by, file_part, section_part, entry_part, only_part, settings_among, groups_among};
ghost use Rattle.ini_json.specs.Nodes.{Gives, part_of, setting_of, group_of};

use crate::node::{Entry, Node, Section};
use slif_parser::{NoMemory, RuleId, Semantics, SymbolId, Token};
use std::alloc::Global;

// The rules that a node is made of, by their numbers: from 0, in the order of the grammar's text.
const FILE: u32 = 1;

const SECTIONS: u32 = 2;

const SECTION: u32 = 3;

const ENTRIES: u32 = 4;

const ENTRY: u32 = 5;

const TEXT: u32 = 6;

/// Makes the syntax tree, with the allocator of its texts.
#[derive(Drop)]
pub(crate) struct TreeMaker {
    alloc: Global,
}

impl TreeMaker {
    pub(crate) fn new(alloc: Global) -> TreeMaker {
        TreeMaker { alloc }
    }
}

impl Semantics for TreeMaker {
    type Value = Node;

    type Error = NoMemory;

    ghost token_gives = { λ before after symbol name token result. Gives (Word token.text) result };

    ghost nulled_gives = { λ before after symbol name result. Gives Blank result };

    ghost rule_gives = { λ before after rule name children result.
        Gives (part_by rule (map part_of children)) result };

    fn token(&mut self, token: Token<'_>) -> Result<Node, NoMemory> {
        Ok(Node::Word(String::from_str(self.alloc, token.text)?))
    }

    fn nulled(&mut self, _symbol: SymbolId, _name: &str) -> Result<Node, NoMemory> {
        Ok(Node::Nothing)
    }

    fn rule(&mut self, rule: RuleId, _name: &str, children: Vec<Node>) -> Result<Node, NoMemory>
        ensures { Gives (part_by rule (map part_of children.items)) result }
    {
        match rule.0 {
            FILE => Ok(file_of(self.alloc, children)),
            SECTIONS => Ok(Node::Sections(sections_of(self.alloc, children)?)),
            SECTION => Ok(section_of(self.alloc, children)),
            ENTRIES => Ok(Node::Entries(entries_of(self.alloc, children)?)),
            ENTRY => Ok(entry_of(self.alloc, children)),
            TEXT => Ok(only_of(children)),
            _ => Ok(Node::Nothing),
        }
    }
}

/// Of empty lines, sections and empty lines.
fn file_of(alloc: Global, children: Vec<Node>) -> Node
    ensures { part_of result ≡ file_part (map part_of children.items) }
{
    match <[Node; 3]>::try_from(children) {
        Ok(parts) => {
            let [_before, sections, _after] = parts;
            Node::Sections(sections.sections(alloc))
        }
        Err(_others) => Node::Nothing,
    }
}

/// Of an opening bracket, a name, a closing bracket and entries.
fn section_of(alloc: Global, children: Vec<Node>) -> Node
    ensures { part_of result ≡ section_part (map part_of children.items) }
{
    match <[Node; 4]>::try_from(children) {
        Ok(parts) => {
            let [_opening, name, _closing, entries] = parts;
            let name = name.word(alloc);
            let entries = entries.entries(alloc);
            Node::Section(Section { name, entries })
        }
        Err(_others) => Node::Nothing,
    }
}

/// Of line ends, a name, a sign and a text.
fn entry_of(alloc: Global, children: Vec<Node>) -> Node
    ensures { part_of result ≡ entry_part (map part_of children.items) }
{
    match <[Node; 4]>::try_from(children) {
        Ok(parts) => {
            let [_ends, name, _sign, text] = parts;
            let name = name.word(alloc);
            let text = text.word(alloc);
            Node::Entry(Entry { name, text })
        }
        Err(_others) => Node::Nothing,
    }
}

/// Of one child, which it is.
fn only_of(children: Vec<Node>) -> Node
    ensures { part_of result ≡ only_part (map part_of children.items) }
{
    match <[Node; 1]>::try_from(children) {
        Ok(parts) => {
            let [only] = parts;
            only
        }
        Err(_others) => Node::Nothing,
    }
}

fn sections_of(alloc: Global, children: Vec<Node>) -> Result<Vec<Section>, NoMemory>
    ensures { IfOk result (λ sections. map group_of sections.items ≡ groups_among
        (map part_of children.items)) }
{
    let mut sections = Vec::new(alloc);
    for child in children {
        if let Node::Section(section) = child {
            sections.push(section)?;
        }
    }
    Ok(sections)
}

fn entries_of(alloc: Global, children: Vec<Node>) -> Result<Vec<Entry>, NoMemory>
    ensures { IfOk result (λ entries. map setting_of entries.items ≡ settings_among
        (map part_of children.items)) }
{
    let mut entries = Vec::new(alloc);
    for child in children {
        if let Node::Entry(entry) = child {
            entries.push(entry)?;
        }
    }
    Ok(entries)
}
