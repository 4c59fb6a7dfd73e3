// The syntax tree of an INI file.
ghost use Rattle.std.specs.Prelude.{◌≡◌, map, string_bytes};
ghost use Rattle.ini_json.specs.Settings.{word_of, settings_of, groups_of};
ghost use Rattle.ini_json.specs.Nodes.{part_of, setting_of, group_of};

use std::alloc::Global;

/// A name and its text.
#[derive(Debug, Drop)]
pub(crate) struct Entry {
    pub(crate) name: String,
    pub(crate) text: String,
}

/// What stands below a name in brackets.
#[derive(Debug, Drop)]
pub(crate) struct Section {
    pub(crate) name: String,
    pub(crate) entries: Vec<Entry>,
}

/// A node of the tree, each with its own below it: sections, of entries, of words.
#[derive(Debug, Drop)]
pub(crate) enum Node {
    /// A token.
    Word(String),
    Entry(Entry),
    Entries(Vec<Entry>),
    Section(Section),
    Sections(Vec<Section>),
    /// What the tree leaves out: line ends, and parts that span nothing.
    Nothing,
}

impl Node {
    /// The word, or an empty one where there is none.
    pub(crate) fn word(self, alloc: Global) -> String
        ensures { string_bytes result ≡ word_of (part_of self) }
    {
        match self {
            Node::Word(word) => word,
            _ => String::new(alloc),
        }
    }

    /// The entries, of which there may be none.
    pub(crate) fn entries(self, alloc: Global) -> Vec<Entry>
        ensures { map setting_of result.items ≡ settings_of (part_of self) }
    {
        match self {
            Node::Entries(entries) => entries,
            _ => Vec::new(alloc),
        }
    }

    /// The sections, of which there may be none.
    pub(crate) fn sections(self, alloc: Global) -> Vec<Section>
        ensures { map group_of result.items ≡ groups_of (part_of self) }
    {
        match self {
            Node::Sections(sections) => sections,
            _ => Vec::new(alloc),
        }
    }
}
