// The lines of the input, each read as it is asked for.
ghost use Rattle.std.specs.Prelude.{map, IfOk};
ghost use Rattle.tree_text.specs.Parts.{part_of};
ghost use Rattle.tree_text.specs.Reading.{IsRead};

use crate::stop::Stop;
use slif_base::Source;
use std::alloc::Global;
use tree_text::{Part, ReadRefusal, read_value};

const PIECE: usize = 4096;

/// The input, and what was read of it and not yet given.
#[derive(Drop)]
pub(crate) struct Lines<S> {
    source: S,
    read: Vec<u8>,
    /// How many bytes of those read were given.
    given: usize,
    /// How many lines were given.
    taken: usize,
}

/// A line: the parts of the value whose text it is, or a line that tells something of the others.
#[derive(Drop)]
pub(crate) enum Entry {
    Value(Vec<Part>),
    Note(String),
}

impl<S: Source> Lines<S> {
    pub(crate) fn new(alloc: Global, source: S) -> Lines<S> {
        Lines {
            source,
            read: Vec::new(alloc),
            given: 0,
            taken: 0,
        }
    }

    /// Forgets what was given.
    fn forget(&mut self) {
        let given = self.given.min(self.read.len());
        self.read.drain(..given);
        self.given = 0;
    }

    /// Reads on, and tells whether there was more.
    fn read_more(&mut self) -> Result<bool, Stop> {
        let mut piece = [0u8; PIECE];
        let count = match self.source.read(&mut piece) {
            Ok(count) => count,
            Err(_) => return Err(Stop::ReadFault),
        };
        self.read.extend_from_slice(&piece[..count])?;
        Ok(count > 0)
    }

    /// Where the next line ends, and whether a line feed is there. What comes before a place was looked at before.
    fn line_end(&mut self) -> Result<(usize, bool), Stop> {
        let mut seen = self.given.min(self.read.len());
        for _ in 0..u64::MAX {
            if let Some(end) = line_feed_from(&self.read, seen) {
                return Ok((end, true));
            }
            self.forget();
            seen = self.read.len();
            if !self.read_more()? {
                return Ok((seen, false));
            }
        }
        Err(Stop::NoMemory)
    }

    /// The bytes of the next line, without its line feed.
    fn next_line(&mut self) -> Result<Option<&[u8]>, Stop> {
        let (end, feeds) = self.line_end()?;
        let from = self.given;
        if from >= end && !feeds {
            return Ok(None);
        }
        self.taken = self.taken.saturating_add(1);
        self.given = if feeds { end.saturating_add(1) } else { end };
        Ok(self.read.get(from..end))
    }

    /// The next line.
    pub(crate) fn next_entry(&mut self, alloc: Global) -> Result<Option<Entry>, Stop> {
        let line = self.taken.saturating_add(1);
        let Some(bytes) = self.next_line()? else {
            return Ok(None);
        };
        Ok(Some(entry_of(alloc, line, bytes)?))
    }

    /// The parts of the next value. Lines that tell of others are left out.
    pub(crate) fn next_value(&mut self, alloc: Global) -> Result<Option<Vec<Part>>, Stop> {
        for _ in 0..u64::MAX {
            match self.next_entry(alloc)? {
                Some(Entry::Value(parts)) => return Ok(Some(parts)),
                Some(Entry::Note(_)) => (),
                None => return Ok(None),
            }
        }
        Err(Stop::NoMemory)
    }
}

/// Where the next line feed stands, from a place on.
fn line_feed_from(bytes: &[u8], from: usize) -> Option<usize> {
    let count = bytes.get(from..)?.iter().position(|b| *b == b'\n')?;
    Some(from.saturating_add(count))
}

/// Whether a line tells of the others: the counts of `--stats`, or the place that job `more` goes on from. No value begins so.
fn is_note(text: &str) -> bool {
    text.starts_with("stats: ") || text.starts_with("cursor: ") || text == "end"
}

/// What a line says.
fn entry_of(alloc: Global, line: usize, bytes: &[u8]) -> Result<Entry, Stop> {
    match std::str::from_utf8(bytes) {
        Ok(text) if is_note(text) => Ok(Entry::Note(String::from_str(alloc, text)?)),
        Ok(text) => Ok(Entry::Value(value_of(alloc, line, text)?)),
        Err(error) => Err(Stop::NotValue {
            line,
            column: column_behind(bytes, error.valid_up_to()),
        }),
    }
}

/// The column after the longest prefix of a line that is UTF-8.
fn column_behind(line: &[u8], len: usize) -> usize {
    let Some(prefix) = line.get(..len) else {
        return 1;
    };
    match std::str::from_utf8(prefix) {
        Ok(text) => text.chars().count().saturating_add(1),
        Err(_) => 1,
    }
}

/// The parts of the value whose text a line is.
fn value_of(alloc: Global, line: usize, text: &str) -> Result<Vec<Part>, Stop>
    ensures { IfOk result (λ parts. IsRead text.now (map part_of parts.items)) }
{
    match read_value(alloc, text) {
        Ok(parts) => Ok(parts),
        Err(ReadRefusal::NotValue { left }) => Err(Stop::NotValue {
            line,
            column: text.chars().count().saturating_sub(left).saturating_add(1),
        }),
        Err(ReadRefusal::NoMemory) => Err(Stop::NoMemory),
    }
}
