// Where the lines of a text begin, in characters.
ghost use Rattle.std.specs.Prelude.{◌≡◌, ◌^◌, ◌<◌, ◌≤◌, ◌-◌, List, ℕ, chars, ◌++◌, ◌==◌, length, take, slice_index, IfOk, OnOk};
ghost use Rattle.outside_model.specs.Places.{line_after, column_after};
ghost use Rattle.slif_glades.specs.Lines.{AreLinesOf, behind};

use std::alloc::{AllocError, Global};

/// The characters at which lines begin, in order, and where the text ends.
#[derive(Drop)]
pub(crate) struct Lines {
    starts: Vec<u32>,
    end: u32,
}

// Notes that a line begins behind a character, where that is a line's end.
fn note(c: char, place: u32, starts: &mut Vec<u32>) -> Result<(), AllocError>
    ensures { OnOk result (starts.new.items ≡ starts.old.items ++ behind (c == 10) place) }
{
    if c == '\n' {
        starts.push(place)?;
    }
    Ok(())
}

impl Lines {
    /// Those of a text.
    pub(crate) fn of(alloc: Global, text: &str) -> Result<Lines, AllocError>
        requires { length (chars text.now) < 2 ^ 32 }
        ensures { IfOk result (AreLinesOf (chars text.now)) }
    {
        let mut starts = Vec::new(alloc);
        starts.push(0)?;
        let mut at: u32 = 0;
        for c in text.chars() {
            at += 1;
            note(c, at, &mut starts)?;
        }
        Ok(Lines { starts, end: at })
    }

    // The line of a character, from 1: so many begin at it or before.
    fn line(&self, at: u32) -> usize
        ensures { (cs : List ℕ) → AreLinesOf cs self.now → at ≤ length cs →
            result ≡ line_after (take at cs) }
    {
        self.starts.partition_point(|start| *start <= at)
    }

    // Where a line begins.
    fn start(&self, line: usize) -> u32
        ensures { result ≡ slice_index self.now.starts.items (line - 1) }
    {
        self.starts
            .get(line.saturating_sub(1))
            .copied()
            .unwrap_or(0)
    }

    /// The line and the column of a character, or of the end where it lies behind that, both from 1.
    pub(crate) fn place(&self, character: u32) -> (usize, usize)
        ensures line { (cs : List ℕ) → AreLinesOf cs self.now →
            result.0 ≡ line_after (take character cs) }
        ensures column { (cs : List ℕ) → AreLinesOf cs self.now →
            result.1 ≡ column_after (take character cs) }
    {
        let at = character.min(self.end);
        let line = self.line(at);
        let start = self.start(line);
        (line, at.saturating_sub(start) as usize + 1)
    }
}
