//! Whole runs over forms in memory, for tests: what they are given, and how they end.
#![tactic(auto)]

ghost use Rattle.std.specs.Prelude.{◌≡◌, ◌<◌, ◌↔◌, length, map, string_bytes, IfOk, IsTrue};
ghost use Rattle.valuator.specs.Told.{states};
ghost use Rattle.value_lines.specs.Writing.{AreBothTellers};
ghost use Rattle.run_model.specs.Runs.{Runs};
ghost use Rattle.run_scenes.specs.Scenes.{texts_of, failing_of, files_given, input_given, sink_given, IsSceneOf, outside_of, before_of, after_of, out_of, err_of, asked_of};

use slif_base::{MemFiles, MemSink, MemSource, Steps};
use slif_cli::run;
use slippers::Supplier;
use std::alloc::{AllocError, Global};
use std::marker::Brand;
use std::sync::ledger::{Blank, Ledger};
use valuator::Teller;

/// What a run is given: its words, the texts of the files g.slif and i.txt, the input, and the calls that fail.
#[derive(Clone, Copy)]
pub struct Given<'a> {
    pub words: &'a [&'a str],
    pub grammar: &'a [u8],
    pub file: &'a [u8],
    pub input: &'a [u8],
    /// how many bytes of the input are read at once
    pub gives: usize,
    pub files_fail: &'a [u64],
    pub input_fails: &'a [u64],
    pub out_fails: &'a [u64],
    pub err_fails: &'a [u64],
}

/// The parts of the outside, each with calls that may fail.
#[derive(Clone, Copy)]
pub enum Device {
    Files,
    Input,
    Out,
    Err,
}

impl<'a> Given<'a> {
    /// The same, where these calls of a device fail and no other of its calls does.
    pub fn failing(self, device: Device, calls: &'a [u64]) -> Given<'a>
        ensures { result ≡ failing_of self.entry device calls.entry }
    {
        match device {
            Device::Files => Given {
                files_fail: calls,
                ..self
            },
            Device::Input => Given {
                input_fails: calls,
                ..self
            },
            Device::Out => Given {
                out_fails: calls,
                ..self
            },
            Device::Err => Given {
                err_fails: calls,
                ..self
            },
        }
    }
}

// The words and the outside of a run.
#[derive(Drop)]
struct Scene {
    words: Vec<String>,
    files: MemFiles,
    input: MemSource,
    out: MemSink,
    err: MemSink,
}

/// What a run does.
pub struct Ended {
    pub status: u8,
    scene: Scene,
}

// Written out, so that whoever lets it go does so by one call.
impl Drop for Ended {
    fn drop(self) {
        let Ended {
            status: _,
            scene: _,
        } = self;
    }
}

impl Ended {
    /// What stands on the standard output.
    pub fn out(&self) -> &[u8]
        ensures { result.now ≡ out_of self.now }
    {
        self.scene.out.written()
    }

    /// What stands on the standard error.
    pub fn err(&self) -> &[u8]
        ensures { result.now ≡ err_of self.now }
    {
        self.scene.err.written()
    }

    /// Whether it ended so.
    pub fn is(&self, status: u8, out: &[u8], err: &[u8]) -> bool
        ensures { IsTrue result ↔
            ((self.now.status ≡ status) × (out_of self.now ≡ out.now) ×
            (err_of self.now ≡ err.now)) }
    {
        self.status == status && self.out() == out && self.err() == err
    }

    /// How many names of files it asked for.
    pub fn asked(&self) -> usize
        ensures { result ≡ length (asked_of self.now) }
    {
        self.scene.files.asked().len()
    }
}

pub const SUMS: &[u8] = b":default ::= action => ::array\nE ::= E '+' E | N\nN ~ [\\d]\n";

/// The sum `1+2+3` has two derivations.
pub const SUM: Given<'static> = Given {
    words: &["run", "--grammar", "g.slif"],
    grammar: SUMS,
    file: b"1+",
    input: b"1+2+3",
    gives: 2,
    files_fail: &[],
    input_fails: &[],
    out_fails: &[],
    err_fails: &[],
};

pub const SUM_LINES: &[u8] =
    b"[[[\"1\"],\"+\",[\"2\"]],\"+\",[\"3\"]]\n[[\"1\"],\"+\",[[\"2\"],\"+\",[\"3\"]]]\n";

/// The sum with the line of its numbers.
pub const COUNTED: Given<'static> = Given {
    words: &["run", "--grammar", "g.slif", "--stats"],
    ..SUM
};

pub const COUNTED_LINES: &[u8] =
    b"[[[\"1\"],\"+\",[\"2\"]],\"+\",[\"3\"]]\n[[\"1\"],\"+\",[[\"2\"],\"+\",[\"3\"]]]\nstats: tokens 5 kept 25 nodes 13 expanded 0\n";

pub const TREES: Given<'static> = Given {
    words: &["run", "--show", "tree", "--grammar", "g.slif"],
    ..SUM
};

pub const TREE_LINES: &[u8] =
    b"[\"E\",0,[\"E\",0,[\"E\",1,[\"N\",\"1\"]],[\"'+'\",\"+\"],[\"E\",1,[\"N\",\"2\"]]],[\"'+'\",\"+\"],[\"E\",1,[\"N\",\"3\"]]]\n[\"E\",0,[\"E\",1,[\"N\",\"1\"]],[\"'+'\",\"+\"],[\"E\",0,[\"E\",1,[\"N\",\"2\"]],[\"'+'\",\"+\"],[\"E\",1,[\"N\",\"3\"]]]]\n";

/// A symbol that cannot be derived, and one that nothing leads to.
pub const CHECKED: Given<'static> = Given {
    words: &["check", "--grammar", "g.slif"],
    grammar: b"S ::= 'a' | B\nB ::= 'b' B\nC ::=\n",
    input: b"",
    ..SUM
};

pub const CHECKED_LINES: &[u8] =
    b"accepted: 4 rules, 2 lexemes, 0 discards\nS\nB unproductive inaccessible\nC nullable inaccessible\n";

pub const OPERATORS: &[u8] =
    b":default ::= action => ::array\nE ::= N\n   | ('(') E (')') assoc => group\n  || E '**' E assoc => right\n  || E '*' E\n  || E '+' E\nN ~ [\\d]\n";

/// After an operator comes a bracket or a number.
pub const EXPECTED: Given<'static> = Given {
    words: &["expect", "--grammar", "g.slif"],
    grammar: OPERATORS,
    input: b"1+",
    ..SUM
};

pub const EXPECTED_LINES: &[u8] = b"'('\nN\n";

pub const REPORTED: Given<'static> = Given {
    words: &["progress", "--at", "2", "--grammar", "g.slif"],
    input: b"1+",
    ..SUM
};

pub const REPORTED_LINES: &[u8] = b"0:0 @2-2 E\n0:2 @0-2 E\n1:0 @2-2 E\n";

/// The sum is divided at its last operator, or at its first.
pub const COMPARED: Given<'static> = Given {
    words: &["glades", "--grammar", "g.slif"],
    ..SUM
};

pub const COMPARED_LINES: &[u8] = b"E 0-5: 0 at 0,3,4; 0 at 0,1,2\n";

pub const WORKED: Given<'static> = Given {
    words: &["work", "--size", "2"],
    input: b"",
    ..SUM
};

pub const WORKED_LINES: &[u8] = b"work 2: tokens 7 kept 55 nodes 17 expanded 2 values 1\n";

pub const SCRIPT: &[u8] =
    b"symbol S\nsymbol a\nrule S a S\nrule S a\nstart S\nprecompute\nalternative a 2\ncomplete\ncomplete\nexpected\nfrob\nreport 2\ntrees 5\nrule S a a";

/// A token of two places, and what the grammar says of it.
pub const SCRIPTED: Given<'static> = Given {
    words: &["script"],
    grammar: b"",
    input: SCRIPT,
    gives: 8,
    ..SUM
};

pub const SCRIPTED_LINES: &[u8] =
    b"symbol 0\nsymbol 1\nrule 0\nrule 1\nstart\nready\ntaken\nplace 1\nplace 2\na\nbad line\n0:0 @2-2 S\n0:1 @0-2 S\n1:0 @2-2 S\n1:1 @0-2 S\nreported 4\n[\"S\",1,[\"a\",0,2]]\ntrees 1\nnot now\n";

/// The words of a command line.
pub fn words_of(alloc: Global, texts: &[&str]) -> Result<Vec<String>, AllocError>
    ensures { IfOk result (λ words. map string_bytes words.items ≡ texts_of texts.now) }
{
    let mut words = Vec::new(alloc);
    for text in texts {
        words.push(String::from_str(alloc, text)?)?;
    }
    Ok(words)
}

// A file with its name.
fn file_of(alloc: Global, name: &str, text: &[u8]) -> Result<(String, Vec<u8>), AllocError>
    ensures { IfOk result (λ file. (string_bytes file.0 ≡ name.now) × (file.1.items ≡ text.now)) }
{
    Ok((String::from_str(alloc, name)?, text.to_vec(alloc)?))
}

// The files, which fail as it is given.
fn files_of(alloc: Global, given: &Given<'_>) -> Result<MemFiles, AllocError>
    ensures { IfOk result (λ files. files ≡ files_given given.now) }
{
    let mut held = Vec::new(alloc);
    held.push(file_of(alloc, "g.slif", given.grammar)?)?;
    held.push(file_of(alloc, "i.txt", given.file)?)?;
    Ok(MemFiles::new(alloc, held, given.files_fail.to_vec(alloc)?))
}

fn input_of(alloc: Global, given: &Given<'_>) -> Result<MemSource, AllocError>
    ensures { IfOk result (λ input. input ≡ input_given given.now) }
{
    let fails = given.input_fails.to_vec(alloc)?;
    Ok(MemSource::new(given.input.to_vec(alloc)?, given.gives.max(1), fails))
}

// A stream that takes ten bytes at once.
fn sink_of(alloc: Global, fails: &[u64]) -> Result<MemSink, AllocError>
    ensures { IfOk result (λ sink. sink ≡ sink_given fails.now) }
{
    Ok(MemSink::new(alloc, 10, fails.to_vec(alloc)?))
}

fn scene_of(alloc: Global, given: &Given<'_>) -> Result<Scene, AllocError>
    ensures { IfOk result (IsSceneOf given.now) }
{
    Ok(Scene {
        words: words_of(alloc, given.words)?,
        files: files_of(alloc, given)?,
        input: input_of(alloc, given)?,
        out: sink_of(alloc, given.out_fails)?,
        err: sink_of(alloc, given.err_fails)?,
    })
}

// The status of a run. Each part of the outside is lent by itself.
fn status_of<L: Ledger>(
    blank: Blank,
    alloc: Global,
    words: &[String],
    files: &mut MemFiles,
    input: &mut MemSource,
    out: &mut MemSink,
    err: &mut MemSink,
    tellers: Vec<Box<dyn Teller>>,
    supplier: Box<dyn Supplier>,
) -> u8
    requires name { blank.name ≡ L.name }
    requires parts { blank.parts ≡ L.parts }
    requires some { 0 < blank.parts }
    requires tellers { AreBothTellers (states tellers.items shows held) }
    ensures { Runs (map string_bytes words.now) (outside_of files.old input.old out.old err.old)
        (outside_of files.new input.new out.new err.new) result }
{
    let mut steps = Steps::<L>::of_blank(blank);
    run(
        alloc, words, files, input, out, err, tellers, supplier, &mut steps,
    )
}

/// Runs with these tellers and this supplier. What the run does is what `slif_cli` promises.
pub fn run_with(
    alloc: Global,
    given: &Given<'_>,
    tellers: Vec<Box<dyn Teller>>,
    supplier: Box<dyn Supplier>,
) -> Result<Ended, AllocError>
    requires { AreBothTellers (states tellers.items shows held) }
    ensures { IfOk result (λ end. Runs (texts_of given.now.words.now) (before_of given.now)
        (after_of end) end.status) }
{
    let mut scene = scene_of(alloc, given)?;
    let status = status_of::<Brand>(
        Blank::new(1),
        alloc,
        &scene.words,
        &mut scene.files,
        &mut scene.input,
        &mut scene.out,
        &mut scene.err,
        tellers,
        supplier,
    );
    Ok(Ended { status, scene })
}
