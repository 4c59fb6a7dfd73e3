//! The outside: which calls fail, and the real forms.
ghost use Rattle.std.specs.Prelude.{◌≡◌, ◌<◌, ◌≤◌};

use slif_base::{
    Chars, DiskFiles, FileRefusal, Files, MemFiles, MemSink, MemSource, ReadRefusal, Sink, Source,
    StdSink, StdSource, Steps, TextRefusal, chars_from, chars_of, read_all, read_named, write_all,
};
use std::alloc::{AllocError, Global};
use std::fs;
use std::marker::Brand;
use std::sync::ledger::{Blank, Ledger};
use std::test::Fail;

fn source(alloc: Global, give: usize, fails: &[u64]) -> Result<MemSource, AllocError>
    requires { 1 ≤ give }
{
    let bytes = b"hello".to_vec(alloc)?;
    Ok(MemSource::new(bytes, give, fails.to_vec(alloc)?))
}

fn is_answer<E: PartialEq + Drop>(read: &Result<Vec<u8>, E>, wanted: Result<&[u8], E>) -> bool {
    match (read, wanted) {
        (Ok(bytes), Ok(wanted)) => bytes.as_slice() == wanted,
        (Err(refusal), Err(wanted)) => *refusal == wanted,
        _ => false,
    }
}

// Whether reading a source whole has this answer.
fn is_read<S: Source>(
    alloc: Global,
    source: &mut S,
    most: usize,
    wanted: Result<&[u8], ReadRefusal>,
) -> bool {
    is_answer(&read_all(alloc, source, most), wanted)
}

// Whether reading "hello", some of whose reads fail, has this answer, and so many reads fail.
fn reads(
    alloc: Global,
    fails: &[u64],
    most: usize,
    wanted: Result<&[u8], ReadRefusal>,
    faults: u64,
) -> Result<bool, AllocError> {
    let mut source = source(alloc, 2, fails)?;
    Ok(is_read(alloc, &mut source, most, wanted) && source.faults() == faults)
}

#[test]
fn reads_all(rt: HostRuntime) -> Result<(), Fail> {
    let alloc = rt.alloc();
    assert!(rt; reads(alloc, &[], 5, Ok(b"hello".as_slice()), 0)?);
    assert!(rt; reads(alloc, &[], 4, Err(ReadRefusal::TooLarge), 0)?);
    assert!(rt; reads(alloc, &[2], 5, Err(ReadRefusal::ReadFault), 1)?);
    Ok(())
}

// Whether writing "hello" to a sink, some of whose writes fail, ends so, with these bytes written, and so many writes fail.
fn writes(
    alloc: Global,
    fails: &[u64],
    done: bool,
    wanted: &[u8],
    faults: u64,
) -> Result<bool, AllocError> {
    let mut sink = MemSink::new(alloc, 2, fails.to_vec(alloc)?);
    let is_done = write_all(&mut sink, b"hello").is_ok();
    Ok(is_done == done && sink.written() == wanted && sink.faults() == faults)
}

#[test]
fn writes_all(rt: HostRuntime) -> Result<(), Fail> {
    assert!(rt; writes(rt.alloc(), &[], true, b"hello", 0)?);
    assert!(rt; writes(rt.alloc(), &[2], false, b"he", 1)?);
    Ok(())
}

fn files(alloc: Global, fails: &[u64]) -> Result<MemFiles, AllocError> {
    let name = String::from_str(alloc, "a")?;
    let held = vec![in alloc; (name, b"hello".to_vec(alloc)?)]?;
    Ok(MemFiles::new(alloc, held, fails.to_vec(alloc)?))
}

// Whether reading a named file whole has this answer.
fn is_named<F: Files>(
    alloc: Global,
    files: &mut F,
    name: &str,
    most: usize,
    wanted: Result<&[u8], FileRefusal>,
) -> bool {
    is_answer(&read_named(alloc, files, name, most), wanted)
}

fn are_named(alloc: Global, files: &mut MemFiles) -> bool {
    is_named(alloc, files, "a", 5, Ok(b"hello".as_slice()))
        && is_named(alloc, files, "b", 5, Err(FileRefusal::OpenFault))
        && is_named(alloc, files, "a", 5, Err(FileRefusal::OpenFault))
        && is_named(alloc, files, "a", 4, Err(FileRefusal::TooLarge))
}

#[test]
fn reads_named(rt: HostRuntime) -> Result<(), Fail> {
    let mut files = files(rt.alloc(), &[5])?;
    assert!(rt; are_named(rt.alloc(), &mut files));
    assert!(rt; files.faults() == 2 && files.asked().len() == 3);
    Ok(())
}

// Whether the current file is read on after an open and a read that fail.
fn reads_on(files: &mut MemFiles) -> Result<bool, Fail> {
    files.open_file("a")?;
    let mut piece = [0u8; 5];
    if files.open_file("b").is_ok() || files.read_file(&mut piece).is_ok() {
        return Ok(false);
    }
    Ok(files.read_file(&mut piece)? == 5 && piece.as_slice() == b"hello".as_slice())
}

#[test]
fn reads_on_after_a_failed_open(rt: HostRuntime) -> Result<(), Fail> {
    let mut files = files(rt.alloc(), &[3])?;
    assert!(rt; reads_on(&mut files)? && files.faults() == 2);
    Ok(())
}

fn reads_by_std(alloc: Global) -> bool {
    let mut input = StdSource::new(b"hello".as_slice());
    is_read(alloc, &mut input, 5, Ok(b"hello".as_slice())) && input.faults() == 0
}

fn writes_by_std() -> bool {
    let mut room = [0u8; 3];
    let mut out = StdSink::new(room.as_mut_slice());
    write_all(&mut out, b"hello").is_err() && out.faults() == 1
}

#[test]
fn reads_and_writes_by_std(rt: HostRuntime) {
    assert!(rt; reads_by_std(rt.alloc()));
    assert!(rt; writes_by_std());
}

fn are_read<F: Files>(alloc: Global, files: &mut F) -> bool {
    is_named(alloc, files, "a", 5, Ok(b"hello".as_slice()))
        && is_named(alloc, files, "b", 5, Err(FileRefusal::OpenFault))
        && files.faults() == 1
}

#[test]
fn reads_from_disk(rt: HostRuntime) -> Result<(), Fail> {
    fs::write(&rt, "a", "hello")?;
    let read = are_read(rt.alloc(), &mut DiskFiles::new(&rt));
    assert!(rt; read);
    Ok(())
}

fn ticks<L: Ledger>(blank: Blank)
    requires name { blank.name ≡ L.name }
    requires parts { blank.parts ≡ L.parts }
    requires some { 0 < blank.parts }
{
    let mut steps = Steps::<L>::of_blank(blank);
    steps.tick();
}

#[test]
fn counts(_rt: HostRuntime) {
    ticks::<Brand>(Blank::new(1));
}

// Whether a place of a text has this line and this column.
fn is_place(text: &Chars, at: usize, line: u32, column: u32) -> bool {
    at <= text.len() && at < 100 && text.line_column(at) == (line, column)
}

static PLACES: [(usize, u32, u32); 5] = [(0, 1, 1), (1, 1, 2), (2, 1, 3), (3, 2, 1), (5, 3, 1)];

fn are_places(text: &Chars) -> bool {
    for (at, line, column) in &PLACES {
        if !is_place(text, *at, *line, *column) {
            return false;
        }
    }
    text.len() == 5 && text.at(1) == 'é'
}

#[test]
fn lines_and_columns(rt: HostRuntime) -> Result<(), Fail> {
    let text = chars_of(rt.alloc(), "aé\n\r\n".as_bytes())?;
    assert!(rt; are_places(&text));
    Ok(())
}

// The characters of bytes that are moved.
fn moved(alloc: Global, bytes: &[u8]) -> Result<Chars, TextRefusal> {
    let bytes = Vec::from_slice(alloc, bytes)?;
    chars_from(alloc, bytes)
}

fn is_moved(text: &Chars) -> bool {
    text.len() == 5 && text.at(3) == 'c' && text.text(1, 4) == "b\nc" && is_place(text, 4, 2, 2)
}

fn is_refused(alloc: Global, bytes: &[u8], place: usize) -> bool {
    match moved(alloc, bytes) {
        Err(TextRefusal::NotUtf8 { at }) => at == place,
        _ => false,
    }
}

#[test]
fn bytes_are_moved_into_a_text(rt: HostRuntime) -> Result<(), Fail> {
    let text = moved(rt.alloc(), b"ab\ncd")?;
    assert!(rt; is_moved(&text) && is_refused(rt.alloc(), b"ab\xff", 2));
    Ok(())
}
