// What the words name: files, stored games and generated texts.
use super::lines_of;
use crate::{Status, run};
use io_edge::{Failed, MemorySink, MemorySource, Source};
use std::alloc::Global;
use std::process::Abort;
use std::test::Fail;

// The words of a row, with a bar between each two.
fn words_of<'a>(alloc: Global, row: &'a str) -> Result<Vec<&'a str>, Fail> {
    let mut words = Vec::new(alloc);
    if row.is_empty() {
        return Ok(words);
    }
    for word in row.split('|') {
        words.push(word)?;
    }
    Ok(words)
}

// Runs with these words, and compares the status and what went out.
fn expect_words(
    rt: &impl Abort,
    alloc: Global,
    source: &mut MemorySource,
    row: &str,
    wanted: &str,
) -> Result<(), Fail> {
    let words = words_of(alloc, row)?;
    let mut out = MemorySink::new(alloc, 1000)?;
    let mut err = MemorySink::new(alloc, 1000)?;
    let status = run(alloc, words.as_slice(), source, &mut out, &mut err);
    let lines = lines_of(alloc, wanted)?;
    if wanted.starts_with("fault usage") {
        assert_eq!(rt; status, Status::Usage, "{row}");
        assert_eq!(rt; out.bytes(), b"".as_slice(), "{row}");
        assert_eq!(rt; err.bytes(), lines.as_bytes(), "{row}");
    } else {
        assert_eq!(rt; status, Status::Done, "{row}");
        assert_eq!(rt; out.bytes(), lines.as_bytes(), "{row}");
        assert_eq!(rt; err.bytes(), b"".as_slice(), "{row}");
    }
    Ok(())
}

// The same with a source whose call 0 is to fail. It has met no call where the next one fails.
fn expect_no_call(rt: &impl Abort, alloc: Global, row: &str, wanted: &str) -> Result<(), Fail> {
    let mut source = MemorySource::new(alloc);
    source.add("x", b"solve true.")?;
    source.fail_at(0)?;
    expect_words(rt, alloc, &mut source, row, wanted)?;
    assert_eq!(rt; source.open("x"), Err(Failed), "{row}");
    Ok(())
}

// What is written, `<<`, and the words.
fn expect_rows(rt: &impl Abort, alloc: Global, table: &str) -> Result<(), Fail> {
    for row in table.lines() {
        let (wanted, words) = row.split_once("<<").ok_or("a row has two parts")?;
        expect_no_call(rt, alloc, words.trim_start(), wanted.trim_end())?;
    }
    Ok(())
}

const REFUSED: &str = "\
fault usage <<
fault usage << x|y
fault usage << x|x
fault usage << --game|nim
fault usage << --game
fault usage << --game|x
fault usage << x|--game|take2
fault usage << --game|take2|--game|take2
fault usage << --ga|take2
fault usage << -h
fault usage << --help
fault usage << --engine|nested|x
fault usage << --self|1001
fault usage << --self|1|x
fault usage << --self|1|--game|take2
fault usage << --self|one";

#[test]
fn words_are_refused(rt: HostRuntime) -> Result<(), Fail> {
    expect_rows(&rt, rt.alloc(), REFUSED)
}

#[test]
fn a_heap_of_which_one_or_two_are_taken(rt: HostRuntime) -> Result<(), Fail> {
    let answers = "1 true; 2 false; 3 true; 4 false; 5 false";
    expect_no_call(&rt, rt.alloc(), "--game|take2", answers)?;
    expect_no_call(&rt, rt.alloc(), "--game=take2", answers)
}

#[test]
fn two_heaps(rt: HostRuntime) -> Result<(), Fail> {
    let answers = "1 true; 2 false; 3 false";
    expect_no_call(&rt, rt.alloc(), "--game|two_piles", answers)
}

#[test]
fn a_tree_that_moves_to_a_part(rt: HostRuntime) -> Result<(), Fail> {
    let answers = "1 true; 2 false; 3 true; 4 false";
    expect_no_call(&rt, rt.alloc(), "--game|unroll", answers)
}

// The counts are those of a model in another language.
const COUNTED: &str = "\
true 0 false 0 open 0 << --self|0
true 0 false 0 open 1 << --self|1
true 0 false 0 open 1 << --self|0001
true 16 false 8 open 26 << --self|50
true 16 false 8 open 26 << --self=50";

#[test]
fn generated_statements_are_counted(rt: HostRuntime) -> Result<(), Fail> {
    expect_rows(&rt, rt.alloc(), COUNTED)
}

#[test]
fn a_thousand_statements_are_counted(rt: HostRuntime) -> Result<(), Fail> {
    let counts = "true 279 false 241 open 480";
    expect_no_call(&rt, rt.alloc(), "--self|1000", counts)
}

// A word that names a file, and its bytes.
fn expect_file(rt: &impl Abort, alloc: Global, name: &str, row: &str) -> Result<(), Fail> {
    let mut source = MemorySource::new(alloc);
    source.add(name, b"solve true. solve false.")?;
    expect_words(rt, alloc, &mut source, row, "1 true; 2 false")
}

#[test]
fn words_that_name_a_file(rt: HostRuntime) -> Result<(), Fail> {
    let alloc = rt.alloc();
    expect_file(&rt, alloc, "x", "x")?;
    expect_file(&rt, alloc, "x", "--|x")?;
    expect_file(&rt, alloc, "--game", "--|--game")?;
    expect_file(&rt, alloc, "-", "-")?;
    expect_file(&rt, alloc, "help", "help")?;
    expect_file(&rt, alloc, "take2", "take2")
}

// The line of counts is cut where a write fails.
#[test]
fn a_line_of_counts_is_cut(rt: HostRuntime) -> Result<(), Fail> {
    let alloc = rt.alloc();
    let mut source = MemorySource::new(alloc);
    let mut out = MemorySink::new(alloc, 1000)?;
    out.most(5);
    out.fail_at(2)?;
    let mut err = MemorySink::new(alloc, 1000)?;
    let words = ["--self", "1"];
    let status = run(alloc, &words, &mut source, &mut out, &mut err);
    assert_eq!(rt; status, Status::WriteFault);
    assert_eq!(rt; out.bytes(), b"true 0 fal".as_slice());
    assert_eq!(rt; err.bytes(), b"fault write\n".as_slice());
    Ok(())
}
