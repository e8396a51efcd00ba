// Runs over memory.
mod closed;
mod faults;
mod fronts;
mod inputs;
mod limits;
mod open;
mod predicates;

use crate::{Status, report, run};
use io_edge::{MemorySink, MemorySource};
use std::alloc::Global;
use std::process::Abort;
use std::test::Fail;

const FIRST: &[u8] = b"symbol f/1. solve exists X: X = f(X).";

const ANSWER: &[u8] = b"1 true\n";

// A source with one file.
fn source_of(alloc: Global, bytes: &[u8]) -> Result<MemorySource, Fail> {
    let mut source = MemorySource::new(alloc);
    source.add("file", bytes)?;
    Ok(source)
}

// Runs with ample room on `err`, and compares.
fn expect_run(
    rt: &impl Abort,
    alloc: Global,
    source: &mut MemorySource,
    out: &mut MemorySink,
    status: Status,
    written: &[u8],
    line: &[u8],
    shows: &str,
) -> Result<(), Fail> {
    let mut err = MemorySink::new(alloc, 100)?;
    let words = ["file"];
    let given = run(alloc, &words, source, out, &mut err);
    assert_eq!(rt; given, status, "{shows}");
    assert_eq!(rt; out.bytes(), written, "{shows}");
    assert_eq!(rt; err.bytes(), line, "{shows}");
    Ok(())
}

// Runs with ample room on `out`.
fn expect_ample(
    rt: &impl Abort,
    alloc: Global,
    source: &mut MemorySource,
    status: Status,
    written: &[u8],
    line: &[u8],
    shows: &str,
) -> Result<(), Fail> {
    let mut out = MemorySink::new(alloc, 10_000)?;
    expect_run(rt, alloc, source, &mut out, status, written, line, shows)
}

#[test]
fn an_empty_file_has_no_answers(rt: HostRuntime) -> Result<(), Fail> {
    let alloc = rt.alloc();
    let mut source = source_of(alloc, b"")?;
    expect_ample(&rt, alloc, &mut source, Status::Done, b"", b"", "no bytes")
}

#[test]
fn a_statement_is_answered(rt: HostRuntime) -> Result<(), Fail> {
    let alloc = rt.alloc();
    let mut source = source_of(alloc, FIRST)?;
    expect_ample(
        &rt,
        alloc,
        &mut source,
        Status::Done,
        ANSWER,
        b"",
        "one question",
    )
}

// What comes of a file: answers with semicolons between, or the line of a fault.
fn expect_outcome(
    rt: &impl Abort,
    alloc: Global,
    file: &[u8],
    wanted: &str,
    shows: &str,
) -> Result<(), Fail> {
    let mut source = source_of(alloc, file)?;
    let lines = lines_of(alloc, wanted)?;
    let line = lines.as_bytes();
    if wanted.starts_with("fault") {
        expect_ample(rt, alloc, &mut source, Status::Refused, b"", line, shows)
    } else {
        expect_ample(rt, alloc, &mut source, Status::Done, line, b"", shows)
    }
}

// The parts between semicolons, each as a line.
fn lines_of(alloc: Global, parts: &str) -> Result<String, Fail> {
    let mut lines = String::new(alloc);
    if parts.is_empty() {
        return Ok(lines);
    }
    for part in parts.split("; ") {
        lines.push_str(part)?;
        lines.push_str("\n")?;
    }
    Ok(lines)
}

// The bytes of a text in which `^` stands for a line feed.
fn bytes_of(alloc: Global, text: &str) -> Result<Vec<u8>, Fail> {
    let mut bytes = Vec::new(alloc);
    for &byte in text.as_bytes() {
        bytes.push(if byte == b'^' { b'\n' } else { byte })?;
    }
    Ok(bytes)
}

// What comes of files, a row for each: the outcome, `<<`, and the file's text.
fn expect_rows(rt: &impl Abort, alloc: Global, table: &str) -> Result<(), Fail> {
    for row in table.lines() {
        if row.starts_with("//") {
            continue;
        }
        let (wanted, text) = row.split_once("<< ").ok_or("a row has two parts")?;
        let file = bytes_of(alloc, text)?;
        expect_outcome(rt, alloc, &file, wanted.trim_end(), text)?;
    }
    Ok(())
}

const QUESTIONS: &str = "\
1 false << symbol f/1, a/0. solve exists X: f(X) = a.
1 true << symbol f/2, a/0. solve exists X Y: (X = f(X, Y) & f(X, a) = X).
1 false << symbol f/1, a/0, b/0. solve exists X Y: (f(X) = f(Y) & X = a & Y = b).
1 false << symbol f/1, a/0. solve exists X Y: (X = f(Y) & Y = f(X) & f(a) = X).
1 true; 2 true << symbol f/1. solve exists X: X = f(X). solve exists X: X = X.
1 false << symbol f/1. solve exists X: (X = f(X) & finite(X)).
1 true << symbol f/1. solve forall X Y: (X = f(X) & Y = f(Y) -> X = Y).
1 true << symbol f/1. solve forall X: (X = f(f(X)) -> X = f(X)).
1 false << symbol a/0. solve forall X: X = a.
1 true << symbol a/0, b/0. solve exists X: (X = a & exists X: X = b).
1 false << solve exists X: $0 = $0(X).
1 true; 2 true << solve exists X: X = $7(X). solve exists X Y: $1(X) = $1(Y).
1 true; 2 true; 3 false << solve exists X: X = $0. symbol f/1. solve exists X: X = f(X). symbol a/0. solve exists X: f(X) = a.";

#[test]
fn questions_are_answered(rt: HostRuntime) -> Result<(), Fail> {
    expect_rows(&rt, rt.alloc(), QUESTIONS)
}

#[test]
fn reads_and_writes_in_pieces(rt: HostRuntime) -> Result<(), Fail> {
    let alloc = rt.alloc();
    let mut source = source_of(alloc, FIRST)?;
    source.most(1);
    let mut out = MemorySink::new(alloc, 100)?;
    out.most(3);
    expect_run(
        &rt,
        alloc,
        &mut source,
        &mut out,
        Status::Done,
        ANSWER,
        b"",
        "in pieces",
    )
}

// Call 0 opens, 1 reads, 2 finds the end.
#[test]
fn each_call_of_the_source_fails(rt: HostRuntime) -> Result<(), Fail> {
    let alloc = rt.alloc();
    for call in 0..3 {
        let mut source = source_of(alloc, FIRST)?;
        source.fail_at(call)?;
        expect_ample(
            &rt,
            alloc,
            &mut source,
            Status::ReadFault,
            b"",
            b"fault read\n",
            "a failed call",
        )?;
    }
    Ok(())
}

#[test]
fn a_name_that_is_not_held(rt: HostRuntime) -> Result<(), Fail> {
    let alloc = rt.alloc();
    let mut source = MemorySource::new(alloc);
    source.add("other", FIRST)?;
    expect_ample(
        &rt,
        alloc,
        &mut source,
        Status::ReadFault,
        b"",
        b"fault read\n",
        "a missing file",
    )
}

#[test]
fn the_third_write_fails(rt: HostRuntime) -> Result<(), Fail> {
    let alloc = rt.alloc();
    let mut source = source_of(alloc, FIRST)?;
    let mut out = MemorySink::new(alloc, 100)?;
    out.most(2);
    out.fail_at(2)?;
    expect_run(
        &rt,
        alloc,
        &mut source,
        &mut out,
        Status::WriteFault,
        b"1 tr",
        b"fault write\n",
        "a failed write",
    )
}

#[test]
fn little_room(rt: HostRuntime) -> Result<(), Fail> {
    let alloc = rt.alloc();
    let mut source = source_of(alloc, FIRST)?;
    let mut out = MemorySink::new(alloc, 6)?;
    expect_run(
        &rt,
        alloc,
        &mut source,
        &mut out,
        Status::WriteFault,
        b"1 true",
        b"fault write\n",
        "little room",
    )
}

#[test]
fn a_line_that_is_not_written_leaves_the_status(rt: HostRuntime) -> Result<(), Fail> {
    let alloc = rt.alloc();
    let mut source = source_of(alloc, b"#")?;
    let mut out = MemorySink::new(alloc, 100)?;
    let mut err = MemorySink::new(alloc, 100)?;
    err.fail_at(0)?;
    let words = ["file"];
    assert_eq!(rt;
        run(alloc, &words, &mut source, &mut out, &mut err),
        Status::Refused
    );
    assert_eq!(rt; err.bytes(), b"".as_slice());
    Ok(())
}

#[test]
fn a_status_has_its_line_and_its_number(rt: HostRuntime) -> Result<(), Fail> {
    let mut err = MemorySink::new(rt.alloc(), 100)?;
    report(&mut err, Status::Memory);
    assert_eq!(rt; err.bytes(), b"fault memory\n".as_slice());
    assert_eq!(rt; Status::Memory.exit(), 5);
    Ok(())
}
