// The limits on sizes and numbers: what just passes, and what is just refused.
use super::expect_outcome;
use std::alloc::Global;
use std::process::Abort;
use std::test::Fail;

// A text as its pieces, with `#` between them: how often each is repeated, a star, and the piece.
fn repeated(alloc: Global, pieces: &str) -> Result<String, Fail> {
    let mut text = String::new(alloc);
    for piece in pieces.split("#") {
        let (count, part) = piece.split_once("*").ok_or("a piece has two parts")?;
        let count = count.parse::<usize>().ok().ok_or("a count is a number")?;
        for _ in 0..count {
            text.push_str(part)?;
        }
    }
    Ok(text)
}

// What comes of files, a row for each: the outcome, `<<`, and the pieces of the file's text.
fn expect_long_rows(rt: &impl Abort, alloc: Global, table: &str) -> Result<(), Fail> {
    for row in table.lines() {
        if row.starts_with("//") {
            continue;
        }
        let (wanted, pieces) = row.split_once("<< ").ok_or("a row has two parts")?;
        let text = repeated(alloc, pieces)?;
        expect_outcome(rt, alloc, text.as_bytes(), wanted.trim_end(), pieces)?;
    }
    Ok(())
}

const NESTINGS: &str = "\
1 true << 1*solve #200*~#1*true.
fault 206 limit << 1*solve #201*~#1*true.
1 true << 1*solve #200*(#1*true#200*)#1*.
fault 206 limit << 1*solve #201*(#1*true#201*)#1*.
1 true << 1*solve #200*exists X: #1*true.
1 true << 1*solve #200*forall X: #1*true.
fault 2006 limit << 1*solve #201*forall X: #1*true.
1 true << 1*solve #200*true -> #1*true.
fault 1611 limit << 1*solve #201*true -> #1*true.
fault 1620 sort << 1*symbol a/0. solve #200*true -> #1*a -> true.
1 true << 1*symbol f/1. solve exists X: X = #199*f(#1*X#199*)#1*.
fault 431 limit << 1*symbol f/1. solve exists X: X = #200*f(#1*X#200*)#1*.
1 true << 1*symbol f/1. solve exists X: (X = #198*f(#1*X#198*)#1*).
fault 430 limit << 1*symbol f/1. solve exists X: (X = #199*f(#1*X#199*)#1*).
// depth counts, and no total
1 true << 1*solve (true)#299* & (true)#1*.
1 true << 1*solve (true#199* -> true#1*) & (true#199* -> true#1*).
fault 3205 limit << 1*solve (true#199* -> true#1*) & (true#200* -> true#1*).";

#[test]
fn nestings(rt: HostRuntime) -> Result<(), Fail> {
    expect_long_rows(&rt, rt.alloc(), NESTINGS)
}

const JOINTS: &str = "\
1 true << 1*solve true#1000* & true#1*.
1 false << 1*solve false#1000* | false#1*.
fault 7011 limit << 1*solve true#1001* & true#1*.
// parameters are none of them
1 true << 1*pred p(X, Y) := true#1000* & true#1*. solve p(X, X).
fault 7011 limit << 1*solve true#1001* | true#1*.
1 true << 1*symbol f/1. solve exists X: (X = f(X)#999* & X = f(X)#1*).
fault 11027 limit << 1*symbol f/1. solve exists X: (X = f(X)#1000* & X = f(X)#1*).
1 true << 1*solve exists#1000* X#1*: X = X.
fault 2013 limit << 1*solve exists#1001* X#1*: X = X.
1 true; 2 true << 1*solve exists#600* X#1*: X = X. solve exists#600* Y#1*: Y = Y.";

#[test]
fn joints_of_one_statement(rt: HostRuntime) -> Result<(), Fail> {
    expect_long_rows(&rt, rt.alloc(), JOINTS)
}

const LONG_WORDS: &str = "\
<< 1*symbol #64*a#1*/0.
fault 7 limit << 1*symbol #65*a#1*/0.
1 true << 1*solve exists #64*X#1*: $0 = $0.
fault 13 limit << 1*solve exists #65*X#1*: $0 = $0.
fault 10 limit << 1*solve X = #65*X#1*.
fault 6 unknown << 1*solve #65*q#1*.
<< 1*symbol f/#200*0#1*1.
fault 9 limit << 1*symbol f/1#200*0#1*.
1 true << 1*solve exists X: X = $#200*0#1*1.";

#[test]
fn long_words(rt: HostRuntime) -> Result<(), Fail> {
    expect_long_rows(&rt, rt.alloc(), LONG_WORDS)
}

const GREATEST: &str = "\
<< 131072*       \x20
1 true << 1*symbol f/1. solve exists X: X = f(X).#131067*        #1*  \x20";

#[test]
fn a_file_of_the_greatest_size(rt: HostRuntime) -> Result<(), Fail> {
    expect_long_rows(&rt, rt.alloc(), GREATEST)
}

const ONE_BYTE_MORE: &str = "\
fault 1048576 limit << 131072*        #1*\x20
fault 1048576 limit << 131072*((((((((#1*(";

#[test]
fn files_with_one_byte_more(rt: HostRuntime) -> Result<(), Fail> {
    expect_long_rows(&rt, rt.alloc(), ONE_BYTE_MORE)
}

// A text with a part for each number below `count`.
fn counted(
    alloc: Global,
    before: &str,
    left: &str,
    right: &str,
    behind: &str,
    count: usize,
) -> Result<String, Fail> {
    let mut text = String::new(alloc);
    text.push_str(before)?;
    for number in 0..count {
        let part = format!(in alloc; "{left}{number}{right}")?;
        text.push_str(&part)?;
    }
    text.push_str(behind)?;
    Ok(text)
}

#[test]
fn the_greatest_number_of_symbols(rt: HostRuntime) -> Result<(), Fail> {
    let alloc = rt.alloc();
    let text = counted(alloc, "symbol s/0", ", s", "/0", ".", 4095)?;
    expect_outcome(&rt, alloc, text.as_bytes(), "", "4,096 symbols")
}

#[test]
fn one_symbol_more(rt: HostRuntime) -> Result<(), Fail> {
    let alloc = rt.alloc();
    let text = counted(alloc, "symbol s/0", ", s", "/0", ".", 4096)?;
    expect_outcome(
        &rt,
        alloc,
        text.as_bytes(),
        "fault 35757 limit",
        "4,097 symbols",
    )
}

#[test]
fn predicates_of_one_file(rt: HostRuntime) -> Result<(), Fail> {
    let alloc = rt.alloc();
    let most = counted(alloc, "", "pred p", " := true. ", "solve p1023.", 1024)?;
    expect_outcome(&rt, alloc, most.as_bytes(), "1 true", "1,024 predicates")?;
    let more = counted(alloc, "", "pred p", " := true. ", "", 1025)?;
    expect_outcome(
        &rt,
        alloc,
        more.as_bytes(),
        "fault 19375 limit",
        "1,025 predicates",
    )
}

#[test]
fn variables_behind_one_quantifier(rt: HostRuntime) -> Result<(), Fail> {
    let alloc = rt.alloc();
    let most = counted(alloc, "solve exists", " X", "", ": X0 = X999.", 1000)?;
    expect_outcome(&rt, alloc, most.as_bytes(), "1 true", "1,000 variables")?;
    let more = counted(alloc, "solve exists", " X", "", ": X0 = X999.", 1001)?;
    expect_outcome(
        &rt,
        alloc,
        more.as_bytes(),
        "fault 4903 limit",
        "1,001 variables",
    )
}
