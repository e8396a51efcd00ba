ghost use Rattle.std.specs.Prelude.{◌<◌, ◌≤◌, ◌/◌, length};

use super::*;
use flat_form::{Args, Basic, Flat, is_solved};
use std::alloc::Global;
use std::test::*;
use tree_model::{NoMemory, Places, Symbol};

// Atoms are written in five letters each: what is said, the variable, and up to three variables more. Said is `=` for an
// equation of variables, `!` for finite, `a` and `b` for names, `f` and `k` for symbols with one argument, `g` and `m` with
// two, `h` and `n` with three. A variable is one figure.
pub(crate) fn variable(letter: u8) -> usize {
    (letter % 16) as usize
}

fn term(alloc: Global, letters: [u8; 5], symbol: Symbol, count: usize) -> Result<Flat, NoMemory>
    requires { count ≤ 3 }
{
    let mut args = Args::new(alloc);
    for i in 0..count {
        args.push(variable(letters[2 + i]))?;
    }
    Ok(Flat::VarTerm(variable(letters[1]), symbol, args))
}

fn atom(alloc: Global, letters: [u8; 5]) -> Result<Flat, NoMemory> {
    let left = variable(letters[1]);
    match letters[0] {
        b'=' => Ok(Flat::VarVar(left, variable(letters[2]))),
        b'a' => term(alloc, letters, Symbol::Named(0), 0),
        b'b' => term(alloc, letters, Symbol::Further(0), 0),
        b'f' => term(alloc, letters, Symbol::Named(1), 1),
        b'k' => term(alloc, letters, Symbol::Further(1), 1),
        b'g' => term(alloc, letters, Symbol::Named(2), 2),
        b'm' => term(alloc, letters, Symbol::Further(2), 2),
        b'h' => term(alloc, letters, Symbol::Named(3), 3),
        b'n' => term(alloc, letters, Symbol::Further(3), 3),
        _ => Ok(Flat::Finite(left)),
    }
}

// The i-th five letters of the text.
pub(crate) fn letters_at(text: &[u8], i: usize) -> [u8; 5]
    requires { i < length text.now / 5 }
{
    let at = 5 * i;
    [
        text[at],
        text[at + 1],
        text[at + 2],
        text[at + 3],
        text[at + 4],
    ]
}

pub(crate) fn conjunction(alloc: Global, text: &[u8]) -> Result<Basic, NoMemory> {
    let mut basic = Basic::new(alloc);
    for i in 0..text.len() / 5 {
        basic.push(atom(alloc, letters_at(text, i))?)?;
    }
    Ok(basic)
}

// Whether the list is written with these figures.
pub(crate) fn is_list(list: &Places, figures: &[u8]) -> bool {
    if list.len() != figures.len() {
        return false;
    }
    for i in 0..list.len() {
        if *list.get(i) != variable(figures[i]) {
            return false;
        }
    }
    true
}

// Whether the answer is as expected: `L` and the path of the loop, or `E` and the leaves.
fn is_expected(spread: &ListSpread, expected: &[u8]) -> bool {
    let Some((letter, figures)) = expected.split_first() else {
        return false;
    };
    match spread {
        ListSpread::Loop(path) => *letter == b'L' && is_list(path, figures),
        ListSpread::Leaves(list) => *letter == b'E' && is_list(list, figures),
    }
}

// Whether the conjunction is solved, and this is its spread.
fn is_spread_so(alloc: Global, text: &[u8], v: usize, expected: &[u8]) -> Result<bool, NoMemory> {
    let basic = conjunction(alloc, text)?;
    if !is_solved(&basic) {
        return Ok(false);
    }
    let spread = spread_list(alloc, &basic, v)?;
    Ok(is_expected(&spread, expected))
}

#[test]
fn two_that_lead_to_each_other_are_a_loop(rt: HostRuntime) -> Result<(), Fail> {
    assert!(rt; is_spread_so(rt.alloc(), b"f01..f10..", 0, b"L00")?);
    Ok(())
}

#[test]
fn a_walk_ends_at_a_variable_without_a_term(rt: HostRuntime) -> Result<(), Fail> {
    assert!(rt; is_spread_so(rt.alloc(), b"f01..", 0, b"E1")?);
    Ok(())
}

#[test]
fn a_variable_in_no_atom_is_its_own_leaf(rt: HostRuntime) -> Result<(), Fail> {
    let mut basic = Basic::new(rt.alloc());
    basic.push(Flat::Finite(7))?;
    assert!(rt; is_solved(&basic));
    match spread_list(rt.alloc(), &basic, usize::MAX)? {
        ListSpread::Leaves(list) => {
            assert_eq!(rt; list.len(), 1);
            assert_eq!(rt; *list.get(0), usize::MAX);
        }
        ListSpread::Loop(_) => {
            assert!(rt; false);
        }
    }
    Ok(())
}

// A chain of equations, each variable over the next one.
fn chain(alloc: Global, count: usize) -> Result<Basic, NoMemory>
    requires { count < 9000 }
{
    let mut basic = Basic::new(alloc);
    for v in 0..count {
        let mut args = Args::new(alloc);
        args.push(v + 1)?;
        args.push(v + 1)?;
        basic.push(Flat::VarTerm(v, Symbol::Named(2), args))?;
    }
    Ok(basic)
}

#[test]
fn a_long_chain_of_shared_terms_is_walked_once(rt: HostRuntime) -> Result<(), Fail> {
    let basic = chain(rt.alloc(), 2000)?;
    assert!(rt; is_solved(&basic));
    match spread_list(rt.alloc(), &basic, 0)? {
        ListSpread::Leaves(list) => {
            assert_eq!(rt; list.len(), 1);
            assert_eq!(rt; *list.get(0), 2000);
        }
        ListSpread::Loop(_) => {
            assert!(rt; false);
        }
    }
    Ok(())
}

#[test]
fn spreads_are_those_of_all_walks(rt: HostRuntime) -> Result<(), Fail> {
    for i in 0..COUNT {
        let right = is_spread_so(
            rt.alloc(),
            CONJUNCTIONS[i].as_bytes(),
            STARTS[i],
            SPREADS[i].as_bytes(),
        )?;
        assert!(rt; right, "case {i}");
    }
    Ok(())
}

// The first show one thing each: a start that equals another variable, one beyond all atoms, a finite atom, a loop behind
// the second argument alone, shared terms with and without a loop behind them. The others are solved conjunctions made at
// random. Expected is what a slow program finds that tries every walk.
pub(crate) const COUNT: usize = 119;

pub(crate) const CONJUNCTIONS: [&str; 119] = [
    "f01..f10..",
    "f01..",
    "f00..",
    "f02..=10..",
    "f01..f10..=21..",
    "f01..",
    "!0...",
    "g012.!1...",
    "g010.",
    "g012.a1...g230.",
    "g012.f13..k23..g345.",
    "g012.f13..k23..g342.",
    "g011.g122.g233.",
    "h0123f12..f23..k31..",
    "g021.f10..k21..",
    "h0949g479.",
    "a0...",
    "=10..",
    "",
    "f01..n1771m266.m355.k45..g577.n6773h7635",
    "m013.m136.n2353f36..f57..g610.k72..",
    "f14..m255.g344.g455.n5344",
    "f01..n1122g222.",
    "m031.n1044!2...m334.",
    "f03..m203.k37..m405.m577.=61..!7...",
    "m077.g195.b2...m364.h4189!5...k68..n7899h9312",
    "n0117!1...g328.m465.b6...m788.!8...",
    "m032.!1...g236.m358.m456.n5777n7088m827.",
    "g011.g100.=21..",
    "g015.g133.=21..g345.a4...f51..",
    "n0643f17..h4846h5667!6...m788.f85..",
    "k04..b2...n3545n4555m504.",
    "m051.b1...h2154=31..h5205",
    "n0627f16..g286.=32..g468.=54..m678.f84..",
    "g013.h1202",
    "g036.k23..g366.=43..=51..g603.",
    "n0200h2022",
    "n0316m149.=21..k34..!4...=51..h6898=71..n9340",
    "m041.m125.h3154h4535b5...",
    "g032.g133.n2333g300.",
    "h0224n1025n2444=31..g455.n5544",
    "g035.n1315=20..!3...=40..n5013",
    "g076.h1123m255.n3764b5...h7532",
    "m013.g123.b2...h3034a4...",
    "h1868=20..n3677!4...n5767k67..!7...",
    "n0013h1501!2...!3...!5...",
    "m015.h1455m253.m354.g425.!5...",
    "k01..n1221",
    "g074.g195.g273.n3788g458.!5...n6794!7...!8...n9760",
    "h0526f15..n2445k31..n4787m574.n6888m788.m886.",
    "g034.n1435!2...g356.a4...b5...",
    "m011.=21..",
    "g014.g122.k24..m441.",
    "n0131n1313=20..!3...",
    "h0616m146.=21..g346.=54..h6034=74..",
    "k11..=21..",
    "n0341k17..=20..g346.m457.a6...m773.=80..",
    "n1353m263.n3457k46..n5777f78..!8...",
    "g014.g123.n3444a4...=50..",
    "n0431h1443a3...g434.",
    "g154.b2...!3...m479.g589.g679.g899.m975.",
    "k05..g123.m244.!3...h4255m554.",
    "f13..=20..g486.g588.!6...=76..f80..",
    "!0...n1124h2887=30..f46..h6757",
    "g047.h1452!2...g378.g481.k58..n6274h7388f80..",
    "h0941h1365=21..h4587f69..n7959n8999g933.",
    "g067.m278.f34..f52..a6...g732.n8531",
    "m036.f14..g274.n3117b5...m617.g775.",
    "g012.m255.b3...a4...",
    "n0936f12..m283.g357.=40..g577.h6325a7...g899.m928.",
    "m044.g104.=20..h4114",
    "m048.a2...!3...!6...k79..h8599g962.",
    "h0233=10..k42..",
    "g041.g143.=21..n3344m431.",
    "!1...h2989=32..=42..k59..!6...n7998h8997",
    "m052.h1657!2...!3...m466.g560.b6...",
    "m011.g131.n2333",
    "g031.m113.n3303",
    "h0411m166.=30..k55..h6016",
    "m038.g167.h2636m351.g470.m574.h7868n8551",
    "m087.=10..n2683b3...h4546m608.h8067=96..",
    "h0111m122.g202.",
    "b0...!1...n2314!4...k54..",
    "a0...b1...k42..",
    "n0448m143.n2844k34..m461.m588.h6408=73..",
    "h0912!1...f39..m588.m679.m719.k89..g924.",
    "n0377!1...!2...k34..m478.n5799n6867f76..n8749b9...",
    "m122.!2...",
    "n0322=10..n2333h3032",
    "f04..=10..g250.g355.f42..g554.",
    "n0232=10..m233.f33..",
    "g051.a1...!2...g468.g567.f68..!7...k85..",
    "h0606g154.!2...m355.g466.a5...g610.=76..",
    "k04..h1342n2353g355.f40..m542.=62..",
    "!0...!2...=32..n4070h5776!6...!7...",
    "!1...n2111",
    "b0...=10..=20..!3...",
    "k01..k12..m253.f45..n5666",
    "m022.=10..f23..!3...",
    "k05..h1777m356.!5...n7667",
    "k02..h2343g389.f47..=50..h6997",
    "m032.h1351h4565m591.!6...=76..g986.",
    "=10..f24..m350.h4550",
    "m077.n2528=31..!4...f58..=61..h7788g858.",
    "!0...n1222b2...",
    "h0534=20..n3475f45..!5...=64..!7...",
    "!0...f12..f26..h3565h4050g526.h6163",
    "m012.g124.g233.!4...",
    "b0...m122.!2...!3...",
    "=10..g246.h4780h5667f66..g788.m832.",
    "m064.a1...g245.m344.m456.!6...",
    "m011.m132.b2...a3...",
    "k02..n2578h3775m464.n5786g681.g788.",
    "h0898m175.m260.f39..m496.g569.k79..n9363",
    "b0...m133.=20..k47..m677.n7103",
    "m022.h1222",
    "g021.a3...!4...h5255",
    "a0...=10..=20..n3435!4...f50..",
    "=10..h2749!3...g449.k52..!8...n9322",
];

pub(crate) const STARTS: [usize; 119] = [
    0, 0, 0, 1, 2, 9, 0, 0, 0, 0, 0, 0, 0, 0, 0, 0, 0, 1, 3, 0, 0, 6, 0, 0, 6, 3, 0, 0, 0, 0, 0, 0,
    0, 0, 0, 0, 0, 0, 0, 0, 0, 0, 0, 0, 0, 0, 0, 0, 0, 0, 0, 0, 0, 8, 0, 0, 0, 3, 0, 0, 0, 0, 0, 0,
    0, 0, 0, 0, 0, 0, 0, 0, 0, 0, 6, 0, 0, 0, 0, 2, 6, 0, 0, 0, 0, 0, 0, 0, 0, 0, 4, 5, 5, 0, 0, 0,
    0, 0, 0, 0, 0, 0, 0, 1, 0, 0, 0, 0, 0, 0, 0, 0, 0, 6, 0, 0, 9, 0, 0,
];

pub(crate) const SPREADS: [&str; 119] = [
    "L00", "E1", "L0", "E2", "L00", "E9", "E0", "E12", "L1", "L11", "E45", "L0010", "E3", "L0000",
    "L000", "E79", "E", "E0", "E3", "L0000", "L0000", "E6", "L00", "L00", "E1", "L1000", "E18",
    "L0000", "L00", "L0010", "L10020", "L000", "L001", "L0100", "L01", "L000", "L00", "L112",
    "L012", "L00", "L0000", "L10", "L010", "L010", "E0", "L0", "L00011", "L02", "E578", "L0000",
    "E6", "E1", "L0000", "E8", "L00", "E0", "L0010", "E68", "E2", "L01", "E0", "L00", "E0", "E0",
    "L000", "E35", "L110", "L020", "E15", "L0000", "L000", "E456", "E23", "L000", "E6", "L01",
    "L01", "L00", "L100", "L10000", "L000", "L000", "E", "E", "L000", "E124", "L000000", "E0",
    "L00", "L0000", "E4", "L000", "E", "L00", "E0", "E0", "E", "E36", "E3", "E5", "E789", "E23",
    "E0", "E1", "E0", "E57", "E0", "E34", "E", "E0", "E56", "E", "E18", "E6", "E", "E2", "E9", "E",
    "E0",
];
