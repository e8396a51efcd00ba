use super::*;
use formula_ast::{File, Formula, Names, Pred, Term, Terms};
use signature::{Kind, Signature};
use std::alloc::{AllocError, Global};
use std::fmt::Write;
use std::test::*;
use tree_model::Symbol;

const NAME_OF_64: &str = "a123456789b123456789c123456789d123456789e123456789f123456789_123";

// Terms in parentheses, if there are any.
#[cycle(write_term)]
fn write_arguments(shown: &mut String, arguments: &Terms) -> Result<(), AllocError> {
    for i in 0..arguments.len() {
        write!(shown, "{}", if i == 0 { "(" } else { ", " })?;
        write_term(shown, arguments.get(i))?;
    }
    write!(shown, "{}", if arguments.len() == 0 { "" } else { ")" })
}

// A term with the numbers of its variables, the places of its symbols and the indexes of its further symbols.
#[cycle(write_term)]
fn write_term(shown: &mut String, term: &Term) -> Result<(), AllocError> {
    match term {
        Term::Var(number) => write!(shown, "{number}"),
        Term::App(Symbol::Named(place), arguments) => {
            write!(shown, "#{place}")?;
            write_arguments(shown, arguments)
        }
        Term::App(Symbol::Further(index), arguments) => {
            write!(shown, "${index}")?;
            write_arguments(shown, arguments)
        }
    }
}

fn write_compared(
    shown: &mut String,
    left: &Term,
    mark: &str,
    right: &Term,
) -> Result<(), AllocError> {
    write_term(shown, left)?;
    write!(shown, " {mark} ")?;
    write_term(shown, right)
}

// What joins the two parts of a formula that has two.
fn mark_of(formula: &Formula) -> &'static str {
    match formula {
        Formula::And(_, _) => "&",
        Formula::Or(_, _) => "|",
        Formula::Imp(_, _) => "->",
        _ => "<->",
    }
}

// A formula with parentheses round each two that are joined.
fn write_formula(shown: &mut String, formula: &Formula) -> Result<(), AllocError> {
    match formula {
        Formula::True => write!(shown, "true"),
        Formula::False => write!(shown, "false"),
        Formula::Eq(left, right) => write_compared(shown, left, "=", right),
        Formula::Differ(left, right) => write_compared(shown, left, "!=", right),
        Formula::Finite(term) => {
            write!(shown, "finite ")?;
            write_term(shown, term)
        }
        Formula::Call(place, arguments) => {
            write!(shown, "#{place}")?;
            write_arguments(shown, arguments)
        }
        Formula::Win(place, moves, term) => {
            write!(shown, "win {place} {moves} ")?;
            write_term(shown, term)
        }
        Formula::Not(inner) => {
            write!(shown, "~")?;
            write_formula(shown, inner.get())
        }
        Formula::And(left, right)
        | Formula::Or(left, right)
        | Formula::Imp(left, right)
        | Formula::Iff(left, right) => {
            write!(shown, "(")?;
            write_formula(shown, left.get())?;
            write!(shown, " {} ", mark_of(formula))?;
            write_formula(shown, right.get())?;
            write!(shown, ")")
        }
        Formula::Exists(number, body) => {
            write!(shown, "exists {number} ")?;
            write_formula(shown, body.get())
        }
        Formula::Forall(number, body) => {
            write!(shown, "forall {number} ")?;
            write_formula(shown, body.get())
        }
    }
}

// The names of the variables, and the formula.
fn write_named(shown: &mut String, names: &Names, formula: &Formula) -> Result<(), AllocError> {
    write!(shown, "[")?;
    for name in names.as_slice() {
        write!(shown, "{} ", name.as_str())?;
    }
    write!(shown, "] ")?;
    write_formula(shown, formula)
}

// A predicate's place, the number of its parameters, and its body.
fn write_predicate(shown: &mut String, pred: &Pred) -> Result<(), AllocError> {
    write!(shown, "{}/{} ", pred.place, pred.params)?;
    write_named(shown, &pred.names, &pred.body)?;
    write!(shown, ". ")
}

// The names that a file declares, its predicates, and its questions.
fn write_file(shown: &mut String, file: &File) -> Result<(), AllocError> {
    for place in 0..file.signature.len() {
        let name = file.signature.name(place);
        let (kind, arity) = file.signature.entry(place);
        write!(shown, "{kind:?} {name}/{arity}. ")?;
    }
    for i in 0..file.preds.len() {
        write_predicate(shown, file.preds.get(i))?;
    }
    for i in 0..file.solves.len() {
        let statement = file.solves.get(i);
        write_named(shown, &statement.names, &statement.body)?;
    }
    Ok(())
}

// `f` with one argument, `a` with none, and predicates `p` of one and `m` of two; and two names past the limits of files,
// `wide` with nine arguments, and one of 65 bytes.
fn signature(alloc: Global) -> Result<Signature, Fail> {
    let long = format!(in alloc; "{NAME_OF_64}4")?;
    let mut signature = Signature::new(alloc);
    for (name, kind, arity) in [
        ("f", Kind::Symbol, 1),
        ("a", Kind::Symbol, 0),
        ("p", Kind::Pred, 1),
        ("m", Kind::Pred, 2),
        ("wide", Kind::Symbol, 9),
        (long.as_str(), Kind::Symbol, 0),
    ] {
        signature.declare(name, kind, arity)?;
    }
    Ok(signature)
}
// What the text of a formula is read as: a statement, or the fault that it is refused for.
fn write_read(
    shown: &mut String,
    alloc: Global,
    signature: &Signature,
    text: &str,
) -> Result<(), AllocError> {
    match read_formula(alloc, signature, text.as_bytes()) {
        Ok(statement) => write_named(shown, &statement.names, &statement.body),
        Err(error) => write!(shown, "{error}"),
    }
}

fn read_as(alloc: Global, text: &str) -> Result<String, Fail> {
    let mut shown = String::new(alloc);
    let signature = signature(alloc)?;
    write_read(&mut shown, alloc, &signature, text)?;
    Ok(shown)
}

// What the text of a file is read as.
fn write_file_read(shown: &mut String, alloc: Global, text: &str) -> Result<(), AllocError> {
    match read_file(alloc, text.as_bytes()) {
        Ok(file) => write_file(shown, &file),
        Err(error) => write!(shown, "{error}"),
    }
}

fn file_read_as(alloc: Global, text: &str) -> Result<String, AllocError> {
    let mut shown = String::new(alloc);
    write_file_read(&mut shown, alloc, text)?;
    Ok(shown)
}

// What formulas are read as, and behind the sign `<<` their texts.
const FORMULAS: &str = "\
[Y X ] exists 0 1 = #0(0) << exists Y: X = f(Y)
[] (true -> (false -> true)) << ((true -> (false -> true)))
[] ((true -> false) -> true) << (true -> false) -> true
[] ((true & false) | (true & true)) << true & false | true & true
[] ((true | false) | true) << true | false | true
[] ((true & false) & true) << true & false & true
[] (~true & false) << ~true & false
[] ~(true & false) << ~(true & false)
[X Y ] (exists 0 0 = #1 & 1 = #1) << exists X: X = a & Y = a
[X Y Z ] exists 0 exists 1 (0 = 1 & 2 != #1) << exists X Y: (X = Y & Z != a)
[X Y ] forall 0 ~exists 1 exists 0 #2(1) << forall X: ~exists Y X: p(Y)
[X ] (finite #0(0) <-> #2(#1)) << finite(f(X)) <-> p(a)
[X ] win 3 7 #0(0) << win(m, 007, f(X))
[X ] (#0(0) = #1 -> #1 != $12(0, #1)) << f(X) = a -> a != $12(X, a)
[X ] $3 = 0 << $3 = X
[] (true -> (false | true)) << true -> false | true
[Y X Z ] ((#2(0) & #3(1, 0)) & finite 2) << p(Y) & m(X, Y) & finite(Z)";

#[test]
fn operators_bind_by_their_strength(rt: HostRuntime) -> Result<(), Fail> {
    for line in FORMULAS.lines() {
        let (wanted, text) = line.split_once(" << ").ok_or("a row has two parts")?;
        let read = read_as(rt.alloc(), text)?;
        assert_eq!(rt; read.as_str(), wanted, "{text}");
    }
    Ok(())
}

// The faults of texts that are no formulas, and behind the sign `<<` the texts.
const REFUSED_FORMULAS: &str = "\
byte 1: Arity << f
byte 1: Sort << a
byte 9: Sort << f(X)  % c
byte 2: Ended << (f
byte 1: Arity << p
byte 3: Ended << p(X
byte 5: Syntax << true )
byte 0: Ended <<\x20
byte 8: Ended << exists X
byte 4: Unknown << X = b
byte 3: Arity << m(X)
byte 8: Sort << m(X, Y) = X
byte 4: Sort << a = p(X)
byte 4: Sort << win(a, 1, X)
byte 6: Ended << true &
byte 6: Syntax << X = a = a
byte 0: Byte << # true
byte 4: Limit << X = $99999999999999999999";

#[test]
fn other_formulas_are_refused_at_their_first_fault(rt: HostRuntime) -> Result<(), Fail> {
    for line in REFUSED_FORMULAS.lines() {
        let (wanted, text) = line.split_once(" << ").ok_or("a row has two parts")?;
        let read = read_as(rt.alloc(), text)?;
        assert_eq!(rt; read.as_str(), wanted, "{text}");
    }
    Ok(())
}

#[test]
fn a_formula_may_use_names_past_the_limits_of_files(rt: HostRuntime) -> Result<(), Fail> {
    let wide = read_as(rt.alloc(), "X = wide(a, a, a, a, a, a, a, a, a)")?;
    let applied = "[X ] 0 = #4(#1, #1, #1, #1, #1, #1, #1, #1, #1)";
    assert_eq!(rt; wide.as_str(), applied);
    let text = format!(in rt.alloc(); "X = {NAME_OF_64}4")?;
    let refused = read_as(rt.alloc(), &text)?;
    assert_eq!(rt; refused.as_str(), "byte 4: Limit");
    Ok(())
}

#[test]
fn files_of_questions_are_read(rt: HostRuntime) -> Result<(), Fail> {
    for (text, file) in [
        ("", ""),
        (" \t\r\n% solve\n% é", ""),
        (
            "symbol f/1. solve exists X: X = f(X). symbol a/0. solve exists X Y: (X = a & $1(Y) = X).",
            "Symbol f/1. Symbol a/0. [X ] exists 0 0 = #0(0)[X Y ] exists 0 exists 1 (0 = #1 & $1(1) = 0)",
        ),
        (
            "%f\nsymbol%g\nf/1.solve exists X_1:(X_1=f(X_1)&X_1=X_1).% the end",
            "Symbol f/1. [X_1 ] exists 0 (0 = #0(0) & 0 = 0)",
        ),
        (
            "solve ((true)). solve exists X: ~forall Y: (X != Y -> finite(X) | false <-> true).",
            "[] true[X Y ] exists 0 ~forall 1 ((0 != 1 -> (finite 0 | false)) <-> true)",
        ),
        (
            "symbol f/00000000000000000000008. solve $0(X,X,X,X,X,X,X,X) = Y. solve exists X: X = Y.",
            "Symbol f/8. [X Y ] $0(0, 0, 0, 0, 0, 0, 0, 0) = 1[X Y ] exists 0 0 = 1",
        ),
    ] {
        let read = file_read_as(rt.alloc(), text)?;
        assert_eq!(rt; read.as_str(), file, "{text}");
    }
    Ok(())
}

// What files are read as, and behind the sign `<<` their texts.
const PREDICATES: &str = "\
Symbol a/0. Pred p/1. 1/1 [X ] 0 = #0.  << symbol a/0. pred p(X) := X = a.
Pred p/0. 0/0 [X ] exists 0 exists 0 0 = 0.  << pred p := exists X: exists X: X = X.
Pred p/0. 0/0 [] true. [] true[] #0[X ] 0 = 0 << solve true. pred p := true. solve p. solve X = X.
Pred m/2. 0/2 [X Y ] true. [X ] win 0 1000 0 << pred m(X, Y) := true. solve win(m, 0001000, X).
Pred p/2. Pred q/2. 0/2 [X Y Z ] exists 2 1 = 2. 1/2 [Y X ] (#0(1, 0) & win 0 1 1).  << pred p(X, Y) := exists Z: Y = Z. pred q(Y, X) := p(X, Y) & win(p, 1, X).";

#[test]
fn predicates_are_read(rt: HostRuntime) -> Result<(), Fail> {
    for line in PREDICATES.lines() {
        let (wanted, text) = line.split_once(" << ").ok_or("a row has two parts")?;
        let read = file_read_as(rt.alloc(), text)?;
        assert_eq!(rt; read.as_str(), wanted, "{text}");
    }
    Ok(())
}

// The faults of texts that are no files, and behind the sign `<<` the texts.
const REFUSED_FILES: &str = "\
byte 0: Byte << #
byte 11: Ended << solve X = X
byte 6: Syntax << solve .
byte 20: Syntax << solve true <-> true <-> true.
byte 6: Unknown << solve q(X).
byte 12: Twice << symbol f/1, f/2.
byte 17: Loose << pred p(X) := X = Y.
byte 22: Sort << symbol f/1. solve f(X).
byte 9: Limit << symbol f/9.
byte 21: Arity << symbol f/2. solve f(X) = X.
byte 20: Syntax << symbol f/1. solve f ,
byte 24: Syntax << symbol f/1. solve X = f ,
byte 30: Arity << symbol f/1, g/2. solve g(X, f ,
byte 27: Syntax << symbol f/1. solve finite(f ,
byte 20: Syntax << symbol a/0. solve a )
byte 21: Sort << symbol a/0. solve (a )
byte 39: Arity << pred p(X) := true. symbol a/0. solve p = a.
byte 24: Sort << pred q := true. solve q = q.
byte 10: Twice << pred p(X, X) := true.
byte 17: Twice << symbol p/0. pred p := true.
byte 21: Twice << pred p := true. pred p := true.
byte 10: Unknown << pred p := p.
byte 31: Loose << pred p(X) := exists Y: Y = X & Y = X.
byte 19: Arity << symbol a/0. solve a(X) = a.
byte 21: Arity << symbol f/1. solve f(X, Y) = X.
byte 24: Syntax << symbol f/1. solve X = f() .
byte 29: Sort << pred p(X) := true. solve X = p(X).
byte 44: Sort << pred m(X, Y) := true. symbol f/1. solve win(f, 1, X).
byte 29: Arity << pred m(X) := true. solve win(m, 1, X).
byte 10: Unknown << solve win(m, 1, X).
byte 35: Limit << pred m(X, Y) := true. solve win(m, 1001, X).
byte 6: Limit << solve $18446744073709551616 = X.
byte 24: Limit << solve $0(X,X,X,X,X,X,X,X,X) = X.
byte 39: Ended << solve exists X: X = X. solve true. pred
byte 12: Byte << solve true. #
byte 18: Ended << solve true. symbol
byte 15: Ended << solve X = X % c
byte 8: Syntax << solve X ->\x20
byte 7: Ended << solve ~
byte 7: Syntax << solve ()
byte 7: Syntax << solve X.
byte 12: Syntax << solve X = X = X.
byte 14: Syntax << solve exists X.
byte 12: Syntax << solve exists: X = X.
byte 7: Syntax << symbol .
byte 8: Syntax << symbol f.
byte 9: Syntax << symbol f/.
byte 7: Syntax << symbol F/1.
byte 5: Syntax << pred P := true.
byte 7: Syntax << pred p() := true.
byte 9: Syntax << pred p(X := true.
byte 7: Syntax << pred p = true.
byte 13: Syntax << solve true | & true.
byte 13: Syntax << solve finite X.
byte 10: Syntax << solve win(1).
byte 0: Syntax << true
byte 0: Syntax << .
byte 10: Byte << solve X = \x0c X.
byte 6: Byte << solve <- X.
byte 6: Unknown << solve a b.";

#[test]
fn other_files_are_refused_at_their_first_fault(rt: HostRuntime) -> Result<(), Fail> {
    for line in REFUSED_FILES.lines() {
        let (wanted, text) = line.split_once(" << ").ok_or("a row has two parts")?;
        let read = file_read_as(rt.alloc(), text)?;
        assert_eq!(rt; read.as_str(), wanted, "{text}");
    }
    Ok(())
}

// How much a text declares and asks, or the fault that it is refused for.
fn write_counts_read(shown: &mut String, alloc: Global, text: &str) -> Result<(), AllocError> {
    match read_file(alloc, text.as_bytes()) {
        Ok(file) => write_counts(shown, &file),
        Err(error) => write!(shown, "{error}"),
    }
}

fn counts_of(alloc: Global, text: &str) -> Result<String, AllocError> {
    let mut shown = String::new(alloc);
    write_counts_read(&mut shown, alloc, text)?;
    Ok(shown)
}

fn write_counts(shown: &mut String, file: &File) -> Result<(), AllocError> {
    let (names, questions) = (file.signature.len(), file.solves.len());
    write!(shown, "{names} names, {questions} questions")?;
    if questions > 0 {
        let variables = file.solves.get(0).names.as_slice().len();
        write!(shown, ", {variables} variables")?;
    }
    Ok(())
}

// A question of so many variables behind one quantifier.
fn question_of(alloc: Global, variables: usize) -> Result<String, AllocError> {
    let mut text = String::from_str(alloc, "solve exists")?;
    for i in 0..variables {
        write!(text, " X{i}")?;
    }
    write!(text, ": X0 = X7.")?;
    Ok(text)
}

// The declarations of so many symbols.
fn symbols_of(alloc: Global, symbols: usize) -> Result<String, AllocError> {
    let mut text = String::from_str(alloc, "symbol a/0")?;
    for i in 1..symbols {
        write!(text, ", a{i}/0")?;
    }
    text.push_str(".")?;
    Ok(text)
}

// 65,536 questions in 1,048,576 bytes.
fn longest_file(alloc: Global) -> Result<String, AllocError> {
    let mut text = String::from_str(alloc, "solve true.     ")?;
    for _ in 0..16 {
        let half = String::from_str(alloc, text.as_str())?;
        text.push_str(half.as_str())?;
    }
    Ok(text)
}

fn counts_of_question(alloc: Global, variables: usize) -> Result<String, AllocError> {
    let text = question_of(alloc, variables)?;
    counts_of(alloc, text.as_str())
}

fn counts_of_symbols(alloc: Global, symbols: usize) -> Result<String, AllocError> {
    let text = symbols_of(alloc, symbols)?;
    counts_of(alloc, text.as_str())
}

// With this behind it.
fn counts_of_longest(alloc: Global, more: &str) -> Result<String, AllocError> {
    let mut text = longest_file(alloc)?;
    text.push_str(more)?;
    counts_of(alloc, text.as_str())
}

#[test]
fn a_question_may_have_1000_variables(rt: HostRuntime) -> Result<(), Fail> {
    let read = counts_of_question(rt.alloc(), 1000)?;
    assert_eq!(rt; read.as_str(), "0 names, 1 questions, 1000 variables");
    let refused = counts_of_question(rt.alloc(), 1001)?;
    assert_eq!(rt; refused.as_str(), "byte 4903: Limit");
    Ok(())
}

#[test]
fn a_file_may_have_4096_symbols(rt: HostRuntime) -> Result<(), Fail> {
    let read = counts_of_symbols(rt.alloc(), 4096)?;
    assert_eq!(rt; read.as_str(), "4096 names, 0 questions");
    let refused = counts_of_symbols(rt.alloc(), 4097)?;
    assert_eq!(rt; refused.as_str(), "byte 35760: Limit");
    Ok(())
}

#[test]
fn a_file_may_have_1048576_bytes(rt: HostRuntime) -> Result<(), Fail> {
    let read = counts_of_longest(rt.alloc(), "")?;
    assert_eq!(rt; read.as_str(), "0 names, 65536 questions, 0 variables");
    let refused = counts_of_longest(rt.alloc(), " ")?;
    assert_eq!(rt; refused.as_str(), "byte 1048576: Limit");
    Ok(())
}

#[test]
fn the_greatest_index_is_read(rt: HostRuntime) -> Result<(), Fail> {
    let text = "solve exists X: X = $18446744073709551615.";
    let read = file_read_as(rt.alloc(), text)?;
    assert_eq!(rt; read.as_str(), "[X ] exists 0 0 = $18446744073709551615");
    Ok(())
}

#[test]
fn errors_are_printed(rt: HostRuntime) -> Result<(), Fail> {
    let error = ReadError::Refused(Fault {
        offset: 12,
        kind: FaultKind::Loose,
    });
    let printed = format!(in rt.alloc(); "{error}, {}", ReadError::NoMemory)?;
    assert_eq!(rt; printed.as_str(), "byte 12: Loose, out of memory");
    Ok(())
}
