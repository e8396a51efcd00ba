use super::*;
use crate::checks::{are_names, formula_fits};
use formula_ast::{Formula, Name, Names, Term, Terms};
use signature::{Kind, Signature};
use sqlite_items::Boxed;
use std::alloc::Global;
use std::test::*;
use tree_model::{Assignment, NoMemory, Node, Places, Symbol};

// A name in a list.
fn add(alloc: Global, names: &mut Names, name: &str) -> Result<(), NoMemory> {
    names.push(Name::new(String::from_str(alloc, name)?))
}

// A list of two names.
fn two_names(alloc: Global, first: &str, second: &str) -> Result<Names, NoMemory> {
    let mut names = Names::new(alloc);
    add(alloc, &mut names, first)?;
    add(alloc, &mut names, second)?;
    Ok(names)
}

// The symbols `f`, of one argument, `g`, of two, and `a`, of none, and the predicates `p`, of two, and `q`, of none.
fn declared(alloc: Global) -> Result<Signature, NoMemory> {
    let mut sig = Signature::new(alloc);
    for (name, kind, arity) in [
        ("f", Kind::Symbol, 1),
        ("g", Kind::Symbol, 2),
        ("a", Kind::Symbol, 0),
        ("p", Kind::Pred, 2),
        ("q", Kind::Pred, 0),
    ] {
        let Ok(_) = sig.declare(name, kind, arity) else {
            return Err(NoMemory);
        };
    }
    Ok(sig)
}

// A symbol applied to these variables.
fn applied(alloc: Global, symbol: Symbol, variables: &[usize]) -> Result<Term, NoMemory> {
    let mut terms = Terms::new(alloc);
    for &x in variables {
        terms.push(Term::Var(x))?;
    }
    Ok(Term::App(symbol, terms))
}

fn boxed(alloc: Global, f: Formula) -> Result<Boxed<Formula>, NoMemory> {
    Ok(Boxed::new(alloc, f)?)
}

// What is last on a stack.
fn popped(alloc: Global, stack: &mut Vec<Formula>) -> Result<Boxed<Formula>, NoMemory> {
    match stack.pop() {
        Some(f) => boxed(alloc, f),
        None => Err(NoMemory),
    }
}

// What joins the last two formulas of a stack.
fn joined(alloc: Global, stack: &mut Vec<Formula>, mark: u8) -> Result<Formula, NoMemory> {
    let right = popped(alloc, stack)?;
    let left = popped(alloc, stack)?;
    Ok(match mark {
        b'&' => Formula::And(left, right),
        b'|' => Formula::Or(left, right),
        b'>' => Formula::Imp(left, right),
        _ => Formula::Iff(left, right),
    })
}

// The formula that a byte of postfix notation stands for.
fn next(alloc: Global, stack: &mut Vec<Formula>, byte: u8) -> Result<Formula, NoMemory> {
    match byte {
        b't' => Ok(Formula::True),
        b'f' => Ok(Formula::False),
        b'x' => Ok(Formula::Eq(Term::Var(0), Term::Var(0))),
        b'y' => Ok(Formula::Eq(Term::Var(1), Term::Var(1))),
        b'z' => Ok(Formula::Eq(Term::Var(0), Term::Var(1))),
        b'~' => Ok(Formula::Not(popped(alloc, stack)?)),
        b'E' => Ok(Formula::Exists(0, popped(alloc, stack)?)),
        b'A' => Ok(Formula::Forall(0, popped(alloc, stack)?)),
        b'e' => Ok(Formula::Exists(1, popped(alloc, stack)?)),
        b'a' => Ok(Formula::Forall(1, popped(alloc, stack)?)),
        mark => joined(alloc, stack, mark),
    }
}

fn read(alloc: Global, stack: &mut Vec<Formula>, code: &str) -> Result<(), NoMemory> {
    for &byte in code.as_bytes() {
        let formula = next(alloc, stack, byte)?;
        stack.push(formula)?;
    }
    Ok(())
}

// The formula that is written in postfix notation: `t` and `f` for truth and falsity, `x`, `y` and `z` for X = X, Y = Y and
// X = Y, `~` behind what is negated, `E` and `A` for quantifiers over X, `e` and `a` for quantifiers over Y, and the marks
// `&`, `|`, `>` and `=` behind both sides.
fn formula(alloc: Global, code: &str) -> Result<Formula, NoMemory> {
    let mut stack = Vec::new(alloc);
    read(alloc, &mut stack, code)?;
    match stack.pop() {
        Some(f) => Ok(f),
        None => Err(NoMemory),
    }
}

// What is printed for a formula over these names.
fn named_print(
    alloc: Global,
    sig: &Signature,
    names: &Names,
    f: &Formula,
) -> Result<String, NoMemory> {
    if !are_names(sig, names) {
        return Err(NoMemory);
    }
    if !formula_fits(sig, names.len(), f) {
        return Err(NoMemory);
    }
    print_formula(alloc, sig, names, f)
}

// What is printed for a formula over the variables X and Y.
fn checked_print(alloc: Global, sig: &Signature, f: &Formula) -> Result<String, NoMemory> {
    let names = two_names(alloc, "X", "Y")?;
    named_print(alloc, sig, &names, f)
}

// What is printed for the formula in postfix notation, over the variables X and Y.
fn printed(alloc: Global, code: &str) -> Result<String, NoMemory> {
    let f = formula(alloc, code)?;
    checked_print(alloc, &Signature::new(alloc), &f)
}

// Formulas in postfix notation, each with its text: an operator or a quantifier of each kind at each place, and more.
const TEXTS: &str = "tf=f&: (true <-> false) & false
ftf=&: false & (true <-> false)
tf>f&: (true -> false) & false
ftf>&: false & (true -> false)
tf|f&: (true | false) & false
ftf|&: false & (true | false)
tf&f&: true & false & false
ftf&&: false & (true & false)
t~f&: ~true & false
ft~&: false & ~true
tEf&: exists X: true & false
ftE&: false & exists X: true
tAf&: forall X: true & false
ftA&: false & forall X: true
tf&: true & false
ft&: false & true
tf=f|: (true <-> false) | false
ftf=|: false | (true <-> false)
tf>f|: (true -> false) | false
ftf>|: false | (true -> false)
tf|f|: true | false | false
ftf||: false | (true | false)
tf&f|: true & false | false
ftf&|: false | true & false
t~f|: ~true | false
ft~|: false | ~true
tEf|: exists X: true | false
ftE|: false | exists X: true
tAf|: forall X: true | false
ftA|: false | forall X: true
tf|: true | false
ft|: false | true
tf=f>: (true <-> false) -> false
ftf=>: false -> (true <-> false)
tf>f>: (true -> false) -> false
ftf>>: false -> true -> false
tf|f>: true | false -> false
ftf|>: false -> true | false
tf&f>: true & false -> false
ftf&>: false -> true & false
t~f>: ~true -> false
ft~>: false -> ~true
tEf>: exists X: true -> false
ftE>: false -> exists X: true
tAf>: forall X: true -> false
ftA>: false -> forall X: true
tf>: true -> false
ft>: false -> true
tf=f=: (true <-> false) <-> false
ftf==: false <-> (true <-> false)
tf>f=: true -> false <-> false
ftf>=: false <-> true -> false
tf|f=: true | false <-> false
ftf|=: false <-> true | false
tf&f=: true & false <-> false
ftf&=: false <-> true & false
t~f=: ~true <-> false
ft~=: false <-> ~true
tEf=: exists X: true <-> false
ftE=: false <-> exists X: true
tAf=: forall X: true <-> false
ftA=: false <-> forall X: true
tf=: true <-> false
ft=: false <-> true
tf=~: ~(true <-> false)
tf>~: ~(true -> false)
tf|~: ~(true | false)
tf&~: ~(true & false)
t~~: ~~true
tE~: ~exists X: true
tA~: ~forall X: true
t~: ~true
tf=e: exists Y: (true <-> false)
tf>e: exists Y: (true -> false)
tf|e: exists Y: (true | false)
tf&e: exists Y: (true & false)
t~e: exists Y: ~true
tEe: exists Y X: true
tAe: exists Y: forall X: true
te: exists Y: true
tf=a: forall Y: (true <-> false)
tf>a: forall Y: (true -> false)
tf|a: forall Y: (true | false)
tf&a: forall Y: (true & false)
t~a: forall Y: ~true
tEa: forall Y: exists X: true
tAa: forall Y X: true
ta: forall Y: true
tft>>: true -> false -> true
tf>t>: (true -> false) -> true
zxy&&~eE: exists X Y: ~(X = Y & (X = X & Y = Y))
t~tf||: ~true | (true | false)
teEE: exists X X Y: true
teaAE: exists X: forall X Y: exists Y: true
te~E: exists X: ~exists Y: true
tef&E: exists X: (exists Y: true & false)";

#[test]
fn parentheses_stand_where_they_must_and_nowhere_else(rt: HostRuntime) -> Result<(), Fail> {
    for line in TEXTS.lines() {
        let (code, text) = line.split_once(": ").ok_or("a row has two parts")?;
        assert_eq!(rt; printed(rt.alloc(), code)?.as_str(), text, "{code}");
    }
    Ok(())
}

fn equation(alloc: Global) -> Result<Formula, NoMemory> {
    let right = applied(alloc, Symbol::Named(0), &[1])?;
    Ok(Formula::Eq(Term::Var(0), right))
}

fn quantified(alloc: Global) -> Result<Formula, NoMemory> {
    Ok(Formula::Exists(1, boxed(alloc, equation(alloc)?)?))
}

fn negated_equation(alloc: Global) -> Result<Formula, NoMemory> {
    let left = applied(alloc, Symbol::Named(1), &[0, 1])?;
    let right = applied(alloc, Symbol::Named(2), &[])?;
    Ok(Formula::Differ(left, right))
}

// The variable Y and the further symbol of the least index.
fn two_arguments(alloc: Global) -> Result<Terms, NoMemory> {
    let mut arguments = Terms::new(alloc);
    arguments.push(Term::Var(1))?;
    arguments.push(applied(alloc, Symbol::Further(0), &[])?)?;
    Ok(arguments)
}

fn finiteness(alloc: Global) -> Result<Formula, NoMemory> {
    let greatest = Symbol::Further(18446744073709551615);
    Ok(Formula::Finite(applied(alloc, greatest, &[1, 1, 1])?))
}

fn won(alloc: Global) -> Result<Formula, NoMemory> {
    let place = applied(alloc, Symbol::Named(2), &[])?;
    Ok(Formula::Win(3, 1000, place))
}

// An atom of each kind.
fn atom(alloc: Global, number: usize) -> Result<Formula, NoMemory> {
    match number {
        0 => quantified(alloc),
        1 => negated_equation(alloc),
        2 => finiteness(alloc),
        3 => Ok(Formula::Call(3, two_arguments(alloc)?)),
        4 => Ok(Formula::Call(4, Terms::new(alloc))),
        5 => Ok(Formula::Win(3, 0, Term::Var(0))),
        _ => won(alloc),
    }
}

// What is printed for a formula over what is declared.
fn declared_print(alloc: Global, f: &Formula) -> Result<String, NoMemory> {
    let sig = declared(alloc)?;
    checked_print(alloc, &sig, f)
}

fn printed_atom(alloc: Global, number: usize) -> Result<String, NoMemory> {
    let atom = atom(alloc, number)?;
    declared_print(alloc, &atom)
}

#[test]
fn each_atom_is_written(rt: HostRuntime) -> Result<(), Fail> {
    for (number, wanted) in [
        "exists Y: X = f(Y)",
        "g(X, Y) != a",
        "finite($18446744073709551615(Y, Y, Y))",
        "p(Y, $0)",
        "q",
        "win(p, 0, X)",
        "win(p, 1000, a)",
    ]
    .iter()
    .enumerate()
    {
        let text = printed_atom(rt.alloc(), number)?;
        assert_eq!(rt; text.as_str(), *wanted);
    }
    Ok(())
}

// A formula and a truth, joined by `&` or by `|`.
fn nested(alloc: Global, f: Formula, by_and: bool, to_the_left: bool) -> Result<Formula, NoMemory> {
    let nested = boxed(alloc, f)?;
    let other = boxed(alloc, Formula::True)?;
    Ok(match (by_and, to_the_left) {
        (true, true) => Formula::And(nested, other),
        (true, false) => Formula::And(other, nested),
        (false, true) => Formula::Or(nested, other),
        (false, false) => Formula::Or(other, nested),
    })
}

// The formula with a thousand marks, nested to the left or to the right.
fn deep(alloc: Global, by_and: bool, to_the_left: bool) -> Result<Formula, NoMemory> {
    let mut f = Formula::True;
    for _ in 0..1000 {
        f = nested(alloc, f, by_and, to_the_left)?;
    }
    Ok(f)
}

fn printed_deep(alloc: Global, by_and: bool, to_the_left: bool) -> Result<String, NoMemory> {
    let f = deep(alloc, by_and, to_the_left)?;
    checked_print(alloc, &Signature::new(alloc), &f)
}

#[test]
fn a_deep_formula_is_written(rt: HostRuntime) -> Result<(), Fail> {
    for by_and in [true, false] {
        let left = printed_deep(rt.alloc(), by_and, true)?;
        assert_eq!(rt; left.len(), 4 * 1001 + 3 * 1000);
        let right = printed_deep(rt.alloc(), by_and, false)?;
        assert_eq!(rt; right.len(), 4 * 1001 + 3 * 1000 + 2 * 999);
    }
    Ok(())
}

// A list of places.
fn places(alloc: Global, numbers: &[usize]) -> Result<Places, NoMemory> {
    let mut places = Places::new(alloc);
    for &number in numbers {
        places.push(number)?;
    }
    Ok(places)
}

// A node with this symbol and these children.
fn node(alloc: Global, symbol: Symbol, children: &[usize]) -> Result<Node, NoMemory> {
    let children = places(alloc, children)?;
    Ok(Node { symbol, children })
}

fn assignment(alloc: Global, nodes: Vec<Node>, roots: &[usize]) -> Result<Assignment, NoMemory> {
    match Assignment::new(nodes, places(alloc, roots)?) {
        Ok(assignment) => Ok(assignment),
        Err(_) => Err(NoMemory),
    }
}

// What is printed for an assignment of these names.
fn checked_assignment(
    alloc: Global,
    sig: &Signature,
    names: &Names,
    assignment: &Assignment,
) -> Result<String, NoMemory> {
    if names.len() == 0 || assignment.roots().len() != names.len() {
        return Err(NoMemory);
    }
    if !are_names(sig, names) {
        return Err(NoMemory);
    }
    if !sig.fits(assignment.nodes()) {
        return Err(NoMemory);
    }
    print_assignment(alloc, sig, names, assignment)
}

fn assigned(alloc: Global, names: &Names, assignment: &Assignment) -> Result<String, NoMemory> {
    let sig = declared(alloc)?;
    checked_assignment(alloc, &sig, names, assignment)
}

fn a_loop(alloc: Global, index: u64) -> Result<Assignment, NoMemory> {
    let mut nodes = Vec::new(alloc);
    nodes.push(node(alloc, Symbol::Further(index), &[0])?)?;
    assignment(alloc, nodes, &[0])
}

fn shared_nodes(alloc: Global) -> Result<Assignment, NoMemory> {
    let mut nodes = Vec::new(alloc);
    nodes.push(node(alloc, Symbol::Named(1), &[1, 2])?)?;
    nodes.push(node(alloc, Symbol::Named(2), &[])?)?;
    nodes.push(node(alloc, Symbol::Named(0), &[0])?)?;
    assignment(alloc, nodes, &[2, 2])
}

// What is printed of X at a loop.
fn printed_loop(alloc: Global, index: u64) -> Result<String, NoMemory> {
    let mut names = Names::new(alloc);
    add(alloc, &mut names, "X")?;
    assigned(alloc, &names, &a_loop(alloc, index)?)
}

#[test]
fn an_assignment_is_written(rt: HostRuntime) -> Result<(), Fail> {
    for (index, wanted) in [
        (0, "exists V0: (V0 = $0(V0) & X = V0)"),
        (
            u64::MAX,
            "exists V0: (V0 = $18446744073709551615(V0) & X = V0)",
        ),
    ] {
        let text = printed_loop(rt.alloc(), index)?;
        assert_eq!(rt; text.as_str(), wanted);
    }
    Ok(())
}

fn printed_shared(alloc: Global) -> Result<String, NoMemory> {
    let names = two_names(alloc, "V1", "Y")?;
    assigned(alloc, &names, &shared_nodes(alloc)?)
}

// A name that the text would choose for a node is taken.
#[test]
fn a_node_has_no_name_that_is_taken(rt: HostRuntime) -> Result<(), Fail> {
    let text = printed_shared(rt.alloc())?;
    let wanted = "exists V0 V2 V3: (V0 = g(V2, V3) & V2 = a & V3 = f(V0) & V1 = V3 & Y = V3)";
    assert_eq!(rt; text.as_str(), wanted);
    Ok(())
}

fn new_names(alloc: Global) -> Result<Names, NoMemory> {
    let names = two_names(alloc, "V1", "V")?;
    bound_names(alloc, &names, 3)
}

// The new names, each with a blank behind it.
fn text_of_new_names(alloc: Global) -> Result<String, NoMemory> {
    let mut text = String::new(alloc);
    for name in new_names(alloc)?.as_slice() {
        text.push_str(name.as_str())?;
        text.push_str(" ")?;
    }
    Ok(text)
}

#[test]
fn bound_variables_have_new_names(rt: HostRuntime) -> Result<(), Fail> {
    let text = text_of_new_names(rt.alloc())?;
    assert_eq!(rt; text.as_str(), "V0 V2 V3 ");
    Ok(())
}

#[test]
fn laws_can_be_called(_rt: HostRuntime) {
    well_formed_is_printable();
    bound_names_are_printable();
}
