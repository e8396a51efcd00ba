ghost use Rattle.std.specs.Prelude.{◌≡◌, [], ◌∷◌, codes, IfOk};
ghost use Rattle.flat_form.specs.declared.atom.Flat.TheVariants as atom;

use super::*;
use crate::cubes::disjunction_of;
use crate::forming::all_names;
use flat_form::{Args, Basic, Cube, Cubes, Flat, Part, Parts};
use formula_ast::{Formula, Name, Names, Statement, Term, Terms};
use lists::NoMemory;
use sqlite_items::Boxed;
use std::alloc::{AllocError, Global};
use std::fmt::Write;
use std::test::*;
use tree_model::Symbol;

// Both lists of cubes and formulas are written with these letters: `X`, `Y`, `Z`, `U` and `V` are the variables from 0 on,
// `a` and `b` constants, `f` and `g` symbols with one and two arguments, `k` the constant `$0`.

fn variable_of(letter: u8) -> usize {
    match letter {
        b'X' => 0,
        b'Y' => 1,
        b'Z' => 2,
        b'U' => 3,
        _ => 4,
    }
}

fn letter_of(variable: usize) -> char {
    match variable {
        0 => 'X',
        1 => 'Y',
        2 => 'Z',
        3 => 'U',
        _ => 'V',
    }
}

// The symbol with its number of arguments.
fn symbol_of(letter: u8) -> Option<(Symbol, usize)> {
    match letter {
        b'a' => Some((Symbol::Named(0), 0)),
        b'b' => Some((Symbol::Named(3), 0)),
        b'f' => Some((Symbol::Named(1), 1)),
        b'g' => Some((Symbol::Named(2), 2)),
        b'k' => Some((Symbol::Further(0), 0)),
        _ => None,
    }
}

// ---- cubes

// A list of cubes is how many they are, and the cubes. A cube is three digits, how many variables are outer, how many
// atoms follow and how many parts. A part is two digits, how many variables are inner and how many atoms follow. An atom is
// `=` and two variables, `!` and a variable, or a symbol, the left side and the arguments.
#[derive(Drop)]
struct Reader<'a> {
    text: &'a [u8],
    at: usize,
}

impl Reader<'_> {
    // The next byte, or a blank at the end.
    fn next(&mut self) -> u8 {
        if self.at < self.text.len() {
            let byte = self.text[self.at];
            self.at += 1;
            byte
        } else {
            b' '
        }
    }

    fn number(&mut self) -> usize {
        self.next().saturating_sub(b'0') as usize
    }

    fn variable(&mut self) -> usize {
        variable_of(self.next())
    }

    fn equation(&mut self, alloc: Global, letter: u8) -> Result<Flat, NoMemory> {
        let left = self.variable();
        let Some((symbol, count)) = symbol_of(letter) else {
            return Err(NoMemory);
        };
        let mut args = Args::new(alloc);
        for _place in 0..count {
            args.push(self.variable())?;
        }
        Ok(Flat::VarTerm(left, symbol, args))
    }

    fn atom(&mut self, alloc: Global) -> Result<Flat, NoMemory> {
        match self.next() {
            b'=' => {
                let left = self.variable();
                Ok(Flat::VarVar(left, self.variable()))
            }
            b'!' => Ok(Flat::Finite(self.variable())),
            letter => self.equation(alloc, letter),
        }
    }

    fn basic(&mut self, alloc: Global, count: usize) -> Result<Basic, NoMemory> {
        let mut atoms = Basic::new(alloc);
        for _place in 0..count {
            atoms.push(self.atom(alloc)?)?;
        }
        Ok(atoms)
    }

    fn part(&mut self, alloc: Global) -> Result<Part, NoMemory> {
        let inner = self.number();
        let count = self.number();
        let basic = self.basic(alloc, count)?;
        Ok(Part { inner, basic })
    }

    fn cube(&mut self, alloc: Global, free: usize) -> Result<Cube, NoMemory> {
        let outer = self.number();
        let count = self.number();
        let part_count = self.number();
        let basic = self.basic(alloc, count)?;
        let mut parts = Parts::new(alloc);
        for _place in 0..part_count {
            parts.push(self.part(alloc)?)?;
        }
        Ok(Cube {
            free,
            outer,
            basic,
            parts,
        })
    }
}

// The list, over so many free variables.
fn cubes_of(alloc: Global, free: usize, text: &str) -> Result<Cubes, NoMemory> {
    let mut reader = Reader {
        text: text.as_bytes(),
        at: 0,
    };
    let count = reader.number();
    let mut cubes = Cubes::new(alloc);
    for _place in 0..count {
        cubes.push(reader.cube(alloc, free)?)?;
    }
    Ok(cubes)
}

// ---- formulas

// A formula as a text in prefix form is read from its end: the terms and formulas that are read so far, the last read
// on top. `+` and `-` are true and false, `=` and `#` an equation and its negation, `!` finiteness, `~`, `&`, `|` and `>`
// negation, conjunction, disjunction and implication, `?` and `@` the quantifiers.
#[derive(Drop)]
struct Reading {
    alloc: Global,
    terms: Vec<Term>,
    formulas: Vec<Formula>,
}

impl Reading {
    fn term(&mut self) -> Term {
        self.terms.pop().unwrap_or(Term::Var(0))
    }

    fn formula(&mut self) -> Formula {
        self.formulas.pop().unwrap_or(Formula::True)
    }

    fn boxed(&mut self) -> Result<Boxed<Formula>, Fail> {
        let formula = self.formula();
        Ok(Boxed::new(self.alloc, formula)?)
    }

    fn variable(&mut self) -> usize {
        match self.term() {
            Term::Var(variable) => variable,
            Term::App(_, _) => 0,
        }
    }

    fn applied(&mut self, symbol: Symbol, count: usize) -> Result<Term, Fail> {
        let mut terms = Terms::new(self.alloc);
        for _place in 0..count {
            let term = self.term();
            terms.push(term)?;
        }
        Ok(Term::App(symbol, terms))
    }

    // Reads a letter that is a term.
    fn read_term(&mut self, letter: u8) -> Result<bool, Fail> {
        let term = if let Some((symbol, count)) = symbol_of(letter) {
            self.applied(symbol, count)?
        } else if letter >= b'U' && letter <= b'Z' {
            Term::Var(variable_of(letter))
        } else {
            return Ok(false);
        };
        self.terms.push(term)?;
        Ok(true)
    }

    // The atom that a letter begins.
    fn read_atom(&mut self, letter: u8) -> Option<Formula> {
        match letter {
            b'+' => Some(Formula::True),
            b'-' => Some(Formula::False),
            b'=' => Some(Formula::Eq(self.term(), self.term())),
            b'#' => Some(Formula::Differ(self.term(), self.term())),
            b'!' => Some(Formula::Finite(self.term())),
            _ => None,
        }
    }

    // The formula that a connective begins.
    fn read_joint(&mut self, letter: u8) -> Result<Formula, Fail> {
        let left = self.boxed()?;
        let right = self.boxed()?;
        Ok(match letter {
            b'&' => Formula::And(left, right),
            b'|' => Formula::Or(left, right),
            _ => Formula::Imp(left, right),
        })
    }

    // The formula that a negation, a quantifier or a connective begins.
    fn read_formula(&mut self, letter: u8) -> Result<Formula, Fail> {
        match letter {
            b'~' => Ok(Formula::Not(self.boxed()?)),
            b'?' => Ok(Formula::Exists(self.variable(), self.boxed()?)),
            b'@' => Ok(Formula::Forall(self.variable(), self.boxed()?)),
            _ => self.read_joint(letter),
        }
    }

    // Reads one letter.
    fn read(&mut self, letter: u8) -> Result<(), Fail> {
        if self.read_term(letter)? {
            return Ok(());
        }
        let formula = match self.read_atom(letter) {
            Some(atom) => atom,
            None => self.read_formula(letter)?,
        };
        self.formulas.push(formula)?;
        Ok(())
    }
}

fn formula_of(alloc: Global, text: &str) -> Result<Formula, Fail> {
    let mut reading = Reading {
        alloc,
        terms: Vec::new(alloc),
        formulas: Vec::new(alloc),
    };
    for &letter in text.as_bytes().iter().rev() {
        reading.read(letter)?;
    }
    Ok(reading.formula())
}

fn write_symbol(out: &mut String, symbol: Symbol) -> Result<(), AllocError> {
    match symbol {
        Symbol::Named(0) => write!(out, "a"),
        Symbol::Named(1) => write!(out, "f"),
        Symbol::Named(2) => write!(out, "g"),
        Symbol::Named(_) => write!(out, "b"),
        Symbol::Further(_) => write!(out, "k"),
    }
}

fn write_term(out: &mut String, t: &Term) -> Result<(), AllocError> {
    match t {
        Term::Var(x) => write!(out, "{}", letter_of(*x)),
        Term::App(symbol, ts) => {
            write_symbol(out, *symbol)?;
            for i in 0..ts.len() {
                write_term(out, ts.get(i))?;
            }
            Ok(())
        }
    }
}

fn write_pair(out: &mut String, mark: &str, t: &Term, s: &Term) -> Result<(), AllocError> {
    write!(out, "{mark}")?;
    write_term(out, t)?;
    write_term(out, s)
}

// A formula of one of the kinds that stand in explicit formulas.
fn write_formula(out: &mut String, f: &Formula) -> Result<(), AllocError> {
    match f {
        Formula::Eq(t, s) => write_pair(out, "=", t, s),
        Formula::Differ(t, s) => write_pair(out, "#", t, s),
        Formula::Finite(t) => {
            write!(out, "!")?;
            write_term(out, t)
        }
        Formula::Not(g) => {
            write!(out, "~")?;
            write_formula(out, g.get())
        }
        Formula::And(g, h) => {
            write!(out, "&")?;
            write_formula(out, g.get())?;
            write_formula(out, h.get())
        }
        Formula::Or(g, h) => {
            write!(out, "|")?;
            write_formula(out, g.get())?;
            write_formula(out, h.get())
        }
        Formula::Exists(x, g) => {
            write!(out, "?{}", letter_of(*x))?;
            write_formula(out, g.get())
        }
        _ => write!(out, "."),
    }
}

// The formula of the list.
fn formed(alloc: Global, free: usize, text: &str) -> Result<String, Fail> {
    let cubes = cubes_of(alloc, free, text)?;
    let formula = disjunction_of(alloc, &cubes)?;
    let mut out = String::new(alloc);
    write_formula(&mut out, &formula)?;
    Ok(out)
}

// Whether the formula is explicit, with so many free variables.
fn test(alloc: Global, free: usize, text: &str) -> Result<bool, Fail> {
    let statement = Statement {
        names: Names::new(alloc),
        body: formula_of(alloc, text)?,
    };
    Ok(is_explicit(&statement, free))
}

fn digit(text: &str) -> usize {
    let bytes = text.as_bytes();
    if bytes.len() > 0 {
        bytes[0].saturating_sub(b'0') as usize
    } else {
        0
    }
}

// The rows: how many variables are free, the list of cubes and its formula.
const FORMS: &str = "\
1 1120fXYfYX ?Y&=XfY=YfX
1 1110fXY ?Y=XfY
1 100111fXY ~?Y=XfY
1 1010!X !X
1 100101!X ~!X
3 1020fXY=ZX &=XfY=ZX
3 100102fXY=ZX ~&=XfY=ZX
1 1010kX =Xk
1 100101kX #Xk
1 1111fXY01aY ?Y&=XfY#Ya
1 200111fXY120fXYaY |~?Y=XfY?Y&=XfY=Ya
2 1010!Y !Y
2 100101!Y ~!Y
2 100201aX02fYX!X &#Xa~&=YfX!X
2 1111gXYZ11fYU ?Z&=XgYZ~?U=YfU
1 3010!X010aX010kX ||!X=Xa=Xk";

#[test]
fn lists_have_their_formulas_and_these_are_explicit(rt: HostRuntime) -> Result<(), Fail> {
    for row in FORMS.lines() {
        let (free, rest) = row.split_once(" ").ok_or("a row has three parts")?;
        let (cubes, expected) = rest.split_once(" ").ok_or("a row has three parts")?;
        let shown = formed(rt.alloc(), digit(free), cubes)?;
        assert_eq!(rt; shown.as_str(), expected);
        let explicit = test(rt.alloc(), digit(free), expected)?;
        assert!(rt; explicit);
    }
    Ok(())
}

// Explicit ones, each with how many variables are free.
const EXPLICIT: &str = "\
2 =YX
3 &&!X!Y!Z
3 ||!X!Y!Z
2 &=XfY#Ya
2 &!X~!Y
2 &=Xa#Yb
3 &=YfZ#XY
2 ~&=XfY!Y
1 ~?Y&=XfY!Y
1 ?Z?Y&=XgYZ=YfX";

#[test]
fn other_formulas_are_explicit(rt: HostRuntime) -> Result<(), Fail> {
    for row in EXPLICIT.lines() {
        let (free, text) = row.split_once(" ").ok_or("a row has two parts")?;
        let explicit = test(rt.alloc(), digit(free), text)?;
        assert_eq!(rt; (text, explicit), (text, true));
    }
    Ok(())
}

// Not so: other kinds of formulas, other ways to put them together, what is not flat; variables that are not in scope, or
// bound twice, or free and bound; two atoms of a variable, two equal terms; variables on the right that are greater; bound
// ones that are no arguments, or equal to others; parts with a left side, a mark or a term of their cube, or with none, the
// first or the second; equal cubes.
const OTHERS: &str = "\
1 +
1 -
2 >!X!Y
1 @Y!X
3 &!X&!Y!Z
3 |!X|!Y!Z
2 &~!X!Y
2 =XffY
2 =fXY
1 !fX
1 ~+
1 ~=Xa
1 ~#Xa
1 ~~!X
1 =XfY
1 ~=XY
1 ?X=XfX
2 ?X=YfX
1 ?Y?Y=XfY
1 &=XfY?Y=XfY
1 &=Xa=Xb
1 &=Xa!X
1 &!X!X
2 &=Xa=Ya
1 =XX
2 =XY
3 #XY
1 ?Y=Xa
1 ?Y=YfX
1 ?Y&=XfY=YX
1 ~?Y=YfX
1 ~?Y!X
1 &=Xa#Xb
2 &!X~&!X!Y
2 &=Xa#Ya
2 &&!X~!Y~!X
2 &&!X~!X~!Y
2 &!X~&!Y!Y
1 |!X!X
1 ||!X=Xa!X
1 |!X|=Xa=Xb";

#[test]
fn others_are_not_explicit(rt: HostRuntime) -> Result<(), Fail> {
    for row in OTHERS.lines() {
        let (free, text) = row.split_once(" ").ok_or("a row has two parts")?;
        let explicit = test(rt.alloc(), digit(free), text)?;
        assert_eq!(rt; (text, explicit), (text, false));
    }
    Ok(())
}

fn one_name(alloc: Global, text: &str) -> Result<Names, NoMemory> {
    let mut names = Names::new(alloc);
    names.push(Name::new(String::from_str(alloc, text)?))?;
    Ok(names)
}

// The names of the formula of the list, one after another, where this one is free.
fn named(alloc: Global, name: &str, text: &str) -> Result<String, Fail> {
    let cubes = cubes_of(alloc, 1, text)?;
    let free = one_name(alloc, name)?;
    let names = all_names(alloc, &cubes, &free)?;
    let mut out = String::new(alloc);
    for i in 0..names.len() {
        write!(&mut out, "{} ", names.get(i).as_str())?;
    }
    Ok(out)
}

#[test]
fn bound_variables_have_names_of_their_own(rt: HostRuntime) -> Result<(), Fail> {
    let rows: &[(&str, &str, &str)] = &[
        ("X", "1010!X", "X "),
        ("X", "1110fXY", "X V0 "),
        ("V0", "1110fXY", "V0 V1 "),
        ("V1", "200111fXY111gXXY21gYZU", "V1 V0 V2 V3 "),
    ];
    for (name, cubes, expected) in rows {
        let shown = named(rt.alloc(), name, cubes)?;
        assert_eq!(rt; shown.as_str(), *expected);
    }
    Ok(())
}

// The cube that says that `X` is finite.
fn finite_cube(alloc: Global) -> Result<Cubes, NoMemory>
    ensures { IfOk result (λ cubes. cubes ≡ record { free = 1; outer = 0; basic = atom.Finite 0 ∷ []; parts = [] } ∷ []) }
{
    let mut basic = Basic::new(alloc);
    basic.push(Flat::Finite(0))?;
    let mut cubes = Cubes::new(alloc);
    cubes.push(Cube {
        free: 1,
        outer: 0,
        basic,
        parts: Parts::new(alloc),
    })?;
    Ok(cubes)
}

fn name_of_it(alloc: Global) -> Result<Names, NoMemory>
    ensures { IfOk result (λ names. names ≡ codes "V0" ∷ []) }
{
    let mut names = Names::new(alloc);
    names.push(Name::new(String::from_str(alloc, "V0")?))?;
    Ok(names)
}

fn finite_formula(alloc: Global) -> Result<Statement, NoMemory> {
    let cubes = finite_cube(alloc)?;
    let names = name_of_it(alloc)?;
    explicit(alloc, &cubes, &names)
}

#[test]
fn the_formula_of_a_cube_is_explicit(rt: HostRuntime) -> Result<(), Fail> {
    let statement = finite_formula(rt.alloc())?;
    let mut out = String::new(rt.alloc());
    write_formula(&mut out, &statement.body)?;
    assert_eq!(rt; out.as_str(), "!X");
    assert_eq!(rt; statement.names.len(), 1);
    assert!(rt; is_explicit(&statement, 1));
    assert!(rt; !is_explicit(&statement, 0));
    Ok(())
}
