use super::*;
use flat_form::{Args, Basic, Cube, Cubes, Flat, Normal, Part, Parts};
use formula_ast::{Formula, Term, Terms};
use sqlite_items::Boxed;
use std::alloc::{AllocError, Global};
use std::fmt::Write;
use std::test::*;
use tree_model::{NoMemory, Places, Symbol};

// A formula as a text in prefix form is read from its end: the terms and formulas that are read so far, the last read
// on top. A capital letter is a variable, a small one up to `k` a symbol; `t` and `n` are true and false, `=` and `#`
// an equation and its negation, `!` finiteness, `c` a call and `w` a win.
#[derive(Drop)]
struct Reading {
    alloc: Global,
    terms: Vec<Term>,
    formulas: Vec<Formula>,
}

impl Reading {
    fn term(&mut self) -> Term {
        self.terms.pop().unwrap_or(Term::Var(0))
    }

    fn formula(&mut self) -> Formula {
        self.formulas.pop().unwrap_or(Formula::True)
    }

    fn boxed(&mut self) -> Result<Boxed<Formula>, NoMemory> {
        let formula = self.formula();
        Ok(Boxed::new(self.alloc, formula)?)
    }

    fn variable(&mut self) -> usize {
        match self.term() {
            Term::Var(variable) => variable,
            Term::App(_, _) => 0,
        }
    }

    fn applied(&mut self, symbol: Symbol, count: usize) -> Result<Term, NoMemory> {
        let terms = self.arguments(count)?;
        Ok(Term::App(symbol, terms))
    }

    fn arguments(&mut self, count: usize) -> Result<Terms, NoMemory> {
        let mut terms = Terms::new(self.alloc);
        for _ in 0..count {
            let term = self.term();
            terms.push(term)?;
        }
        Ok(terms)
    }

    // Reads a letter that is a term.
    fn read_term(&mut self, letter: u8) -> Result<bool, NoMemory> {
        let term = match letter {
            b'X' => Term::Var(0),
            b'Y' => Term::Var(1),
            b'a' => self.applied(Symbol::Named(0), 0)?,
            b'f' => self.applied(Symbol::Named(1), 1)?,
            b'g' => self.applied(Symbol::Named(2), 2)?,
            b'k' => self.applied(Symbol::Further(5), 1)?,
            _ => return Ok(false),
        };
        self.terms.push(term)?;
        Ok(true)
    }

    // The atom that a letter begins.
    fn read_atom(&mut self, letter: u8) -> Result<Option<Formula>, NoMemory> {
        let atom = match letter {
            b't' => Formula::True,
            b'n' => Formula::False,
            b'=' => Formula::Eq(self.term(), self.term()),
            b'#' => Formula::Differ(self.term(), self.term()),
            b'!' => Formula::Finite(self.term()),
            b'c' => Formula::Call(3, self.arguments(2)?),
            b'w' => Formula::Win(3, 2, self.term()),
            _ => return Ok(None),
        };
        Ok(Some(atom))
    }

    // The formula that a connective begins.
    fn read_joint(&mut self, letter: u8) -> Result<Formula, NoMemory> {
        let left = self.boxed()?;
        let right = self.boxed()?;
        Ok(match letter {
            b'&' => Formula::And(left, right),
            b'|' => Formula::Or(left, right),
            b'>' => Formula::Imp(left, right),
            _ => Formula::Iff(left, right),
        })
    }

    // The formula that a negation, a quantifier or a connective begins.
    fn read_formula(&mut self, letter: u8) -> Result<Formula, NoMemory> {
        match letter {
            b'~' => Ok(Formula::Not(self.boxed()?)),
            b'E' => Ok(Formula::Exists(self.variable(), self.boxed()?)),
            b'A' => Ok(Formula::Forall(self.variable(), self.boxed()?)),
            _ => self.read_joint(letter),
        }
    }

    // Reads one letter.
    fn read(&mut self, letter: u8) -> Result<(), NoMemory> {
        if self.read_term(letter)? {
            return Ok(());
        }
        let formula = match self.read_atom(letter)? {
            Some(atom) => atom,
            None => self.read_formula(letter)?,
        };
        self.formulas.push(formula)?;
        Ok(())
    }
}

fn formula_of(alloc: Global, text: &str) -> Result<Formula, NoMemory> {
    let mut reading = Reading {
        alloc,
        terms: Vec::new(alloc),
        formulas: Vec::new(alloc),
    };
    for &letter in text.as_bytes().iter().rev() {
        reading.read(letter)?;
    }
    Ok(reading.formula())
}

fn places(alloc: Global, items: &[usize]) -> Result<Places, NoMemory> {
    let mut places = Places::new(alloc);
    for &item in items {
        places.push(item)?;
    }
    Ok(places)
}

fn equation(alloc: Global, left: usize, symbol: Symbol, right: &[usize]) -> Result<Flat, NoMemory> {
    let mut args = Args::new(alloc);
    for &variable in right {
        args.push(variable)?;
    }
    Ok(Flat::VarTerm(left, symbol, args))
}

fn one_atom(alloc: Global, atom: Flat) -> Result<Basic, NoMemory> {
    let mut basic = Basic::new(alloc);
    basic.push(atom)?;
    Ok(basic)
}

// An equation with an application, and another atom.
fn two_atoms(alloc: Global, first: Flat, second: Flat) -> Result<Basic, NoMemory> {
    let mut basic = one_atom(alloc, first)?;
    basic.push(second)?;
    Ok(basic)
}

fn parts_of_call(alloc: Global) -> Result<Parts, NoMemory> {
    let pair = equation(alloc, 2, Symbol::Named(2), &[1, 3])?;
    let mut parts = Parts::new(alloc);
    parts.push(Part {
        inner: 1,
        basic: two_atoms(alloc, pair, Flat::Finite(3))?,
    })?;
    parts.push(Part {
        inner: 0,
        basic: one_atom(alloc, Flat::Finite(2))?,
    })?;
    Ok(parts)
}

fn first_of_call(alloc: Global) -> Result<Cube, NoMemory> {
    let applied = equation(alloc, 0, Symbol::Named(1), &[2])?;
    Ok(Cube {
        free: 2,
        outer: 1,
        basic: two_atoms(alloc, applied, Flat::VarVar(2, 1))?,
        parts: parts_of_call(alloc)?,
    })
}

fn second_of_call(alloc: Global) -> Result<Cube, NoMemory> {
    Ok(Cube {
        free: 2,
        outer: 0,
        basic: one_atom(alloc, Flat::Finite(1))?,
        parts: Parts::new(alloc),
    })
}

// The cubes of the predicate at place 3: one with an outer variable and two parts, and one without either.
fn cubes_of_call(alloc: Global) -> Result<Cubes, NoMemory> {
    let mut cubes = Cubes::new(alloc);
    cubes.push(first_of_call(alloc)?)?;
    cubes.push(second_of_call(alloc)?)?;
    Ok(cubes)
}

// The cubes of a win within 2 moves.
fn cubes_of_win(alloc: Global) -> Result<Cubes, NoMemory> {
    let applied = equation(alloc, 0, Symbol::Named(1), &[1])?;
    let cube = Cube {
        free: 1,
        outer: 1,
        basic: one_atom(alloc, applied)?,
        parts: Parts::new(alloc),
    };
    let mut cubes = Cubes::new(alloc);
    cubes.push(cube)?;
    Ok(cubes)
}

fn table(alloc: Global) -> Result<Solved, NoMemory> {
    let mut table = Solved::new(alloc);
    if table.find(&Key::Call(3)).is_none() {
        table.add(Key::Call(3), cubes_of_call(alloc)?)?;
    }
    if table.find(&Key::Win(3, 2)).is_none() {
        table.add(Key::Win(3, 2), cubes_of_win(alloc)?)?;
    }
    Ok(table)
}

fn write_atom(shown: &mut String, atom: &Flat) -> Result<(), AllocError> {
    match atom {
        Flat::VarVar(u, v) => write!(shown, " {u}={v}"),
        Flat::VarTerm(u, symbol, args) => {
            match symbol {
                Symbol::Named(place) => write!(shown, " {u}=n{place}(")?,
                Symbol::Further(index) => write!(shown, " {u}=k{index}(")?,
            }
            for i in 0..args.len() {
                write!(shown, "{}{}", if i == 0 { "" } else { "," }, args.get(i))?;
            }
            write!(shown, ")")
        }
        Flat::Finite(u) => write!(shown, " {u}!"),
    }
}

// A negated conjunction in braces: how many variables it binds, its atoms and its parts.
fn write_normal(shown: &mut String, normal: &Normal) -> Result<(), AllocError> {
    write!(shown, "{{{}", normal.bound)?;
    for i in 0..normal.basic.len() {
        write_atom(shown, normal.basic.get(i))?;
    }
    for i in 0..normal.parts.len() {
        write_normal(shown, normal.parts.get(i))?;
    }
    write!(shown, "}}")
}

fn normal_of(alloc: Global, formula: &Formula, ranks: &[usize]) -> Result<Normal, NoMemory> {
    let ranks = places(alloc, ranks)?;
    let table = table(alloc)?;
    flatten(alloc, formula, &ranks, &table)
}

fn normal_of_text(alloc: Global, text: &str, ranks: &[usize]) -> Result<Normal, NoMemory> {
    let formula = formula_of(alloc, text)?;
    normal_of(alloc, &formula, ranks)
}

fn flattened(alloc: Global, text: &str, ranks: &[usize]) -> Result<String, NoMemory> {
    let normal = normal_of_text(alloc, text, ranks)?;
    let mut shown = String::new(alloc);
    write_normal(&mut shown, &normal)?;
    Ok(shown)
}

// Each text, with its variables numbered from the last to the first, is flattened as expected.
fn are_flattened(alloc: Global, rows: &[(&str, &str)]) -> Result<bool, NoMemory> {
    for (text, expected) in rows {
        let shown = flattened(alloc, text, &[1, 0])?;
        if shown.as_str() != *expected {
            return Ok(false);
        }
    }
    Ok(true)
}

#[test]
fn truth_and_equations_are_flattened(rt: HostRuntime) -> Result<(), Fail> {
    let rows: &[(&str, &str)] = &[
        ("t", "{0{0}}"),
        ("n", "{0{0{0}}}"),
        ("=XY", "{0{0 1=0}}"),
        ("=XfgYfa", "{0{3 1=n1(2) 2=n2(0,3) 3=n1(4) 4=n0()}}"),
        ("=gfXakY", "{0{3 2=n2(3,4) 3=n1(1) 4=n0() 2=k5(0)}}"),
        ("#fXY", "{0{0{0 0=n1(1)}}}"),
        ("#gXYgYX", "{0{0{1 2=n2(1,0) 2=n2(0,1)}}}"),
    ];
    assert!(rt; are_flattened(rt.alloc(), rows)?);
    Ok(())
}

#[test]
fn finiteness_and_calls_are_flattened(rt: HostRuntime) -> Result<(), Fail> {
    let rows: &[(&str, &str)] = &[
        ("!X", "{0{0 1!}}"),
        ("!ffX", "{0{2 2=n1(3) 3=n1(1) 2!}}"),
        (
            "cXfY",
            "{0{1 2=n1(0){0{1 1=n1(3) 3=2{1 3=n2(2,4) 4!}{0 3!}}{0 2!}}}}",
        ),
        (
            "cgXffYfgaY",
            "{0{6 2=n2(1,3) 3=n1(4) 4=n1(0) 5=n1(6) 6=n2(7,0) 7=n0(){0{1 2=n1(8) 8=5{1 8=n2(5,9) 9!}{0 8!}}{0 5!}}}}",
        ),
        ("wX", "{0{0{0{1 1=n1(2)}}}}"),
        ("wfgXfY", "{0{3 2=n1(3) 3=n2(1,4) 4=n1(0){0{1 2=n1(5)}}}}"),
    ];
    assert!(rt; are_flattened(rt.alloc(), rows)?);
    Ok(())
}

#[test]
fn connectives_are_flattened(rt: HostRuntime) -> Result<(), Fail> {
    let rows: &[(&str, &str)] = &[
        ("~=XfY", "{0{0{0 1=n1(0)}}}"),
        ("&=XffYEX=XfY", "{0{2 1=n1(2) 2=n1(0) 3=n1(0)}}"),
        ("|=XY!fX", "{0{0{0{0 1=0}{1 2=n1(1) 2!}}}}"),
        (">EX=XYEY=XfY", "{0{0{1 2=0{1 1=n1(3)}}}}"),
        (
            "<EY=XfYcYX",
            "{0{0{1 1=n1(2){0{0{1 0=n1(3) 3=1{1 3=n2(1,4) 4!}{0 3!}}{0 1!}}}}{0{0{1 0=n1(2) 2=1{1 2=n2(1,3) 3!}{0 2!}}{0 1!}}{1 1=n1(2)}}}}",
        ),
    ];
    assert!(rt; are_flattened(rt.alloc(), rows)?);
    Ok(())
}

#[test]
fn quantifiers_are_flattened(rt: HostRuntime) -> Result<(), Fail> {
    let rows: &[(&str, &str)] = &[
        ("EX&=XfY=YfX", "{0{1 2=n1(0) 0=n1(2)}}"),
        ("EXEYEX=XgXY", "{0{3 4=n2(4,3)}}"),
        ("AX=XY", "{0{0{1{0 2=0}}}}"),
        ("AXEY&=XfY~AX=XY", "{0{0{1{1 2=n1(3){0{1{0 4=3}}}}}}}"),
    ];
    assert!(rt; are_flattened(rt.alloc(), rows)?);
    Ok(())
}

#[test]
fn one_free_variable_is_number_0(rt: HostRuntime) -> Result<(), Fail> {
    let rows: &[(&str, usize, &str)] = &[
        ("=XffX", 0, "{0{1 0=n1(1) 1=n1(0)}}"),
        ("!fX", 0, "{0{1 1=n1(0) 1!}}"),
        ("AX=YX", 1, "{0{0{1{0 0=1}}}}"),
    ];
    for (text, rank, expected) in rows {
        let shown = flattened(rt.alloc(), text, &[*rank])?;
        assert_eq!(rt; (*text, shown.as_str()), (*text, *expected));
    }
    Ok(())
}

fn finds_its_keys_alone(alloc: Global) -> Result<bool, NoMemory> {
    let mut table = Solved::new(alloc);
    table.add(Key::Call(0), Cubes::new(alloc))?;
    let finds = table.find(&Key::Call(0)).is_some();
    let others = table.find(&Key::Call(1)).is_some() || table.find(&Key::Win(0, 0)).is_some();
    Ok(finds && !others)
}

#[test]
fn a_table_finds_its_keys_alone(rt: HostRuntime) -> Result<(), Fail> {
    assert!(rt; finds_its_keys_alone(rt.alloc())?);
    Ok(())
}

// A formula and `X = X`, joined.
fn nested(alloc: Global, formula: Formula, to_the_left: bool) -> Result<Formula, NoMemory> {
    let nested = Boxed::new(alloc, formula)?;
    let other = Boxed::new(alloc, Formula::Eq(Term::Var(0), Term::Var(0)))?;
    Ok(if to_the_left {
        Formula::And(nested, other)
    } else {
        Formula::And(other, nested)
    })
}

// A thousand conjunctions of `X = X`, nested to the left or to the right.
fn conjunctions(alloc: Global, to_the_left: bool) -> Result<Formula, NoMemory> {
    let mut formula = Formula::Eq(Term::Var(0), Term::Var(0));
    for _ in 0..1000 {
        formula = nested(alloc, formula, to_the_left)?;
    }
    Ok(formula)
}

// A falsity behind a thousand negations.
fn negations(alloc: Global) -> Result<Formula, NoMemory> {
    let mut formula = Formula::False;
    for _ in 0..1000 {
        formula = Formula::Not(Boxed::new(alloc, formula)?);
    }
    Ok(formula)
}

fn deep(alloc: Global, number: usize) -> Result<Formula, NoMemory> {
    match number {
        0 => conjunctions(alloc, true),
        1 => conjunctions(alloc, false),
        _ => negations(alloc),
    }
}

// What a deep formula with one free variable is flattened to.
fn deep_normal(alloc: Global, number: usize) -> Result<Normal, NoMemory> {
    let formula = deep(alloc, number)?;
    normal_of(alloc, &formula, &[0])
}

// How many atoms and parts its first part has.
fn deep_sizes(alloc: Global, number: usize) -> Result<(usize, usize), NoMemory> {
    let normal = deep_normal(alloc, number)?;
    if normal.parts.len() == 0 {
        return Ok((0, 0));
    }
    let part = normal.parts.get(0);
    Ok((part.basic.len(), part.parts.len()))
}

#[test]
fn a_deep_formula_is_flattened(rt: HostRuntime) -> Result<(), Fail> {
    assert_eq!(rt; deep_sizes(rt.alloc(), 0)?, (1001, 0));
    assert_eq!(rt; deep_sizes(rt.alloc(), 1)?, (1001, 0));
    assert_eq!(rt; deep_sizes(rt.alloc(), 2)?, (0, 1));
    Ok(())
}

#[test]
fn laws_can_be_called(_rt: HostRuntime) {
    well_formed_fits();
    flattening_keeps_symbols();
}
