ghost use Rattle.std.specs.Prelude.{◌≡◌, ◌<◌, ◌≤◌, ◌+◌, length, IfOk};
ghost use Rattle.flat_form.specs.Normals.{norm_of};
ghost use Rattle.flat_form.specs.Numbering.{AtomOver, BasicOver, PartOver, CubesOver, IsWellNumbered, NormOver};

mod cases;

use super::*;
use cases::{COUNT, RANDOM, SINGLE};
use flat_form::{Args, Basic, Cube, Cubes, Flat, Normal, Normals, Part, Parts, is_same_cube};
use lists::NoMemory;
use std::alloc::Global;
use std::test::*;
use tree_model::Symbol;

// A line is an operation, how many variables are free, what the operation is taken of, and the list that it gives: how
// many variables are free in this, and the cubes.
//
// A list of cubes is how many they are, and the cubes. A cube is three digits, how many variables are outer, how many
// atoms follow and how many parts. A part is two digits, how many variables are inner and how many atoms follow. A negated
// conjunction is three digits, how many variables it binds, how many atoms follow and how many parts. An atom is `=` and
// two variables, `!` and a variable, or a digit, a variable, a symbol and as many variables. The variables are `A`, `B`,
// ... A symbol is a letter for a name or a digit for a further one.
#[derive(Drop)]
struct Reader<'a> {
    text: &'a [u8],
    at: usize,
}

impl Reader<'_> {
    // The next byte, or a blank at the end.
    fn next(&mut self) -> u8 {
        if self.at < self.text.len() {
            let byte = self.text[self.at];
            self.at += 1;
            byte
        } else {
            b' '
        }
    }

    fn number(&mut self) -> usize {
        self.next().saturating_sub(b'0') as usize
    }

    // A variable below n. There is an error where the text has none.
    fn variable(&mut self, n: usize) -> Result<usize, NoMemory>
        ensures { IfOk result (λ v. v < n) }
    {
        let v = self.next().saturating_sub(b'A') as usize;
        if v < n { Ok(v) } else { Err(NoMemory) }
    }

    fn symbol(&mut self) -> Symbol {
        let byte = self.next();
        if byte < b'a' {
            Symbol::Further(byte.saturating_sub(b'0') as u64)
        } else {
            Symbol::Named((byte - b'a') as usize)
        }
    }

    // A term of at most two arguments.
    fn term(&mut self, alloc: Global, n: usize, count: u8) -> Result<Flat, NoMemory>
        ensures { IfOk result (AtomOver n) }
    {
        let u = self.variable(n)?;
        let symbol = self.symbol();
        let mut args = Args::new(alloc);
        if count > b'0' {
            args.push(self.variable(n)?)?;
        }
        if count > b'1' {
            args.push(self.variable(n)?)?;
        }
        Ok(Flat::VarTerm(u, symbol, args))
    }

    fn atom(&mut self, alloc: Global, n: usize) -> Result<Flat, NoMemory>
        ensures { IfOk result (AtomOver n) }
    {
        match self.next() {
            b'=' => {
                let u = self.variable(n)?;
                let v = self.variable(n)?;
                Ok(Flat::VarVar(u, v))
            }
            b'!' => Ok(Flat::Finite(self.variable(n)?)),
            digit => self.term(alloc, n, digit),
        }
    }

    fn basic(&mut self, alloc: Global, n: usize, count: usize) -> Result<Basic, NoMemory>
        ensures { IfOk result (BasicOver n) }
    {
        let mut atoms = Basic::new(alloc);
        for _place in 0..count {
            atoms.push(self.atom(alloc, n)?)?;
        }
        Ok(atoms)
    }

    fn part(&mut self, alloc: Global, m: usize) -> Result<Part, NoMemory>
        ensures { IfOk result (PartOver m) }
    {
        let inner = self.number();
        let count = self.number();
        let Some(n) = m.checked_add(inner) else {
            return Err(NoMemory);
        };
        let basic = self.basic(alloc, n, count)?;
        Ok(Part { inner, basic })
    }

    fn cube(&mut self, alloc: Global, free: usize) -> Result<Cube, NoMemory>
        ensures { IfOk result (λ cube. (cube.free ≡ free) × IsWellNumbered cube) }
    {
        let outer = self.number();
        let count = self.number();
        let part_count = self.number();
        let Some(m) = free.checked_add(outer) else {
            return Err(NoMemory);
        };
        let basic = self.basic(alloc, m, count)?;
        let mut parts = Parts::new(alloc);
        for _place in 0..part_count {
            parts.push(self.part(alloc, m)?)?;
        }
        Ok(Cube {
            free,
            outer,
            basic,
            parts,
        })
    }

    fn cubes(&mut self, alloc: Global, free: usize) -> Result<Cubes, NoMemory>
        ensures { IfOk result (CubesOver free) }
    {
        let count = self.number();
        let mut cubes = Cubes::new(alloc);
        for _place in 0..count {
            cubes.push(self.cube(alloc, free)?)?;
        }
        Ok(cubes)
    }

    // A negated conjunction that goes at most so deep.
    #[cycle(normal)]
    fn normal(&mut self, alloc: Global, n: usize, depth: usize) -> Result<Normal, NoMemory>
        ensures { IfOk result (λ made. NormOver n (norm_of made)) }
    {
        if depth == 0 {
            return Err(NoMemory);
        }
        let bound = self.number();
        let count = self.number();
        let part_count = self.number();
        let Some(m) = n.checked_add(bound) else {
            return Err(NoMemory);
        };
        let basic = self.basic(alloc, m, count)?;
        let mut parts = Normals::new(alloc);
        for _place in 0..part_count {
            parts.push(self.normal(alloc, m, depth - 1)?)?;
        }
        Ok(Normal {
            bound,
            basic,
            parts,
        })
    }

    // The list that the operation gives.
    fn given(&mut self, alloc: Global, operation: u8, free: usize) -> Result<Cubes, NoMemory> {
        match operation {
            b'p' => {
                let negated = self.normal(alloc, free, 4)?;
                PlainEngine.solve(alloc, free, &negated)
            }
            b'e' => {
                let quantified = self.number();
                let cubes = self.cubes(alloc, free)?;
                if quantified > free {
                    return Err(NoMemory);
                }
                exists(alloc, quantified, &cubes)
            }
            b'n' => not(alloc, free, &self.cubes(alloc, free)?),
            b'a' => {
                let left = self.cubes(alloc, free)?;
                let right = self.cubes(alloc, free)?;
                and(alloc, &left, &right)
            }
            _ => {
                let left = self.cubes(alloc, free)?;
                let right = self.cubes(alloc, free)?;
                or(alloc, &left, &right)
            }
        }
    }

    // Whether the operation of the line gives the line's last list.
    fn is_right(&mut self, alloc: Global) -> Result<bool, NoMemory> {
        let operation = self.next();
        let free = self.number();
        let given = self.given(alloc, operation, free)?;
        let left = self.number();
        let expected = self.cubes(alloc, left)?;
        Ok(are_same(&given, &expected))
    }
}

// Whether the lists have equal cubes in one order.
fn are_same(a: &Cubes, b: &Cubes) -> bool {
    if a.len() != b.len() {
        return false;
    }
    for i in 0..a.len() {
        if !is_same_cube(a.get(i), b.get(i)) {
            return false;
        }
    }
    true
}

// How many of the lines are right.
fn count_right(alloc: Global, text: &str, lines: usize) -> Result<usize, NoMemory> {
    let mut reader = Reader {
        text: text.as_bytes(),
        at: 0,
    };
    let mut count = 0;
    for _place in 0..lines {
        if reader.is_right(alloc)? {
            count += 1;
        }
        let _ = reader.next();
    }
    Ok(count)
}

#[test]
fn random_lists_are_those_of_a_slow_model(rt: HostRuntime) -> Result<(), NoMemory> {
    let right = count_right(rt.alloc(), RANDOM, COUNT)?;
    assert_eq!(rt; right, COUNT);
    Ok(())
}

#[test]
fn single_calls_give_the_lists_by_hand(rt: HostRuntime) -> Result<(), NoMemory> {
    let right = count_right(rt.alloc(), SINGLE, 5)?;
    assert_eq!(rt; right, 5);
    Ok(())
}
