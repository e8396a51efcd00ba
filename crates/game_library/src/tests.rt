//! Two games, solved by a table that is lent from statement to statement. What is expected comes from a model that was
//! written from the definitions and not from this code.
ghost use Rattle.std.specs.Prelude.{◌≡◌, ◌<◌, IfOk, OnOk, Some};
ghost use Rattle.tree_model.specs.Signatures.{declared_at};
ghost use Rattle.formula_ast.specs.Forms.{form_of};
ghost use Rattle.formula_ast.specs.WellFormed.{IsWellFormed};
ghost use Rattle.game_library.specs.Entries.{AreRight};
ghost use Rattle.game_library.specs.Solving.{IsOverFile};

mod games;

use crate::{complete, solve_by, solve_formula, winning_formula};
use flat_form::{Cubes, Normal};
use flattening::{Key, Solved};
use formula_ast::{File, Formula, Term, Terms, free_variables};
use games::{file, loop_wins, moves, position, statement, wins};
use lists::NoMemory;
use normal_form::{Engine, PlainEngine};
use signature::Kind;
use sqlite_items::Boxed;
use std::alloc::{AllocError, Global};
use std::fmt::Write;
use std::test::Fail;

// An engine, and how often it was asked.
#[derive(Drop)]
struct Counting<E> {
    engine: E,
    asked: u64,
}

impl<E: Engine> Engine for Counting<E> {
    ghost gives = { E.gives };

    fn solve(&mut self, alloc: Global, free: usize, n: &Normal) -> Result<Cubes, NoMemory> {
        self.asked = self.asked.saturating_add(1);
        self.engine.solve(alloc, free, n)
    }
}

// A table without entries.
fn no_entries<E: Engine>(alloc: Global, _engine: &E, file: &File) -> Solved
    ensures { AreRight E.gives file.now result }
{
    Solved::new(alloc)
}

// Whether a formula without free variables is true.
fn is_true<E: Engine>(
    alloc: Global,
    engine: &mut E,
    file: &File,
    f: &Formula,
    table: &mut Solved,
) -> Result<bool, NoMemory>
    requires formed { IsWellFormed file.now }
    requires over { IsOverFile file.now (form_of f.now) }
    requires right { AreRight E.gives file.now table.old }
    ensures right { AreRight E.gives file.now table.new }
{
    let ranks = free_variables(alloc, f)?;
    let cubes = solve_by(alloc, engine, file, f, &ranks, table)?;
    Ok(cubes.len() > 0)
}

// Whether the player to move at a position of a game wins within so many moves.
fn wins_at<E: Engine>(
    alloc: Global,
    engine: &mut E,
    file: &File,
    table: &mut Solved,
    game: usize,
    most: u64,
    number: usize,
) -> Result<bool, NoMemory>
    requires formed { IsWellFormed file.now }
    requires game { declared_at file.now.signature game ≡ Some (Kind.Pred, 2) }
    requires right { AreRight E.gives file.now table.old }
    ensures right { AreRight E.gives file.now table.new }
{
    let t = position(alloc, game, number)?;
    let f = wins(game, most, t);
    is_true(alloc, engine, file, &f, table)
}

// Whether there is a move between two positions.
fn moves_between<E: Engine>(
    alloc: Global,
    engine: &mut E,
    file: &File,
    table: &mut Solved,
    game: usize,
    from: usize,
    to: usize,
) -> Result<bool, NoMemory>
    requires formed { IsWellFormed file.now }
    requires game { declared_at file.now.signature game ≡ Some (Kind.Pred, 2) }
    requires right { AreRight E.gives file.now table.old }
    ensures right { AreRight E.gives file.now table.new }
{
    let from = position(alloc, game, from)?;
    let to = position(alloc, game, to)?;
    let f = moves(alloc, game, from, to)?;
    is_true(alloc, engine, file, &f, table)
}

fn mark(holds: bool) -> char {
    if holds { 'w' } else { '.' }
}

// Writes at which positions of a game the player to move wins within so many moves.
fn write_wins<E: Engine>(
    alloc: Global,
    engine: &mut E,
    file: &File,
    table: &mut Solved,
    game: usize,
    most: u64,
    text: &mut String,
) -> Result<(), NoMemory>
    requires formed { IsWellFormed file.now }
    requires game { declared_at file.now.signature game ≡ Some (Kind.Pred, 2) }
    requires right { AreRight E.gives file.now table.old }
    ensures right { AreRight E.gives file.now table.new }
{
    for number in 0..6 {
        let holds = wins_at(alloc, engine, file, table, game, most, number)?;
        text.push(mark(holds))?;
    }
    text.push('\n')?;
    Ok(())
}

// A line for each number of moves up to four.
fn write_all_wins<E: Engine>(
    alloc: Global,
    engine: &mut E,
    file: &File,
    table: &mut Solved,
    game: usize,
    text: &mut String,
) -> Result<(), NoMemory>
    requires formed { IsWellFormed file.now }
    requires game { declared_at file.now.signature game ≡ Some (Kind.Pred, 2) }
    requires right { AreRight E.gives file.now table.old }
    ensures right { AreRight E.gives file.now table.new }
{
    for most in 0..5 {
        write_wins(alloc, engine, file, table, game, most, text)?;
    }
    Ok(())
}

// From which positions there is a move to a position.
fn write_moves<E: Engine>(
    alloc: Global,
    engine: &mut E,
    file: &File,
    table: &mut Solved,
    game: usize,
    to: usize,
    text: &mut String,
) -> Result<(), NoMemory>
    requires formed { IsWellFormed file.now }
    requires game { declared_at file.now.signature game ≡ Some (Kind.Pred, 2) }
    requires right { AreRight E.gives file.now table.old }
    ensures right { AreRight E.gives file.now table.new }
{
    for from in 0..6 {
        let holds = moves_between(alloc, engine, file, table, game, from, to)?;
        text.push(mark(holds))?;
    }
    text.push('\n')?;
    Ok(())
}

// At heaps of 0 to 5, and then at the constants from the one before the first on.
const WINS: &str = "\
......
.w....
.w.w..
.w.w.w
.w.w.w
......
..w...
..w.w.
..w.w.
..w.w.
";

#[test]
fn wins_are_within_so_many_moves_of_the_player(rt: HostRuntime) -> Result<(), Fail> {
    let alloc = rt.alloc();
    let file = file(alloc)?;
    let mut engine = PlainEngine;
    let mut table = no_entries(alloc, &engine, &file);
    let mut text = String::new(alloc);
    write_all_wins(alloc, &mut engine, &file, &mut table, 0, &mut text)?;
    write_all_wins(alloc, &mut engine, &file, &mut table, 1, &mut text)?;
    assert_eq!(rt; text.as_str(), WINS);
    Ok(())
}

// Predecessors of the heap of one; of the first constant, and of the second.
const MOVES: &str = "\
..w...
..w.w.
.w....
";

#[test]
fn a_move_is_from_the_first_parameter_to_the_second(rt: HostRuntime) -> Result<(), Fail> {
    let alloc = rt.alloc();
    let file = file(alloc)?;
    let mut engine = PlainEngine;
    let mut table = no_entries(alloc, &engine, &file);
    let mut text = String::new(alloc);
    write_moves(alloc, &mut engine, &file, &mut table, 0, 1, &mut text)?;
    write_moves(alloc, &mut engine, &file, &mut table, 1, 1, &mut text)?;
    write_moves(alloc, &mut engine, &file, &mut table, 1, 2, &mut text)?;
    assert_eq!(rt; text.as_str(), MOVES);
    Ok(())
}

// Within how many moves, up to four, a loop is won, if it is.
fn loop_is_won<E: Engine>(
    alloc: Global,
    engine: &mut E,
    file: &File,
    table: &mut Solved,
) -> Result<Option<u64>, NoMemory>
    requires formed { IsWellFormed file.now }
    requires game { declared_at file.now.signature 0 ≡ Some (Kind.Pred, 2) }
    requires right { AreRight E.gives file.now table.old }
{
    for most in 0..5 {
        let f = loop_wins(alloc, most)?;
        if is_true(alloc, engine, file, &f, table)? {
            return Ok(Some(most));
        }
    }
    Ok(None)
}

#[test]
fn nobody_wins_where_each_move_leads_back(rt: HostRuntime) -> Result<(), Fail> {
    let alloc = rt.alloc();
    let file = file(alloc)?;
    let mut engine = PlainEngine;
    let mut table = no_entries(alloc, &engine, &file);
    let won = loop_is_won(alloc, &mut engine, &file, &mut table)?;
    assert_eq!(rt; won, None);
    Ok(())
}

// What the engine was asked for so far, behind each statement.
fn write_asked(alloc: Global, file: &File, text: &mut String) -> Result<(), NoMemory>
    requires formed { IsWellFormed file.now }
    requires first { declared_at file.now.signature 0 ≡ Some (Kind.Pred, 2) }
    requires second { declared_at file.now.signature 1 ≡ Some (Kind.Pred, 2) }
{
    let mut engine = Counting {
        engine: PlainEngine,
        asked: 0,
    };
    let mut table = no_entries(alloc, &engine, file);
    wins_at(alloc, &mut engine, file, &mut table, 0, 2, 1)?;
    write!(text, "{}", engine.asked)?;
    wins_at(alloc, &mut engine, file, &mut table, 0, 2, 1)?;
    write!(text, " {}", engine.asked)?;
    wins_at(alloc, &mut engine, file, &mut table, 0, 3, 1)?;
    write!(text, " {}", engine.asked)?;
    wins_at(alloc, &mut engine, file, &mut table, 0, 1, 2)?;
    write!(text, " {}", engine.asked)?;
    moves_between(alloc, &mut engine, file, &mut table, 0, 1, 0)?;
    write!(text, " {}", engine.asked)?;
    wins_at(alloc, &mut engine, file, &mut table, 1, 1, 2)?;
    write!(text, " {}", engine.asked)?;
    Ok(())
}

// Each predicate and each win within at least one move is solved once, and each statement.
#[test]
fn entries_are_made_once(rt: HostRuntime) -> Result<(), Fail> {
    let alloc = rt.alloc();
    let file = file(alloc)?;
    let mut text = String::new(alloc);
    write_asked(alloc, &file, &mut text)?;
    assert_eq!(rt; text.as_str(), "4 5 7 8 9 12");
    Ok(())
}

// The keys that a table gets for a win within two moves of the chain, and for nothing else.
#[test]
fn a_table_gets_what_a_formula_needs(rt: HostRuntime) -> Result<(), Fail> {
    let alloc = rt.alloc();
    let file = file(alloc)?;
    let t = position(alloc, 0, 1)?;
    let f = wins(0, 2, t);
    let mut engine = PlainEngine;
    let mut table = no_entries(alloc, &engine, &file);
    complete(alloc, &mut engine, &file, &f, &mut table)?;
    for key in [Key::Call(0), Key::Win(0, 0), Key::Win(0, 1), Key::Win(0, 2)] {
        assert!(rt; table.find(&key).is_some());
    }
    for key in [Key::Call(1), Key::Win(0, 3), Key::Win(1, 0)] {
        assert!(rt; table.find(&key).is_none());
    }
    Ok(())
}

// How many cubes a win within so many moves has at a variable.
fn cubes_of(alloc: Global, file: &File, game: usize, most: u64) -> Result<usize, NoMemory>
    requires formed { IsWellFormed file.now }
    requires game { declared_at file.now.signature game ≡ Some (Kind.Pred, 2) }
{
    let f = wins(game, most, Term::Var(0));
    let s = statement(alloc, f)?;
    let ranks = free_variables(alloc, &s.body)?;
    let cubes = solve_formula(alloc, &mut PlainEngine, file, &s, &ranks)?;
    Ok(cubes.len())
}

// The heaps at which the player wins within three moves, and the two constants within two.
#[test]
fn winning_positions_are_listed(rt: HostRuntime) -> Result<(), Fail> {
    let alloc = rt.alloc();
    let file = file(alloc)?;
    assert_eq!(rt; cubes_of(alloc, &file, 0, 3)?, 3);
    assert_eq!(rt; cubes_of(alloc, &file, 1, 2)?, 2);
    Ok(())
}

// The number of a variable.
fn variable(t: &Term) -> usize {
    match t {
        Term::Var(x) => *x,
        Term::App(_, _) => 9,
    }
}

fn write_call(text: &mut String, p: usize, terms: &Terms) -> Result<(), AllocError> {
    write!(text, "p{p}(")?;
    for i in 0..terms.len() {
        write!(
            text,
            "{}{}",
            if i == 0 { "" } else { "," },
            variable(terms.get(i))
        )?;
    }
    write!(text, ")")
}

// A formula of calls of two variables, wins at a variable, negations, conjunctions and existential quantifiers.
fn write_formula(text: &mut String, f: &Formula) -> Result<(), AllocError> {
    match f {
        Formula::Call(p, ts) => write_call(text, *p, ts),
        Formula::Win(p, k, t) => write!(text, "w{p},{k}({})", variable(t)),
        Formula::Not(f) => {
            write!(text, "~")?;
            write_formula(text, f.get())
        }
        Formula::And(f, g) => {
            write_formula(text, f.get())?;
            write!(text, "&")?;
            write_formula(text, g.get())
        }
        Formula::Exists(x, f) => {
            write!(text, "E{x}(")?;
            write_formula(text, f.get())?;
            write!(text, ")")
        }
        _ => write!(text, "?"),
    }
}

#[test]
fn a_win_as_a_formula(rt: HostRuntime) -> Result<(), Fail> {
    let alloc = rt.alloc();
    let f = winning_formula(alloc, 7, 3)?;
    let mut text = String::new(alloc);
    write_formula(&mut text, &f)?;
    assert_eq!(rt; text.as_str(), "E1(p7(0,1)&~E2(p7(1,2)&~w7,3(2)))");
    Ok(())
}
