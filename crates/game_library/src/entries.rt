// Single entries are made.
ghost use Rattle.std.specs.Prelude.{◌≡◌, ◌<◌, ◌≤◌, ℕ, suc, [], ◌∷◌, Contains, IfOk, OnOk, MatchBool};
ghost use Rattle.std.specs.List.{range_with_len};
ghost use Rattle.formula_ast.specs.Forms.{form_of};
ghost use Rattle.formula_ast.specs.WellFormed.{IsWellFormed};
ghost use Rattle.flattening.specs.declared.solved.Key.{Key};
ghost use Rattle.flattening.specs.declared.solved.Key.TheVariants.{Call, Win};
ghost use Rattle.flattening.specs.Conditions.{HasFreeVariables, HasEntries};
ghost use Rattle.flattening.specs.Plain.{plain_of};
ghost use Rattle.flattening.specs.Tables.{HasKey};
ghost use Rattle.game_library.specs.Entries.{AreRight, IsRight};
ghost use Rattle.game_library.specs.Needs.{place_of, Covers};
ghost use Rattle.game_library.specs.Solving.{IsOverFile, IsGrown, IsSolved};

use crate::marks::Mark;
use crate::winning::winning_formula;
use flat_form::Cubes;
use flattening::{Key, Solved, flatten};
use formula_ast::{File, Formula, Pred};
use lists::NoMemory;
use normal_form::Engine;
use std::alloc::Global;
use tree_model::Places;

// The cubes of a formula whose entries stand in the table.
pub(crate) fn solve_with<E: Engine>(
    alloc: Global,
    engine: &mut E,
    file: &File,
    f: &Formula,
    ranks: &Places,
    table: &Solved,
) -> Result<Cubes, NoMemory>
    requires formed { IsWellFormed file.now }
    requires over { IsOverFile file.now (form_of f.now) }
    requires free { HasFreeVariables ranks.now (form_of f.now) }
    requires right { AreRight E.gives file.now table.now }
    requires has { HasEntries table.now (plain_of (form_of f.now)) }
    ensures { IfOk result (IsSolved E.gives file.now ranks.now (form_of f.now)) }
{
    let normal = flatten(alloc, f, ranks, table)?;
    let cubes = engine.solve(alloc, ranks.len(), &normal)?;
    Ok(cubes)
}

// The first places, so many.
#[tactic(auto, using(crate::proofs::Ranges::range_more))]
fn first_places(alloc: Global, count: usize) -> Result<Places, NoMemory>
    ensures { IfOk result (λ places. places ≡ range_with_len 0 count) }
{
    let mut places = Places::new(alloc);
    for place in 0..count {
        places.push(place)?;
    }
    Ok(places)
}

// The cubes of a predicate.
fn solve_pred<E: Engine>(
    alloc: Global,
    engine: &mut E,
    file: &File,
    pred: &Pred,
    table: &Solved,
) -> Result<Cubes, NoMemory>
    requires formed { IsWellFormed file.now }
    requires stands { Contains file.now.preds pred.now }
    requires right { AreRight E.gives file.now table.now }
    requires has { HasEntries table.now (plain_of (form_of pred.now.body)) }
    ensures { IfOk result (IsRight E.gives file.now (Call pred.now.place)) }
{
    let ranks = first_places(alloc, pred.params)?;
    let cubes = solve_with(alloc, engine, file, &pred.body, &ranks, table)?;
    Ok(cubes)
}

// The cubes of a win within k moves and one more.
fn solve_next<E: Engine>(
    alloc: Global,
    engine: &mut E,
    file: &File,
    pred: &Pred,
    k: u64,
    table: &Solved,
) -> Result<Cubes, NoMemory>
    requires formed { IsWellFormed file.now }
    requires stands { Contains file.now.preds pred.now }
    requires two { pred.now.params ≡ 2 }
    requires right { AreRight E.gives file.now table.now }
    requires pred { HasKey table.now (Call pred.now.place) }
    requires win { HasKey table.now (Win pred.now.place k) }
    ensures { IfOk result (IsRight E.gives file.now (Win pred.now.place (suc k))) }
{
    let formula = winning_formula(alloc, pred.place, k)?;
    let ranks = first_places(alloc, 1)?;
    let cubes = solve_with(alloc, engine, file, &formula, &ranks, table)?;
    Ok(cubes)
}

// Whether the table has the key.
fn has(table: &Solved, key: Key) -> bool
    ensures { MatchBool result (HasKey table.now key) (¬ HasKey table.now key) }
{
    match table.find(&key) {
        Some(_) => true,
        None => false,
    }
}

// The entry of the predicate stands.
fn add_call<E: Engine>(
    alloc: Global,
    engine: &mut E,
    file: &File,
    pred: &Pred,
    table: &mut Solved,
) -> Result<(), NoMemory>
    requires formed { IsWellFormed file.now }
    requires stands { Contains file.now.preds pred.now }
    requires right { AreRight E.gives file.now table.old }
    requires has { HasEntries table.old (plain_of (form_of pred.now.body)) }
    ensures right { AreRight E.gives file.now table.new }
    ensures grown { IsGrown table.old table.new }
    ensures ok { OnOk result (HasKey table.new (Call pred.now.place)) }
{
    let key = Key::Call(pred.place);
    if has(table, key) {
        return Ok(());
    }
    let cubes = solve_pred(alloc, engine, file, pred, table)?;
    table.add(key, cubes)?;
    Ok(())
}

// The cubes of a win within so many moves.
fn solve_win<E: Engine>(
    alloc: Global,
    engine: &mut E,
    file: &File,
    pred: &Pred,
    moves: u64,
    table: &Solved,
) -> Result<Cubes, NoMemory>
    requires formed { IsWellFormed file.now }
    requires stands { Contains file.now.preds pred.now }
    requires two { pred.now.params ≡ 2 }
    requires right { AreRight E.gives file.now table.now }
    requires pred { 0 < moves → HasKey table.now (Call pred.now.place) }
    requires fewer { (k : ℕ) → k < moves → HasKey table.now (Win pred.now.place k) }
    ensures { IfOk result (IsRight E.gives file.now (Win pred.now.place moves)) }
{
    if moves == 0 {
        return Ok(Cubes::new(alloc));
    }
    let cubes = solve_next(alloc, engine, file, pred, moves - 1, table)?;
    Ok(cubes)
}

// The entry of a win within so many moves stands.
fn add_win<E: Engine>(
    alloc: Global,
    engine: &mut E,
    file: &File,
    pred: &Pred,
    moves: u64,
    table: &mut Solved,
) -> Result<(), NoMemory>
    requires formed { IsWellFormed file.now }
    requires stands { Contains file.now.preds pred.now }
    requires two { pred.now.params ≡ 2 }
    requires right { AreRight E.gives file.now table.old }
    requires pred { 0 < moves → HasKey table.old (Call pred.now.place) }
    requires fewer { (k : ℕ) → k < moves → HasKey table.old (Win pred.now.place k) }
    ensures right { AreRight E.gives file.now table.new }
    ensures grown { IsGrown table.old table.new }
    ensures ok { OnOk result (HasKey table.new (Win pred.now.place moves)) }
{
    let key = Key::Win(pred.place, moves);
    if has(table, key) {
        return Ok(());
    }
    let cubes = solve_win(alloc, engine, file, pred, moves, table)?;
    table.add(key, cubes)?;
    Ok(())
}

// The entries of wins within fewer moves stand.
fn add_fewer<E: Engine>(
    alloc: Global,
    engine: &mut E,
    file: &File,
    pred: &Pred,
    most: u64,
    table: &mut Solved,
) -> Result<(), NoMemory>
    requires formed { IsWellFormed file.now }
    requires stands { Contains file.now.preds pred.now }
    requires two { pred.now.params ≡ 2 }
    requires right { AreRight E.gives file.now table.old }
    requires pred { 0 < most → HasKey table.old (Call pred.now.place) }
    ensures right { AreRight E.gives file.now table.new }
    ensures grown { IsGrown table.old table.new }
    ensures ok { OnOk result ((k : ℕ) → k < most → HasKey table.new (Win pred.now.place k)) }
{
    for moves in 0..most {
        add_win(alloc, engine, file, pred, moves, table)?;
    }
    Ok(())
}

// The entries of wins stand, up to so many moves.
fn add_wins<E: Engine>(
    alloc: Global,
    engine: &mut E,
    file: &File,
    pred: &Pred,
    most: u64,
    table: &mut Solved,
) -> Result<(), NoMemory>
    requires formed { IsWellFormed file.now }
    requires stands { Contains file.now.preds pred.now }
    requires two { pred.now.params ≡ 2 }
    requires right { AreRight E.gives file.now table.old }
    requires pred { 0 < most → HasKey table.old (Call pred.now.place) }
    ensures right { AreRight E.gives file.now table.new }
    ensures grown { IsGrown table.old table.new }
    ensures ok { OnOk result ((k : ℕ) → k ≤ most → HasKey table.new (Win pred.now.place k)) }
{
    add_fewer(alloc, engine, file, pred, most, table)?;
    add_win(alloc, engine, file, pred, most, table)?;
    Ok(())
}

// The entry of the predicate stands, if the mark says that it is needed.
fn add_if_called<E: Engine>(
    alloc: Global,
    engine: &mut E,
    file: &File,
    pred: &Pred,
    mark: Mark,
    table: &mut Solved,
) -> Result<(), NoMemory>
    requires formed { IsWellFormed file.now }
    requires stands { Contains file.now.preds pred.now }
    requires right { AreRight E.gives file.now table.old }
    requires has { Covers mark (Call pred.now.place) → HasEntries table.old (plain_of (form_of pred.now.body)) }
    ensures right { AreRight E.gives file.now table.new }
    ensures grown { IsGrown table.old table.new }
    ensures ok { OnOk result (Covers mark (Call pred.now.place) → HasKey table.new (Call pred.now.place)) }
{
    if mark.is_called() {
        add_call(alloc, engine, file, pred, table)?;
        return Ok(());
    }
    Ok(())
}

// The entries that the mark of the predicate names stand.
pub(crate) fn add_marked<E: Engine>(
    alloc: Global,
    engine: &mut E,
    file: &File,
    pred: &Pred,
    mark: Mark,
    table: &mut Solved,
) -> Result<(), NoMemory>
    requires formed { IsWellFormed file.now }
    requires stands { Contains file.now.preds pred.now }
    requires two { (k : ℕ) → Covers mark (Win pred.now.place k) → pred.now.params ≡ 2 }
    requires right { AreRight E.gives file.now table.old }
    requires has { Covers mark (Call pred.now.place) → HasEntries table.old (plain_of (form_of pred.now.body)) }
    ensures right { AreRight E.gives file.now table.new }
    ensures grown { IsGrown table.old table.new }
    ensures ok { OnOk result ((key : Key) → place_of key ≡ pred.now.place → Covers mark key → HasKey table.new key) }
{
    add_if_called(alloc, engine, file, pred, mark, table)?;
    match mark.moves {
        Some(most) => {
            add_wins(alloc, engine, file, pred, most, table)?;
            Ok(())
        }
        None => Ok(()),
    }
}
