// Which entries are needed.
ghost use Rattle.std.specs.Prelude.{◌≡◌, ◌<◌, [], ◌∷◌, length, slice_get, Some, IfOk};
ghost use Rattle.formula_ast.specs.Forms.{form_of};
ghost use Rattle.formula_ast.specs.WellFormed.{IsWellFormed};
ghost use Rattle.flattening.specs.declared.solved.Key.TheVariants.{Call, Win};
ghost use Rattle.game_library.specs.Needs.{asked_keys, place_of, is_called, greatest, with_key, no_marks, Adds, AreNeeded};
ghost use Rattle.game_library.specs.Solving.{IsOverFile};

use flattening::Key;
use formula_ast::{File, Formula};
use lists::NoMemory;
use sqlite_items::Boxed;
use std::alloc::Global;
use std::marker::Model;

// What is asked of a predicate.
#[derive(Clone, Copy, Debug, Drop)]
pub(crate) struct Mark {
    // Whether it is called.
    pub called: bool,
    // The most moves within which a win by it is asked for, if one is.
    pub moves: Option<u64>,
}

impl Mark {
    // The predicate has to be solved: it is called, or wins within some moves are asked for.
    pub(crate) fn is_called(&self) -> bool
        ensures { result ≡ is_called self.now }
    {
        if self.called {
            return true;
        }
        match self.moves {
            Some(most) => 0 < most,
            None => false,
        }
    }

    // The same, where this key is asked for besides.
    fn with(self, key: Key) -> Mark
        ensures { result ≡ with_key self key }
    {
        match key {
            Key::Call(_) => Mark {
                called: true,
                moves: self.moves,
            },
            Key::Win(_, moves) => Mark {
                called: self.called,
                moves: Some(greatest(self.moves, moves)),
            },
        }
    }
}

// The greater number of moves.
fn greatest(most: Option<u64>, moves: u64) -> u64
    ensures { result ≡ greatest most moves }
{
    match most {
        Some(most) => most.max(moves),
        None => moves,
    }
}

// A mark for each place of the signature.
#[derive(Drop)]
pub(crate) struct Marks {
    marks: Vec<Mark>,
}

impl Model for Marks {
    ghost use Rattle.std.specs.Prelude.{List};
    ghost use Rattle.game_library.specs.declared.marks.Mark.{Mark};

    ghost Value = { List Mark };

    ghost view = { λ m. m.marks.items };
}

impl Marks {
    // Nothing is asked of so many places.
    fn none(alloc: Global, places: usize) -> Result<Marks, NoMemory>
        ensures { IfOk result (λ marks. marks ≡ no_marks places) }
    {
        let nothing = Mark {
            called: false,
            moves: None,
        };
        let marks = vec![in alloc; nothing; places]?;
        Ok(Marks { marks })
    }

    // The mark of a place.
    pub(crate) fn of(&self, place: usize) -> Mark
        requires { place < length self.now }
        ensures { slice_get self.now place ≡ Some result }
    {
        self.marks[place]
    }

    // The key is asked for. Beyond the places nothing is.
    fn add(&mut self, place: usize, key: Key)
        requires { place_of key ≡ place }
        ensures { Adds self.old self.new (key ∷ []) }
    {
        if place < self.marks.len() {
            self.marks[place] = self.marks[place].with(key);
        }
    }

    // So is each that the formula asks for.
    fn add_all(&mut self, f: &Formula)
        ensures { Adds self.old self.new (asked_keys (form_of f.now)) }
    {
        match f {
            Formula::True | Formula::False => {}
            Formula::Eq(_, _) | Formula::Differ(_, _) | Formula::Finite(_) => {}
            Formula::Call(p, _) => self.add(*p, Key::Call(*p)),
            Formula::Win(p, k, _) => self.add(*p, Key::Win(*p, *k)),
            Formula::Not(f) | Formula::Exists(_, f) | Formula::Forall(_, f) => {
                self.add_all(f.get())
            }
            Formula::And(f, g) | Formula::Or(f, g) | Formula::Imp(f, g) | Formula::Iff(f, g) => {
                self.add_all(f.get());
                self.add_all(g.get());
            }
        }
    }
}

// What the formula needs, and what the bodies of the predicates need in turn: a body calls earlier ones alone.
pub(crate) fn needed(alloc: Global, file: &File, f: &Formula) -> Result<Marks, NoMemory>
    requires formed { IsWellFormed file.now }
    requires over { IsOverFile file.now (form_of f.now) }
    ensures { IfOk result (AreNeeded file.now (form_of f.now)) }
{
    let mut marks = Marks::none(alloc, file.signature.len())?;
    marks.add_all(f);
    for i in (0..file.preds.len()).rev() {
        let pred = file.preds.get(i);
        if marks.of(pred.place).is_called() {
            marks.add_all(&pred.body);
        }
    }
    Ok(marks)
}
