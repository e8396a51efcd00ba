// What waits to be joined.
ghost use Rattle.std.specs.Prelude.{◌≡◌, [], ◌∷◌, ◌++◌, ◌<◌, ◌+◌, length, OnOk, OnErr, MatchOption};
ghost use Rattle.congruence.specs.Agenda.{idle, owner};
ghost use Rattle.congruence.specs.Turns.{ArePaired, Takes, AreOwned};

use lists::NoMemory;
use std::alloc::Global;
use std::marker::Model;

// Pairs of variables that are to have one class, and pairs of terms that have come to have one key.
#[derive(Drop)]
pub(crate) struct Waiting {
    equal: Vec<(usize, usize)>,
    alike: Vec<(usize, usize)>,
}

impl Model for Waiting {
    ghost use Rattle.congruence.specs.Agenda.{Agenda};

    ghost Value = { Agenda };

    ghost view = { λ w. record { equal = w.equal.items; alike = w.alike.items } };
}

fn owners_of(owners: &[usize], t: usize, m: usize) -> (usize, usize)
    requires { (t < length owners.now) × (m < length owners.now) }
    ensures { (result.0 ≡ owner owners.now t) × (result.1 ≡ owner owners.now m) }
{
    (owners[t], owners[m])
}

impl Waiting {
    pub(crate) fn new(alloc: Global) -> Waiting
        ensures { result ≡ idle }
    {
        Waiting {
            equal: Vec::new(alloc),
            alike: Vec::new(alloc),
        }
    }

    // The variables are to have one class.
    pub(crate) fn equate(&mut self, a: usize, b: usize) -> Result<(), NoMemory>
        ensures ok { OnOk result (self.new ≡ record { equal = self.old.equal ++ (a, b) ∷ []; alike = self.old.alike }) }
    {
        self.equal.push((a, b))?;
        Ok(())
    }

    // The terms have one key.
    pub(crate) fn link(&mut self, t: usize, m: usize) -> Result<(), NoMemory>
        ensures ok { OnOk result (self.new ≡ record { equal = self.old.equal; alike = self.old.alike ++ (t, m) ∷ [] }) }
    {
        self.alike.push((t, m))?;
        Ok(())
    }

    // The variables are to have one class, place by place.
    pub(crate) fn equate_all(&mut self, xs: &[usize], ys: &[usize]) -> Result<(), NoMemory>
        requires { length xs.now ≡ length ys.now }
        ensures alike { OnOk result (self.new.alike ≡ self.old.alike) }
        ensures paired { OnOk result (ArePaired xs.now ys.now self.old.equal self.new.equal) }
        ensures counted { OnOk result (length self.new.equal ≡ length self.old.equal + length xs.now) }
    {
        for i in 0..xs.len() {
            self.equate(xs[i], ys[i])?;
        }
        Ok(())
    }

    // The next two variables that are to have one class: the owners of two terms with one key, if such wait.
    pub(crate) fn next(&mut self, owners: &[usize]) -> Option<(usize, usize)>
        requires { AreOwned self.old owners.now }
        ensures { MatchOption result ((self.old ≡ idle) × (self.new ≡ idle)) (λ pair. Takes owners.now self.old self.new pair.0 pair.1) }
    {
        if let Some((t, m)) = self.alike.pop() {
            return Some(owners_of(owners, t, m));
        }
        self.equal.pop()
    }
}
