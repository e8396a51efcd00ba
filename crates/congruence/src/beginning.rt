// An atom more: what it makes wait, and where walks begin.
ghost use Rattle.std.specs.Prelude.{◌≡◌, [], ◌<◌, length, IfOk, MatchBool, map};
ghost use Rattle.flat_form.specs.Numbering.{AtomOver};
ghost use Rattle.flat_form.specs.declared.atom.Flat.TheVariants.{VarTerm};
ghost use Rattle.term_graph.specs.Contents.{Grows};
ghost use Rattle.settled_facts.specs.Settled.{name, IsFree};
ghost use Rattle.congruence.specs.Agenda.{idle};
ghost use Rattle.congruence.specs.Turns.{AreOwners};
ghost use Rattle.congruence.specs.Begun.{HasShape, IsBegun, RefutesAtom, IsLonger};

use crate::agenda::Waiting;
use crate::merging::watch;
use flat_form::{Args, Flat};
use lists::NoMemory;
use term_graph::{Bound, Graph};
use tree_model::{Places, Symbol};

// Whether the term has this symbol, and as many arguments.
fn has_shape(graph: &Graph, t: usize, symbol: Symbol, args: &Args) -> bool
    requires { t < length graph.now.contents.terms }
    ensures { MatchBool result (HasShape graph.now.contents t symbol args.now) (¬ HasShape graph.now.contents t symbol args.now) }
{
    *graph.symbol(t) == symbol && graph.args(t).len() == args.len()
}

// The root, which is free, is bound to a new term with this symbol and these arguments, or waits for the owner of one that there is.
fn give_term(
    graph: &mut Graph,
    owners: &mut Vec<usize>,
    waiting: &mut Waiting,
    starts: &mut Places,
    u: usize,
    symbol: Symbol,
    args: &Args,
) -> Result<(), NoMemory>
    requires over { AtomOver (length graph.old.contents.bindings) (VarTerm u symbol args.now) }
    requires owners { AreOwners graph.old.contents owners.old.items }
    requires idle { (waiting.old ≡ idle) × (starts.old ≡ []) }
    requires free { IsFree graph.old.contents (name graph.old.contents u) }
    ensures grows { Grows graph.old graph.new }
    ensures longer { IsLonger owners.old.items owners.new.items }
    ensures begun { IfOk result (λ done. IsBegun graph.old.contents graph.new.contents owners.old.items owners.new.items waiting.new starts.new (VarTerm u symbol args.now)) }
{
    graph.well_formed();
    let root = graph.deref(u);
    let t = graph.intern_term(symbol, args.as_slice())?;
    if t < owners.len() {
        waiting.equate(root, owners.as_slice()[t])?;
        return Ok(());
    }
    owners.push(root)?;
    watch(graph, starts, root)?;
    graph.bind(root, Bound::Term(t))?;
    Ok(())
}

// False where the atoms can't be solved with this one.
pub(crate) fn begin(
    graph: &mut Graph,
    owners: &mut Vec<usize>,
    waiting: &mut Waiting,
    starts: &mut Places,
    atom: &Flat,
) -> Result<bool, NoMemory>
    requires over { AtomOver (length graph.old.contents.bindings) atom.now }
    requires owners { AreOwners graph.old.contents owners.old.items }
    requires idle { (waiting.old ≡ idle) × (starts.old ≡ []) }
    ensures grows { Grows graph.old graph.new }
    ensures longer { IsLonger owners.old.items owners.new.items }
    ensures begun { IfOk result (λ begun. MatchBool begun (IsBegun graph.old.contents graph.new.contents owners.old.items owners.new.items waiting.new starts.new atom.now) (RefutesAtom graph.old.contents owners.old.items atom.now)) }
{
    graph.well_formed();
    match atom {
        Flat::VarVar(u, v) => {
            waiting.equate(*u, *v)?;
            Ok(true)
        }
        Flat::Finite(u) => {
            starts.push(*u)?;
            Ok(true)
        }
        Flat::VarTerm(u, symbol, args) => {
            let root = graph.deref(*u);
            if let Bound::Term(t) = graph.binding(root) {
                if !has_shape(graph, t, *symbol, args) {
                    return Ok(false);
                }
                waiting.equate_all(graph.args(t).as_slice(), args.as_slice())?;
                return Ok(true);
            }
            give_term(graph, owners, waiting, starts, *u, *symbol, args)?;
            Ok(true)
        }
    }
}
