// Variables more.
ghost use Rattle.std.specs.Prelude.{◌≡◌, OnOk};
ghost use Rattle.term_graph.specs.Contents.{Grows};
ghost use Rattle.graph_store.specs.Levels.{HasGrownBy};

use lists::NoMemory;
use term_graph::Graph;

// So many variables more. Some may be there where memory was wanting.
pub(crate) fn grow(graph: &mut Graph, count: usize) -> Result<(), NoMemory>
    ensures grows { Grows graph.old graph.new }
    ensures grown { OnOk result (HasGrownBy graph.old.contents graph.new.contents count) }
{
    for _ in 0..count {
        graph.well_formed();
        graph.add_variable()?;
    }
    Ok(())
}
