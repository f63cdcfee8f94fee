// Peak use: for each type the largest number of its operations that are running at any one step.
#![tactic(auto)]

ghost use Rattle.std.specs.Prelude.{◌≡◌, List, ℕ, length};
ghost use Rattle.model.specs.Graph.{graph_of};
ghost use Rattle.model.specs.Lent.{graph_in};
ghost use Rattle.model.specs.Verdicts.{AllPeaks, PeakAnswer};
ghost use Rattle.peak_use.specs.Peaking.{Countable};

use model::Refusal;
use model::graph::Graph;
use model::limits::KINDS;

// For each type the largest number of its operations that are running at the start of one of them: no step has more. Whatever the delays
// and edges are.
fn peaks(busy: &[u8], types: &[u8], starts: &[u16]) -> [usize; KINDS]
    requires { Countable busy.now types.now starts.now }
    ensures { (delays : List ℕ) (kinds : ℕ) (from to : List ℕ) → length delays ≡ length busy.now → AllPeaks (graph_of delays busy.now types.now kinds from to) starts.now result }
{
    let mut counts = [0usize; KINDS];
    for (i, own) in types.iter().enumerate() {
        let kind = *own as usize;
        let now = unit_use::in_use(busy, types, starts, *own, starts[i], busy.len());
        counts[kind] = counts[kind].max(now);
    }
    counts
}

// For each type the largest number of operations that are running at any one step.
pub fn peak_use(graph: &Graph, starts: &[u16]) -> Result<[usize; KINDS], Refusal>
    ensures { PeakAnswer (graph_in graph.now) starts.now result }
{
    let matched = starts.len() == graph.delays.len();
    admission::graph(graph, matched)?;
    // an operation keeps its unit for its delay
    Ok(peaks(graph.delays, graph.types, starts))
}
