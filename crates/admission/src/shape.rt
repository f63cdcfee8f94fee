// Refusals 1 to 6: rows that are too long or do not match, entries out of their range, an output that is too short, a type with no unit.
ghost use Rattle.std.specs.Prelude.{◌≡◌, true, false, ◌++◌, length};
ghost use Rattle.maths.specs.Cases.{Tells};
ghost use Rattle.maths.specs.Search.{LowestIf};
ghost use Rattle.model.specs.Graph.{Sound, many, edges_of};
ghost use Rattle.model.specs.Lent.{graph_in};
ghost use Rattle.model.specs.Refusals.{First, Large, Uneven, BadOperation, BadEdge, NoUnit, shape, output, unitless};
ghost use Rattle.model.specs.Answers.{refusal_of};

use model::Refusal;
use model::graph::Graph;
use model::limits::{EDGES, KINDS, LONGEST, OPERATIONS};

// Whether there are more operations, edges or types than the limits.
fn too_large(graph: &Graph) -> bool
    ensures { Tells result (Large (graph_in graph.now)) }
{
    OPERATIONS < graph.delays.len() || EDGES < graph.from.len() || KINDS < graph.kinds
}

// Whether rows that must match differ in length. That they do not is then a clause of the tests that follow: each rests on the one before.
fn uneven(graph: &Graph, matched: bool) -> bool
    ensures { Tells result (Uneven (graph_in graph.now) (matched ≡ false)) }
{
    graph.delays.len() != graph.types.len() || graph.from.len() != graph.to.len() || !matched
}

// The lowest operation with a delay or a type out of its range, where there is one.
fn operation_fault(graph: &Graph) -> Option<usize>
    requires { length graph.now.delays.now ≡ length graph.now.types.now }
    ensures { LowestIf (BadOperation (graph_in graph.now)) (many (graph_in graph.now)) result }
{
    for (i, delay) in graph.delays.iter().enumerate() {
        if *delay < 1 || LONGEST < *delay as usize || graph.kinds <= graph.types[i] as usize {
            return Some(i);
        }
    }
    None
}

// The lowest edge with an end that is no operation, where there is one.
fn edge_fault(graph: &Graph) -> Option<usize>
    requires { length graph.now.from.now ≡ length graph.now.to.now }
    ensures { LowestIf (BadEdge (graph_in graph.now)) (edges_of (graph_in graph.now)) result }
{
    let n = graph.delays.len();
    for (e, source) in graph.from.iter().enumerate() {
        if n <= *source as usize || n <= graph.to[e] as usize {
            return Some(e);
        }
    }
    None
}

// Refusals 1 to 4: the first that applies is given. `matched` tells that the rows that only this question takes have the length that they must have.
pub fn graph_fault(graph: &Graph, matched: bool) -> Result<(), Refusal>
    ensures { First (shape (graph_in graph.now) (matched ≡ false)) (refusal_of result) }
{
    if too_large(graph) {
        return Err(Refusal::TooLarge);
    }
    if uneven(graph, matched) {
        return Err(Refusal::Uneven);
    }
    if let Some(i) = operation_fault(graph) {
        return Err(Refusal::Operation(i));
    }
    if let Some(e) = edge_fault(graph) {
        return Err(Refusal::Edge(e));
    }
    Ok(())
}

// Refusals 1 to 5: the first that applies is given. `room` is the length of the output row.
pub fn front(graph: &Graph, matched: bool, room: usize) -> Result<(), Refusal>
    ensures { First (shape (graph_in graph.now) (matched ≡ false) ++ output (graph_in graph.now) room) (refusal_of result) }
{
    graph_fault(graph, matched)?;
    if room < graph.delays.len() {
        return Err(Refusal::ShortOutput);
    }
    Ok(())
}

// The lowest type in use that has no unit, where there is one: one pass over the operations keeps the lowest so far.
fn unitless_kind(graph: &Graph, units: &[u8]) -> Option<usize>
    requires sound { Sound (graph_in graph.now) }
    requires units_len { length units.now ≡ graph.now.kinds }
    ensures { LowestIf (NoUnit (graph_in graph.now) units.now) graph.now.kinds result }
{
    let mut lowest = graph.kinds;
    for own in graph.types {
        let kind = *own as usize;
        if units[kind] == 0 && kind < lowest {
            lowest = kind;
        }
    }
    if lowest < graph.kinds {
        return Some(lowest);
    }
    None
}

// Refusal 6, of a sound graph: the lowest type in use that has no unit is refused.
fn unit_fault(graph: &Graph, units: &[u8]) -> Result<(), Refusal>
    requires sound { Sound (graph_in graph.now) }
    requires units_len { length units.now ≡ graph.now.kinds }
    ensures { First (unitless (graph_in graph.now) units.now) (refusal_of result) }
{
    match unitless_kind(graph, units) {
        Some(kind) => Err(Refusal::NoUnit(kind)),
        None => Ok(()),
    }
}

// Refusals 1 to 4 and 6, of a question without an output row: the first that applies is given. Where `matched`, there is a unit count for each type.
// This and the next add the units' check to the two above, which questions without units call.
pub fn graph_unit_fault(graph: &Graph, units: &[u8], matched: bool) -> Result<(), Refusal>
    requires { matched ≡ true → length units.now ≡ graph.now.kinds }
    ensures { First (shape (graph_in graph.now) (matched ≡ false) ++ unitless (graph_in graph.now) units.now) (refusal_of result) }
{
    graph_fault(graph, matched)?;
    unit_fault(graph, units)
}

// Refusals 1 to 6: the first that applies is given. `room` is the length of the output row; where `matched`, there is a unit count for each type.
pub fn front_unit_fault(
    graph: &Graph,
    units: &[u8],
    matched: bool,
    room: usize,
) -> Result<(), Refusal>
    requires { matched ≡ true → length units.now ≡ graph.now.kinds }
    ensures { First ((shape (graph_in graph.now) (matched ≡ false) ++ output (graph_in graph.now) room) ++ unitless (graph_in graph.now) units.now) (refusal_of result) }
{
    front(graph, matched, room)?;
    unit_fault(graph, units)
}
