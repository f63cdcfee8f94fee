// Every question's way in: the first refusal that applies, or sound rows and the earliest starts. `matched` tells that the rows that only
// the question takes have the length that they must have; with units among them, there is then a unit count for each type.
#![tactic(auto)]

mod bounds;
mod precedence;
pub mod rows;
mod shape;

ghost use Rattle.std.specs.Prelude.{◌≡◌, true, false, length};
ghost use Rattle.model.specs.Lent.{graph_in};
ghost use Rattle.model.specs.Graph.{order};
ghost use Rattle.model.specs.Refusals.{First, large_bound};
ghost use Rattle.model.specs.Answers.{refusal_of};
ghost use Rattle.admission.specs.Admitted.{Admitted, graph_checks, graph_unit_checks, placed_checks, placed_unit_checks, placed_within_checks, placed_unit_within_checks};

use model::Refusal;
use model::graph::Graph;
use model::limits::{OPERATIONS, STEPS};

// Six functions and not one: each has a list of checks of its own, and `graph_one` to `placed_with_units_within_one` speak of them one by one.
// That there is a unit count for each type where the rows match is a `requires` of three of them and no type: their callers test it together
// with their other rows, once, and a struct made of that test is no plainer.

// Without an output row: refusals 1 to 4 and 7.
pub fn graph(graph: &Graph, matched: bool) -> Result<(), Refusal>
    ensures { First (graph_checks (graph_in graph.now) (matched ≡ false)) (refusal_of result) }
{
    shape::graph_fault(graph, matched)?;
    precedence::cycle_fault(&graph.order())
}

// Without an output row, with units: refusals 1 to 4, 6 and 7.
pub fn graph_with_units(graph: &Graph, units: &[u8], matched: bool) -> Result<(), Refusal>
    requires { matched ≡ true → length units.now ≡ graph.now.kinds }
    ensures { First (graph_unit_checks (graph_in graph.now) (matched ≡ false) units.now) (refusal_of result) }
{
    shape::graph_unit_fault(graph, units, matched)?;
    precedence::cycle_fault(&graph.order())
}

// With an output row: refusals 1 to 5 and 7, or the earliest starts. A cycle is shown in `out`; any other refusal leaves it, and so does a pass.
// Inlined, as the next is: a call would copy the row of starts once more, and on a refusal too.
#[inline(always)]
pub fn placed(graph: &Graph, matched: bool, out: &mut [u16]) -> Result<[u16; OPERATIONS], Refusal>
    ensures { Admitted (order (graph_in graph.now)) (placed_checks (graph_in graph.now) (matched ≡ false) (length out.old)) out.old result out.new }
{
    shape::front(graph, matched, out.len())?;
    let mut starts = [0u16; OPERATIONS];
    precedence::place(&graph.order(), &mut starts, out)?;
    Ok(starts)
}

// With an output row and units: refusals 1 to 7, or the earliest starts.
#[inline(always)]
pub fn placed_with_units(
    graph: &Graph,
    units: &[u8],
    matched: bool,
    out: &mut [u16],
) -> Result<[u16; OPERATIONS], Refusal>
    requires { matched ≡ true → length units.now ≡ graph.now.kinds }
    ensures { Admitted (order (graph_in graph.now)) (placed_unit_checks (graph_in graph.now) (matched ≡ false) (length out.old) units.now) out.old result out.new }
{
    shape::front_unit_fault(graph, units, matched, out.len())?;
    let mut starts = [0u16; OPERATIONS];
    precedence::place(&graph.order(), &mut starts, out)?;
    Ok(starts)
}

// With an output row and a bound: refusals 1 to 5 and 7 to 9, or the earliest starts.
pub fn placed_within(
    graph: &Graph,
    matched: bool,
    bound: usize,
    out: &mut [u16],
) -> Result<[u16; OPERATIONS], Refusal>
    ensures { Admitted (order (graph_in graph.now)) (placed_within_checks (graph_in graph.now) (matched ≡ false) (length out.old) bound) out.old result out.new }
{
    let starts = placed(graph, matched, out)?;
    bounds::within(&graph.order(), bound, starts)
}

// With an output row, units and a bound: refusals 1 to 9, or the earliest starts.
pub fn placed_with_units_within(
    graph: &Graph,
    units: &[u8],
    matched: bool,
    bound: usize,
    out: &mut [u16],
) -> Result<[u16; OPERATIONS], Refusal>
    requires { matched ≡ true → length units.now ≡ graph.now.kinds }
    ensures { Admitted (order (graph_in graph.now)) (placed_unit_within_checks (graph_in graph.now) (matched ≡ false) (length out.old) units.now bound) out.old result out.new }
{
    let starts = placed_with_units(graph, units, matched, out)?;
    bounds::within(&graph.order(), bound, starts)
}

// Refusal 8, alone: the bound is past the last step.
pub fn bound_fault(bound: usize) -> Result<(), Refusal>
    ensures { First (large_bound bound) (refusal_of result) }
{
    if STEPS < bound {
        return Err(Refusal::BoundTooLarge);
    }
    Ok(())
}
