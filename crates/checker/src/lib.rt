// Unit use: the schedule checker. How long the starts are is a clause of three functions here: they are the caller's, and no part of a `Work`.
#![tactic(auto)]

ghost use Rattle.std.specs.Prelude.{◌≡◌, List, ℕ, ◌+◌, ◌≤◌, length};
ghost use Rattle.maths.specs.Search.{LowestIf};
ghost use Rattle.model.specs.Limits as limit;
ghost use Rattle.model.specs.Graph.{graph_of};
ghost use Rattle.model.specs.Lent.{graph_in, work_in};
ghost use Rattle.model.specs.Refusals.{First};
ghost use Rattle.model.specs.Answers.{refusal_of};
ghost use Rattle.model.specs.Faults as fault;
ghost use Rattle.model.specs.Verdicts.{Finds, Checked};
ghost use Rattle.model.specs.Checks.{check_checks};
ghost use Rattle.checker.specs.Tally.{Markable, Marked, OverCell, Reads};
ghost use Rattle.checker.specs.Findings.{Tallyable, Overs};

use model::graph::Graph;
use model::limits::{CELLS, KINDS};
use model::order::Order;
use model::work::Work;
use model::{Finding, Refusal};

// How many rows the tally has: one for each step from 0 to the last. A row has a counter for each type, so the counters are `CELLS`.
const TALLY_ROWS: usize = CELLS / KINDS;

// Marks an operation in the tally: the counter of its type goes up at every step that it runs, the first and the last among them.
fn mark(tally: &mut [[u16; KINDS]; TALLY_ROWS], kind: usize, start: usize, last: usize)
    requires { Markable tally.old kind start last }
    ensures { Marked tally.old kind start (last + 1) tally.new }
{
    for row in &mut tally[start..=last] {
        row[kind] += 1;
    }
}

// In a step's row the lowest type whose counter is above the type's units.
fn over_at(row: &[u16; KINDS], units: &[u8]) -> Option<usize>
    requires { length units.now ≤ limit.kinds }
    ensures { LowestIf (OverCell row.now units.now) (length units.now) result }
{
    units
        .iter()
        .zip(row)
        .position(|(count, used)| (*count as u16) < *used)
}

// The first step from 1 to the bound, and its lowest type, whose counter is above the type's units.
fn first_over(
    tally: &[[u16; KINDS]; TALLY_ROWS],
    units: &[u8],
    bound: usize,
) -> Option<(usize, usize)>
    requires units_len_bound { length units.now ≤ limit.kinds }
    requires bound_le_steps { bound ≤ limit.steps }
    ensures { Reads tally.now units.now bound result }
{
    for step in 1..=bound {
        if let Some(kind) = over_at(&tally[step], units) {
            return Some((step, kind));
        }
    }
    None
}

// The over-use of a schedule that is timely: its earliest step, and there the lowest type, whatever the delays and edges are.
fn over_use(
    busy: &[u8],
    types: &[u8],
    units: &[u8],
    bound: usize,
    starts: &[u16],
) -> Option<(usize, usize)>
    requires { Tallyable busy.now types.now units.now bound starts.now }
    ensures { (delays from to : List ℕ) → length delays ≡ length busy.now → Overs (graph_of delays busy.now types.now (length units.now) from to) units.now starts.now result }
{
    let mut tally = [[0u16; KINDS]; TALLY_ROWS];
    for (i, kind) in types.iter().enumerate() {
        let start = starts[i] as usize;
        let last = start + busy[i] as usize - 1;
        mark(&mut tally, *kind as usize, start, last);
    }
    first_over(&tally, units, bound)
}

// The lowest operation with a start of 0 or a finish past the bound, where there is one, whatever the busy times, types and edges are.
fn untimely(delays: &[u8], bound: usize, starts: &[u16]) -> Option<usize>
    requires { length starts.now ≡ length delays.now }
    ensures { (busy types : List ℕ) (kinds : ℕ) (from to : List ℕ) → LowestIf (fault.Untimely (graph_of delays.now busy types kinds from to) bound starts.now) (length delays.now) result }
{
    delays.iter().zip(starts).position(|(delay, start)| {
        let start = *start as usize;
        start == 0 || bound < start + *delay as usize - 1
    })
}

// The lowest edge whose end starts before its beginning is over, where there is one, whatever the busy times and types are.
fn broken(order: &Order, starts: &[u16]) -> Option<usize>
    requires { length starts.now ≡ length order.now.weights.now }
    ensures { (busy types : List ℕ) (kinds : ℕ) → LowestIf (fault.Broken (graph_of order.now.weights.now busy types kinds order.now.from.now order.now.to.now) starts.now) (length order.now.from.now) result }
{
    for (e, source) in order.from.iter().enumerate() {
        let source = *source as usize;
        let target = order.to[e] as usize;
        if (starts[target] as usize) < starts[source] as usize + order.weights[source] as usize {
            return Some(e);
        }
    }
    None
}

// What is found in a schedule that is not refused: starts, finishes and edges go by the delays, over-use by the busy times.
fn judge(work: &Work, bound: usize, starts: &[u16]) -> Finding
    requires starts_len { length starts.now ≡ length work.now.delays.now }
    requires bound_in { bound ≤ limit.steps }
    ensures { Finds (work_in work.now) work.now.units.now bound starts.now result }
{
    if let Some(i) = untimely(work.delays, bound, starts) {
        return Finding::Untimely(i);
    }
    // made here: with a method of `Work` the proof did not close
    let order = Order {
        weights: work.delays,
        from: work.from,
        to: work.to,
    };
    if let Some(e) = broken(&order, starts) {
        return Finding::Broken(e);
    }
    match over_use(work.busy, work.types, work.units, bound, starts) {
        Some((step, kind)) => Finding::OverUse(step, kind),
        None => Finding::Lawful,
    }
}

// The checker's refusals: 1 to 4, 6, 7 and 8.
fn check_fault(graph: &Graph, units: &[u8], bound: usize, starts: &[u16]) -> Result<(), Refusal>
    ensures { First (check_checks (graph_in graph.now) units.now bound starts.now) (refusal_of result) }
{
    let even = admission::rows::rows_match(
        units.len(),
        graph.kinds,
        starts.len(),
        graph.delays.len(),
    );
    admission::graph_with_units(graph, units, even)?;
    admission::bound_fault(bound)
}

// Whether a schedule is lawful for the graph, the unit counts and the bound; if not, its first fault.
pub fn check(graph: &Graph, units: &[u8], bound: usize, starts: &[u16]) -> Result<Finding, Refusal>
    ensures { Checked (graph_in graph.now) units.now bound starts.now result }
{
    check_fault(graph, units, bound, starts)?;
    Ok(judge(&graph.work(units), bound, starts))
}
