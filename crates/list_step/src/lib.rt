// The list schedule's rule at one step: what is in use, and one pass in the order of priority that starts candidates. A start of 0 is an
// operation that is not placed: `Moves` and the C interface's row have it so.
#![tactic(auto)]

pub mod priority;

ghost use Rattle.std.specs.Prelude.{◌≡◌, List, ℕ, ◌+◌, ◌≤◌, ◌<◌, length};
ghost use Rattle.maths.specs.Cases.{Tells};
ghost use Rattle.maths.specs.Rows.{at};
ghost use Rattle.model.specs.Limits as limit;
ghost use Rattle.model.specs.Graph.{graph_of};
ghost use Rattle.model.specs.Lent.{work_in};
ghost use Rattle.model.specs.Rule.{candidate};
ghost use Rattle.model.specs.Scheduling.{Moves};
ghost use Rattle.edge_links.specs.Linking.{Linked};
ghost use Rattle.list_step.specs.CountsByValue.{CountsByValue};
ghost use Rattle.list_step.specs.Turn.{runs_at, uses_at, Typed};
ghost use Rattle.list_step.specs.Priority.{Priority};

use edge_links::Links;
use model::limits::{KINDS, OPERATIONS};
use model::order::Order;
use model::work::Work;

// Whether an operation with this start and delay is over: it is placed, and its last step, t + d less 1, lies before this one.
fn finished(start: u16, delay: u8, step: usize) -> bool
    ensures { Tells result ((1 ≤ start) × (start + delay ≤ step)) }
{
    start != 0 && usize::from(start) + usize::from(delay) - 1 < step
}

// Whether an operation with this start and busy time is placed and running. `unit_use` asks for a type too, and counts a start of 0.
fn running(start: u16, busy: u8, step: usize) -> bool
    ensures { result ≡ runs_at start busy step }
{
    let from = usize::from(start);
    0 < from && from <= step && step < from + usize::from(busy)
}

// Whether i is a candidate: it is not placed, and every edge that enters it comes from an operation that is over. The links lead through these edges.
pub fn is_candidate(
    order: &Order,
    links: &Links,
    starts: &[u16; OPERATIONS],
    step: usize,
    i: usize,
) -> bool
    requires linked { Linked order.now.to.now links.now.row }
    requires i_in_bounds { i < length order.now.weights.now }
    ensures { (busy types : List ℕ) (kinds : ℕ) → result ≡ candidate (graph_of order.now.weights.now busy types kinds order.now.from.now order.now.to.now) starts.now step i }
{
    if starts[i] != 0 {
        return false;
    }
    let mut edge = links.last(i);
    while let Some(e) = edge {
        let source = usize::from(order.from[e]);
        if !finished(starts[source], order.weights[source], step) {
            return false;
        }
        edge = links.before(e);
    }
    true
}

// How many operations of each type are running: one pass over the operations, for what is placed. `unit_use` counts one type of the first so
// many; as there, the rows are lent by themselves.
pub fn in_use(busy: &[u8], types: &[u8], starts: &[u16; OPERATIONS], step: usize) -> [usize; KINDS]
    requires { Typed types.now (length busy.now) }
    ensures { CountsByValue (at types.now) (uses_at busy.now starts.now step) limit.kinds result (length busy.now) }
{
    let mut row = [0usize; KINDS];
    for (i, time) in busy.iter().enumerate() {
        if running(starts[i], *time, step) {
            row[usize::from(types[i])] += 1;
        }
    }
    row
}

// The rule at one step: each operation has its turn in the order of priority, and a candidate starts while its type has a unit left. What has
// started in this step is not over in it, so who is a candidate does not change on the way. Predecessors are asked only where a unit is left.
// Who is over goes by the delays, who runs by the busy times.
pub fn apply(
    work: &Work,
    links: &Links,
    ranked: &[u16; OPERATIONS],
    step: usize,
    starts: &mut [u16; OPERATIONS],
)
    requires linked { Linked work.now.to.now links.now.row }
    requires priority { Priority (work_in work.now) ranked.now }
    requires le_step { (1 ≤ step) × (step ≤ limit.steps) }
    requires starts_len { length starts.old ≡ limit.operations }
    ensures { Moves (work_in work.now) work.now.units.now starts.old step starts.new (step + 1) }
{
    // made here: with a method of `Work` the proof did not close
    let order = Order {
        weights: work.delays,
        from: work.from,
        to: work.to,
    };
    let mut used = in_use(work.busy, work.types, starts, step);
    // by rank: what is proved of the rule speaks of how many ranks have had their turn
    for turn in 0..work.types.len() {
        let i = usize::from(ranked[turn]);
        let kind = usize::from(work.types[i]);
        let left = used[kind] < usize::from(work.units[kind]);
        if left && is_candidate(&order, links, starts, step, i) {
            starts[i] = step as u16;
            used[kind] += 1;
        }
    }
}
