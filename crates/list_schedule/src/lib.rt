// The list schedule and its advance.
#![tactic(auto)]

ghost use Rattle.std.specs.Prelude.{◌≡◌, ◌+◌, ◌≤◌, length};
ghost use Rattle.maths.specs.Cases.{Tells};
ghost use Rattle.model.specs.Limits as limit;
ghost use Rattle.model.specs.Lent.{graph_in, work_in};
ghost use Rattle.model.specs.Answers.{refusal_of};
ghost use Rattle.model.specs.Scheduling.{Moves, ListAnswer, AdvanceAnswer};
ghost use Rattle.theory.specs.list.Progress.{Doable};
ghost use Rattle.list_schedule.specs.WholeSchedule.{Full, ListRow};
ghost use Rattle.list_schedule.specs.OneAnswer.{Fresh};

use model::Refusal;
use model::graph::Graph;
use model::limits::{OPERATIONS, STEPS};
use model::order::Order;
use model::work::Work;

// The list schedule's state: the step, and a start for each operation, 0 for one that is not placed: the C interface's row has it so, and
// `Moves` and `Placing` speak of it.
#[derive(Clone, Copy)]
pub struct State {
    pub step: usize,
    pub starts: [u16; OPERATIONS],
}

// Whether the first n starts are all there: `Full` speaks of n.
fn full(starts: &[u16; OPERATIONS], n: usize) -> bool
    requires { n ≤ limit.operations }
    ensures { Tells result (Full n starts.now) }
{
    !starts[..n].contains(&0)
}

// The rule at step 1, 2, 3 and so on, from nothing placed until all are, which they are after the last step at the latest. The work's order is
// made here and below as in `list_step::apply`.
fn schedule(work: &Work) -> [u16; OPERATIONS]
    requires { Doable (work_in work.now) work.now.units.now }
    ensures { ListRow (work_in work.now) work.now.units.now result }
{
    let order = Order {
        weights: work.delays,
        from: work.from,
        to: work.to,
    };
    let links = edge_links::link(work.to);
    let ranked = list_step::priority::ranks(&order);
    let mut starts = [0u16; OPERATIONS];
    for step in 1..=STEPS {
        if full(&starts, work.delays.len()) {
            break;
        }
        list_step::apply(work, &links, &ranked, step, &mut starts);
    }
    starts
}

// The starts after the rule at one step. It makes links and ranks as `schedule` does: a struct of the two for two callers is no plainer.
fn next_starts(work: &Work, step: usize, starts: [u16; OPERATIONS]) -> [u16; OPERATIONS]
    requires doable { Doable (work_in work.now) work.now.units.now }
    requires le_step { (1 ≤ step) × (step ≤ limit.steps) }
    ensures { Moves (work_in work.now) work.now.units.now starts step result (step + 1) }
{
    let order = Order {
        weights: work.delays,
        from: work.from,
        to: work.to,
    };
    let links = edge_links::link(work.to);
    let ranked = list_step::priority::ranks(&order);
    let mut next = starts;
    list_step::apply(work, &links, &ranked, step, &mut next);
    next
}

// The list schedule's starts in the first entries of `out`, and their latency.
pub fn list_schedule(graph: &Graph, units: &[u8], out: &mut [u16]) -> Result<usize, Refusal>
    ensures { ListAnswer (graph_in graph.now) units.now out.old result out.new }
{
    admission::placed_with_units(graph, units, units.len() == graph.kinds, out)?;
    let row = schedule(&graph.work(units));
    admission::rows::fill(&row, graph.delays.len(), out);
    Ok(latency::latency(graph.delays, &row))
}

impl State {
    // Nothing placed, before step 1.
    pub fn fresh() -> State
        ensures { Fresh result }
    {
        State {
            step: 1,
            starts: [0u16; OPERATIONS],
        }
    }

    // The rule at the state's step, after which the state is one step further on. Where all are placed, or where it is refused, it stays.
    pub fn advance(&mut self, graph: &Graph, units: &[u8]) -> Result<(), Refusal>
        ensures { AdvanceAnswer (graph_in graph.now) units.now self.old.starts self.old.step (refusal_of result) self.new.starts self.new.step }
    {
        admission::graph_with_units(graph, units, units.len() == graph.kinds)?;
        if full(&self.starts, graph.delays.len()) {
            return Ok(());
        }
        if !(1..=STEPS).contains(&self.step) {
            return Err(Refusal::Step);
        }
        let work = graph.work(units);
        self.starts = next_starts(&work, self.step, self.starts);
        self.step += 1;
        Ok(())
    }
}
