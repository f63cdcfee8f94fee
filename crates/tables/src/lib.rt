// The tables of a graph: earliest starts, latest starts, mobility.
#![tactic(auto)]

ghost use Rattle.std.specs.Prelude.{◌≤◌};
ghost use Rattle.model.specs.Limits as limit;
ghost use Rattle.model.specs.Lent.{graph_in, order_in};
ghost use Rattle.model.specs.Answers.{AsapAnswer, AlapAnswer, MobilityAnswer};
ghost use Rattle.tables.specs.LatestRow.{RoomWithin, LatestRow};

use model::Refusal;
use model::graph::Graph;
use model::limits::OPERATIONS;
use model::order::Order;

// The latest starts within a bound that leaves room for some: the earliest of the order turned round, read from the bound backwards.
pub fn latest(order: &Order, bound: usize) -> [u16; OPERATIONS]
    requires bound_le_steps { bound ≤ limit.steps }
    requires room_within { RoomWithin (order_in order.now) bound }
    ensures { LatestRow (order_in order.now) bound result }
{
    let turned = order.turned();
    let mut back = [0u16; OPERATIONS];
    earliest::by_delays(&turned, &mut back);
    let mut starts = [0u16; OPERATIONS];
    for (i, delay) in order.weights.iter().enumerate() {
        starts[i] = (bound + 2 - *delay as usize - back[i] as usize) as u16;
    }
    starts
}

// The ASAP starts. They are read where they lie, since `?` would copy them.
pub fn asap(graph: &Graph, out: &mut [u16]) -> Result<(), Refusal>
    ensures { AsapAnswer (graph_in graph.now) out.old result out.new }
{
    match &admission::placed(graph, true, out) {
        Ok(starts) => {
            admission::rows::fill(starts, graph.delays.len(), out);
            Ok(())
        }
        Err(why) => Err(*why),
    }
}

// The ALAP starts within a bound.
pub fn alap(graph: &Graph, bound: usize, out: &mut [u16]) -> Result<(), Refusal>
    ensures { AlapAnswer (graph_in graph.now) bound out.old result out.new }
{
    admission::placed_within(graph, true, bound, out)?;
    let late = latest(&graph.order(), bound);
    admission::rows::fill(&late, graph.delays.len(), out);
    Ok(())
}

// The mobility within a bound: ALAP less ASAP.
pub fn mobility(graph: &Graph, bound: usize, out: &mut [u16]) -> Result<(), Refusal>
    ensures { MobilityAnswer (graph_in graph.now) bound out.old result out.new }
{
    let starts = admission::placed_within(graph, true, bound, out)?;
    let late = latest(&graph.order(), bound);
    let spread = latency::differences(&late, &starts, graph.delays.len());
    admission::rows::fill(&spread, graph.delays.len(), out);
    Ok(())
}
