// Earliest starts of an order: as many operations are placed as can be, each at the first step at which it may start.
#![tactic(auto)]

ghost use Rattle.std.specs.Prelude.{◌≡◌, ℕ, ◌≤◌, ◌<◌, length, replicate, MatchOption};
ghost use Rattle.std.specs.Int.{from_bool};
ghost use Rattle.maths.specs.Rows.{at, over};
ghost use Rattle.model.specs.Limits as limit;
ghost use Rattle.model.specs.Order.{Closed, ordered};
ghost use Rattle.model.specs.Placing.{Placing, StartsAt, Waits};
ghost use Rattle.model.specs.Lent.{order_in};
ghost use Rattle.theory.specs.order.PlacingSteps.{Part};
ghost use Rattle.edge_links.specs.Linking.{Linked};
ghost use Rattle.earliest.specs.Widths.{heaviest};
ghost use Rattle.earliest.specs.Round.{Visit, Round};

use edge_links::Links;
use model::limits::OPERATIONS;
use model::order::Order;

// An order whose edges are linked by their targets: those that enter an operation are found from the last to the first. It is not model's
// `Order`, since its weights are wider; `earliest` takes the three rows, as `earliest_one` speaks of them.
#[derive(Clone, Copy)]
struct LinkedOrder<'a> {
    weights: &'a [u16],
    from: &'a [u16],
    to: &'a [u16],
    links: &'a Links,
    ghost closed: { Closed heaviest (ordered weights.now from.now to.now) },
    ghost linked: { Linked to.now links.now.row },
}

impl LinkedOrder<'_> {
    ghost use Rattle.earliest.specs.Linked.{order_of};

    // The first step at which i may start: 1, or where the last of those before it is over. None where one of them has no start, as i waits for it.
    fn first_step(&self, i: usize, starts: &[u32; OPERATIONS]) -> Option<u32>
        requires part { Part heaviest (order_of self.now) starts.now }
        requires i_in_bounds { i < length self.now.weights.now }
        ensures { MatchOption result (Waits (order_of self.now) starts.now i) (λ step. StartsAt (order_of self.now) starts.now i step) }
    {
        let mut step = 1;
        let mut edge = self.links.last(i);
        while let Some(e) = edge {
            let source = usize::from(self.from[e]);
            let start = starts[source];
            if start == 0 {
                return None;
            }
            let end = start + u32::from(self.weights[source]);
            step = end.max(step);
            edge = self.links.before(e);
        }
        Some(step)
    }

    // Places i if it has no start and waits for none. Whether it did.
    fn visit(&self, i: usize, starts: &mut [u32; OPERATIONS]) -> bool
        requires part { Part heaviest (order_of self.now) starts.old }
        requires i_in_bounds { i < length self.now.weights.now }
        ensures { Visit (order_of self.now) i starts.old starts.new (from_bool result) }
    {
        if starts[i] != 0 {
            return false;
        }
        let Some(step) = self.first_step(i, starts) else {
            return false;
        };
        starts[i] = step;
        true
    }

    // Visits each operation once, upward or downward; what is placed is seen by those after it. How many it placed. The way is a flag: two loops,
    // or a closure that writes the starts that it captured, are no plainer.
    fn round(&self, up: bool, starts: &mut [u32; OPERATIONS]) -> usize
        requires { Part heaviest (order_of self.now) starts.old }
        ensures { Round (order_of self.now) starts.old starts.new result }
    {
        let n = self.weights.len();
        let mut placed = 0;
        for k in 0..n {
            let i = if up { k } else { n - 1 - k };
            placed += usize::from(self.visit(i, starts));
        }
        placed
    }
}

// Whether the first edge leads upward: the first round goes its way, as most graphs are numbered one way. The placing is the same either way.
fn rises(from: &[u16], to: &[u16]) -> bool {
    match (from, to) {
        ([source, ..], [target, ..]) => source < target,
        _ => true,
    }
}

// Rounds up and down until all are placed or one places none: what is left has start 0, as `Placing` and
// the C interface's rows say, and waits for another that is left. How many are placed: `Placing` speaks
// of the row and the number. No `for`: the rounds end where one places none. The way is chosen before the
// edges are linked, since the compiler else copies the row of links.
pub fn earliest(weights: &[u16], from: &[u16], to: &[u16], starts: &mut [u32; OPERATIONS]) -> usize
    requires { Closed heaviest (ordered weights.now from.now to.now) }
    ensures { Placing (ordered weights.now from.now to.now) starts.new result }
{
    *starts = [0u32; OPERATIONS];
    let mut up = rises(from, to);
    let links = edge_links::link(to);
    let order = LinkedOrder {
        weights,
        from,
        to,
        links: &links,
    };
    let mut total = 0;
    loop {
        let placed = order.round(up, starts);
        total += placed;
        if placed == 0 || total == weights.len() {
            return total;
        }
        up = !up;
    }
}

// The delays as weights, and zeros after them. One function for this and `narrowed` is no plainer: this one fits always and fills up, that
// one asks that each fits.
fn widened(delays: &[u8]) -> [u16; OPERATIONS]
    requires { length delays.now ≤ limit.operations }
    ensures { result ≡ over delays.now (replicate limit.operations 0) }
{
    let mut row = [0u16; OPERATIONS];
    for (i, delay) in delays.iter().enumerate() {
        row[i] = u16::from(*delay);
    }
    row
}

// The same starts in 16 bits, where each fits.
fn narrowed(starts: &[u32; OPERATIONS]) -> [u16; OPERATIONS]
    requires { (i : ℕ) → at starts.now i ≤ heaviest }
    ensures { result ≡ starts.now }
{
    let mut row = [0u16; OPERATIONS];
    for (i, start) in starts.iter().enumerate() {
        row[i] = *start as u16;
    }
    row
}

// `earliest` where the weights are delays: no start is above what the longest delays add up to, so each fits 16 bits.
pub fn by_delays(order: &Order, starts: &mut [u16; OPERATIONS]) -> usize
    ensures { Placing (order_in order.now) starts.new result }
{
    let n = order.weights.len();
    let weights = widened(order.weights);
    let mut wide = [0u32; OPERATIONS];
    let placed = earliest(&weights[..n], order.from, order.to, &mut wide);
    *starts = narrowed(&wide);
    placed
}
