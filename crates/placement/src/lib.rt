// Where an operation may stand, given those placed before it: its edges to them are kept, and its type has units enough while it runs. That an
// index lies within the rows is a clause of each function: a type of such indices is no plainer.
#![tactic(auto)]

ghost use Rattle.std.specs.Prelude.{◌≡◌, ◌+◌, ◌≤◌, ◌<◌, length};
ghost use Rattle.maths.specs.Cases.{Tells};
ghost use Rattle.maths.specs.Rows.{at};
ghost use Rattle.model.specs.Lent.{work_in};
ghost use Rattle.edge_links.specs.Linking.{LinkableEnds, Linked};
ghost use Rattle.unit_use.specs.FirstInUse.{first_in_use};
ghost use Rattle.placement.specs.Fit.{highers, Calm, UnitsEnough, Fits};

use edge_links::Links;
use model::limits::EDGES;
use model::work::Work;

// Whether the units of i's type are enough, with those placed before it, at `step`.
fn enough(work: &Work, starts: &[u16], i: usize, step: u16) -> bool
    requires { (i < length work.now.delays.now) × (i < length starts.now) }
    ensures { Tells result (first_in_use work.now.busy.now work.now.types.now starts.now (at work.now.types.now i) step (i + 1) ≤ at work.now.units.now (at work.now.types.now i)) }
{
    let kind = work.types[i];
    let used = unit_use::in_use(work.busy, work.types, starts, kind, step, i + 1);
    used <= work.units[kind as usize] as usize
}

// Whether the units of i's type are enough where j, placed before it, starts, if j is of that type and starts within i's run.
fn calm(work: &Work, starts: &[u16], i: usize, j: usize) -> bool
    requires { (i < length work.now.delays.now) × (i < length starts.now) × (j < i) }
    ensures { Tells result (Calm work.now.busy.now work.now.types.now work.now.units.now starts.now i j) }
{
    let step = starts[j];
    let end = starts[i] as usize + work.busy[i] as usize;
    if work.types[j] == work.types[i] && starts[i] < step && (step as usize) < end {
        return enough(work, starts, i, step);
    }
    true
}

// Whether the units of i's type are enough, with those placed before it, while i runs: at its start, and at the starts within its run.
fn room(work: &Work, starts: &[u16], i: usize) -> bool
    requires { (i < length work.now.delays.now) × (i < length starts.now) }
    ensures { Tells result (UnitsEnough work.now.busy.now work.now.types.now work.now.units.now starts.now i) }
{
    enough(work, starts, i, starts[i]) && (0..i).all(|j| calm(work, starts, i, j))
}

// Whether edge e is kept.
fn kept(work: &Work, starts: &[u16], e: usize) -> bool
    requires { (e < length work.now.from.now) × (at work.now.from.now e < length starts.now) × (at work.now.to.now e < length starts.now) }
    ensures { Tells result (at starts.now (at work.now.from.now e) + at work.now.delays.now (at work.now.from.now e) ≤ at starts.now (at work.now.to.now e)) }
{
    let a = work.from[e] as usize;
    let b = work.to[e] as usize;
    starts[a] as usize + work.delays[a] as usize <= starts[b] as usize
}

// The links of the edges by their higher ends, which are all that it needs of an order.
pub fn higher_links(from: &[u16], to: &[u16]) -> Links
    requires { LinkableEnds from.now × LinkableEnds to.now × (length from.now ≡ length to.now) }
    ensures { Linked (highers from.now to.now) result.row }
{
    let mut ends = [0u16; EDGES];
    for e in 0..from.len() {
        ends[e] = from[e].max(to[e]);
    }
    edge_links::link(&ends[..from.len()])
}

// Whether operation i stands where it may, given those placed before it. Only the edges whose higher end is i are looked at, along their links:
// one with both ends below i was looked at when its higher end was placed, and one with an end above i comes later.
// Edges go by the delays, units by the busy times.
pub fn fits(work: &Work, links: &Links, starts: &[u16], i: usize) -> bool
    requires i_in_bounds { (i < length work.now.delays.now) × (i < length starts.now) }
    requires linked { Linked (highers work.now.from.now work.now.to.now) links.now.row }
    ensures { Tells result (Fits (work_in work.now) work.now.units.now starts.now i) }
{
    let mut edge = links.last(i);
    while let Some(e) = edge {
        if !kept(work, starts, e) {
            return false;
        }
        edge = links.before(e);
    }
    room(work, starts, i)
}
