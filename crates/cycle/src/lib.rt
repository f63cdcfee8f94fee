// The cycle shown: from the lowest kept number again and again to the lowest kept predecessor, until one is met twice.
#![tactic(auto)]

ghost use Rattle.std.specs.Prelude.{◌≡◌, ◌-◌, ◌≤◌, ◌<◌, length};
ghost use Rattle.model.specs.Limits as limit;
ghost use Rattle.model.specs.Order.{Cyclic, size};
ghost use Rattle.model.specs.Lent.{order_in};
ghost use Rattle.theory.specs.cycle.LowestPredecessors.{Backed};
ghost use Rattle.theory.specs.cycle.WalkUntilMetAgain.{NeverLeaves, MetAgain};
ghost use Rattle.theory.specs.cycle.TurnedRound.{Turned};
ghost use Rattle.theory.specs.cycle.WritingTheCycle.{LeastNumber, Wrote};
ghost use Rattle.cycle.specs.Show.{KeptAt, Shows};
ghost use Rattle.cycle.specs.Parts.{Blank, FirstBlank, Trailed, PartOfRound};

use model::limits::OPERATIONS;
use model::order::Order;

// What was met, how many, and the place of the one that came again. The row has room for every operation, since there is no heap.
#[derive(Clone, Copy)]
struct Walked {
    met: [u16; OPERATIONS],
    count: usize,
    twice: usize,
    ghost inside: { twice < count },
    ghost few: { count ≤ limit.operations },
}

impl Walked {
    // How long the cycle is: what was met from `twice` on.
    fn long(&self) -> usize
        ensures { result ≡ self.now.count - self.now.twice }
    {
        self.count - self.twice
    }

    // The place of the lowest number that was met at `twice` or later.
    fn lowest(&self) -> usize
        ensures { LeastNumber self.now.met self.now.twice self.now.count result }
    {
        (self.twice..self.count)
            .min_by_key(|place| self.met[*place])
            .unwrap_or(self.twice)
    }

    // The place so many steps on from the lowest number's: after the last place comes `twice`.
    fn place(&self, lowest: usize, steps: usize) -> usize
        requires { PartOfRound self.now.twice self.now.count lowest steps }
        ensures { Turned self.now.twice self.now.count lowest steps result }
    {
        let straight = lowest + steps;
        if straight < self.count {
            straight
        } else {
            straight - self.long()
        }
    }

    // Writes the cycle from its lowest number on, in edge direction, which is against the way that was gone.
    fn write(&self, lowest: usize, out: &mut [u16])
        requires least_number { LeastNumber self.now.met self.now.twice self.now.count lowest }
        requires room { self.now.count - self.now.twice ≤ length out.old }
        ensures { Wrote self.now.met self.now.twice self.now.count lowest out.old out.new (self.now.count - self.now.twice) }
    {
        for k in 0..self.long() {
            out[k] = self.met[self.place(lowest, self.long() - k)];
        }
    }
}

// For each operation the lowest with start 0 that has an edge to it. Where there is none it is the limit, so that `min` alone keeps the lowest.
fn backs(order: &Order, starts: &[u16; OPERATIONS]) -> [u16; OPERATIONS]
    ensures { Backed order.now.from.now order.now.to.now (Blank starts.now) result (length order.now.from.now) }
{
    let mut back = [OPERATIONS as u16; OPERATIONS];
    for (source, target) in order.from.iter().zip(order.to) {
        let target = usize::from(*target);
        if starts[usize::from(*source)] == 0 {
            back[target] = back[target].min(*source);
        }
    }
    back
}

// The lowest of the first n operations whose start is 0, or n. No Option: who asks knows that there is one, and
// `FirstBlank` speaks of n.
fn first_blank(starts: &[u16; OPERATIONS], n: usize) -> usize
    requires { n ≤ limit.operations }
    ensures { FirstBlank starts.now n result }
{
    starts
        .iter()
        .take(n)
        .position(|start| *start == 0)
        .unwrap_or(n)
}

// From the first along the row until one comes that was met before. No `for`, since where it ends is in the row: each turn takes one more place.
fn walk(back: &[u16; OPERATIONS], first: usize) -> Walked
    requires { NeverLeaves back.now first }
    ensures { MetAgain back.now first result.met result.count result.twice }
{
    let mut met = [0u16; OPERATIONS];
    // 0 where an operation was not met: the law of the walk, `WalkUntilMetAgain`, counts these marks
    let mut places = [0u16; OPERATIONS];
    let mut count: usize = 0;
    let mut here = first;
    while places[here] == 0 {
        met[count] = here as u16;
        count += 1;
        places[here] = count as u16;
        here = usize::from(back[here]);
    }
    let twice = usize::from(places[here]) - 1;
    Walked { met, count, twice }
}

// Where the walk along the kept operations comes round. 0 in `starts` marks the kept.
fn trail(order: &Order, starts: &[u16; OPERATIONS]) -> Walked
    requires kept_at { KeptAt (order_in order.now) starts.now }
    requires cyclic { Cyclic (order_in order.now) }
    ensures { Trailed (order_in order.now) result.met result.count result.twice }
{
    let back = backs(order, starts);
    walk(&back, first_blank(starts, order.weights.len()))
}

// Writes the cycle shown into the first entries of `out`, where 0 in `starts` marks the kept operations, as `Placing`
// leaves them. Its length.
pub fn show(order: &Order, starts: &[u16; OPERATIONS], out: &mut [u16]) -> usize
    requires kept_at { KeptAt (order_in order.now) starts.now }
    requires cyclic { Cyclic (order_in order.now) }
    requires room { size (order_in order.now) ≤ length out.old }
    ensures { Shows (order_in order.now) out.old out.new result }
{
    let walked = trail(order, starts);
    walked.write(walked.lowest(), out);
    walked.long()
}
