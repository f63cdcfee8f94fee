// What is computed of whole rows: the latency of a row of starts, and the difference of two rows.
#![tactic(auto)]

ghost use Rattle.std.specs.Prelude.{List, ℕ, ◌≤◌, length};
ghost use Rattle.model.specs.Order.{ordered};
ghost use Rattle.model.specs.Tables.{Latency};
ghost use Rattle.latency.specs.Differences.{Under, Differences};

use model::limits::OPERATIONS;

// The latency of a row of starts: the latest last step, whatever the edges. An entry past the operations is not read.
pub fn latency(delays: &[u8], starts: &[u16]) -> usize
    requires { length delays.now ≤ length starts.now }
    ensures { (from to : List ℕ) → Latency (ordered delays.now from to) starts.now result }
{
    starts
        .iter()
        .zip(delays)
        .map(|(start, delay)| (usize::from(*start) + usize::from(*delay)).saturating_sub(1))
        .max()
        .unwrap_or(0)
}

// The first n entries of one row less those of another that lies nowhere above it, and zeros after them.
// `differences_one` speaks of the rows and of n.
pub fn differences(high: &[u16; OPERATIONS], low: &[u16; OPERATIONS], n: usize) -> [u16; OPERATIONS]
    requires { Under high.now low.now n }
    ensures { Differences high.now low.now n result }
{
    let mut row = [0u16; OPERATIONS];
    for i in 0..n {
        row[i] = high[i] - low[i];
    }
    row
}
