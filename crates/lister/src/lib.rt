// The lister of all lawful schedules: the least one, and the least one after a row.
#![tactic(auto)]

mod job;
mod search;

ghost use Rattle.std.specs.Prelude.{◌≡◌, ◌<◌, ◌≤◌, length, IfSome};
ghost use Rattle.std.proofs.Math.Option.{none, some};
ghost use Rattle.maths.specs.Cases.{Tells};
ghost use Rattle.model.specs.Limits as limit;
ghost use Rattle.model.specs.Lent.{graph_in};
ghost use Rattle.model.specs.Listing.{ListerAnswer};
ghost use Rattle.model.specs.Refusals.{product};
ghost use Rattle.lister.specs.Search.{spans, Windows, Reaches};
ghost use Rattle.lister.specs.Lent.{job_of, asked_of};
ghost use Rattle.lister.specs.Asking.{Sought};

use crate::job::Job;
use model::graph::Graph;
use model::limits::{OPERATIONS, WINDOWS};
use model::work::Work;
use model::{Listed, Refusal};

// Whether the rows that only the lister takes have the length that they must have: a unit count for each type, and an entry for each
// operation in the row asked after. The lister's own, since that row may be absent.
fn rows_match(graph: &Graph, units: &[u8], after: Option<&[u16]>) -> bool
    ensures { Tells result ((length units.now ≡ graph.now.kinds) × IfSome after.entry (λ row. length row.now ≡ length graph.now.delays.now)) }
{
    units.len() == graph.kinds && after.is_none_or(|row| row.len() == graph.delays.len())
}

// Whether the product of (mobility + 1) of n operations exceeds the limit. It stops at the first product above it, so nothing wraps, and no later
// factor is below 1.
fn too_many(early: &[u16; OPERATIONS], late: &[u16; OPERATIONS], n: usize) -> bool
    requires { (n ≤ limit.operations) × Windows early.now late.now n }
    ensures { Tells result (limit.windows < product (spans early.now late.now n) n) }
{
    let mut windows: usize = 1;
    for (first, last) in early[..n].iter().zip(&late[..n]) {
        windows *= usize::from(*last - *first) + 1;
        if WINDOWS < windows {
            return true;
        }
    }
    false
}

// The least schedule into `out`, or none left, for operations with such windows. The search works in a row of its own, so the output is written only
// once it has succeeded. Its job is built here, so a question that is refused pays for none.
fn seek(
    work: &Work,
    early: &[u16; OPERATIONS],
    late: &[u16; OPERATIONS],
    after: Option<&[u16]>,
    out: &mut [u16],
) -> Listed
    requires windows { Windows early.now late.now (length work.now.delays.now) }
    requires reaches { Reaches (asked_of after) (length work.now.delays.now) }
    requires room { length work.now.delays.now ≤ length out.old }
    ensures { Sought (job_of work.now early.now late.now) (asked_of after.entry) out.old result out.new }
{
    let job = Job {
        work: *work,
        links: placement::higher_links(work.from, work.to),
        early: *early,
        late: *late,
    };
    let mut row = [0u16; OPERATIONS];
    let found = job.place(&mut row, 0, after);
    if found {
        admission::rows::fill(&row, work.delays.len(), out);
        return Listed::Found;
    }
    Listed::NoneLeft
}

// Refusals 1 to 9, then 10 by the windows, then the search for the least schedule: of all, or of those after a row.
fn ask(
    graph: &Graph,
    units: &[u8],
    bound: usize,
    after: Option<&[u16]>,
    out: &mut [u16],
) -> Result<Listed, Refusal>
    ensures { ListerAnswer (graph_in graph.now) units.now bound (asked_of after.entry) out.old result out.new }
{
    let matched = rows_match(graph, units, after);
    let early = admission::placed_with_units_within(graph, units, matched, bound, out)?;
    let late = tables::latest(&graph.order(), bound);
    if too_many(&early, &late, graph.delays.len()) {
        return Err(Refusal::TooManyWindows);
    }
    let work = graph.work(units);
    Ok(seek(&work, &early, &late, after, out))
}

// The least lawful schedule into the first entries of `out`; or none left, or a refusal.
pub fn first(graph: &Graph, units: &[u8], bound: usize, out: &mut [u16]) -> Result<Listed, Refusal>
    ensures { ListerAnswer (graph_in graph.now) units.now bound none out.old result out.new }
{
    ask(graph, units, bound, None, out)
}

// The least lawful schedule that comes after the row `after`, which is only read, into the first entries of `out`; or none left, or a refusal.
pub fn next(
    graph: &Graph,
    units: &[u8],
    bound: usize,
    after: &[u16],
    out: &mut [u16],
) -> Result<Listed, Refusal>
    ensures { ListerAnswer (graph_in graph.now) units.now bound (some after.now) out.old result out.new }
{
    ask(graph, units, bound, Some(after), out)
}
