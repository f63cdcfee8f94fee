// Views of the two channels' start tables: a part of the table asked for, in that table's own memory, and why there is none. A channel is any
// number, and a view cannot fail: `Viewed` and `ViewRefusal` answer for every number, so there are two functions, which
// take the same five things as a user lends them.
#![tactic(auto)]

ghost use Rattle.std.specs.Prelude.{◌+◌, ◌≤◌};
ghost use Rattle.maths.specs.Cases.{Tells};
ghost use Rattle.model.specs.Views.{Viewed, ViewRefusal};
ghost use Rattle.views.specs.Part.{PartIn, RangeRefusal};

use model::Refusal;

// Whether a table of `long` entries has `count` from `first` on. Their sum is never formed, so it cannot wrap.
fn reaches(long: usize, first: usize, count: usize) -> bool
    ensures { Tells result (first + count ≤ long) }
{
    first <= long && count <= long - first
}

// The part of one table, or the empty part at its beginning where the table does not reach so far.
fn part<'a>(table: &'a [u16], first: usize, count: usize) -> &'a [u16]
    ensures { PartIn table.entry first count result }
{
    if reaches(table.len(), first, count) {
        &table[first..first + count]
    } else {
        &table[..0]
    }
}

// Why a table of `long` entries has no such part, if it has none.
fn range_refusal(long: usize, first: usize, count: usize) -> Option<Refusal>
    ensures { RangeRefusal long first count result }
{
    (!reaches(long, first, count)).then_some(Refusal::Range)
}

// The part of channel A's table (0) or B's (1). Refused, it is the empty part at the chosen table's beginning, A's for no channel.
pub fn view<'a>(a: &'a [u16], b: &'a [u16], channel: usize, first: usize, count: usize) -> &'a [u16]
    ensures { Viewed a.entry b.entry channel first count result }
{
    match channel {
        0 => part(a, first, count),
        1 => part(b, first, count),
        _ => &a[..0],
    }
}

// The refusal that `view` meets, and none where the part is available.
pub fn view_refusal(
    a: &[u16],
    b: &[u16],
    channel: usize,
    first: usize,
    count: usize,
) -> Option<Refusal>
    ensures { ViewRefusal a.entry b.entry channel first count result }
{
    match channel {
        0 => range_refusal(a.len(), first, count),
        1 => range_refusal(b.len(), first, count),
        _ => Some(Refusal::Channel),
    }
}
