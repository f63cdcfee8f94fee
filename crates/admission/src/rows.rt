// A question's own rows: whether they match the graph's, and the filling of an output row.
ghost use Rattle.std.specs.Prelude.{◌≡◌, ◌≤◌, length, take};
ghost use Rattle.maths.specs.Cases.{Tells};
ghost use Rattle.maths.specs.Rows.{over};
ghost use Rattle.model.specs.Limits as limit;

use model::limits::OPERATIONS;

// Whether there are as many unit counts as types, and as many entries in the row that only this question takes as operations.
pub fn rows_match(units: usize, kinds: usize, entries: usize, operations: usize) -> bool
    ensures { Tells result ((units ≡ kinds) × (entries ≡ operations)) }
{
    units == kinds && entries == operations
}

// The output's first n entries are the row's, and the rest of the output stays. `fill_one` speaks of the row and of n.
pub fn fill(row: &[u16; OPERATIONS], n: usize, out: &mut [u16])
    requires n_le_operations { n ≤ limit.operations }
    requires n_in_bounds { n ≤ length out.old }
    ensures { out.new ≡ over (take n row.now) out.old }
{
    out[..n].copy_from_slice(&row[..n]);
}
