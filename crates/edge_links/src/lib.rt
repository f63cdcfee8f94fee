// Edges linked by one of their ends: those of one operation are found without a look at the others.
#![tactic(auto)]

ghost use Rattle.std.specs.Prelude.{◌≡◌, ◌<◌};
ghost use Rattle.model.specs.Limits as limit;
ghost use Rattle.edge_links.specs.Linking.{LinkableEnds, Linked, edge_of, of_operation, of_edge};

use model::limits::{EDGES, OPERATIONS};

// A link for each operation, then one for each edge.
pub const LINKS: usize = OPERATIONS + EDGES;

// The row of links: for each operation the last edge with that end, and for each edge the one before it with the same end. A link is an
// edge's number counted from 1, and 0 where there is none: `Linked` and `link_one` speak of this row, and `last` and `before` read it. Who walks along
// the links does so by `while let`: what each of three walks does at an edge and where it ends differs, so an iterator is no plainer.
#[derive(Clone, Copy)]
pub struct Links {
    pub row: [u16; LINKS],
}

// Links the edges with these ends.
pub fn link(ends: &[u16]) -> Links
    requires { LinkableEnds ends.now }
    ensures { Linked ends.now result.row }
{
    let mut row = [0u16; LINKS];
    for (e, end) in ends.iter().enumerate() {
        let end = usize::from(*end);
        row[OPERATIONS + e] = row[end];
        row[end] = (e + 1) as u16;
    }
    Links { row }
}

impl Links {
    // The last edge whose end is i.
    pub fn last(&self, i: usize) -> Option<usize>
        requires { i < limit.operations }
        ensures { result ≡ edge_of (of_operation self.now.row i) }
    {
        usize::from(self.row[i]).checked_sub(1)
    }

    // The last edge before e that has the same end.
    pub fn before(&self, e: usize) -> Option<usize>
        requires { e < limit.edges }
        ensures { result ≡ edge_of (of_edge self.now.row e) }
    {
        usize::from(self.row[OPERATIONS + e]).checked_sub(1)
    }
}
