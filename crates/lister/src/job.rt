// What the search is given.
ghost use Rattle.std.specs.Prelude.{length};
ghost use Rattle.edge_links.specs.Linking.{Linked};
ghost use Rattle.placement.specs.Fit.{highers};
ghost use Rattle.lister.specs.Search.{Windows};

use edge_links::Links;
use model::limits::OPERATIONS;
use model::work::Work;

// A sound graph with its units, the links of its edges by their higher ends, and each operation's window: its first and its last start,
// in the rows that `Windows` and the tables speak of.
#[derive(Clone, Copy)]
pub struct Job<'a> {
    pub work: Work<'a>,
    pub links: Links,
    pub early: [u16; OPERATIONS],
    pub late: [u16; OPERATIONS],
    pub ghost linked: { Linked (highers work.from.now work.to.now) links.row },
    pub ghost windows: { Windows early late (length work.delays.now) },
}
