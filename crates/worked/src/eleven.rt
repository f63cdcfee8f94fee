// The eleven-operation graph that many of the cases ask about.
use model::graph::Graph;

// How many operations it has.
pub const MANY: usize = 11;

// Operations of delay 1, of type 0 or type 1, and eight edges.
pub const GRAPH: Graph<'static> = Graph {
    delays: &[1; MANY],
    types: &[0, 0, 0, 1, 1, 0, 0, 0, 1, 1, 1],
    kinds: 2,
    from: &[0, 1, 2, 3, 5, 6, 7, 9],
    to: &[2, 2, 3, 4, 6, 4, 8, 10],
};
