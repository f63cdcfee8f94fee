// The graph, as it is lent.
use crate::order::Order;
use crate::work::Work;

// Delays, types, how many types there are, and where the edges leave and lead. Nothing is known of them: every question looks for itself.
// Rows side by side, here and in `Order` and `Work`, and no row of structs: the C interface lends them so.
// Unit counts and starts are lent beside it, by the questions that take them.
#[derive(Clone, Copy)]
pub struct Graph<'a> {
    pub delays: &'a [u8],
    pub types: &'a [u8],
    pub kinds: usize,
    pub from: &'a [u16],
    pub to: &'a [u16],
}

impl<'a> Graph<'a> {
    ghost use Rattle.std.specs.Prelude.{◌≡◌, length};
    ghost use Rattle.model.specs.Limits as limit;
    ghost use Rattle.model.specs.Order.{Closed};
    ghost use Rattle.model.specs.Graph.{Sound, order};
    ghost use Rattle.model.specs.Lent.{graph_in, order_in, work_in, OrderRows, WorkRows};

    // What precedence reads of it, each row where it is lent, where refusals 1 to 4 leave it sound.
    pub fn order(&self) -> Order<'a>
        requires { Closed limit.longest (order (graph_in self.now)) }
        ensures order { order_in result ≡ order (graph_in self.now) }
        ensures rows { OrderRows self.now result }
    {
        Order {
            weights: self.delays,
            from: self.from,
            to: self.to,
        }
    }

    // The graph with a number of units for each type, each row where it is lent, where refusals 1 to 4 leave it sound.
    pub fn work(&self, units: &'a [u8]) -> Work<'a>
        requires sound { Sound (graph_in self.now) }
        requires units_len { length units.now ≡ self.now.kinds }
        ensures graph { work_in result ≡ graph_in self.now }
        ensures units { result.units.now ≡ units.now }
        ensures rows { WorkRows self.now units.entry result }
    {
        let Graph {
            delays,
            types,
            from,
            to,
            ..
        } = *self;
        Work {
            delays,
            // an operation keeps its unit for its delay
            busy: delays,
            types,
            units,
            from,
            to,
        }
    }
}
