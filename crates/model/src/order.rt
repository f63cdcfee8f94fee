// The order that a sound graph's delays and edges make.
ghost use Rattle.model.specs.Limits as limit;
ghost use Rattle.model.specs.Order.{Closed, ordered};

// What precedence reads of a graph: how long each operation's successors wait, and the edges, each of which has two ends.
#[derive(Clone, Copy)]
pub struct Order<'a> {
    pub weights: &'a [u8],
    pub from: &'a [u16],
    pub to: &'a [u16],
    pub ghost closed: { Closed limit.longest (ordered weights.now from.now to.now) },
}

impl<'a> Order<'a> {
    ghost use Rattle.std.specs.Prelude.{◌≡◌};
    ghost use Rattle.model.specs.Order.{turned};
    ghost use Rattle.model.specs.Lent.{order_in, TurnedRows};

    // Every edge the other way round, each row where it is lent: what bounds the ends of the one bounds those of the other.
    pub fn turned(&self) -> Order<'a>
        ensures order { order_in result ≡ turned (order_in self.now) }
        ensures rows { TurnedRows self.now result }
    {
        Order {
            weights: self.weights,
            from: self.to,
            to: self.from,
        }
    }
}
