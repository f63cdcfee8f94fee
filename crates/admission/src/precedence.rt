// Refusal 7: every operation is placed as early as it can start, or the cycle that keeps some from starting is shown.
ghost use Rattle.std.specs.Prelude.{◌≤◌, length};
ghost use Rattle.model.specs.Order.{size};
ghost use Rattle.model.specs.Lent.{order_in};
ghost use Rattle.model.specs.Refusals.{First, cyclic};
ghost use Rattle.model.specs.Answers.{refusal_of};
ghost use Rattle.admission.specs.Admitted.{Admitted, with_starts};

use model::Refusal;
use model::limits::OPERATIONS;
use model::order::Order;

// The earliest starts, written to `starts` and not handed back, which would copy them; where a cycle keeps some operation from starting, the
// cycle shown goes to `out`, which is else left.
pub fn place(order: &Order, starts: &mut [u16; OPERATIONS], out: &mut [u16]) -> Result<(), Refusal>
    requires room { size (order_in order.now) ≤ length out.old }
    ensures { Admitted (order_in order.now) (cyclic (order_in order.now)) out.old (with_starts starts.new result) out.new }
{
    let placed = earliest::by_delays(order, starts);
    if placed == order.weights.len() {
        return Ok(());
    }
    Err(Refusal::Cycle(cycle::show(order, starts, out)))
}

// The same where no output row is lent: a cycle's length is given, and it is written nowhere.
pub fn cycle_fault(order: &Order) -> Result<(), Refusal>
    ensures { First (cyclic (order_in order.now)) (refusal_of result) }
{
    let mut starts = [0u16; OPERATIONS];
    let mut shown = [0u16; OPERATIONS];
    place(order, &mut starts, &mut shown)?;
    Ok(())
}
