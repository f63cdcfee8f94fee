// Refusals 8 and 9, of the bound.
ghost use Rattle.std.specs.Prelude.{List, ℕ, Ok};
ghost use Rattle.model.specs.Lent.{order_in};
ghost use Rattle.admission.specs.Admitted.{Admitted, StartsRow, bound_checks};

use model::Refusal;
use model::limits::OPERATIONS;
use model::order::Order;

// Refusals 8 and 9, of an order whose earliest starts are known; whatever the output row, it is left.
pub fn within(
    order: &Order,
    bound: usize,
    starts: [u16; OPERATIONS],
) -> Result<[u16; OPERATIONS], Refusal>
    requires { StartsRow (order_in order.now) starts }
    ensures { (out : List ℕ) → Admitted (order_in order.now) (bound_checks (order_in order.now) bound) out result out }
{
    crate::bound_fault(bound)?;
    if bound < latency::latency(order.weights, &starts) {
        return Err(Refusal::BoundTooSmall);
    }
    Ok(starts)
}
