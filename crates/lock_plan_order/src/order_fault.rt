//! Why a look for an order has no answer.
use lock_plan::PlanFault;

/// Why a look for an order has no answer.
#[derive(Clone, Copy, PartialEq, Eq, Debug)]
pub enum OrderFault {
    /// A wrong act, or no memory.
    Plan(PlanFault),
    /// The budget ended.
    OutOfTime,
}

impl From<PlanFault> for OrderFault {
    ghost use Rattle.std.specs.Prelude.{◌≡◌};
    ghost use Rattle.lock_plan_order.specs.declared.order_fault.OrderFault.TheVariants.{Plan};

    ghost from_gives = { λ fault into. into ≡ Plan fault };

    fn from(fault: PlanFault) -> OrderFault {
        OrderFault::Plan(fault)
    }
}
