//! The law of the order of dispatch: a function that does nothing, whose contract is the law.

ghost use Rattle.std.specs.Prelude.{ℕ};
ghost use Rattle.farm_types.specs.Farm.{Farm};
ghost use Rattle.dispatch_plan.specs.Order.{IsDispatchOrder};

/// The order of dispatch for a host lists each frame that may be booked there exactly once, and no frame stands right
/// before one that comes before it.
pub fn dispatch_lists_each_once()
    ensures { (f : Farm) (host : ℕ) → IsDispatchOrder f host }
{}
