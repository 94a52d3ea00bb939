//! Which instances a file has: keys, bodies, what varies, the list in the order in which instances are met,
//! and why a file has none. A function without a body states laws by its contract.
#![tactic(auto)]

ghost use Rattle.theory_instances.specs.Examples.{WorkedInstances, WorkedKeys};
ghost use Rattle.theory_instances.specs.Orders.{WorkedOrders};

/// Instances, keys and refusals that were worked out by hand.
pub fn worked_instances()
    ensures lists { WorkedInstances }
    ensures keys { WorkedKeys }
    ensures orders { WorkedOrders }
{}
