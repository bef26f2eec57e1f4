//! The argument of the waits: each function's contract is a theorem, and the function does nothing.

#![tactic(auto)]

ghost use Rattle.waits.specs.Law.{WaitsHold};
ghost use Rattle.waits.specs.Sharp.{WaitsSharp};

/// No request waits longer than its delay, whatever moves lead to a state.
pub fn waits_hold()
    ensures { WaitsHold }
{}

/// Some moves lead to a request that has waited all of its delay.
pub fn waits_sharp()
    ensures { WaitsSharp }
{}
