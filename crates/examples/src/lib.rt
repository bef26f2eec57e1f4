//! Examples worked out by hand, held to the definitions that the contracts cite: one table, one theorem.

#![tactic(auto)]

ghost use Rattle.std.specs.List.{AllByRecursion};
ghost use Rattle.examples.specs.Examples.{Holds, examples};

/// Every example of the table holds. The function does nothing: its contract is the theorem.
pub fn examples_hold()
    ensures { AllByRecursion Holds examples }
{}
