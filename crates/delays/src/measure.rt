//! The greatest of some things by a measure, for whatever can be measured.

ghost use Rattle.std.specs.Prelude.{◌≡◌, ℕ};
ghost use Rattle.delays.specs.Greatest.{greatest as greatest_of};

/// What can be measured, in a context `C` that says what the measure depends on besides.
pub trait Measure<C> {
    ghost measured: { C → Self → ℕ };

    fn measure(&self, context: &C) -> u64
        ensures { result ≡ measured context.now self.now };
}

/// The greatest measure among the items, or 0 where there is none.
pub fn greatest<C, T: Measure<C>>(items: &[T], context: &C) -> u64
    ensures { result ≡ greatest_of (T.measured context.now) items.now }
{
    items
        .iter()
        .fold(0, |best, item| item.measure(context).max(best))
}
