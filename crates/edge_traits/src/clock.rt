// A clock.
ghost use Rattle.std.specs.Prelude.{ℕ};

use net_base::Moment;

/// A clock. Each moment that it gives is one that it may give.
pub trait Clock: Drop {
    /// The moments, in milliseconds, that it may give.
    ghost may_give: { Self → ℕ → Type 0 };

    /// The moment now.
    fn now(&self) -> Moment
        ensures { may_give self.now result.0 };
}
