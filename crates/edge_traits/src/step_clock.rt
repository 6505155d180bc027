// A clock that goes on by a step at each look.
ghost use Rattle.std.specs.Prelude.{◌≡◌};

use crate::clock::Clock;
use net_base::Moment;
use std::marker::Model;
use std::sync::atomic::{AtomicU64, Ordering};

/// A clock in steps: its moments are 0, the step, twice the step and so on, one at each call, and 0 where that passes
/// 18446744073709551615.
#[derive(Drop)]
pub struct StepClock {
    step: u64,
    looks: AtomicU64,
}

impl Model for StepClock {
    ghost use Rattle.std.specs.Prelude.{ℕ};
    ghost use Rattle.std.specs.Coded.{coded_ℕ};

    ghost Value = { ℕ };

    ghost coded = { coded_ℕ };

    ghost view = { λ c. c.step };
}

impl StepClock {
    /// A clock with this step, in milliseconds.
    pub fn new(step: u64) -> StepClock
        ensures { result ≡ step }
    {
        StepClock {
            step,
            looks: AtomicU64::new(0),
        }
    }
}

impl Clock for StepClock {
    ghost use Rattle.std.specs.Prelude.{ℕ, ◌*◌};

    ghost may_give = { λ c n. (k : ℕ) × (n ≡ c * k) };

    fn now(&self) -> Moment {
        let k = self.looks.fetch_add(1, Ordering::SeqCst);
        Moment(self.step.checked_mul(k).unwrap_or(0))
    }
}
