// Sums.
ghost use Rattle.std.specs.Prelude.{◌≡◌, ◌+◌, IfOk};

use crate::memory::NoMem;

/// The sum of two numbers of things that are in memory. It fits: more than 2^64 - 1 are in no memory, so `NoMem` stands for a
/// sum that passes that.
pub fn plus(a: u64, b: u64) -> Result<u64, NoMem>
    ensures { IfOk result (λ n. n ≡ a + b) }
{
    match a.checked_add(b) {
        Some(n) => Ok(n),
        None => Err(NoMem),
    }
}
