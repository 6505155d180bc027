// The lowest-numbered item of a list that passes a test, and the least by a key.
ghost use Rattle.std.specs.Prelude.{◌≡◌, ◌≤◌, IfSome, length};
ghost use Rattle.model_settling.specs.Due as spec;

use crate::kinds::Best;

/// A test of an item, which may ask for the item's number.
pub trait Seeks<T> {
    ghost use Rattle.std.specs.Prelude.{ℕ, Bool};

    ghost test: { Self → ℕ → T → Bool };

    fn passes(&self, number: u64, item: &T) -> bool
        ensures { result ≡ test self.now number item.now };
}

/// A test, and a key by which those that pass it are ranked.
pub trait Ranks<T>: Seeks<T> {
    ghost use Rattle.std.specs.Prelude.{ℕ};

    ghost key: { Self → T → ℕ };

    fn key_of(&self, item: &T) -> u64
        ensures { result ≡ key self.now item.now };
}

/// The number of the lowest-numbered item that passes the test.
#[tactic(auto, unfolding(crate::specs::Due::lowest_from))]
pub fn lowest<T, S: Seeks<T>>(list: &[T], sought: &S) -> Option<u64>
    ensures value { result ≡ spec.lowest_of (S.test sought.now) list.now }
    ensures within { IfSome result (λ number. number ≤ length list.now) }
{
    for (place, item) in list.iter().enumerate() {
        let number = place as u64 + 1;
        if sought.passes(number, item) {
            return Some(number);
        }
    }
    None
}

/// Whether an item of this key is better than the best so far.
fn is_better(key: u64, best: Option<Best>) -> bool
    ensures { result ≡ spec.is_better key best }
{
    match best {
        None => true,
        Some(best) => key < best.key,
    }
}

/// The better of the best so far and the item of this number.
fn better<T, S: Ranks<T>>(sought: &S, best: Option<Best>, number: u64, item: &T) -> Option<Best>
    ensures { result ≡ spec.better (S.test sought.now) (S.key sought.now) best number item.now }
{
    let key = sought.key_of(item);
    if is_better(key, best) && sought.passes(number, item) {
        Some(Best { number, key })
    } else {
        best
    }
}

/// The item that passes the test and has the least key, and of these the lowest-numbered.
#[tactic(auto, unfolding(crate::specs::Due::least_from))]
pub fn least<T, S: Ranks<T>>(list: &[T], sought: &S) -> Option<Best>
    ensures value { result ≡ spec.least_of (S.test sought.now) (S.key sought.now) list.now }
    ensures within { IfSome result (λ best. best.number ≤ length list.now) }
{
    let mut best = None;
    for (place, item) in list.iter().enumerate() {
        best = better(sought, best, place as u64 + 1, item);
    }
    best
}
