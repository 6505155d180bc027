// Items of a list by their numbers, which are counted from 1.
ghost use Rattle.std.specs.Prelude.{◌≡◌};
ghost use Rattle.std.specs.Option.{option_copied, option_copied_mut};
ghost use Rattle.std.specs.Borrow.{sem};
ghost use Rattle.model_authority.specs.Lists as spec;

/// The item of this number.
#[tactic(auto, unfolding(crate::specs::Lists::numbered))]
pub fn numbered<T>(number: u64, list: &[T]) -> Option<&T>
    ensures { option_copied result ≡ spec.numbered number list.now }
{
    if number == 0 {
        None
    } else {
        list.get(number as usize - 1)
    }
}

/// The item of this number, to be changed. The list ends with what is left there, and each other item stays.
#[tactic(auto, unfolding(crate::specs::Lists::numbered))]
pub fn numbered_mut<T>(list: &mut [T], number: u64) -> Option<&mut T>
    ensures* writes_back { sem 𝓛 (spec.lends_numbered T.row list.entry number result) }
    ensures value { option_copied_mut result ≡ spec.numbered number list.old }
{
    if number == 0 {
        return None;
    }
    if number > list.len() as u64 {
        return None;
    }
    Some(&mut list[number as usize - 1])
}

/// Whether the list has no item.
pub fn is_nil<T>(list: &[T]) -> bool
    ensures { result ≡ spec.is_nil list.now }
{
    match list {
        [] => true,
        _ => false,
    }
}
