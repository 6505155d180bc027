// The unit of a head.
ghost use Rattle.std.specs.Prelude.{◌≡◌, ◌==◌, if◌then◌else◌, Some, None, MatchOption};
ghost use Rattle.h1_frames.specs.Units.{BeginsWithUnit, HasNoUnit};

/// Where a reader of lines is: among the blank lines, within a line that isn't empty, or at a line behind such a one,
/// and at the line's start or behind one CR.
#[derive(Clone, Copy)]
enum Place {
    Blank,
    BlankReturn,
    Within,
    Behind,
    BehindReturn,
}

/// The place behind an octet, or `None` where the unit ends with it.
fn step(place: Place, octet: u8) -> Option<Place>
    ensures blank { place ≡ Place.Blank → result ≡ (if octet == 10 then Some Place.Blank
        else (if octet == 13 then Some Place.BlankReturn else Some Place.Within)) }
    ensures blank_return { place ≡ Place.BlankReturn → result ≡ (if octet == 10 then Some Place.Blank else Some Place.Within) }
    ensures within { place ≡ Place.Within → result ≡ (if octet == 10 then Some Place.Behind else Some Place.Within) }
    ensures behind { place ≡ Place.Behind → result ≡ (if octet == 10 then None
        else (if octet == 13 then Some Place.BehindReturn else Some Place.Within)) }
    ensures behind_return { place ≡ Place.BehindReturn → result ≡ (if octet == 10 then None else Some Place.Within) }
{
    match (place, octet) {
        (Place::Blank, b'\n') => Some(Place::Blank),
        (Place::BlankReturn, b'\n') => Some(Place::Blank),
        (Place::Within, b'\n') => Some(Place::Behind),
        (Place::Behind, b'\n') => None,
        (Place::BehindReturn, b'\n') => None,
        (Place::Blank, b'\r') => Some(Place::BlankReturn),
        (Place::Behind, b'\r') => Some(Place::BehindReturn),
        _ => Some(Place::Within),
    }
}

/// The length of the unit of a head that the bytes begin with, as soon as its end is there.
pub fn head_unit(bytes: &[u8]) -> Option<usize>
    ensures { MatchOption result (HasNoUnit bytes.now) (BeginsWithUnit bytes.now) }
{
    let mut place = Place::Blank;
    for (i, octet) in bytes.iter().enumerate() {
        match step(place, *octet) {
            Some(after) => place = after,
            None => return Some(i + 1),
        }
    }
    None
}
