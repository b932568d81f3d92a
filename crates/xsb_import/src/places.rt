// What a byte does to the place in a text, and to what was read of it.
ghost use Rattle.std.specs.Prelude.{◌≡◌, ◌<◌, None, Some};
ghost use Rattle.xsb_import.specs.declared.Place.TheVariants.{Line, Fixed, Literal};
ghost use Rattle.xsb_import.specs.Places.{byte_at, next_at};
ghost use Rattle.xsb_import.specs.Reading.{Steps, StepsFrom};

use crate::numbers::number;
use crate::{Place, Spot, What};

// A table line comes before every rule.
fn line(s: Spot, b: u8) -> Option<Spot>
    requires { s.place ≡ Line }
    ensures { Steps s b result }
{
    match b {
        b'g' => Some(s.at(Place::Number(What::Head, None), None)),
        b':' if !s.begun => Some(s.at(Place::Fixed(0), None)),
        _ => None,
    }
}

fn literal(s: Spot, b: u8) -> Option<Spot>
    requires { s.place ≡ Literal }
    ensures { Steps s b result }
{
    match b {
        b'g' => Some(s.at(Place::Number(What::Positive, None), None)),
        b't' => Some(s.at(Place::Fixed(15), None)),
        _ => None,
    }
}

fn fixed_byte(k: usize) -> u8
    requires { k < 20 }
    ensures { result ≡ byte_at k }
{
    let form = b"- table g0.\n:- not(g";
    form[k]
}

fn after_fixed(k: usize) -> Place
    requires { k < 20 }
    ensures { result ≡ next_at k }
{
    match k {
        8 => Place::Number(What::Table, None),
        11 => Place::Line,
        14 => Place::Literal,
        19 => Place::Number(What::Negative, None),
        _ => Place::Fixed(k + 1),
    }
}

fn fixed(s: Spot, k: usize, b: u8) -> Option<Spot>
    requires { (s.place ≡ Fixed k) × (k < 20) }
    ensures { Steps s b result }
{
    if b == fixed_byte(k) {
        Some(s.at(after_fixed(k), None))
    } else {
        None
    }
}

// No byte has a place in the form behind its end.
fn known(s: Spot, b: u8) -> Option<Spot>
    ensures { Steps s b result }
{
    match s.place {
        Place::Line => line(s, b),
        Place::Fixed(k) if k < 20 => fixed(s, k, b),
        Place::Fixed(_) => None,
        Place::Number(what, value) => number(s, what, value, b),
        Place::Literal => literal(s, b),
        Place::Behind => s.behind(b, None),
    }
}

pub(crate) fn step(spot: Option<Spot>, b: u8) -> Option<Spot>
    ensures { StepsFrom spot b result }
{
    known(spot?, b)
}
