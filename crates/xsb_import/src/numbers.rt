// Numbers in a text: their digits, and what stands behind them.
ghost use Rattle.std.specs.Prelude.{◌≡◌, ◌<◌, Some};
ghost use Rattle.papers.specs.Xsb.{is_digit as isDigit, more_digits as moreDigits};
ghost use Rattle.xsb_import.specs.declared.What.TheVariants.{Table, Head, Negative};
ghost use Rattle.xsb_import.specs.declared.Place.TheVariants.{Number};
ghost use Rattle.xsb_import.specs.Places.{value_seen};
ghost use Rattle.xsb_import.specs.Reading.{Steps, headed, NoDigit};

use crate::{Ended, Place, Spot, What};

// A number with one more digit, up to the most; there is no digit behind a 0 that it begins with.
fn more_digits(value: Option<u64>, d: u64) -> Option<u64>
    requires { d < 10 }
    ensures { value_seen result ≡ moreDigits (value_seen value) d }
{
    match value {
        None => Some(d),
        Some(0) => None,
        Some(v) => Some(v.saturating_mul(10).saturating_add(d)),
    }
}

fn ends_table(s: Spot, v: u64, b: u8) -> Option<Spot>
    requires { (s.place ≡ Number Table (Some v)) × NoDigit b }
    ensures { Steps s b result }
{
    if b != b'/' || v != s.tables {
        return None;
    }
    Some(Spot {
        place: Place::Fixed(9),
        tables: s.tables.saturating_add(1),
        head: s.head,
        begun: s.begun,
        ended: None,
    })
}

fn head_read(s: Spot, v: u64, place: Place) -> Spot
    ensures { result ≡ headed s v place }
{
    Spot {
        place,
        tables: s.tables,
        head: v,
        begun: true,
        ended: Some(Ended::Head(v)),
    }
}

// A head has a table line, and none below it comes later.
fn ends_head(s: Spot, v: u64, b: u8) -> Option<Spot>
    requires { (s.place ≡ Number Head (Some v)) × NoDigit b }
    ensures { Steps s b result }
{
    if v >= s.tables || v < s.head {
        return None;
    }
    match b {
        b'.' => Some(head_read(s, v, Place::Fixed(11))),
        b' ' => Some(head_read(s, v, Place::Fixed(12))),
        _ => None,
    }
}

fn ends_negative(s: Spot, v: u64, b: u8) -> Option<Spot>
    requires { (s.place ≡ Number Negative (Some v)) × NoDigit b }
    ensures { Steps s b result }
{
    if b == b')' {
        Some(s.at(Place::Behind, Some(Ended::Negative(v))))
    } else {
        None
    }
}

fn ends(s: Spot, what: What, v: u64, b: u8) -> Option<Spot>
    requires { (s.place ≡ Number what (Some v)) × NoDigit b }
    ensures { Steps s b result }
{
    match what {
        What::Table => ends_table(s, v, b),
        What::Head => ends_head(s, v, b),
        What::Positive => s.behind(b, Some(Ended::Positive(v))),
        What::Negative => ends_negative(s, v, b),
    }
}

fn is_digit(b: u8) -> bool
    ensures { result ≡ isDigit b }
{
    b >= 48 && b <= 57
}

pub(crate) fn number(s: Spot, what: What, value: Option<u64>, b: u8) -> Option<Spot>
    requires { s.place ≡ Number what value }
    ensures { Steps s b result }
{
    if is_digit(b) {
        let v = more_digits(value, b as u64 - 48)?;
        return Some(s.at(Place::Number(what, Some(v)), None));
    }
    let v = value?;
    ends(s, what, v, b)
}
