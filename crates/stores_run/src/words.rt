// Lines of words and numbers.
ghost use Rattle.std.specs.Prelude.{◌≡◌, ◌≤◌};
ghost use Rattle.rings.specs.Rings.{place_number};
ghost use Rattle.stores.specs.Numbers.{flag_number};

use sizes::PLACES;
use std::io::Stdout;

pub(crate) fn line(to: Stdout, words: &[u8], n: usize) {
    let _ = to.write_all(words);
    let _ = println!(to; " {n}");
}

pub(crate) fn number(to: Stdout, n: u16) {
    let _ = print!(to; "{n} ");
}

// A place, or 256 for none.
pub(crate) fn place(p: Option<u8>) -> usize
    ensures { result ≡ place_number p }
{
    match p {
        Some(q) => q as usize,
        None => PLACES,
    }
}

pub(crate) fn one(b: bool) -> usize
    ensures { (result ≡ flag_number b) × (result ≤ 1) }
{
    if b { 1 } else { 0 }
}
