// How a script is run: the words among the program's arguments.
use sizes::wide64;
use std::rt::Env;

#[derive(Clone, Copy)]
pub(crate) struct Manner {
    pub quiet: bool,
    pub batch: bool,
    pub bare: bool,
    pub lent: bool,
}

// An argument of at most five characters as a number, the first of them highest.
fn argument(rt: &impl Env, i: usize) -> u64 {
    let mut word = [0u8; 5];
    let n = rt.arg(i, &mut word).unwrap_or(0);
    if n == 0 {
        return 0;
    }
    let high = wide64(word[0]) * 0x100 + wide64(word[1]);
    let low = wide64(word[2]) * 0x10000 + wide64(word[3]) * 0x100 + wide64(word[4]);
    high * 0x1000000 + low
}

// The manner with what an argument says.
fn with(m: Manner, word: u64) -> Manner {
    match word {
        0x7175696574 => Manner { quiet: true, ..m },
        0x6261746368 => Manner { batch: true, ..m },
        0x6261726500 => Manner { bare: true, ..m },
        0x6c656e7400 => Manner { lent: true, ..m },
        _ => m,
    }
}

pub(crate) fn asked(rt: &impl Env) -> Manner {
    let none = Manner {
        quiet: false,
        batch: false,
        bare: false,
        lent: false,
    };
    let one = with(none, argument(rt, 1));
    let two = with(one, argument(rt, 2));
    with(two, argument(rt, 3))
}
