// Runs a script from standard input: one call a line, and two lines for each on standard output, what it came to and what the forest
// then holds. It is held against the Rust so, line by line (`tools/differential`). The script, and what is written, are those of
// `oracle run` (`oracle/README.md`). Its arguments are words in any order:
//   quiet  in place of what the forest holds, the 64-bit FNV-1a hash of that;
//   bare   nothing in place of it;
//   batch  calls are handed over together, and what the forest holds is said after all of them;
//   lent   opens, searches and peeks go through the functions that are lent a forest by `&mut`.
// No contract can speak of what is read or written: the program's run on its file `stdin`, held to its file `stdout`, guards that.
#![tactic(auto)]

mod batches;
mod calls;
mod dump;
mod hash;
mod line;
mod manner;
mod steps;
mod utf8;
mod words;

use batch::calls::NUMBERS;
use dump::{LONGEST_DUMP, dump};
use forest::Forest;
use forest::shown::show;
use manner::Manner;
use pen::{Pen, Streams};
use sizes::READ_AHEAD;
use std::io::Stdin;
use steps::Step;

// What the forest holds, in the room that is lent: how many bytes there are.
#[inline(never)]
fn shown(to: Streams, forest: &Forest, room: &mut [u8]) -> usize {
    let mut pen = Pen::new(to, room);
    dump(&mut pen, show(*forest));
    pen.used
}

// The forest stays here: what needs none is done by `steps::next`, which moves no forest. A proved loop has to end, and nothing says that
// the input does. So the loop counts its turns, up to a number that no run uses up.
fn all(
    manner: Manner,
    from: Stdin,
    pen: &mut Pen,
    input: &mut [u8],
    bytes: &mut [u8],
    room: &mut [u8],
) {
    let mut calls = [0u64; NUMBERS];
    let mut replies = [0u64; NUMBERS];
    let mut forest = calls::no_forest();
    let mut m = steps::start(manner);
    for _turn in 0..u64::MAX {
        if m.over {
            break;
        }
        let step = m.step;
        match step {
            Step::Book => {
                let n = steps::least(m.line.bytes, bytes.len());
                let making = calls::take_book(&mut forest, &bytes[..n], m.line.a, m.line.desk);
                m = steps::booked(pen, m, making);
            }
            Step::Call => {
                let reply = calls::call(&mut forest, m.line, m.manner.lent);
                m = steps::told(pen, m, reply);
            }
            Step::Batch => {
                calls::served(&mut forest, m.waiting, &calls, &mut replies);
                m = steps::served(pen, m, &calls, &replies);
            }
            Step::Show => {
                let n = shown(pen.to, &forest, room);
                m = steps::shown(pen, m, room, n);
            }
            _ => m = steps::next(from, pen, input, bytes, &mut calls, m),
        }
    }
}

fn main(rt: HostRuntime) {
    let to = Streams {
        output: rt.stdout(),
        errors: rt.stderr(),
    };
    let mut out = [0u8; 4096];
    let mut input = [0u8; 4096];
    let mut bytes = [0u8; READ_AHEAD];
    let mut room = [0u8; LONGEST_DUMP];
    let mut pen = Pen::new(to, &mut out);
    all(
        manner::asked(&rt),
        rt.stdin(),
        &mut pen,
        &mut input,
        &mut bytes,
        &mut room,
    );
    if !pen.flush() {
        let _ = eprintln!(to.errors; "replay: what the script comes to can't be written");
    }
}
