// A search in the hand: a turn at a time, and a cut, through the functions that are lent the search. A book from standard input, cut
// after three turns; where there is none, cases p8 and p1 of document 01. A turn is asked for after each cut too: nothing is on the stack
// then, and it stops. `tools/turns` holds it against the Rust's searches.
// No contract can speak of what is written: the program's run, held to its file `stdout`, guards that.
#![tactic(auto)]

mod begun; // begun.rt: a search before its first turn
mod words; // words.rt: what is written

use begun::{begun, rooted};
use control::performed::Flow;
use in_place::by_value::{cut, turn};
use intake::input;
use pen::{Pen, Streams};
use search::solve_state::Search;
use sizes::READ_AHEAD;

// A search has so many turns, unless it is the first.
const MOST_TURNS: u64 = 1000;

// What comes next: the next turn, the search put back, or nothing.
#[derive(Clone, Copy)]
enum Next {
    Turn,
    Cut,
    Nothing,
}

// Between two steps: how many turns the search may still have, and what comes next.
#[derive(Clone, Copy)]
struct Progress {
    turns: u64,
    next: Next,
}

// What follows a turn. A search that ended in QuantumExceeded is begun again.
fn next_step(flow: Flow, turns: u64) -> Next {
    match flow {
        Flow::Continue => if turns > 1 { Next::Turn } else { Next::Cut },
        Flow::ReturnOk => Next::Nothing,
        Flow::NoMoreSolutions => Next::Nothing,
        Flow::QuantumExceeded => Next::Cut,
        Flow::NegativeCycle => Next::Nothing,
        Flow::Stop(_) => Next::Nothing,
    }
}

fn turned(pen: &mut Pen, p: Progress, flow: Flow, depth: usize, clock: u64) -> Progress {
    words::turned(pen, flow, depth, clock);
    Progress {
        turns: p.turns.saturating_sub(1),
        next: next_step(flow, p.turns),
    }
}

// A search that is begun again.
#[derive(Clone, Copy)]
struct Again {
    progress: Progress,
    search: Search,
}

// After a cut a turn is asked for all the same, with nothing on the stack. Then the search is begun again, unless its table has floundered.
fn put_back(pen: &mut Pen, c: Search) -> Again {
    words::cut(pen, c.stack.depth, c.clock);
    let over = c.stores.tables.floundered[0] != 0;
    let t = turn(c);
    let flow = t.flow;
    let s = t.search;
    words::turned(pen, flow, s.stack.depth, s.clock);
    let search = rooted(s);
    let progress = Progress {
        turns: MOST_TURNS,
        next: if over { Next::Nothing } else { Next::Turn },
    };
    Again { progress, search }
}

// The first search of a book has so many turns at most. The search stays here. A proved loop has to end, and nothing says that searches
// that are cut do: so many steps are taken.
fn run(pen: &mut Pen, book: &[u8], turns: u64) {
    let mut s = rooted(begun(book));
    let mut p = Progress {
        turns,
        next: Next::Turn,
    };
    for _step in 0..10000 {
        match p.next {
            Next::Turn => {
                let t = turn(s);
                let flow = t.flow;
                s = t.search;
                p = turned(pen, p, flow, s.stack.depth, s.clock);
            }
            Next::Cut => {
                let r = put_back(pen, cut(s));
                p = r.progress;
                s = r.search;
            }
            Next::Nothing => return,
        }
    }
}

// `0 :- 1`, 1 a fact: four turns. Cut after three, it takes one more.
fn p8(pen: &mut Pen, turns: u64) {
    pen.text(b"# p8\n");
    run(pen, b"G\0C\0\0\0P\x01\0\0\0\0G\0C\0\0\0E", turns);
}

// `0 :- 1, not 2`, 1 has facts /1 and /2, `2 :- 2`: the first two searches end in QuantumExceeded.
fn p1(pen: &mut Pen) {
    pen.text(b"# p1, goal 0\n");
    run(
        pen,
        b"G\0C\0\0\0P\x01\0\0\0\0N\x02\0\0G\0C\x01\0\0C\x02\0\0G\0C\0\0\0P\x02\0\0\0\0E",
        MOST_TURNS,
    );
}

fn all(pen: &mut Pen, book: &[u8]) {
    if book.len() > 0 {
        run(pen, book, 3);
        return;
    }
    p8(pen, MOST_TURNS);
    p8(pen, 3);
    p1(pen);
}

fn answer(to: Streams, book: &[u8]) {
    let mut out = [0u8; 4096];
    let mut pen = Pen::new(to, &mut out);
    all(&mut pen, book);
    if !pen.flush() {
        let _ = eprintln!(to.errors; "in_place_run: the turns can't be written");
    }
}

fn main(rt: HostRuntime) {
    let to = Streams {
        output: rt.stdout(),
        errors: rt.stderr(),
    };
    let mut bytes = [0u8; READ_AHEAD];
    match input(&mut rt.stdin(), &mut bytes) {
        Ok(count) => answer(to, &bytes[..count]),
        Err(_) => {
            let _ = eprintln!(to.errors; "in_place_run: the input can't be read");
        }
    }
}
