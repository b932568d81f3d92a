// From a book's bytes to the lines: one forest, each goal opened and peeked at from index 0 on (document 01, "The listing program").
ghost use Rattle.std.specs.Prelude.{◌||◌, ◌≡◌, ltb};
ghost use Rattle.papers.specs.Listing.{next_index, pages, listing};
ghost use Rattle.pen.specs.Pen.{put_all, content};
ghost use Rattle.listing.specs.Goals.{Ready, rest_lines, first_place, OpenedTo, peek_put, next_place, ToldTo};

use crate::lines::{fill, line, one_line_more, settled};
use batch::calls::NUMBERS;
use forest::Forest;
use forest::make::{Making, make_at_desk};
use forest::open::Opening;
use pen::{Pen, Streams};
use search::root_answer::one_more;

const CLOCK: u64 = 1000000;

const ROUNDS: u64 = 1000;

const TURNS: u64 = 10000;

// Where the listing is: how many lines are on the page, whether an answer of the goal was skipped, whether the last line is written,
// whether the goal is to be opened, and if not, which table is to be peeked at and from which index on.
#[derive(Clone, Copy)]
struct Place {
    lines: usize,
    skipped: bool,
    over: bool,
    opens: bool,
    goal: u64,
    table: u64,
    index: u64,
}

fn first_place() -> Place
    ensures { result ≡ first_place }
{
    Place {
        lines: 0,
        skipped: false,
        over: false,
        opens: true,
        goal: 0,
        table: 0,
        index: 0,
    }
}

// Where an open leads: a goal that is not in the book ends the listing, and so does a stop, which is written as that of a peek is: 2 is its
// word.
fn opened(pen: &mut Pen, opening: Opening, p: Place) -> Place
    ensures { OpenedTo opening p (content pen.old) result (content pen.new) }
{
    match opening {
        Opening::Refused(n) => Place { over: true, ..p },
        Opening::Table(table) => Place {
            skipped: false,
            opens: false,
            table,
            index: 0,
            ..p
        },
        Opening::Stopped(n) => {
            line(pen, p.goal, 0, 2, n as u64);
            Place {
                lines: one_line_more(p.lines),
                over: true,
                ..p
            }
        }
    }
}

// One peek, as the numbers of the first call (crate `batch`, calls.rt): a peek's kind is 2.
fn ask(calls: &mut [u64; NUMBERS], table: u64, index: u64)
    ensures { calls.new ≡ peek_put table index calls.old }
{
    calls[0] = 2;
    calls[1] = table;
    calls[2] = index;
    calls[3] = ROUNDS;
    calls[4] = TURNS;
}

// Whether an answer of the goal was skipped as invalid, in this peek or in an earlier one: a peek's index rises by nothing else.
fn skips(skipped: bool, asked: u64, index: u64) -> bool
    ensures { result ≡ (skipped || ltb asked index) }
{
    skipped || asked < index
}

// Behind an answer the goal's next one is looked for.
fn next_index(index: u64, p: Place) -> Place
    ensures { result ≡ next_place next_index index p }
{
    Place {
        lines: one_line_more(p.lines),
        skipped: skips(p.skipped, p.index, index),
        index: one_more(index),
        ..p
    }
}

// Where a peek leads, by the numbers of its reply: behind a stop nothing is listed, and behind what is no answer the next goal.
fn told(pen: &mut Pen, replies: &[u64; NUMBERS], p: Place) -> Place
    ensures { ToldTo replies.now p (content pen.old) result (content pen.new) }
{
    let word = replies[0];
    let value = replies[1];
    let index = replies[2];
    let said = settled(word, skips(p.skipped, p.index, index));
    line(pen, p.goal, index, said, value);
    match word {
        2 => Place {
            lines: one_line_more(p.lines),
            over: true,
            ..p
        },
        3 => next_index(index, p),
        4 => next_index(index, p),
        _ => Place {
            lines: one_line_more(p.lines),
            opens: true,
            goal: one_more(p.goal),
            ..p
        },
    }
}

// Where it is asked for, standard error tells which goal is at hand; what comes next, a goal or a page, is written over it.
fn tell(to: Streams, shown: bool, goal: u64) {
    if shown {
        let _ = eprint!(to.errors; "goal {goal}\r");
    }
}

// The forest stays in this function and is lent to each call, since handing one on by value copies it whole: what the other functions need
// of it is told by an opening and by the numbers of a reply. So a peek is a batch of one call.
fn list_goals(pen: &mut Pen, f: Forest, shown: bool)
    requires { Ready f }
    ensures { content pen.new ≡ put_all (pages (rest_lines 0 f)) (content pen.old) }
{
    let mut calls = [0u64; NUMBERS];
    let mut replies = [0u64; NUMBERS];
    let mut forest = f;
    let mut p = first_place();
    loop {
        if p.over {
            fill(pen, p.lines);
            return;
        }
        if p.opens {
            tell(pen.to, shown, p.goal);
            let opening = forest.open_goal(p.goal);
            p = opened(pen, opening, p);
            continue;
        }
        ask(&mut calls, p.table, p.index);
        forest.serve(1, &calls, &mut replies);
        p = told(pen, &replies, p);
    }
}

// The listing of a byte string, whose book is taken as the desk takes it.
pub(crate) fn list(pen: &mut Pen, bytes: &[u8], shown: bool)
    ensures { content pen.new ≡ put_all (listing bytes.now) (content pen.old) }
{
    let m = make_at_desk(bytes, CLOCK);
    let making = m.making;
    let forest = m.forest;
    match making {
        Making::Refused(n) => pen.refusal_line(n),
        Making::Made => list_goals(pen, forest, shown),
    }
}
