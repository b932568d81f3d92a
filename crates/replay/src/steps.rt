// A script, step by step. The steps that need no forest are done here; the others are left to whoever has it.
ghost use Rattle.std.specs.Prelude.{◌≤◌};
ghost use Rattle.std.specs.Counts.{IsPrefixLen};

use crate::line::Line;
use crate::manner::Manner;
use crate::words::Reply;
use crate::{batches, hash, line, words};
use batch::calls::NUMBERS;
use forest::make::Making;
use pen::{Pen, Streams};
use std::io::{Read, Stdin};

// What comes next: more of the input is read; its characters are looked at, up to a line's end; a whole line is looked at. Then the steps
// that need a forest: a book, a call by itself, the calls that wait, and what the forest holds.
#[derive(Clone, Copy)]
pub(crate) enum Step {
    Read,
    Scan,
    Whole,
    Book,
    Call,
    Batch,
    Show,
}

// Between two steps: how the script is run; how much of the input's buffer was read, and from where on it was not looked at; whether the
// input is at its end, and all is done; the line so far; whether there was a book, so that there is a forest, and how many calls wait for
// it.
#[derive(Clone, Copy)]
pub(crate) struct Midst {
    pub step: Step,
    pub manner: Manner,
    pub read: usize,
    pub from: usize,
    pub ended: bool,
    pub over: bool,
    pub line: Line,
    pub there: bool,
    pub waiting: u64,
}

pub(crate) fn start(manner: Manner) -> Midst {
    let line = line::start();
    let step = Step::Read;
    Midst {
        step,
        manner,
        read: 0,
        from: 0,
        ended: false,
        over: false,
        line,
        there: false,
        waiting: 0,
    }
}

fn to(m: Midst, step: Step) -> Midst {
    Midst { step, ..m }
}

// The line is done with.
fn passed(m: Midst) -> Midst {
    let l = m.line;
    let line = line::following(l);
    let step = Step::Scan;
    Midst { step, line, ..m }
}

// What is said of the forest, or its hash.
fn state(pen: &mut Pen, said: &[u8], quiet: bool) {
    if quiet {
        hash::digits(pen, hash::fnv(said));
    } else {
        pen.text(said);
    }
    pen.byte(b'\n');
}

pub(crate) fn least(n: usize, most: usize) -> usize
    ensures { result ≤ most }
{
    n.min(most)
}

// What the forest holds was said. The line before which calls were handed over is still to be looked at.
fn after_state(m: Midst) -> Midst {
    if m.manner.batch {
        return to(m, Step::Whole);
    }
    to(m, Step::Scan)
}

// What the forest holds: the first so many bytes.
pub(crate) fn shown(pen: &mut Pen, m: Midst, said: &[u8], n: usize) -> Midst {
    let k = least(n, said.len());
    state(pen, &said[..k], m.manner.quiet);
    after_state(m)
}

// What the forest holds comes next; where there is none, that is said at once, and in a bare run nothing is.
pub(crate) fn show(pen: &mut Pen, m: Midst) -> Midst {
    if m.manner.bare {
        return after_state(m);
    }
    if m.there {
        return to(m, Step::Show);
    }
    state(pen, b"state none", m.manner.quiet);
    after_state(m)
}

// What a line came to that was not put off. Among calls that are handed over together that is a book alone.
pub(crate) fn told(pen: &mut Pen, m: Midst, r: Reply) -> Midst {
    words::told(pen, r);
    let after = passed(m);
    if m.manner.batch {
        return after;
    }
    show(pen, after)
}

// From the first book on there is a forest: a refused one leaves one too, by which every call is refused.
pub(crate) fn booked(pen: &mut Pen, m: Midst, making: Making) -> Midst {
    let b = Midst { there: true, ..m };
    told(pen, b, Reply::Booked(making))
}

// The calls that waited were served; what the forest then holds comes next.
pub(crate) fn served(
    pen: &mut Pen,
    m: Midst,
    calls: &[u64; NUMBERS],
    replies: &[u64; NUMBERS],
) -> Midst {
    batches::told_all(pen, calls, replies, m.waiting);
    let after = Midst { waiting: 0, ..m };
    show(pen, after)
}

// The calls that wait are handed over next; where there is no forest, that is said of each at once.
fn hand_over(pen: &mut Pen, m: Midst) -> Midst {
    if m.there {
        return to(m, Step::Batch);
    }
    batches::told_none(pen, m.waiting);
    show(pen, Midst { waiting: 0, ..m })
}

// A line that no call waits before.
fn alone(pen: &mut Pen, m: Midst, l: Line) -> Midst {
    if !line::is_call(l) {
        words::bad(pen, l.number);
        return passed(m);
    }
    if l.call == 1 {
        return to(m, Step::Book);
    }
    if !m.there {
        return told(pen, m, Reply::NoForest);
    }
    to(m, Step::Call)
}

// A line that is whole.
fn whole(pen: &mut Pen, calls: &mut [u64; NUMBERS], m: Midst) -> Midst {
    let was = m.line;
    let l = line::spaced(was);
    let w = Midst { line: l, ..m };
    if line::is_skipped(l) {
        return passed(w);
    }
    if m.manner.batch && w.waiting < batches::MOST && batches::is_put_off(l) {
        let waiting = batches::put_off(calls, w.waiting, l);
        let p = passed(w);
        return Midst { waiting, ..p };
    }
    if w.waiting > 0 {
        return hand_over(pen, w);
    }
    alone(pen, w, l)
}

// The characters that were read, up to the end of a line.
fn scan(bytes: &mut [u8], input: &[u8], m: Midst) -> Midst {
    let upto = least(m.read, input.len());
    let mut l = m.line;
    for i in m.from..upto {
        let c = input[i];
        if c == b'\n' {
            let step = Step::Whole;
            return Midst {
                step,
                from: i + 1,
                line: l,
                ..m
            };
        }
        l = line::add(bytes, l, c);
    }
    let step = Step::Read;
    Midst {
        step,
        from: m.from.max(upto),
        line: l,
        ..m
    }
}

// One read of the input: how many bytes there are, none at its end.
fn some(mut from: Stdin, streams: Streams, input: &mut [u8]) -> usize
    ensures { IsPrefixLen result input.new }
{
    match from.read(input) {
        Ok(n) => n,
        Err(_) => {
            let _ = eprintln!(streams.errors; "replay: the input can't be read");
            0
        }
    }
}

// Nothing is left of the input.
fn close(pen: &mut Pen, m: Midst) -> Midst {
    if m.waiting > 0 {
        return hand_over(pen, m);
    }
    Midst { over: true, ..m }
}

// The last line may lack its newline.
fn refill(from: Stdin, pen: &mut Pen, input: &mut [u8], m: Midst) -> Midst {
    if m.ended {
        return close(pen, m);
    }
    let n = some(from, pen.to, input);
    let r = Midst {
        read: n,
        from: 0,
        ended: n == 0,
        ..m
    };
    if n == 0 {
        return to(r, Step::Whole);
    }
    to(r, Step::Scan)
}

// One step that needs no forest; where it would need one, none.
pub(crate) fn next(
    from: Stdin,
    pen: &mut Pen,
    input: &mut [u8],
    bytes: &mut [u8],
    calls: &mut [u64; NUMBERS],
    m: Midst,
) -> Midst {
    let step = m.step;
    match step {
        Step::Read => refill(from, pen, input, m),
        Step::Scan => scan(bytes, input, m),
        Step::Whole => whole(pen, calls, m),
        _ => m,
    }
}
