// The answers: repeats, 26 and 23, and what is stored.
ghost use Rattle.std.specs.Prelude.{◌≡◌, ◌≤◌};
ghost use Rattle.stores.specs.Table.{written_answer};
ghost use Rattle.stores_run.specs.Owner.{kept_by, Keeps};

use crate::words::{line, one, place};
use rings::ring_at;
use std::io::Stdout;
use stores::places::Places;
use stores::table::{
    Answers, PushAnswer, answer_count, any_answer, blank_answers, number_answer, push_answer,
};
use strands::Answer;
use strands::answers::blank_answer;

// What a push came to: 0 for a repeat, the number of a stop, or 100 for a new answer.
#[derive(Clone, Copy)]
struct Kept {
    what: u8,
    answers: Answers,
}

// An answer at a place, with the numbers beside it.
fn write(a: Answers, q: u8, x: Answer) -> Answers
    ensures { result ≡ written_answer q x a }
{
    let mut answers = a.answers;
    let mut variant = a.variant;
    let mut key = a.key;
    let mut ambiguous = a.ambiguous;
    answers[q as usize] = x;
    number_answer(&mut variant, &mut key, &mut ambiguous, q, x);
    let places = a.places;
    Answers {
        answers,
        variant,
        key,
        ambiguous,
        places,
    }
}

fn keep(a: Answers, t: u8, x: Answer) -> Kept
    ensures { Keeps a t x result }
{
    let p = a.places;
    let mut next = p.next;
    let mut tail = p.tail;
    let mut len = p.len;
    let mut top = p.top;
    let variant = a.variant;
    let key = a.key;
    let ambiguous = a.ambiguous;
    let o = push_answer(
        &mut next, &mut tail, &mut len, &mut top, t, &variant, &key, &ambiguous, x,
    );
    let places = Places {
        next,
        tail,
        len,
        top,
    };
    let mut r = a;
    r.places = places;
    done(r, o, x)
}

fn done(a: Answers, o: PushAnswer, x: Answer) -> Kept
    ensures { result ≡ kept_by a x o }
{
    match o {
        PushAnswer::Repeat => Kept {
            what: 0,
            answers: a,
        },
        PushAnswer::Stop(n) => Kept {
            what: n,
            answers: a,
        },
        PushAnswer::New(q) => {
            let r = write(a, q, x);
            Kept {
                what: 100,
                answers: r,
            }
        }
    }
}

// An answer with one delayed goal, or none.
fn answer(variant: u16, delayed: u8, ambiguous: bool) -> Answer {
    let mut x = blank_answer();
    x.variant = variant;
    x.ambiguous = ambiguous;
    if delayed == 0 {
        return x;
    }
    x.delayed[0] = delayed;
    x.delayed_count = 1;
    x
}

fn count(a: Answers, t: u8) -> usize {
    let p = a.places;
    let len = p.len;
    let n = answer_count(&len, t);
    n as usize
}

pub(crate) fn outcomes(to: Stdout) {
    let a = keep(blank_answers(), 2, answer(7, 0, false));
    line(to, b"new", a.what as usize);
    let b = keep(a.answers, 2, answer(7, 0, false));
    line(to, b"the same again", b.what as usize);
    let c = keep(b.answers, 2, answer(7, 4, false));
    line(to, b"with another delayed goal", c.what as usize);
    let d = keep(c.answers, 2, answer(8, 0, true));
    line(to, b"ambiguous", d.what as usize);
    let e = keep(d.answers, 2, answer(8, 0, true));
    line(to, b"ambiguous again", e.what as usize);
    let f = keep(e.answers, 2, answer(8, 0, false));
    line(to, b"and then not", f.what as usize);
    line(to, b"answers", count(f.answers, 2));
    line(to, b"from 2 on variant 8", future(f.answers, 2, 8));
    line(to, b"from 2 on variant 7", future(f.answers, 2, 7));
}

fn future(a: Answers, from: usize, variant: u16) -> usize {
    let p = a.places;
    let next = p.next;
    let tail = p.tail;
    let len = p.len;
    let variants = a.variant;
    let key = a.key;
    one(any_answer(&next, &tail, &len, 2, from, &variants, variant, &key))
}

fn is_new(what: u8) -> usize
    ensures { result ≤ 1 }
{
    if what == 100 { 1 } else { 0 }
}

#[derive(Clone, Copy)]
struct Filled {
    count: usize,
    last: u8,
    answers: Answers,
}

// As many new answers as there is room for, of 257, in turn in four tables.
fn fill(a: Answers) -> Filled {
    let mut r = a;
    let mut n: usize = 0;
    let mut last: u8 = 0;
    for i in 0..257 {
        let t = i % 4;
        let k = keep(r, t as u8, answer(i, 0, false));
        n = n + is_new(k.what);
        last = k.what;
        r = k.answers;
    }
    Filled {
        count: n,
        last,
        answers: r,
    }
}

pub(crate) fn limit(to: Stdout) {
    let f = fill(blank_answers());
    line(to, b"answers of 257:", f.count);
    line(to, b"the last", f.last as usize);
    line(to, b"answers of table 3", count(f.answers, 3));
    let p = f.answers.places;
    let next = p.next;
    let tail = p.tail;
    let len = p.len;
    line(
        to,
        b"the fifth at place",
        place(ring_at(&next, &tail, &len, 3, 4)),
    );
    line(
        to,
        b"past the end",
        place(ring_at(&next, &tail, &len, 3, 64)),
    );
}
