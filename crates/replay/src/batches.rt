// Calls that are handed over together, as numbers (`batch::calls`), and what they came to, in words.
ghost use Rattle.std.specs.Prelude.{◌<◌};

use crate::line::Line;
use crate::{line, words};
use batch::calls::{NUMBERS, Reply};
use pen::Pen;

// So many calls wait at most.
pub(crate) const MOST: u64 = 256;

// Whether a line is a call that can wait: of a forest, and not a book.
pub(crate) fn is_put_off(l: Line) -> bool {
    l.call > 1 && line::is_call(l)
}

// Where the numbers of a call, or of its reply, stand.
fn first_number(at: u64) -> usize
    ensures { result < 1276 }
{
    (at % 256 * 5) as usize
}

fn kind(call: u8) -> u64 {
    match call {
        2 => 0,
        3 => 1,
        4 => 2,
        _ => 3,
    }
}

// A call is put down behind fewer than 256 that wait: how many do then.
pub(crate) fn put_off(calls: &mut [u64; NUMBERS], waiting: u64, l: Line) -> u64 {
    let i = first_number(waiting);
    calls[i] = kind(l.call);
    calls[i + 1] = l.a;
    calls[i + 2] = l.b;
    calls[i + 3] = l.c;
    calls[i + 4] = l.d;
    waiting % 256 + 1
}

fn kind_at(calls: &[u64; NUMBERS], at: u64) -> u64 {
    let i = first_number(at);
    calls[i]
}

fn reply_at(replies: &[u64; NUMBERS], at: u64) -> Reply {
    let i = first_number(at);
    Reply {
        word: replies[i],
        value: replies[i + 1],
        index: replies[i + 2],
        turns: replies[i + 3],
        exceeded: replies[i + 4],
    }
}

// A word that has a number.
fn numbered(pen: &mut Pen, word: u64, value: u64) {
    match word {
        0 => pen.counted(b"refused ", value),
        1 => pen.counted(b"table ", value),
        2 => pen.counted(b"stop ", value),
        3 => pen.counted(b"yes ", value),
        _ => pen.counted(b"maybe ", value),
    }
}

// A word that has none.
fn bare(pen: &mut Pen, word: u64) {
    match word {
        5 => pen.text(b"none"),
        6 => pen.text(b"floundered"),
        7 => pen.text(b"again"),
        8 => pen.text(b"negcycle"),
        9 => pen.text(b"invalid"),
        10 => pen.text(b"cut"),
        11 => pen.text(b"false"),
        _ => pen.text(b"true"),
    }
}

fn word(pen: &mut Pen, word: u64, value: u64) {
    if word < 5 {
        numbered(pen, word, value);
        return;
    }
    bare(pen, word);
}

// A call's line: behind its word the turns of a search, or where a peek ended and the turns of its last search.
fn told_one(pen: &mut Pen, kind: u64, r: Reply) {
    word(pen, r.word, r.value);
    if r.word == 0 {
        pen.byte(b'\n');
        return;
    }
    match kind {
        1 => words::turns(pen, r.turns),
        2 => words::index_and_turns(pen, r.index, r.turns),
        _ => pen.byte(b'\n'),
    }
}

pub(crate) fn told_all(
    pen: &mut Pen,
    calls: &[u64; NUMBERS],
    replies: &[u64; NUMBERS],
    count: u64,
) {
    for k in 0..count {
        told_one(pen, kind_at(calls, k), reply_at(replies, k));
    }
}

// As many calls have no forest.
pub(crate) fn told_none(pen: &mut Pen, count: u64) {
    for _call in 0..count {
        pen.text(b"no forest\n");
    }
}
