// A line of a script, character by character, so that a line may be of any length. Words are parted by spaces. Nothing of a line is kept
// but what is known of it so far, and the bytes of its book in a buffer that is lent; what follows the first 20,480 of these doesn't
// change how a book is read (`read_take`, in the proofs of `definitions`).
use crate::utf8;

// `phase` is what the next word has to be: 0 the call's name, 1 a number of a call, 2 bytes of a book or the word "clock", 3 the clock's
// limit, 4 nothing. `call` is 1 book, 2 open, 3 search, 4 peek, 5 future, and `desk` whether a book is taken as the desk takes it; `count`
// is how many numbers it has so far, and a, b, c, d those.
// Of the word so far: its first characters in base 256 behind a 1, so that 1 is no word and no longer word has the number of a name; its
// value, if it is a decimal number; whether a book's bytes are all hex digits, and the high half of a byte (16: none).
#[derive(Clone, Copy)]
pub(crate) struct Line {
    pub number: u64,
    pub empty: bool,
    pub comment: bool,
    pub bad: bool,
    pub utf8: u8,
    pub phase: u8,
    pub call: u8,
    pub desk: bool,
    pub count: u8,
    pub a: u64,
    pub b: u64,
    pub c: u64,
    pub d: u64,
    pub bytes: usize,
    pub name: u64,
    pub decimal: bool,
    pub value: u64,
    pub hex: bool,
    pub half: u8,
}

fn blank(number: u64) -> Line {
    Line {
        number,
        empty: true,
        comment: false,
        bad: false,
        utf8: 0,
        phase: 0,
        call: 0,
        desk: false,
        count: 0,
        a: 0,
        b: 0,
        c: 0,
        d: 0,
        bytes: 0,
        name: 1,
        decimal: true,
        value: 0,
        hex: true,
        half: 16,
    }
}

pub(crate) fn start() -> Line {
    blank(1)
}

pub(crate) fn following(l: Line) -> Line {
    if l.number == u64::MAX {
        return blank(0);
    }
    blank(l.number + 1)
}

// What kind of line it is, once it is whole.
pub(crate) fn is_skipped(l: Line) -> bool {
    if l.utf8 != 0 {
        return false;
    }
    l.comment || l.phase == 0 && !l.bad
}

// A call has its numbers, and a book its clock.
pub(crate) fn is_call(l: Line) -> bool {
    if l.bad || l.comment || l.utf8 != 0 {
        return false;
    }
    let k = l.call;
    match k {
        1 => l.phase == 4,
        2 => l.count == 1,
        4 => l.count == 4,
        _ => l.count == 3,
    }
}

fn spoilt(l: Line) -> Line {
    Line { bad: true, ..l }
}

// The line before its next word.
fn anew(l: Line) -> Line {
    Line {
        name: 1,
        decimal: true,
        value: 0,
        hex: true,
        half: 16,
        ..l
    }
}

fn named(l: Line, call: u8, phase: u8) -> Line {
    Line { call, phase, ..l }
}

// A book, in all but how it is taken.
fn at_desk(l: Line) -> Line {
    let b = named(l, 1, 2);
    Line { desk: true, ..b }
}

// The first word.
fn first(l: Line) -> Line {
    let k = l.name;
    match k {
        0x1626f6f6b => named(l, 1, 2),
        0x16465736b => at_desk(l),
        0x16f70656e => named(l, 2, 1),
        0x1736561726368 => named(l, 3, 1),
        0x17065656b => named(l, 4, 1),
        0x1667574757265 => named(l, 5, 1),
        _ => spoilt(l),
    }
}

fn counted(l: Line) -> Line {
    if !l.decimal {
        return spoilt(l);
    }
    let v = l.value;
    let k = l.count;
    match k {
        0 => Line {
            count: 1,
            a: v,
            ..l
        },
        1 => Line {
            count: 2,
            b: v,
            ..l
        },
        2 => Line {
            count: 3,
            c: v,
            ..l
        },
        3 => Line {
            count: 4,
            d: v,
            ..l
        },
        _ => spoilt(l),
    }
}

fn of_book(l: Line) -> Line {
    if l.name == 0x1636c6f636b {
        return Line { phase: 3, ..l };
    }
    if l.hex && l.half == 16 {
        return l;
    }
    spoilt(l)
}

fn limit(l: Line) -> Line {
    if !l.decimal {
        return spoilt(l);
    }
    let v = l.value;
    Line {
        phase: 4,
        a: v,
        ..l
    }
}

// A word is over.
fn ended(l: Line) -> Line {
    let k = l.phase;
    match k {
        0 => first(l),
        1 => counted(l),
        2 => of_book(l),
        3 => limit(l),
        _ => spoilt(l),
    }
}

// A space, or the line's end, which may end a word.
pub(crate) fn spaced(l: Line) -> Line {
    if l.name == 1 {
        return l;
    }
    let e = ended(l);
    anew(e)
}

// The value of a hex digit, and 16 for any other character.
fn digit(c: u8) -> u8 {
    if c >= b'0' && c <= b'9' {
        return c - b'0';
    }
    if c >= b'A' && c <= b'F' {
        return c - 55;
    }
    if c >= b'a' && c <= b'f' {
        return c - 87;
    }
    16
}

#[inline(always)]
fn lengthened(l: Line, c: u8) -> Line {
    if l.name >= 0x100000000000000 {
        return l;
    }
    let name = l.name * 256 + c as u64;
    Line { name, ..l }
}

// A number, or none.
#[derive(Clone, Copy)]
struct Decimal {
    is: bool,
    value: u64,
}

fn no_decimal() -> Decimal {
    Decimal {
        is: false,
        value: 0,
    }
}

// With one more digit; what is above the largest number is none.
fn appended(v: u64, d: u8) -> Decimal {
    if d > 9 {
        return no_decimal();
    }
    if v > 1844674407370955161 {
        return no_decimal();
    }
    if v < 1844674407370955161 {
        return Decimal {
            is: true,
            value: v * 10 + d as u64,
        };
    }
    if d > 5 {
        return no_decimal();
    }
    Decimal {
        is: true,
        value: 18446744073709551610 + d as u64,
    }
}

#[inline(always)]
fn valued(l: Line, d: u8) -> Line {
    let n = appended(l.value, d);
    if n.is {
        return Line {
            value: n.value,
            ..l
        };
    }
    Line {
        decimal: false,
        ..l
    }
}

fn joined(high: u8, low: u8) -> u8 {
    if high >= 16 {
        return 0;
    }
    if low >= 16 {
        return 0;
    }
    16 * high + low
}

fn kept(bytes: &mut [u8], l: Line, b: u8) -> Line {
    let n = l.bytes;
    if n < bytes.len() {
        bytes[n] = b;
        return Line {
            half: 16,
            bytes: n + 1,
            ..l
        };
    }
    Line { half: 16, ..l }
}

// One more digit of a book's bytes.
#[inline(always)]
fn halved(bytes: &mut [u8], l: Line, d: u8) -> Line {
    if l.phase != 2 || !l.hex {
        return l;
    }
    if d == 16 {
        return Line { hex: false, ..l };
    }
    if l.half == 16 {
        return Line { half: d, ..l };
    }
    kept(bytes, l, joined(l.half, d))
}

#[inline(always)]
fn written(bytes: &mut [u8], l: Line, c: u8) -> Line {
    if c == b' ' {
        return spaced(l);
    }
    let d = digit(c);
    let n = lengthened(l, c);
    let v = valued(n, d);
    halved(bytes, v, d)
}

// One more character, which is no newline. It and what it calls for each are put into the loop that reads (`inline(always)`): as functions
// of their own they take a line in and out by memory, and a refused call took nearly twice the time.
#[inline(always)]
pub(crate) fn add(bytes: &mut [u8], l: Line, c: u8) -> Line {
    let u = Line {
        empty: false,
        utf8: utf8::next(l.utf8, c),
        ..l
    };
    if u.comment {
        return u;
    }
    if l.empty && c == b'#' {
        return Line { comment: true, ..u };
    }
    written(bytes, u, c)
}
