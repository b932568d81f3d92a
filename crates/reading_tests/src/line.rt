// A line of the list, character by character.
use book::desk::look;
use book::{Looked, Refusal};
use intake::input;
use pen::Pen;
use std::rt::Files;
use std::{fs, str};

// What is known of the line so far: whether its label is over, the high half of a byte, and how many characters of a name or bytes of a
// book are there. `over` is set at the end of the input.
#[derive(Clone, Copy)]
pub(crate) struct Line {
    pub hex: bool,
    pub over: bool,
    pub half: Option<u8>,
    pub len: usize,
}

pub(crate) fn start() -> Line {
    Line {
        hex: false,
        over: false,
        half: None,
        len: 0,
    }
}

pub(crate) fn ended(line: Line) -> Line {
    Line { over: true, ..line }
}

// The value of a hex digit, and none for any other character.
fn digit(c: u8) -> Option<u8> {
    match c {
        b'0'..=b'9' => Some(c - b'0'),
        b'A'..=b'F' => Some(c - b'A' + 10),
        b'a'..=b'f' => Some(c - b'a' + 10),
        _ => None,
    }
}

// One more character of a name or byte of a book; past the end of the buffer nothing is kept.
fn kept(bytes: &mut [u8], line: Line, b: u8) -> Line {
    let len = line.len;
    if len < bytes.len() {
        bytes[len] = b;
        return Line {
            half: None,
            len: len + 1,
            ..line
        };
    }
    Line { half: None, ..line }
}

fn hex(bytes: &mut [u8], line: Line, c: u8) -> Line {
    let Some(low) = digit(c) else {
        return line;
    };
    match line.half {
        None => Line {
            half: Some(low),
            ..line
        },
        Some(high) => kept(bytes, line, high % 16 * 16 + low % 16),
    }
}

fn counted(pen: &mut Pen, n: usize, words: &[u8]) {
    pen.counted(b", ", n as u64);
    pen.text(words);
}

fn accepted(pen: &mut Pen, goals: usize, clauses: usize) {
    pen.text(b": accepted");
    counted(pen, goals, b" goals");
    counted(pen, clauses, b" clauses");
}

// What the desk says to a book that the old entry takes.
fn at_desk(pen: &mut Pen, twice: bool) {
    if twice {
        pen.text(b", desk 36");
    }
    pen.byte(b'\n');
}

fn refused(pen: &mut Pen, e: Refusal) {
    pen.counted(b": refused ", u8::from(e) as u64);
    pen.byte(b'\n');
}

fn answer(pen: &mut Pen, looked: &Result<Looked, Refusal>) {
    match looked {
        Ok(l) => {
            accepted(pen, l.book.goals, l.book.clauses);
            at_desk(pen, l.repeat.is_some());
        }
        Err(e) => refused(pen, *e),
    }
}

fn unreadable(pen: &mut Pen) {
    pen.text(b": can't be read\n");
}

fn vector(pen: &mut Pen, bytes: &[u8], line: Line) {
    let len = line.len;
    if len <= bytes.len() {
        answer(pen, &look(&bytes[..len]));
        return;
    }
    unreadable(pen);
}

// The file of a name; a name that is no text names none.
fn opened<R: Files>(rt: &R, bytes: &[u8], len: usize) -> Option<R::File> {
    if len > bytes.len() {
        return None;
    }
    let name = str::from_utf8(&bytes[..len]).ok()?;
    fs::open(rt, name).ok()
}

// A file that breaks off is looked at as far as it goes.
fn file<R: Files>(rt: &R, pen: &mut Pen, bytes: &mut [u8], line: Line) {
    match opened(rt, bytes, line.len) {
        None => unreadable(pen),
        Some(mut from) => {
            let n = match input(&mut from, bytes) {
                Ok(count) => count,
                Err(e) => e.count,
            };
            answer(pen, &look(&bytes[..n]));
        }
    }
}

fn label(pen: &mut Pen, bytes: &mut [u8], line: Line, c: u8) -> Line {
    if c == b':' {
        return Line {
            hex: true,
            len: 0,
            ..line
        };
    }
    pen.byte(c);
    kept(bytes, line, c)
}

fn step<R: Files>(rt: &R, pen: &mut Pen, bytes: &mut [u8], line: Line, c: u8) -> Line {
    if c == b'\n' {
        if line.hex {
            vector(pen, bytes, line);
        } else {
            file(rt, pen, bytes, line);
        }
        return start();
    }
    if line.hex {
        return hex(bytes, line, c);
    }
    label(pen, bytes, line, c)
}

pub(crate) fn chunk<R: Files>(
    rt: &R,
    pen: &mut Pen,
    bytes: &mut [u8],
    line: Line,
    input: &[u8],
) -> Line {
    let mut now = line;
    for c in input {
        now = step(rt, pen, bytes, now, *c);
    }
    now
}
