// Reads many books and says of each how it is read. A line of standard input names a file with the bytes of a book, or has a label, a
// colon and the bytes in hex; the answer is the name or label with `accepted` and how much is in the book, or `refused` and the number, by
// the old entry; behind a book that the desk refuses stands `desk 36`.
// As a test it reads every sample paper and vectors for each refusal and each rule of order; as a tool, any list of books.
#![tactic(auto)]

mod line;

use line::Line;
use pen::{Pen, Streams};
use sizes::READ_AHEAD;
use std::io::{Read, Stdin};
use std::rt::Files;

// One read of the input, which is worked through; answers whether to go on.
fn some<R: Files>(rt: &R, from: &mut Stdin, pen: &mut Pen, bytes: &mut [u8], line: Line) -> Line {
    let mut input = [0u8; 4096];
    let n = from.read(&mut input).unwrap_or(0);
    if n == 0 {
        return line::ended(line);
    }
    line::chunk(rt, pen, bytes, line, &input[..n])
}

// A proved loop has to end, and nothing says that the input does. So the loop counts its turns, up to a number that no run uses up.
fn all<R: Files>(rt: &R, from: &mut Stdin, pen: &mut Pen) {
    // a book has at most 17,537 bytes, and what follows the first 20,480 of an input doesn't change how it is read
    let mut bytes = [0u8; READ_AHEAD];
    let mut line = line::start();
    for _turn in 0..u64::MAX {
        if line.over {
            break;
        }
        line = some(rt, from, pen, &mut bytes, line);
    }
}

fn main(rt: HostRuntime) {
    let to = Streams {
        output: rt.stdout(),
        errors: rt.stderr(),
    };
    // shorter than what is said of the vectors, so that the run shows that a full buffer is written out
    let mut out = [0u8; 4096];
    let mut pen = Pen::new(to, &mut out);
    all(&rt, &mut rt.stdin(), &mut pen);
    pen.flush();
}
