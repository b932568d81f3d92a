// Prints what follows from a paper: a book from standard input, listed goal by goal on pages of 60 lines, or `refused` and the number.
// No contract can speak of what is read or written: the program's run on its file `stdin`, held to its file `stdout`, guards that.
#![tactic(auto)]

mod goals;
mod lines;

use intake::input;
use pen::{Pen, Streams};
use sizes::READ_AHEAD;
use std::io::IsTerminal;

// How an input is listed is settled by its first 20,480 bytes (`listing_take`), so what follows is not read.
// The buffer holds a page: it leaves when the first line of the next one comes, the last one at the end. Where a page can't be written,
// that is told, by `pen` or here.
// At a terminal standard error tells which goal is at hand, until a page is written over it.
fn answer(to: Streams, bytes: &[u8]) {
    let mut out = [0u8; 1620];
    let mut pen = Pen::new(to, &mut out);
    let shown = to.errors.is_terminal();
    goals::list(&mut pen, bytes, shown);
    if shown {
        let _ = eprint!(to.errors; "       \r");
    }
    if !pen.flush() {
        let _ = eprintln!(to.errors; "listing: the lines can't be written");
    }
}

fn main(rt: HostRuntime) {
    let to = Streams {
        output: rt.stdout(),
        errors: rt.stderr(),
    };
    let mut bytes = [0u8; READ_AHEAD];
    // Where the input can't be read, that is said, and nothing is taken for a book.
    match input(&mut rt.stdin(), &mut bytes) {
        Ok(count) => answer(to, &bytes[..count]),
        Err(_) => {
            let _ = eprintln!(to.errors; "listing: the input can't be read");
        }
    }
}
