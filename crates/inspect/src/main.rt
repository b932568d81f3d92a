// Prints what a paper says: a book from standard input in words, or `refused` and the number, with its sentence on the next line and that
// neither entry takes it; behind a refusal by 6 the book as it is read without that test, and the literals that name no goal. Behind a book
// that the old entry reads and the desk turns down stand the desk's number and the clause that the goal has for the second time.
// No contract can speak of what is read or written: the program's run on its file `stdin`, held to its file `stdout`, guards that.
#![tactic(auto)]

mod book_lines;
mod missing;
mod words;

use intake::input;
use pen::{Pen, Streams};
use sizes::READ_AHEAD;

// How an input is read is settled by its first 20,480 bytes (`read_take`, in the proofs of `definitions`): at most 17,536 bytes of commands
// are accepted before one is refused or ends the book, and that one needs eight at most. So what follows is not read.
// The longest words are at most 167,481 bytes, those of a paper that is refused with 6: three lines of 57, 64 of at most 36 for the goals,
// 256 of at most 277 for the clauses, and 2,048 of at most 46 for the literals. So they are all in the buffer when it is written, and none
// are written before: whether they could be written is known.
fn answer(to: Streams, bytes: &[u8]) {
    let mut out = [0u8; 172032];
    let mut pen = Pen::new(to, &mut out);
    words::say(&mut pen, bytes);
    if !pen.flush() {
        let _ = eprintln!(to.errors; "inspect: what the paper says can't be written");
    }
}

fn main(rt: HostRuntime) {
    let to = Streams {
        output: rt.stdout(),
        errors: rt.stderr(),
    };
    let mut bytes = [0u8; READ_AHEAD];
    // Where the input can't be read, that is said, and nothing is taken for a book.
    match input(&mut rt.stdin(), &mut bytes) {
        Ok(count) => answer(to, &bytes[..count]),
        Err(_) => {
            let _ = eprintln!(to.errors; "inspect: the input can't be read");
        }
    }
}
