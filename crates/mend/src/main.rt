// Mends a paper for the desk: the book without the clauses that it turns down goes to standard output, and a line for each of these to
// standard error: goal, clause among the goal's in the old paper, and reason (6 or 36). Of a paper that is refused by another number
// nothing goes to standard output, and to standard error `refused` and that number.
// No contract can speak of what is read or written: the program's run on its file `stdin`, held to its file `stdout`, guards that, and
// `tools/run rust mend` compares both outputs with those of the Rust.
#![tactic(auto)]

use intake::input;
use mending::mend::mend_to;
use pen::{Streams, flush, tell};
use sizes::READ_AHEAD;

// What an input comes to is settled by its first 20,480 bytes (`mend_take`, in the proofs of `definitions`): what follows is not read. A
// book is no longer than its paper, and 256 lines have at most 10 bytes each. So all of both is in its buffer when it is written, and
// none is written before: whether the book could be written is known.
fn answer(to: Streams, bytes: &[u8]) {
    let mut out = [0u8; READ_AHEAD];
    let mut lines = [0u8; 4096];
    let mended = mend_to(to, &mut out, &mut lines, bytes);
    tell(to, &lines, mended.told);
    if !flush(to, &out, mended.used) {
        let _ = eprintln!(to.errors; "mend: the book can't be written");
    }
}

fn main(rt: HostRuntime) {
    let to = Streams {
        output: rt.stdout(),
        errors: rt.stderr(),
    };
    let mut bytes = [0u8; READ_AHEAD];
    // Where the input can't be read, that is said, and nothing is taken for a book.
    match input(&mut rt.stdin(), &mut bytes) {
        Ok(count) => answer(to, &bytes[..count]),
        Err(_) => {
            let _ = eprintln!(to.errors; "mend: the input can't be read");
        }
    }
}
