// Prints of each goal of a paper whether its yes can be printed: `clean`, so that what is promised of an unambiguous answer holds of it; or
// by which goal it is spoilt, and what that one spoils by, where the paper could be changed. A paper that is refused gets `refused` and the
// number, with its sentence on the next line.
// No contract can speak of what is read or written: the program's run on its file `stdin`, held to its file `stdout`, guards that. Of the
// goals there 0, 1 and 2 are clean, though 1 is floundered and clauses of 2 are outsized or cannot prove; so is 8, which rests on itself.
// Goal 3 is coinductive, 4 has a "not" in its second clause and another one in its third. 5 leads to 4 over 6, and to 3 in one step, which
// is told; 7 is told what 5 is, its first literal; 9 names both, and is told the first.
#![tactic(auto)]

mod lines;

use intake::input;
use pen::{Pen, Streams};
use sizes::READ_AHEAD;

// What an input says is settled by its first 20,480 bytes (`desk_take`, in the proofs of `definitions`): what follows is not read. The
// longest words are 3,520 bytes (proofs/Fits): 64 lines of at most 55. So they are all in the buffer when it is written, and whether they
// could be written is known.
fn answer(to: Streams, bytes: &[u8]) {
    let mut out = [0u8; 4096];
    let mut pen = Pen::new(to, &mut out);
    lines::say(&mut pen, bytes);
    if !pen.flush() {
        let _ = eprintln!(to.errors; "certify: the lines can't be written");
    }
}

fn main(rt: HostRuntime) {
    let to = Streams {
        output: rt.stdout(),
        errors: rt.stderr(),
    };
    let mut bytes = [0u8; READ_AHEAD];
    // Where the input can't be read, that is said, and nothing is taken for a book.
    match input(&mut rt.stdin(), &mut bytes) {
        Ok(count) => answer(to, &bytes[..count]),
        Err(_) => {
            let _ = eprintln!(to.errors; "certify: the input can't be read");
        }
    }
}
