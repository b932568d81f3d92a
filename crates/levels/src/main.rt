// Prints whether a paper is plain and levelled, so that what is promised of such papers holds of it: `within demand 3`, and a line for each
// goal with its least level; or `outside demand 3`, where it is not. Then, as of any paper that is refused, `refused` and the number, with
// its sentence on the next line; and behind 37 the first place that is not plain, behind 38 the goals that are on a cycle through "not".
// No contract can speak of what is read or written: the program's run on its file `stdin`, held to its file `stdout`, guards that. The
// paper there is not levelled. Of its goals 0, 1, 2 and 7 are on a cycle through "not"; 4 only leads to one, 3 is only reached from one; 5
// and 6 rest on each other without a "not", though a clause of theirs has one.
#![tactic(auto)]

mod lines;

use intake::input;
use pen::{Pen, Streams};
use sizes::READ_AHEAD;

// How an input is checked is settled by its first 20,480 bytes (`levels_take`, in the proofs of `definitions`): what follows is not read.
// The longest words are 400 bytes: a line of 16, and 64 lines of at most 6, a level being no more than the 64 passes that give it. A
// refusal with 64 goals on a cycle has 352. So they are all in the buffer when it is written, and whether they could be written is known.
fn answer(to: Streams, bytes: &[u8]) {
    let mut out = [0u8; 512];
    let mut pen = Pen::new(to, &mut out);
    lines::say(&mut pen, bytes);
    if !pen.flush() {
        let _ = eprintln!(to.errors; "levels: the lines can't be written");
    }
}

fn main(rt: HostRuntime) {
    let to = Streams {
        output: rt.stdout(),
        errors: rt.stderr(),
    };
    let mut bytes = [0u8; READ_AHEAD];
    // Where the input can't be read, that is said, and nothing is taken for a book.
    match input(&mut rt.stdin(), &mut bytes) {
        Ok(count) => answer(to, &bytes[..count]),
        Err(_) => {
            let _ = eprintln!(to.errors; "levels: the input can't be read");
        }
    }
}
