// Writes a plain paper as XSB text: a line `:- table g0/0.` for each goal, and then its clauses in their order, `g0 :- g1, tnot(g2).` or
// `g1.`, a line each. Of a paper that is refused nothing is written to standard output: its number and sentence go to standard error, and
// with 37 the first place that is not plain.
// No contract can speak of what is read or written: the program's run on its file `stdin`, held to its file `stdout`, guards that.
#![tactic(auto)]

use intake::input;
use pen::{Streams, flush, tell};
use sizes::READ_AHEAD;
use xsb_export::export::export_to;

// What an input comes to is settled by its first 20,480 bytes (`export_take`, in the proofs of `xsb_export`): what follows is not read.
// The longest text is 25,334 bytes: 64 lines of at most 16 for the goals, and 256 of at most 95 for the clauses. So it is all in the buffer
// when it is written, and none is written before: whether it could be written is known. So are the lines of a refusal, at most 116 bytes.
fn answer(to: Streams, bytes: &[u8]) {
    let mut out = [0u8; 32768];
    let mut lines = [0u8; 128];
    let exported = export_to(to, &mut out, &mut lines, bytes);
    tell(to, &lines, exported.told);
    if !flush(to, &out, exported.used) {
        let _ = eprintln!(to.errors; "to_xsb: the text can't be written");
    }
}

fn main(rt: HostRuntime) {
    let to = Streams {
        output: rt.stdout(),
        errors: rt.stderr(),
    };
    let mut bytes = [0u8; READ_AHEAD];
    // Where the input can't be read, that is said, and nothing is taken for a book.
    match input(&mut rt.stdin(), &mut bytes) {
        Ok(count) => answer(to, &bytes[..count]),
        Err(_) => {
            let _ = eprintln!(to.errors; "to_xsb: the input can't be read");
        }
    }
}
