// Writes the book of XSB text, which is read in pieces, however long it is. Of a text that is refused nothing is written to standard
// output: its number and sentence go to standard error.
// No contract can speak of what is read or written: the program's run on its file `stdin`, held to its file `stdout`, guards that.
#![tactic(auto)]

mod lines;

ghost use Rattle.std.specs.Prelude.{IfOk};
ghost use Rattle.xsb_import.specs.Importing.{Sized};

use book::Refusal;
use intake::input;
use pen::{Pen, Streams};
use xsb_import::{Imported, import};

// The lines of a refusal have at most 121 bytes: all of them are in the buffer when it is written. A text that is refused has no byte of a
// book.
fn answer(to: Streams, r: &Result<Imported, Refusal>)
    requires { IfOk r.now Sized }
{
    let mut told = [0u8; 128];
    let mut pen = Pen::new(to, &mut told);
    lines::say(&mut pen, r);
    pen.tell();
    if let Ok(book) = r {
        if to.output.write_all(&book.bytes[..book.used]).is_err() {
            let _ = eprintln!(to.errors; "from_xsb: the book can't be written");
        }
    }
}

// A proved loop has to end, and nothing says that the input does. So the loop counts its pieces, up to a number that no run comes to.
fn main(rt: HostRuntime) {
    let to = Streams {
        output: rt.stdout(),
        errors: rt.stderr(),
    };
    let mut stdin = rt.stdin();
    let mut piece = [0u8; 65536];
    let mut reader = import::start();
    for _ in 0..u64::MAX {
        match input(&mut stdin, &mut piece) {
            Ok(n) => {
                reader = import::feed(reader, &piece[..n]);
                // less than a whole piece is the last one, and where 39 is settled nothing more is read
                if n < 65536 || import::is_settled(reader) {
                    break;
                }
            }
            // Where the input can't be read, that is said, and nothing is taken for a text.
            Err(_) => {
                let _ = eprintln!(to.errors; "from_xsb: the input can't be read");
                return;
            }
        }
    }
    answer(to, &import::finish(reader));
}
