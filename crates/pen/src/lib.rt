// Writing to standard output through a buffer that the caller lends. What is put down stays in the buffer until it is full; then it is
// written out, and the buffer is used again from its start, so that nothing is lost however much is put down. At the end, `flush` writes
// out what is left. Where standard output takes no more, what a full buffer holds is lost, and standard error tells so at once; of what is
// left at the end `flush` says whether it was written.
//
// No contract can speak of what is written: a `flush` that answers true and writes nothing, or a `byte` that never writes a full buffer
// out, would meet those below. The programs' runs guard it, whose output is held to their files `stdout`: `reading_tests` says more than
// its buffer holds, so that `byte` has to write it out, and the last words of every program come by `flush`.
#![tactic(auto, using(crate::proofs::Putting::put_all_append))]

pub mod columns;
pub mod refusals;

ghost use Rattle.std.specs.Prelude.{◌≡◌, false, ◌++◌, ◌<◌, length};
ghost use Rattle.definitions.specs.Text.{decimal};
ghost use Rattle.pen.specs.Pen.{pen, put, put_all, content, lender};

use itoa::Buffer;
use std::io::{Stderr, Stdout};

// The streams that a program writes to, of those that `main` is given.
#[derive(Clone, Copy)]
pub struct Streams {
    pub output: Stdout,
    pub errors: Stderr,
}

// A buffer that is lent, how much of it is in use, and where it is written out. Contracts see the first two.
#[derive(Drop)]
pub struct Pen<'a> {
    pub to: Streams,
    pub buffer: &'a mut [u8],
    pub used: usize,
}

// Answers whether all that is in use was written.
fn send(to: &impl Print, out: &[u8], used: usize) -> bool
    ensures { length out.now < used → result ≡ false }
{
    match out.get(..used) {
        Some(bytes) => to.write_all(bytes).is_ok(),
        None => false,
    }
}

// For who holds a buffer, and how much of it is in use, and no pen: to standard output. Answers whether all that is in use was written.
pub fn flush(to: Streams, out: &[u8], at: usize) -> bool
    ensures { length out.now < at → result ≡ false }
{
    send(&to.output, out, at)
}

// The same to standard error.
pub fn tell(to: Streams, out: &[u8], at: usize) -> bool
    ensures { length out.now < at → result ≡ false }
{
    send(&to.errors, out, at)
}

// And bytes put down. Answers how much is then in use.
pub fn text(to: Streams, out: &mut [u8], at: usize, bytes: &[u8]) -> usize
    ensures { pen out.new result ≡ put_all bytes.now (pen out.old at) }
{
    let mut pen = Pen {
        to,
        buffer: out,
        used: at,
    };
    pen.text(bytes);
    pen.used
}

impl<'a> Pen<'a> {
    // Nothing is in use yet.
    pub fn new(to: Streams, buffer: &'a mut [u8]) -> Self
        ensures holds { content result ≡ pen buffer.old 0 }
        ensures same_buffer { lender result ≡ buffer.entry.ghost_name }
    {
        Pen {
            to,
            buffer,
            used: 0,
        }
    }
}

impl Pen<'_> {
    // To standard output. Answers whether all that is in use was written.
    pub fn flush(&self) -> bool
        ensures { length self.now.buffer.now < self.now.used → result ≡ false }
    {
        flush(self.to, self.buffer, self.used)
    }

    // The same to standard error.
    pub fn tell(&self) -> bool
        ensures { length self.now.buffer.now < self.now.used → result ≡ false }
    {
        tell(self.to, self.buffer, self.used)
    }

    // A full buffer is written out, and where that fails, it is told.
    fn leave(&self) {
        if !self.flush() {
            let _ = self.to.errors.write_all(
                b"standard output can't be written: what is printed is not whole\n",
            );
        }
    }

    #[tactic(auto, using(crate::proofs::Putting::put_room, crate::proofs::Putting::put_full, crate::proofs::Putting::put_none))]
    pub fn byte(&mut self, b: u8)
        ensures puts { content self.new ≡ put b (content self.old) }
        ensures same_buffer { lender self.new ≡ lender self.old }
    {
        if self.used < self.buffer.len() {
            self.buffer[self.used] = b;
            self.used += 1;
            return;
        }
        self.leave();
        self.used = 0;
        if 0 < self.buffer.len() {
            self.buffer[0] = b;
            self.used = 1;
        }
    }

    #[tactic(auto, using(crate::proofs::Putting::put_nothing, crate::proofs::Putting::put_next))]
    pub fn text(&mut self, bytes: &[u8])
        ensures puts { content self.new ≡ put_all bytes.now (content self.old) }
        ensures same_buffer { lender self.new ≡ lender self.old }
    {
        for b in bytes {
            self.byte(*b);
        }
    }

    // A number in decimal.
    #[tactic(auto, using(crate::proofs::Numbers::decimal_printed))]
    pub fn number(&mut self, n: u64)
        ensures puts { content self.new ≡ put_all (decimal n) (content self.old) }
        ensures same_buffer { lender self.new ≡ lender self.old }
    {
        self.text(Buffer::new().format(n).as_bytes());
    }

    // A word, and the number behind it.
    pub fn counted(&mut self, word: &[u8], n: u64)
        ensures puts { content self.new ≡ put_all (word.now ++ decimal n) (content self.old) }
        ensures same_buffer { lender self.new ≡ lender self.old }
    {
        self.text(word);
        self.number(n);
    }
}
