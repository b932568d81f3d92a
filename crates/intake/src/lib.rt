// Reading an input, such as standard input, into a buffer that the caller lends.
// No contract can speak of what is read: the programs' runs on their files `stdin`, held to their files `stdout`, guard that.
#![tactic(auto)]

ghost use Rattle.std.specs.Prelude.{MatchResult};
ghost use Rattle.std.specs.Counts.{IsPrefixLen};

use std::io::Read;

// The input could not be read to its end: so many bytes came before.
#[derive(Clone, Copy)]
pub struct BrokenOff {
    pub count: usize,
}

// Reads until the input ends or the buffer is full, and answers how many bytes there are. The end is asked for once, so that at a terminal
// one end-of-input is enough.
pub fn input<R: Read>(from: &mut R, bytes: &mut [u8]) -> Result<usize, BrokenOff>
    ensures { MatchResult result (λ n. IsPrefixLen n bytes.new) (λ e. IsPrefixLen e.count bytes.new) }
{
    let mut count: usize = 0;
    while count < bytes.len() {
        match from.read(&mut bytes[count..]) {
            Ok(0) => break,
            Ok(n) => count += n,
            Err(_) => return Err(BrokenOff { count }),
        }
    }
    Ok(count)
}
