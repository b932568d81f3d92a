// The book of a text, or why the text is refused. A text may come in pieces of any length: `start`, `feed` for each piece,
// `finish`. What is kept of it meanwhile has a fixed size.
ghost use Rattle.std.specs.Prelude.{◌≡◌, List, [], ◌++◌, ℕ, ◌≤◌, length, IfOk};
ghost use Rattle.xsb_import.specs.Importing.{Reads, Settles, ended_by, line_of, Desks, Sized, Imports};

use crate::keeping::{end_command, goal_commands, keep};
use crate::places::step;
use crate::{Ended, Imported, Kept, PLAIN_BYTES, Place, Reader, Spot};
use book::Refusal;
use book::desk::desk;
use sizes::MOST_GOALS;

// Nothing is read yet.
pub fn start() -> Reader
    ensures { Reads [] result }
{
    let spot = Spot {
        place: Place::Line,
        tables: 0,
        head: 0,
        begun: false,
        ended: None,
    };
    let kept = Kept {
        goals: 0,
        clauses: 0,
        literals: 8,
        used: 0,
    };
    Reader {
        spot: Some(spot),
        kept: Some(kept),
        bytes: [0u8; PLAIN_BYTES],
    }
}

// The same bytes in an array of this crate's own, whose length is known here: what a reader has inside tells none.
fn own(bytes: [u8; PLAIN_BYTES]) -> [u8; PLAIN_BYTES]
    ensures { (length result ≡ 13441) × (length bytes ≡ 13441 → result ≡ bytes) }
{
    let mut r = [0u8; PLAIN_BYTES];
    for i in 0..PLAIN_BYTES {
        r[i] = bytes[i];
    }
    r
}

// What the last byte ended, if the text may still be of the form.
fn ended(spot: Option<Spot>) -> Option<Ended>
    ensures { result ≡ ended_by spot }
{
    spot?.ended
}

// The next piece of the text.
pub fn feed(reader: Reader, piece: &[u8]) -> Reader
    ensures { (text : List ℕ) → Reads text reader → Reads (text ++ piece.now) result }
{
    let mut spot = reader.spot;
    let mut kept = reader.kept;
    let held = reader.bytes;
    let mut bytes = own(held);
    for b in piece {
        spot = step(spot, *b);
        kept = keep(kept, &mut bytes, ended(spot));
    }
    Reader { spot, kept, bytes }
}

// Whether the text is refused with 39, whatever may follow: then nothing more has to be read.
pub fn is_settled(reader: Reader) -> bool
    ensures { (text : List ℕ) → Reads text reader → Settles text result }
{
    reader.spot.is_none()
}

// The spot of a text that ends where a line may begin.
fn at_line(spot: Option<Spot>) -> Option<Spot>
    ensures { result ≡ line_of spot }
{
    let s = spot?;
    match s.place {
        Place::Line => Some(s),
        _ => None,
    }
}

// No text has a book that is longer than the bytes.
fn at_desk(bytes: [u8; PLAIN_BYTES], used: usize) -> Result<Imported, Refusal>
    requires { length bytes ≡ 13441 }
    ensures { IfOk result Sized × (used ≤ 13441 → Desks bytes used result) }
{
    if used > PLAIN_BYTES {
        return Err(Refusal::TooMany);
    }
    let _taken = desk(&bytes[..used])?;
    Ok(Imported { used, bytes })
}

// The text has come to its end: that of a line.
pub fn finish(reader: Reader) -> Result<Imported, Refusal>
    ensures { IfOk result Sized × ((text : List ℕ) → Reads text reader → Imports text result) }
{
    let spot = at_line(reader.spot).ok_or(Refusal::NotText)?;
    let kept = reader.kept.ok_or(Refusal::TooMany)?;
    if spot.tables > MOST_GOALS as u64 {
        return Err(Refusal::TooMany);
    }
    let held = reader.bytes;
    let mut bytes = own(held);
    let named = goal_commands(&mut bytes, kept.used, kept.goals, spot.tables);
    let used = end_command(&mut bytes, named);
    at_desk(bytes, used)
}

// A text as a whole.
pub fn import(text: &[u8]) -> Result<Imported, Refusal>
    ensures { Imports text.now result }
{
    let reader = feed(start(), text);
    finish(reader)
}
