// The operands of a command: bytes, and numbers of two bytes, the low one first.
ghost use Rattle.std.specs.Prelude.{◌≡◌, ◌+◌, ◌*◌, ◌<◌, length, eqb};
ghost use Rattle.definitions.specs.Book.{byte as byte_at, u16 as u16At, command};
ghost use Rattle.book.specs.Faults.{marked};
ghost use Rattle.book.specs.Operands.{kind_by, want_by, high_by, crossed_by, OperandsAt};

use crate::widths::{NEGATIVE, POSITIVE, RANGED, width};
use sizes::wide;

// What a command says, whichever of these it has: a literal's kind is as a book keeps it, `number` a clause's variant or a literal's
// goal, `want` what a literal wants, as a book keeps that, and `next` the place of the next command.
#[derive(Clone, Copy)]
pub(crate) struct Operands {
    pub command: u8,
    pub flags: u8,
    pub kind: u8,
    pub number: u16,
    pub want: u32,
    pub next: usize,
}

// The byte at a place, and 0 past the end.
pub(crate) fn byte(bytes: &[u8], i: usize) -> u8
    ensures { result ≡ byte_at bytes.now i }
{
    if i < bytes.len() { bytes[i] } else { 0 }
}

fn number(low: u8, high: u8) -> u16
    ensures { result ≡ low + 256 * high }
{
    (low as u16) + 256 * (high as u16)
}

// The number whose two bytes start at a place.
fn u16_at(bytes: &[u8], i: usize) -> u16
    ensures { result ≡ u16At bytes.now i }
{
    if i >= bytes.len() {
        return 0;
    }
    number(byte(bytes, i), byte(bytes, i + 1))
}

// Bit 0 of the kind is that of the flags, bit 1 says "not", and bit 2 that a range is wanted.
fn kind_of(b: u8, flags: u8) -> u8
    ensures { result ≡ kind_by (eqb b 0x4E) (eqb b 0x52) flags }
{
    if b == NEGATIVE {
        return flags % 2 + 2;
    }
    if b == RANGED {
        return flags % 2 + 4;
    }
    flags % 2
}

// Only a positive literal wants variants: one, or those from a low end on.
fn want_at(bytes: &[u8], at: usize, b: u8) -> u16
    requires { at + marked (command b) < length bytes.now }
    ensures { result ≡ want_by (eqb b 0x50) (eqb b 0x52) (u16At bytes.now (at + 3)) }
{
    if b == POSITIVE {
        return u16_at(bytes, at + 3);
    }
    if b == RANGED {
        return u16_at(bytes, at + 3);
    }
    0
}

// Only a range has a high end of its own.
fn high_at(bytes: &[u8], at: usize, b: u8) -> u16
    requires { at + marked (command b) < length bytes.now }
    ensures { result ≡ high_by (eqb b 0x52) (u16At bytes.now (at + 5)) }
{
    if b == RANGED {
        return u16_at(bytes, at + 5);
    }
    0
}

// The two as a book keeps them.
pub(crate) fn ends(want: u16, high: u16) -> u32
    ensures { result ≡ want + 65536 * high }
{
    (want as u32) + 65536 * (high as u32)
}

// The command is a range whose low end is above its high one.
pub(crate) fn is_crossed(bytes: &[u8], at: usize, b: u8) -> bool
    requires { at + marked (command b) < length bytes.now }
    ensures { result ≡ crossed_by (eqb b 0x52) (u16At bytes.now (at + 3)) (u16At bytes.now (at + 5)) }
{
    if b == RANGED {
        return u16_at(bytes, at + 3) > u16_at(bytes, at + 5);
    }
    false
}

pub(crate) fn operands_at(bytes: &[u8], at: usize) -> Operands
    requires { at + marked (command (byte_at bytes.now at)) < length bytes.now }
    ensures { OperandsAt bytes.now at result }
{
    let b = byte(bytes, at);
    let last = at + wide(width(b));
    let flags = byte(bytes, last);
    Operands {
        command: b,
        flags,
        kind: kind_of(b, flags),
        number: u16_at(bytes, at + 1),
        want: ends(want_at(bytes, at, b), high_at(bytes, at, b)),
        next: last + 1,
    }
}
