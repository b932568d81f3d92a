// The bytes of the book of the rules that were begun.
ghost use Rattle.std.specs.Prelude.{◌≡◌, [], ◌∷◌, ◌-◌, ◌≤◌, length, Some};
ghost use Rattle.xsb_import.specs.Keeping.{Writes, goal_bytes, capped_to, KeepsOn, Begun, Added};

use crate::{Ended, Kept};

fn put(out: &mut [u8], at: usize, b: u8) -> usize
    ensures { Writes out.old at (b ∷ []) out.new result }
{
    if at < out.len() {
        out[at] = b;
        return at + 1;
    }
    at
}

fn write(out: &mut [u8], used: usize, more: &[u8]) -> usize
    ensures { Writes out.old used more.now out.new result }
{
    let mut at = used;
    for b in more {
        at = put(out, at, *b);
    }
    at
}

// A command for each goal from one up to another.
pub(crate) fn goal_commands(out: &mut [u8], used: usize, from: u64, to: u64) -> usize
    ensures { Writes out.old used (goal_bytes (to - from)) out.new result }
{
    let mut at = used;
    for _goal in from..to {
        at = write(out, at, b"G\0");
    }
    at
}

pub(crate) fn end_command(out: &mut [u8], used: usize) -> usize
    ensures { Writes out.old used (0x45 ∷ []) out.new result }
{
    put(out, used, b'E')
}

// A rule for a goal. A head of 64 or more has a table line behind the 64th.
fn begin(k: Kept, out: &mut [u8], goal: u64) -> Option<Kept>
    ensures { Begun goal k out.old result out.new }
{
    if k.clauses >= 256 || goal >= 64 {
        return None;
    }
    let named = goal_commands(out, k.used, k.goals, goal + 1);
    let used = write(out, named, b"C\0\0\0");
    Some(Kept {
        goals: goal + 1,
        clauses: k.clauses + 1,
        literals: 0,
        used,
    })
}

// A number above the largest goal's that a literal can name is written as that one, which no book has.
fn named(number: u64) -> u16
    ensures { result ≡ capped_to number }
{
    u16::try_from(number).unwrap_or(u16::MAX)
}

// The bytes of a literal.
fn add(k: Kept, out: &mut [u8], literal: &[u8]) -> Option<Kept>
    requires { length literal.now ≤ 6 }
    ensures { Added literal.now k out.old result out.new }
{
    if k.literals >= 8 {
        return None;
    }
    let used = write(out, k.used, literal);
    Some(Kept {
        goals: k.goals,
        clauses: k.clauses,
        literals: k.literals + 1,
        used,
    })
}

// What a byte ended is written.
fn more(k: Kept, out: &mut [u8], ended: Ended) -> Option<Kept>
    ensures { KeepsOn (Some ended) (Some k) out.old result out.new }
{
    match ended {
        Ended::Head(goal) => begin(k, out, goal),
        Ended::Positive(number) => {
            let goal = named(number);
            add(
                k,
                out,
                &[b'P', (goal % 256) as u8, (goal / 256) as u8, 0, 0, 0],
            )
        }
        Ended::Negative(number) => {
            let goal = named(number);
            add(k, out, &[b'N', (goal % 256) as u8, (goal / 256) as u8, 0])
        }
    }
}

// Nothing is written, where the last byte ended nothing.
pub(crate) fn keep(kept: Option<Kept>, out: &mut [u8], ended: Option<Ended>) -> Option<Kept>
    ensures { KeepsOn ended kept out.old result out.new }
{
    let k = kept?;
    match ended {
        Some(e) => more(k, out, e),
        None => Some(k),
    }
}
