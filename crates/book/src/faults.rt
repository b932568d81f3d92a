// The refusals of a book's bytes (document 01, "Refused by the input"), in its order: for each command 1 (its byte), 2, 1 (its
// operands), 3, 4, 32, 5, and for the end command 7, 8. The last, 6, takes the whole book: `read` tests it.
ghost use Rattle.std.specs.Prelude.{◌≡◌, drop};
ghost use Rattle.book.specs.Faults.{fault, goal_tests, clause_tests, literal_tests, end_tests, counts, next_fault};
ghost use Rattle.book.specs.Refusals.{fault_number};

use crate::Refusal;
use crate::decode::{byte, is_crossed};
use crate::widths::{CLAUSE, END, GOAL, UNKNOWN, width};
use sizes::{MOST_CLAUSES, MOST_GOALS, MOST_LITERALS};

fn goal_fault(flags: u8, goals: usize) -> Result<(), Refusal>
    ensures { fault_number result ≡ fault (goal_tests flags goals) }
{
    if flags > 3 {
        return Err(Refusal::UnknownFlag);
    }
    if goals >= MOST_GOALS {
        return Err(Refusal::TooMany);
    }
    Ok(())
}

fn clause_fault(flags: u8, goals: usize, clauses: usize) -> Result<(), Refusal>
    ensures { fault_number result ≡ fault (clause_tests flags goals clauses) }
{
    if goals == 0 {
        return Err(Refusal::OutOfPlace);
    }
    if flags > 3 {
        return Err(Refusal::UnknownFlag);
    }
    if clauses >= MOST_CLAUSES {
        return Err(Refusal::TooMany);
    }
    Ok(())
}

fn literal_fault(flags: u8, crossed: bool, clauses: usize, literals: usize) -> Result<(), Refusal>
    ensures { fault_number result ≡ fault (literal_tests flags crossed clauses literals) }
{
    if clauses == 0 {
        return Err(Refusal::OutOfPlace);
    }
    if flags > 1 {
        return Err(Refusal::UnknownFlag);
    }
    if crossed {
        return Err(Refusal::CrossedRange);
    }
    if literals >= MOST_LITERALS {
        return Err(Refusal::TooMany);
    }
    Ok(())
}

fn end_fault(left: usize, goals: usize) -> Result<(), Refusal>
    ensures { fault_number result ≡ fault (end_tests left goals) }
{
    if left > 0 {
        return Err(Refusal::BehindEnd);
    }
    if goals == 0 {
        return Err(Refusal::NoGoal);
    }
    Ok(())
}

// The first refusal that the command at a place meets.
pub(crate) fn next_fault(
    bytes: &[u8],
    at: usize,
    goals: usize,
    clauses: usize,
    literals: usize,
) -> Result<(), Refusal>
    ensures { fault_number result ≡ next_fault (drop at bytes.now) (counts goals clauses literals) }
{
    if at >= bytes.len() {
        return Err(Refusal::PartMissing);
    }
    let b = byte(bytes, at);
    let w = width(b);
    if w == UNKNOWN {
        return Err(Refusal::UnknownCommand);
    }
    let left = bytes.len() - (at + 1);
    let k = w as usize;
    if left < k {
        return Err(Refusal::PartMissing);
    }
    // a command's flags are the last of its operands
    let flags = byte(bytes, at + k);
    if b == GOAL {
        return goal_fault(flags, goals);
    }
    if b == CLAUSE {
        return clause_fault(flags, goals, clauses);
    }
    if b == END {
        return end_fault(left, goals);
    }
    let crossed = is_crossed(bytes, at, b);
    literal_fault(flags, crossed, clauses, literals)
}
