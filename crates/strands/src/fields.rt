// strand.rs: a strand with one field written, and the copy of a strand for the next answer.
ghost use Rattle.std.specs.Prelude.{◌≡◌, true};
ghost use Rattle.strands.specs.Fields.{with_selected, with_ambiguous, after, next_of};

use crate::{Selected, Strand};

pub fn deselected(s: Strand) -> Strand
    ensures { result ≡ with_selected s Selected.Nothing }
{
    let k = Selected::Nothing;
    Strand { selected: k, ..s }
}

pub fn select(s: Strand, k: Selected) -> Strand
    ensures { result ≡ with_selected s k }
{
    Strand { selected: k, ..s }
}

pub fn made_ambiguous(s: Strand) -> Strand
    ensures { result ≡ with_ambiguous s true }
{
    let mut t = s;
    t.ambiguous = true;
    t
}

// The index after an answer's. A u16 stays at its end, which no table's answers reach.
fn following(answer: u16) -> u16
    ensures { result ≡ after answer }
{
    if answer < 65535 { answer + 1 } else { 65535 }
}

fn next_selected(k: Selected) -> Selected
    ensures { result ≡ next_of k }
{
    match k {
        Selected::Nothing => Selected::Nothing,
        Selected::Subgoal {
            index,
            table,
            answer,
        } => {
            let next = following(answer);
            Selected::Subgoal {
                index,
                table,
                answer: next,
            }
        }
    }
}

// The copy of the strand for the next answer. Whoever stores it keeps the last pursued time beside it, so that this stack entry won't
// take it again.
pub fn next_answer_strand(s: Strand) -> Strand
    ensures { result ≡ with_selected s (next_of s.selected) }
{
    let k = s.selected;
    let next = next_selected(k);
    Strand {
        selected: next,
        ..s
    }
}
