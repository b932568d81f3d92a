// Which goals' yes can be printed (definitions, `spoilers`): at first each goal that spoils by itself is spoilt; then passes, as many as
// there are goals, in which each goal that is not spoilt yet is spoilt by the first of its literals whose goal was.
ghost use Rattle.std.specs.Prelude.{◌≡◌, ◌+◌, ◌≤◌, length};
ghost use Rattle.laws.specs.Spans.{span};
ghost use Rattle.definitions.specs.Desk.{desk as deskOf};
ghost use Rattle.papers.specs.Spoilt.{spoiler_in, literals_spoilt, clauses_spoilt};
ghost use Rattle.book.specs.View.{view, Sound};
ghost use Rattle.book.specs.Repeats.{lent_by, clause_read};
ghost use Rattle.paper_checks.specs.Spoilers.{by_told, known, passed_read, Passes, Stands, spoilers_seen, spoilers_told};

use crate::spoil::{by_itself, own_spoil};
use crate::{Spoiler, Spoilers};
use book::desk::desk;
use book::{Book, Refusal};
use sizes::MOST_GOALS;

// By which goal a goal is spoilt; what is no goal's number is spoilt by none.
fn by_of(told: &[Spoiler; MOST_GOALS], goal: usize) -> Option<u8>
    ensures { result ≡ by_told (spoiler_in (known told.now) goal) }
{
    if goal < MOST_GOALS {
        told[goal].by
    } else {
        None
    }
}

// By which goal the first literal of clause c is spoilt that is.
fn literals_spoilt(told: &[Spoiler; MOST_GOALS], b: &Book, c: usize) -> Option<u8>
    ensures { result ≡ by_told (literals_spoilt (known told.now) (clause_read (lent_by b.now) c).literals) }
{
    let count = b.literal_count(c);
    for j in 0..count {
        let l = b.literal(c, j);
        if let Some(by) = by_of(told, l.goal as usize) {
            return Some(by);
        }
    }
    None
}

// The same of so many clauses from `first` on.
fn clauses_spoilt(told: &[Spoiler; MOST_GOALS], b: &Book, first: usize, count: usize) -> Option<u8>
    requires { first + count ≤ 256 }
    ensures { result ≡ by_told (clauses_spoilt (known told.now) (span (clause_read (lent_by b.now)) first count)) }
{
    for k in 0..count {
        if let Some(spoiler) = literals_spoilt(told, b, first + k) {
            return Some(spoiler);
        }
    }
    None
}

// Goal g, which has so many clauses from `first` on, after one more pass.
fn passed(
    told: &[Spoiler; MOST_GOALS],
    b: &Book,
    g: usize,
    first: usize,
    count: usize,
) -> Option<u8>
    requires { first + count ≤ 256 }
    ensures { result ≡ by_told (passed_read b.now (known told.now) g first count) }
{
    match by_of(told, g) {
        Some(by) => Some(by),
        None => clauses_spoilt(told, b, first, count),
    }
}

// A pass: into a new array, so that it looks only at what was known before it.
fn pass(told: &[Spoiler; MOST_GOALS], b: &Book) -> [Spoiler; MOST_GOALS]
    requires { Sound b.now }
    ensures { Passes b.now told.now result }
{
    let mut next = [Spoiler::NOTHING; MOST_GOALS];
    for g in 0..b.goals {
        let by = passed(told, b, g, b.first_clause(g), b.clause_count(g));
        next[g] = Spoiler {
            by,
            own: told[g].own,
        };
    }
    next
}

// What each goal spoils by itself, before any pass.
fn themselves(b: &Book) -> [Spoiler; MOST_GOALS]
    requires { Sound b.now }
    ensures { Stands b.now 0 result }
{
    let mut told = [Spoiler::NOTHING; MOST_GOALS];
    for g in 0..b.goals {
        let own = own_spoil(b, g, b.first_clause(g), b.clause_count(g));
        let by = by_itself(own, g);
        told[g] = Spoiler { by, own };
    }
    told
}

// All passes, from what is known before the first.
fn passes(b: &Book, own: [Spoiler; MOST_GOALS]) -> [Spoiler; MOST_GOALS]
    requires sound { Sound b.now }
    requires own_value { Stands b.now 0 own }
    ensures { Stands b.now (length (view b.now)) result }
{
    let mut told = own;
    for made in 0..b.goals {
        told = pass(&told, b);
    }
    told
}

// Refused by the desk's numbers; or which goals are spoilt, by whom, and what each spoils by itself.
pub fn spoilers(bytes: &[u8]) -> Result<Spoilers, Refusal>
    ensures { spoilers_seen result ≡ spoilers_told (deskOf bytes.now) }
{
    let book = desk(bytes)?;
    let told = passes(&book, themselves(&book));
    Ok(Spoilers {
        goals: book.goals,
        told,
    })
}
