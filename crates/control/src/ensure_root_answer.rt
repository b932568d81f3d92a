// The head of the loop of logic.rs `ensure_root_answer`: the top of the stack, the strand that it goes on with, by its place, and that
// strand by value.
ghost use Rattle.std.specs.Prelude.{◌≡◌};
ghost use Rattle.control.specs.EnsureRootAnswer.{no_top, top_of, next_strand, clause_literals, first_strand, strand_in_hand};

use book::Literal;
use book::access::literal_at;
use sizes::{BOOK_LITERALS, MOST_CLAUSES, MOST_ENTRIES, MOST_LITERALS, MOST_TABLES, PLACES};
use stores::numbers::{NO_PLACE, WAITS_FRESH, flag_at};
use stores::queue::find_strand;
use strands::Strand;
use strands::literals::NO_LITERAL;
use strands::making::{blank, initial_strand};

// The topmost entry, with the answer mode of its table. `active` is a place, or none where the entry has no active strand.
#[derive(Clone, Copy)]
pub struct Top {
    pub depth: usize,
    pub table: u8,
    pub clock: u64,
    pub complete: bool,
    pub active: u16,
}

// The place of the strand that the top goes on with, and whether it waits in the queue, behind the place `before`. Where no strand is
// found, `before` is where looking along the queue ended, as in `Spot`.
#[derive(Clone, Copy)]
pub struct Next {
    pub found: bool,
    pub queued: bool,
    pub place: u8,
    pub before: u8,
}

fn no_top() -> Top
    ensures { result ≡ no_top }
{
    Top {
        depth: 0,
        table: 0,
        clock: 0,
        complete: false,
        active: NO_PLACE,
    }
}

// Blank where the stack is empty, or deeper than a stack can be.
pub fn top_of(
    entry_table: &[u8; MOST_ENTRIES],
    entry_clock: &[u64; MOST_ENTRIES],
    active: &[u16; MOST_ENTRIES],
    complete: &[u8; MOST_TABLES],
    depth: usize,
) -> Top
    ensures { result ≡ top_of entry_table.now entry_clock.now active.now
        complete.now depth }
{
    if depth == 0 {
        return no_top();
    }
    if depth > MOST_ENTRIES {
        return no_top();
    }
    let table = entry_table[depth - 1];
    let mode = flag_at(complete, table);
    Top {
        depth,
        table,
        clock: entry_clock[depth - 1],
        complete: mode,
        active: active[depth - 1],
    }
}

// The active strand, or else the first one of the queue that may be taken.
pub fn next_strand(
    next: &[u8; PLACES],
    tail: &[u8; PLACES],
    len: &[u16; PLACES],
    time: &[u64; PLACES],
    ambiguous: &[u8; PLACES],
    top: Top,
) -> Next
    ensures { result ≡ next_strand next.now tail.now len.now time.now
        ambiguous.now top }
{
    if top.active < NO_PLACE {
        return Next {
            found: true,
            queued: false,
            place: top.active as u8,
            before: 0,
        };
    }
    let s = find_strand(
        next,
        tail,
        len,
        top.table,
        time,
        ambiguous,
        top.clock,
        top.complete,
    );
    Next {
        found: s.place.is_some(),
        queued: true,
        place: s.place.unwrap_or(0),
        before: s.before,
    }
}

fn clause_literals(
    literal_kind: &[u8; BOOK_LITERALS],
    literal_goal: &[u16; BOOK_LITERALS],
    literal_want: &[u32; BOOK_LITERALS],
    c: usize,
) -> [Literal; MOST_LITERALS]
    ensures { result ≡ clause_literals literal_kind.now literal_goal.now literal_want.now c 8 }
{
    let mut literals = [NO_LITERAL; MOST_LITERALS];
    for i in 0..MOST_LITERALS {
        literals[i] = literal_at(literal_kind, literal_goal, literal_want, c, i);
    }
    literals
}

// The first strand of a clause; blank where the book can't have such a clause.
fn first_strand(
    c: u16,
    clause_variant: &[u16; MOST_CLAUSES],
    clause_flags: &[u8; MOST_CLAUSES],
    clause_len: &[u8; MOST_CLAUSES],
    literal_kind: &[u8; BOOK_LITERALS],
    literal_goal: &[u16; BOOK_LITERALS],
    literal_want: &[u32; BOOK_LITERALS],
) -> Strand
    ensures { result ≡ first_strand clause_variant.now clause_flags.now clause_len.now
        literal_kind.now literal_goal.now literal_want.now c }
{
    let k = c as usize;
    if k >= MOST_CLAUSES {
        return blank();
    }
    let literals = clause_literals(literal_kind, literal_goal, literal_want, k);
    initial_strand(clause_variant[k], clause_flags[k], literals, clause_len[k])
}

// s is what stands at the place. Where the number w beside it says that the place is fresh, the strand is the first one of clause c.
pub fn strand_in_hand(
    s: Strand,
    w: u8,
    c: u16,
    clause_variant: &[u16; MOST_CLAUSES],
    clause_flags: &[u8; MOST_CLAUSES],
    clause_len: &[u8; MOST_CLAUSES],
    literal_kind: &[u8; BOOK_LITERALS],
    literal_goal: &[u16; BOOK_LITERALS],
    literal_want: &[u32; BOOK_LITERALS],
) -> Strand
    ensures { result ≡ strand_in_hand clause_variant.now clause_flags.now clause_len.now
        literal_kind.now literal_goal.now literal_want.now s w c }
{
    if w == WAITS_FRESH {
        return first_strand(
            c,
            clause_variant,
            clause_flags,
            clause_len,
            literal_kind,
            literal_goal,
            literal_want,
        );
    }
    s
}
