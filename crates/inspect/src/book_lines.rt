// A book in words, in the notation of document 01. A goal has a line `goal 0`, and below it a line for each of its clauses in order:
//
//     goal 0 [coinductive] [floundered]
//     0/2 [cannot prove] [outsized] :- 1, 1/3 [outsized], 1/3-7, not 2
//     goal 1
//     1/1
//
// A clause is the goal's number, its variant behind a slash (none is variant 0, the goal as a whole), its marks, and its literals behind
// `:-`; a fact has none. A literal is a goal's number, behind a slash the variant that it wants (none: any) or the ends of a range, and
// its mark.
ghost use Rattle.std.specs.Prelude.{◌≡◌, ◌<◌, ◌/◌, ◌%◌};
ghost use Rattle.definitions.specs.Book.{bit0 as bit0Of, bit1 as bit1Of};
ghost use Rattle.pen.specs.Pen.{put_all, content};
ghost use Rattle.book.specs.View.{Formed, wanted, bit2 as bit2Of, kept, clause_viewed, goal_viewed, view};
ghost use Rattle.inspect.specs.Words.{mark as mark_of, slashed as slashedOf, ranged as rangedOf, want_words, name_words};
ghost use Rattle.inspect.specs.Words.{literal_words, before, head_words};
ghost use Rattle.inspect.specs.Words.{clause_words, clauses_words, goal_line as goalLine, goal_words, goals_words};

use book::Book;
use book::access::{high_end, low_end};
use pen::Pen;
use sizes::{MOST_LITERALS, wide, wide16};

fn bit0(flags: u8) -> bool
    ensures { result ≡ bit0Of flags }
{
    flags % 2 == 1
}

fn bit1(flags: u8) -> bool
    ensures { result ≡ bit1Of flags }
{
    flags / 2 % 2 == 1
}

fn bit2(kind: u8) -> bool
    ensures { result ≡ bit2Of kind }
{
    kind / 4 % 2 == 1
}

#[tactic(auto, using(pen::proofs::Putting::put_all_append), unfolding(pen::specs::Pen::put_all))]
fn mark(pen: &mut Pen, on: bool, words: &[u8])
    ensures { content pen.new ≡ put_all (mark_of on words.now) (content pen.old) }
{
    if on {
        pen.text(words);
    }
}

// A number, and another one behind a slash if it isn't 0.
#[tactic(auto, using(pen::proofs::Putting::put_all_append), unfolding(pen::specs::Pen::put_all, crate::specs::Words::slashed))]
fn slashed(pen: &mut Pen, n: usize, v: u16)
    ensures { content pen.new ≡ put_all (slashedOf n v) (content pen.old) }
{
    pen.number(n as u64);
    if v == 0 {
        return;
    }
    pen.text(b"/");
    pen.number(v as u64);
}

// A number, and the ends of a range behind a slash.
#[tactic(auto, using(pen::proofs::Putting::put_all_append), unfolding(pen::specs::Pen::put_all, crate::specs::Words::ranged))]
fn ranged(pen: &mut Pen, n: usize, low: u16, high: u16)
    ensures { content pen.new ≡ put_all (rangedOf n low high) (content pen.old) }
{
    pen.number(n as u64);
    pen.text(b"/");
    pen.number(low as u64);
    pen.text(b"-");
    pen.number(high as u64);
}

// A goal, and what a literal wants of it.
fn want(pen: &mut Pen, range: bool, goal: usize, low: u16, high: u16)
    ensures { content pen.new ≡ put_all (want_words goal (wanted range low high)) (content pen.old) }
{
    if range {
        ranged(pen, goal, low, high);
        return;
    }
    slashed(pen, goal, low);
}

#[tactic(auto, using(pen::proofs::Putting::put_all_append), unfolding(pen::specs::Pen::put_all))]
fn name(pen: &mut Pen, kind: u8, goal: u16, ends: u32)
    ensures { content pen.new
        ≡ put_all (name_words (bit1Of kind) goal (wanted (bit2Of kind) (ends % 65536) (ends / 65536))) (content pen.old) }
{
    if bit1(kind) {
        pen.text(b"not ");
        pen.number(goal as u64);
        return;
    }
    let range = bit2(kind);
    want(pen, range, wide16(goal), low_end(ends), high_end(ends));
}

// The literal's kind has the mark in bit 0, "not" in bit 1 and that it wants a range in bit 2.
fn literal(pen: &mut Pen, kind: u8, goal: u16, ends: u32)
    ensures { content pen.new ≡ put_all (literal_words (kept kind goal ends)) (content pen.old) }
{
    name(pen, kind, goal, ends);
    mark(pen, bit0(kind), b" [outsized]");
}

// What stands before the literal j of a clause.
#[tactic(auto, using(pen::proofs::Putting::put_all_append), unfolding(crate::specs::Words::before))]
fn between(pen: &mut Pen, j: usize)
    ensures { content pen.new ≡ put_all (before j) (content pen.old) }
{
    if j == 0 {
        pen.text(b" :- ");
        return;
    }
    pen.text(b", ");
}

fn head(pen: &mut Pen, goal: usize, variant: u16, flags: u8)
    ensures { content pen.new ≡ put_all (head_words goal variant (bit0Of flags) (bit1Of flags)) (content pen.old) }
{
    slashed(pen, goal, variant);
    mark(pen, bit0(flags), b" [cannot prove]");
    mark(pen, bit1(flags), b" [outsized]");
}

#[tactic(auto, using(pen::proofs::Putting::put_all_append), unfolding(pen::specs::Pen::put_all, crate::specs::Words::goal_line))]
fn goal_line(pen: &mut Pen, goal: usize, flags: u8)
    ensures { content pen.new ≡ put_all (goalLine goal (bit0Of flags) (bit1Of flags)) (content pen.old) }
{
    pen.text(b"goal ");
    pen.number(goal as u64);
    mark(pen, bit0(flags), b" [coinductive]");
    mark(pen, bit1(flags), b" [floundered]");
    pen.text(b"\n");
}

// The line of clause c, of the goal that is given.
fn clause_line(pen: &mut Pen, book: &Book, goal: usize, c: usize)
    requires formed { Formed book.now }
    requires c_bound { c < 256 }
    ensures { content pen.new ≡ put_all (clause_words goal (clause_viewed book.now c)) (content pen.old) }
{
    let count = wide(book.clause_len[c]);
    head(pen, goal, book.clause_variant[c], book.clause_flags[c]);
    for j in 0..count {
        let i = MOST_LITERALS * c + j;
        between(pen, j);
        literal(
            pen,
            book.literal_kind[i],
            book.literal_goal[i],
            book.literal_want[i],
        );
    }
    pen.byte(b'\n');
}

// The lines of the clauses of goal g.
fn clauses(pen: &mut Pen, book: &Book, g: usize)
    requires formed { Formed book.now }
    requires g_lt_goals { g < book.now.goals }
    ensures { content pen.new ≡ put_all (clauses_words g (goal_viewed book.now g).clauses) (content pen.old) }
{
    let first = wide16(book.goal_first[g]);
    let count = wide16(book.goal_len[g]);
    for k in 0..count {
        clause_line(pen, book, g, first + k);
    }
}

// Goal g's line and those of its clauses.
fn goal(pen: &mut Pen, book: &Book, g: usize)
    requires formed { Formed book.now }
    requires g_lt_goals { g < book.now.goals }
    ensures { content pen.new ≡ put_all (goal_words g (goal_viewed book.now g)) (content pen.old) }
{
    goal_line(pen, g, book.goal_flags[g]);
    clauses(pen, book, g);
}

pub(crate) fn goals(pen: &mut Pen, book: &Book)
    requires { Formed book.now }
    ensures { content pen.new ≡ put_all (goals_words 0 (view book.now)) (content pen.old) }
{
    for g in 0..book.goals {
        goal(pen, book, g);
    }
}
