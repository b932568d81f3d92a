// logic.rs `ensure_root_answer`: each pass of its loop is one turn. A turn is decided and then done; between the two it reads a strand and
// an answer, each by the place that was named.
ghost use Rattle.std.specs.Prelude.{◌≡◌, get_or};
ghost use Rattle.stores.specs.View.{unread_strand, unread_answer};
ghost use Rattle.search.specs.Walk.{numbered, standing, walking, counts, goes_on, conclude, pass_with, Comes};
ghost use Rattle.search.specs.EnsureRootAnswer.{place_read, looked, picked};

use crate::course::{Asked, Course, carried, carry, is_turn};
use crate::root_answer::{end_search, one_more};
use crate::settle::settle;
use book::Book;
use control::choose::{Chosen, choose, decide};
use control::ensure_root_answer::{Next, Top, next_strand, strand_in_hand, top_of};
use control::on_no_strands_left::{Idle, without_strand};
use control::perform::perform;
use control::performed::{Carried, Flow};
use control::unwind_stack::put_back;
use stores::Stores;
use stores::places::in_use;
use stores::stack::{Stack, caller_place, push_entry};
use strands::Strand;
use strands::times::TimeStamp;

// The top, the strand that it goes on with or what is done with none, and the place of the strand that the turn reads, with the numbers
// beside it that tell whether it is fresh.
#[derive(Clone, Copy)]
pub struct Looked {
    pub top: Top,
    pub next: Next,
    pub idle: Idle,
    pub place: u8,
    pub waits: u8,
    pub wants: u16,
}

// The strand in hand, and what is chosen for it.
#[derive(Clone, Copy)]
pub struct Picked {
    pub hand: Strand,
    pub chosen: Chosen,
}

// The place of the strand that the top goes on with, or where there is none, of its caller's strand.
fn read_place(p: Next, stack: &Stack, depth: usize) -> u8
    ensures { result ≡ place_read p stack.now.active depth }
{
    if p.found {
        return p.place;
    }
    (caller_place(&stack.active, depth) % 256) as u8
}

pub fn look(depth: usize, stores: &Stores, stack: &Stack) -> Looked
    ensures { result ≡ looked stack.now.table stack.now.clock stack.now.positive stack.now.negative stack.now.active
        stores.now.tables.complete stores.now.strands.places.next stores.now.strands.places.tail stores.now.strands.places.len
        stores.now.strands.time stores.now.strands.ambiguous stores.now.strands.waits stores.now.strands.wants depth }
{
    let s = &stores.strands;
    let ring = &s.places;
    let top = top_of(
        &stack.table,
        &stack.clock,
        &stack.active,
        &stores.tables.complete,
        depth,
    );
    let p = next_strand(
        &ring.next,
        &ring.tail,
        &ring.len,
        &s.time,
        &s.ambiguous,
        top,
    );
    let idle = without_strand(
        p,
        top,
        &ring.len,
        &s.waits,
        &stack.positive,
        &stack.negative,
        &stack.active,
    );
    let place = read_place(p, stack, depth);
    Looked {
        top,
        next: p,
        idle,
        place,
        waits: s.waits[place as usize],
        wants: s.wants[place as usize],
    }
}

// The strand in hand is the one at the place that was looked up.
pub fn pick(l: Looked, c: Course, book: &Book, stores: &Stores, stack: &Stack) -> Picked
    ensures { result ≡ picked stores.now.strands.places.len stores.now.tables.goal stores.now.tables.coinductive
        stores.now.tables.floundered stack.now.table stores.now.answers.places.next stores.now.answers.places.tail
        stores.now.answers.places.len stores.now.answers.variant stores.now.answers.key book.now.goal_flags book.now.goal_len
        book.now.clause_variant book.now.clause_flags book.now.clause_len book.now.literal_kind book.now.literal_goal
        book.now.literal_want c.used c.count l (get_or stores.now.strands.strands l.place unread_strand) }
{
    let hand = strand_in_hand(
        stores.strands.strands[l.place as usize],
        l.waits,
        l.wants,
        &book.clause_variant,
        &book.clause_flags,
        &book.clause_len,
        &book.literal_kind,
        &book.literal_goal,
        &book.literal_want,
    );
    let live = in_use(&stores.strands.places.len, c.used);
    let tables = &stores.tables;
    let answers = &stores.answers;
    let chosen = choose(
        l.top,
        hand,
        live,
        &tables.goal,
        &tables.coinductive,
        &tables.floundered,
        c.count,
        &book.goal_flags,
        &book.goal_len,
        &stack.table,
        &answers.places.next,
        &answers.places.tail,
        &answers.places.len,
        &answers.variant,
        &answers.key,
    );
    Picked { hand, chosen }
}

// Whether the search goes on: its turn did not end it, and one is left.
fn goes_on(asked: Asked, c: Course) -> bool
    ensures { result ≡ goes_on asked c }
{
    if is_turn(asked.mode) {
        return false;
    }
    match c.flow {
        Flow::Continue => one_more(c.done) < asked.limit,
        _ => false,
    }
}

// After a turn: the search goes on, or ends and is put back, and the next search of a peek starts. The root's entry is written wherever a
// search has ended, whether another one starts or not.
pub fn conclude(asked: Asked, c: Course, stores: &mut Stores, stack: &mut Stack) -> Course
    ensures concludes { walking result stores.new stack.new ≡ conclude asked c (numbered c (standing stores.old stack.old c.clock)) }
    ensures counts_stay { counts stores.new stack.new ≡ counts stores.old stack.old }
{
    if goes_on(asked, c) {
        return Course {
            done: one_more(c.done),
            ..c
        };
    }
    if is_turn(asked.mode) {
        return Course { over: true, ..c };
    }
    let ring = &mut stores.strands.places;
    put_back(
        &mut ring.next,
        &mut ring.tail,
        &mut ring.len,
        &stack.table,
        &stack.active,
        c.depth,
    );
    let r = end_search(asked, c, stores);
    push_entry(
        &mut stack.table,
        &mut stack.clock,
        &mut stack.positive,
        &mut stack.negative,
        &mut stack.active,
        0,
        asked.table,
        r.clock,
        TimeStamp::MAX.clock,
    );
    r
}

// One pass: the turn is decided and done, and the search goes on or ends.
pub fn pass(
    asked: Asked,
    c: Course,
    l: Looked,
    k: Picked,
    book: &Book,
    stores: &mut Stores,
    stack: &mut Stack,
) -> Course
    ensures passes { walking result stores.new stack.new
        ≡ pass_with book.now asked c l k (get_or stores.old.answers.answers k.chosen.place unread_answer)
        (numbered c (standing stores.old stack.old c.clock)) }
    ensures counts_stay { counts stores.new stack.new ≡ counts stores.old stack.old }
{
    let chosen = k.chosen;
    let a = stores.answers.answers[chosen.place as usize];
    let held = in_use(&stores.answers.places.len, c.answer_used);
    let d = decide(
        chosen,
        a,
        l.top.complete,
        c.clock >= asked.clock_limit,
        held,
    );
    let tables = &mut stores.tables;
    let strands = &mut stores.strands;
    let answers = &mut stores.answers;
    let t = perform(
        l.idle,
        d,
        chosen.made,
        l.next,
        l.top,
        l.place,
        k.hand,
        chosen.place,
        a,
        carried(c),
        &mut tables.goal,
        &mut tables.coinductive,
        &mut tables.floundered,
        &mut tables.complete,
        &mut strands.places.next,
        &mut strands.places.tail,
        &mut strands.places.len,
        &mut strands.time,
        &mut strands.ambiguous,
        &mut strands.variant,
        &mut strands.waits,
        &mut strands.wants,
        &mut answers.places.next,
        &mut answers.places.tail,
        &mut answers.places.len,
        &mut answers.variant,
        &mut answers.key,
        &mut answers.ambiguous,
        &mut stack.table,
        &mut stack.clock,
        &mut stack.positive,
        &mut stack.negative,
        &mut stack.active,
        &book.goal_flags,
        &book.goal_first,
        &book.goal_len,
        &book.clause_variant,
        &book.clause_flags,
    );
    strands.strands[t.copy_place as usize] = t.copy;
    strands.strands[t.place as usize] = t.strand;
    answers.answers[t.answer_place as usize] = t.answer;
    let left = Carried {
        count: t.count,
        depth: t.depth,
        clock: t.clock,
        used: t.used,
        answer_used: t.answer_used,
    };
    conclude(asked, carry(c, t.flow, left), stores, stack)
}

// Pass after pass, until the course is over.
pub fn ensure_root_answer(
    asked: Asked,
    from: Course,
    book: &Book,
    stores: &mut Stores,
    stack: &mut Stack,
) -> Course
    ensures comes { Comes book.now asked (walking from stores.old stack.old) (walking result stores.new stack.new) }
    ensures counts_stay { counts stores.new stack.new ≡ counts stores.old stack.old }
{
    let mut course = from;
    while !course.over {
        course = settle(asked, course, stores, stack);
        let l = look(course.depth, stores, stack);
        let k = pick(l, course, book, stores, stack);
        course = pass(asked, course, l, k, book, stores, stack);
    }
    course
}
