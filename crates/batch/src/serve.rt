// A call is begun, or what it came to is told.
ghost use Rattle.std.specs.Prelude.{◌≡◌, ◌+◌, ◌<◌, ℕ, List, ltb, get_or};
ghost use Rattle.definitions.specs.Book.{bit1};
ghost use Rattle.book.specs.Access.{entry};
ghost use Rattle.stores.specs.declared.stack.Stack.{Stack};
ghost use Rattle.control.specs.SelectSubgoal.{strands_by};
ghost use Rattle.search.specs.Walk.{standing, counts};
ghost use Rattle.batch.specs.declared.calls.Said.TheVariants as saying;
ghost use Rattle.batch.specs.Calls.{reply_of, reply_put};
ghost use Rattle.batch.specs.Serve.{stage, over_with, came_to, said_at_once, opens, begins, searches, peeks, from_index, asks_future, next_call, served};

use crate::calls::{Call, NUMBERS, Said, Serving, call_at, put_reply, reply_of};
use crate::refusal::refusal;
use book::Book;
use book::access::goal_number;
use control::make_tables::make_tables;
use control::performed::Flow;
use control::select_subgoal::Made;
use search::course::{Asked, Course, Ending, Mode};
use search::root_answer::{one_more, start};
use stores::Stores;
use stores::places::in_use;
use stores::queue::any_strand;
use stores::stack::{Stack, push_entry};
use stores::table::any_answer;
use stores::tables::index_of;
use strands::times::TimeStamp;

// The call came to this, with no search.
fn at_once(s: Serving, said: Said) -> Serving
    ensures { result ≡ said_at_once said s }
{
    let course = Course {
        over: true,
        ..s.course
    };
    Serving {
        busy: true,
        said,
        course,
        ..s
    }
}

// How many strands a table of the goal begins with: a floundered one has none.
fn strands_of(book: &Book, goal: usize) -> u16
    ensures { result ≡ strands_by (bit1 (entry 64 book.now.goal_flags goal)) (entry 64 book.now.goal_len goal) }
{
    if book.is_floundered(goal) {
        0
    } else {
        goal_number(&book.goal_len, goal)
    }
}

// More than 256 strands would be live.
fn too_many(live: u16, more: u16) -> bool
    ensures { result ≡ ltb 256 (live + more) }
{
    live as usize + more as usize > 256
}

// The forest stops with 22.
fn full(s: Serving) -> Serving
    ensures { result ≡ came_to (saying.Stopped 22) (over_with 22 s.course.count s.course.used s.course) s }
{
    let course = Course {
        over: true,
        mark: 22,
        ..s.course
    };
    Serving {
        busy: true,
        said: Said::Stopped(22),
        course,
        ..s
    }
}

// An open, refused with 20 and 9 in this order; it stops with 22 where the table's strands have no room.
pub fn serve_open(s: Serving, book: &Book, stores: &mut Stores, goal_asked: u64) -> Serving
    ensures serves { (stack : Stack) (clock : ℕ) (replies : List ℕ) → stage result (standing stores.new stack clock) replies
        ≡ opens book.now goal_asked (stage s (standing stores.old stack clock) replies) }
    ensures counts_stay { (stack : Stack) → counts stores.new stack ≡ counts stores.old stack }
{
    let c = s.course;
    if c.mark > 0 {
        return at_once(s, Said::Refused(20));
    }
    if goal_asked >= book.goals as u64 {
        return at_once(s, Said::Refused(9));
    }
    let g = (goal_asked % 256) as u8;
    let t = index_of(&stores.tables.goal, c.count, g);
    if t < c.count {
        return at_once(s, Said::Table(t as u64));
    }
    let live = in_use(&stores.strands.places.len, c.used);
    let more = strands_of(book, g as usize);
    if too_many(live, more) {
        return full(s);
    }
    let mut used = c.used;
    let made = Made {
        count: 1,
        goals: [g, 0, 0, 0, 0, 0, 0, 0],
    };
    let tables = &mut stores.tables;
    let strands = &mut stores.strands;
    let count = make_tables(
        &mut tables.goal,
        &mut tables.coinductive,
        &mut tables.floundered,
        &mut tables.complete,
        &mut strands.places.next,
        &mut strands.places.tail,
        &mut strands.places.len,
        &mut used,
        &mut strands.time,
        &mut strands.ambiguous,
        &mut strands.variant,
        &mut strands.waits,
        &mut strands.wants,
        &book.goal_flags,
        &book.goal_first,
        &book.goal_len,
        &book.clause_variant,
        &book.clause_flags,
        c.count,
        made,
    );
    let course = Course {
        over: true,
        count,
        used,
        ..c
    };
    Serving {
        busy: true,
        said: Said::Table(c.count as u64),
        course,
        ..s
    }
}

// A search or a peek that is not refused: its first search is started, and the root's entry is written whether it runs or not.
fn begin(
    s: Serving,
    said: Said,
    asked: Asked,
    index: u64,
    more: u64,
    stores: &Stores,
    stack: &mut Stack,
) -> Serving
    ensures serves { (clock : ℕ) (replies : List ℕ) → stage result (standing stores.now stack.new clock) replies
        ≡ begins said asked index more (stage s (standing stores.now stack.old clock) replies) }
    ensures counts_stay { counts stores.now stack.new ≡ counts stores.now stack.old }
{
    let first = Course {
        over: false,
        ending: Ending::Cut,
        flow: Flow::Continue,
        index,
        more,
        exceeded: 0,
        done: 0,
        depth: 0,
        ..s.course
    };
    let course = start(asked, first, stores);
    push_entry(
        &mut stack.table,
        &mut stack.clock,
        &mut stack.positive,
        &mut stack.negative,
        &mut stack.active,
        0,
        asked.table,
        course.clock,
        TimeStamp::MAX.clock,
    );
    Serving {
        busy: true,
        said,
        asked,
        course,
        ..s
    }
}

// A search, refused with 20, 10, 11 and 12 in this order.
fn serve_search(
    s: Serving,
    clock_limit: u64,
    call: Call,
    stores: &Stores,
    stack: &mut Stack,
) -> Serving
    ensures serves { (clock : ℕ) (replies : List ℕ) → stage result (standing stores.now stack.new clock) replies
        ≡ searches clock_limit call.a call.b call.c (stage s (standing stores.now stack.old clock) replies) }
    ensures counts_stay { counts stores.now stack.new ≡ counts stores.now stack.old }
{
    let n = refusal(s.course, stores, call.a, call.b);
    if n > 0 {
        return at_once(s, Said::Refused(n));
    }
    if call.c == 0 {
        return at_once(s, Said::Refused(12));
    }
    let asked = Asked {
        mode: Mode::Search,
        table: (call.a % 256) as u8,
        limit: call.c,
        clock_limit,
    };
    begin(s, Said::Searched, asked, call.b, 0, stores, stack)
}

// A peek, refused in the same order.
fn serve_peek(
    s: Serving,
    clock_limit: u64,
    call: Call,
    stores: &Stores,
    stack: &mut Stack,
) -> Serving
    ensures serves { (clock : ℕ) (replies : List ℕ) → stage result (standing stores.now stack.new clock) replies
        ≡ peeks clock_limit call.a call.b call.c call.d (stage s (standing stores.now stack.old clock) replies) }
    ensures counts_stay { counts stores.now stack.new ≡ counts stores.now stack.old }
{
    let n = refusal(s.course, stores, call.a, call.b);
    if n > 0 {
        return at_once(s, Said::Refused(n));
    }
    if call.c == 0 || call.d == 0 {
        return at_once(s, Said::Refused(12));
    }
    let asked = Asked {
        mode: Mode::Peek,
        table: (call.a % 256) as u8,
        limit: call.d,
        clock_limit,
    };
    begin(s, Said::Peeked, asked, call.b, call.c - 1, stores, stack)
}

// The index, or 256, which no answer has.
fn from_index(index: u64) -> usize
    ensures { result ≡ from_index (ltb 256 index) index }
{
    if index > 256 {
        return 256;
    }
    index as usize
}

// Numbers of 16 bits are below 65536: a proof learns it of an array in a struct by handing it on as a slice.
pub fn all_small(numbers: &[u16])
    ensures { (q : ℕ) → get_or numbers.now q 0 < 65536 }
{
    let _ = numbers;
}

// `any_future_answer`, refused with 10 alone.
fn serve_future(s: Serving, call: Call, stores: &Stores) -> Serving
    ensures { (stack : Stack) (clock : ℕ) (replies : List ℕ) → stage result (standing stores.now stack clock) replies
        ≡ asks_future call.a call.b call.c (stage s (standing stores.now stack clock) replies) }
{
    if call.a >= s.course.count as u64 {
        return at_once(s, Said::Refused(10));
    }
    let answers = &stores.answers;
    let strands = &stores.strands;
    if call.c > 65535 {
        all_small(&strands.variant);
        all_small(&answers.variant);
        return at_once(s, Said::Future(false));
    }
    let t = (call.a % 256) as u8;
    let v = (call.c % 65536) as u16;
    let from = from_index(call.b);
    let ring = &answers.places;
    if any_answer(
        &ring.next,
        &ring.tail,
        &ring.len,
        t,
        from,
        &answers.variant,
        v,
        &answers.key,
    ) {
        return at_once(s, Said::Future(true));
    }
    let queue = &strands.places;
    let any = any_strand(
        &queue.next,
        &queue.tail,
        &queue.len,
        t,
        &strands.variant,
        v,
        &strands.time,
    );
    at_once(s, Said::Future(any))
}

// What the call came to is written, and the next one is at hand.
fn tell(s: Serving, replies: &mut [u64; NUMBERS]) -> Serving
    ensures { (result ≡ next_call s) × (replies.new ≡ reply_put s.at (reply_of s.said s.course) replies.old) }
{
    put_reply(replies, s.at, reply_of(s.said, s.course));
    Serving {
        at: one_more(s.at),
        busy: false,
        ..s
    }
}

pub fn serve(
    s: Serving,
    book: &Book,
    clock_limit: u64,
    stores: &mut Stores,
    stack: &mut Stack,
    calls: &[u64; NUMBERS],
    replies: &mut [u64; NUMBERS],
) -> Serving
    ensures serves { stage result (standing stores.new stack.new result.course.clock) replies.new
        ≡ served book.now clock_limit calls.now (stage s (standing stores.old stack.old s.course.clock) replies.old) }
    ensures counts_stay { counts stores.new stack.new ≡ counts stores.old stack.old }
{
    if s.busy {
        return tell(s, replies);
    }
    let call = call_at(calls, s.at);
    if call.kind == 0 {
        return serve_open(s, book, stores, call.a);
    }
    if call.kind == 1 {
        return serve_search(s, clock_limit, call, stores, stack);
    }
    if call.kind == 2 {
        return serve_peek(s, clock_limit, call, stores, stack);
    }
    serve_future(s, call, stores)
}
