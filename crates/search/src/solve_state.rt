// logic.rs `SolveState`: a search that stands between two turns, by value. Whoever holds one can have one turn of it done, look at what is
// left, and put it back; what it is made of is in sight.
ghost use Rattle.std.specs.Prelude.{◌≡◌};
ghost use Rattle.search.specs.SolveState.{is_stop, turn_of, cut_of};

use crate::course::{Asked, Course, Ending, Mode};
use crate::ensure_root_answer::ensure_root_answer;
use crate::root_answer::one_more;
use book::Book;
use control::performed::Flow;
use control::unwind_stack::put_back;
use stores::Stores;
use stores::stack::Stack;

// The forest: the book and the stores, the clock's limit, the mark and the clock. Then the stack; and which answer of which table is
// searched for, and the turns that the search may do and has done.
#[derive(Clone, Copy)]
pub struct Search {
    pub book: Book,
    pub stores: Stores,
    pub clock_limit: u64,
    pub mark: u8,
    pub clock: u64,
    pub stack: Stack,
    pub table: u8,
    pub index: u64,
    pub limit: u64,
    pub done: u64,
}

// How the turn ended, and the search that it leaves.
#[derive(Clone, Copy)]
pub struct Turned {
    pub flow: Flow,
    pub search: Search,
}

fn is_stop(flow: Flow) -> bool
    ensures { result ≡ is_stop flow }
{
    matches!(flow, Flow::Stop(_))
}

// One turn. Where it stops, the search is what it was; with nothing on the stack there is no turn, and it stops with 0.
pub fn turn(s: Search) -> Turned
    ensures { result ≡ turn_of s }
{
    if s.stack.depth == 0 {
        return Turned {
            flow: Flow::Stop(0),
            search: s,
        };
    }
    let asked = Asked {
        mode: Mode::Turn,
        table: s.table,
        limit: s.limit,
        clock_limit: s.clock_limit,
    };
    let from = Course {
        over: false,
        ending: Ending::Cut,
        flow: Flow::Continue,
        index: s.index,
        more: 0,
        exceeded: 0,
        done: s.done,
        mark: s.mark,
        count: s.stores.tables.count,
        depth: s.stack.depth,
        clock: s.clock,
        used: s.stores.strands.places.top,
        answer_used: s.stores.answers.places.top,
    };
    let mut t = s;
    let course = ensure_root_answer(asked, from, &s.book, &mut t.stores, &mut t.stack);
    let flow = course.flow;
    if is_stop(flow) {
        return Turned { flow, search: s };
    }
    t.stores.tables.count = course.count;
    t.stores.strands.places.top = course.used;
    t.stores.answers.places.top = course.answer_used;
    t.stack.depth = course.depth;
    t.clock = course.clock;
    t.done = one_more(s.done);
    Turned { flow, search: t }
}

// `Drop` of SolveState: the search is put back, and nothing is on the stack.
pub fn cut(s: Search) -> Search
    ensures { result ≡ cut_of s }
{
    let mut t = s;
    let ring = &mut t.stores.strands.places;
    put_back(
        &mut ring.next,
        &mut ring.tail,
        &mut ring.len,
        &s.stack.table,
        &s.stack.active,
        s.stack.depth,
    );
    t.stack.depth = 0;
    t
}
