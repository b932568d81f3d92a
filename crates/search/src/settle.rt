// Turns that numbers settle (crate `number_turns`), one after the other, until one needs a strand or only one is left of those that were
// asked for: no search ends here. Whether the course is over is not asked: whoever calls has asked it.
ghost use Rattle.std.specs.Prelude.{◌≡◌};
ghost use Rattle.search.specs.Walk.{walking, counts, may_settle, settled_flow, settled_done, settles_on, Settles};

use crate::course::{Asked, Course, is_turn};
use crate::root_answer::one_more;
use control::performed::Flow;
use number_turns::number_turn::number_turn;
use stores::Stores;
use stores::stack::Stack;

// Whether a turn may be settled: a search runs, and this is not the last turn that is left to it.
fn may_settle(asked: Asked, done: u64) -> bool
    ensures { result ≡ may_settle asked done }
{
    !is_turn(asked.mode) && one_more(done) < asked.limit
}

fn flow_after(settled: bool, flow: Flow) -> Flow
    ensures { result ≡ settled_flow settled flow }
{
    if settled { Flow::Continue } else { flow }
}

fn done_after(settled: bool, done: u64) -> u64
    ensures { result ≡ settled_done settled done }
{
    if settled { one_more(done) } else { done }
}

fn settles_on(settled: bool, asked: Asked, done: u64) -> bool
    ensures { result ≡ settles_on settled asked done }
{
    settled && may_settle(asked, done)
}

pub fn settle(asked: Asked, from: Course, stores: &mut Stores, stack: &mut Stack) -> Course
    ensures settles { Settles asked (walking from stores.old stack.old) (walking result stores.new stack.new) }
    ensures counts_stay { counts stores.new stack.new ≡ counts stores.old stack.old }
{
    let mut c = from;
    let mut more = may_settle(asked, c.done);
    while more {
        let late = c.clock >= asked.clock_limit;
        let tables = &stores.tables;
        let strands = &mut stores.strands;
        let answers = &stores.answers.places;
        let t = number_turn(
            c.depth,
            c.clock,
            late,
            &tables.coinductive,
            &tables.floundered,
            &tables.complete,
            &mut strands.places.next,
            &mut strands.places.tail,
            &mut strands.places.len,
            &mut strands.time,
            &strands.ambiguous,
            &strands.waits,
            &strands.wants,
            &answers.next,
            &answers.tail,
            &answers.len,
            &mut stack.table,
            &mut stack.clock,
            &mut stack.positive,
            &mut stack.negative,
            &mut stack.active,
        );
        let done = done_after(t.settled, c.done);
        let flow = flow_after(t.settled, c.flow);
        c = Course {
            flow,
            depth: t.depth,
            clock: t.clock,
            done,
            ..c
        };
        more = settles_on(t.settled, asked, c.done);
    }
    c
}
