// The loop over the calls: each pass is one turn of the search at hand, or serves a call.
ghost use Rattle.std.specs.Prelude.{◌≡◌, ◌≤◌};
ghost use Rattle.definitions.specs.{MAX};
ghost use Rattle.search.specs.Walk.{standing, counts};
ghost use Rattle.batch.specs.Serve.{stage};
ghost use Rattle.batch.specs.ServeAll.{runs, with_course, Serves};

use crate::calls::{NUMBERS, Serving};
use crate::serve::serve;
use book::Book;
use search::course::Course;
use search::ensure_root_answer::{look, pass, pick};
use search::settle::settle;
use stores::Stores;
use stores::stack::Stack;

// Whether a search of the call at hand runs. What is asked of it are numbers of 64 bits, which the loop has to know and a struct in a
// struct does not tell there.
fn runs(s: Serving) -> bool
    ensures { (result ≡ runs s) × (s.asked.limit ≤ MAX) × (s.course.more ≤ MAX) }
{
    s.busy && !s.course.over
}

// The search of the call at hand has come so far.
fn with_course(s: Serving, course: Course) -> Serving
    ensures { result ≡ with_course course s }
{
    Serving { course, ..s }
}

pub fn serve_all(
    from: Serving,
    count: u64,
    book: &Book,
    clock_limit: u64,
    stores: &mut Stores,
    stack: &mut Stack,
    calls: &[u64; NUMBERS],
    replies: &mut [u64; NUMBERS],
) -> Serving
    ensures serves { Serves book.now clock_limit calls.now count
        (stage from (standing stores.old stack.old from.course.clock) replies.old)
        (stage result (standing stores.new stack.new result.course.clock) replies.new) }
    ensures counts_stay { counts stores.new stack.new ≡ counts stores.old stack.old }
{
    let mut s = from;
    while s.at < count {
        if !runs(s) {
            s = serve(s, book, clock_limit, stores, stack, calls, replies);
            continue;
        }
        let asked = s.asked;
        let c = settle(asked, s.course, stores, stack);
        let l = look(c.depth, stores, stack);
        let k = pick(l, c, book, stores, stack);
        let course = pass(asked, c, l, k, book, stores, stack);
        s = with_course(s, course);
    }
    s
}
