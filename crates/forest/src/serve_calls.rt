// Calls that are handed over as numbers, and their replies as numbers: one copy of the forest in and one out for all of them.
ghost use Rattle.std.specs.Prelude.{◌≡◌, ℕ, ◌≤◌, min, get_or};
ghost use Rattle.definitions.specs.{MAX};
ghost use Rattle.forest.specs.ServeCalls.{first_serving, ServeCallsSays};
ghost use Rattle.forest.specs.View.{Sound};

use crate::Forest;
use batch::calls::{NUMBERS, Said, Serving};
use batch::serve_all::serve_all;
use control::performed::Flow;
use search::course::{Asked, Course, Ending, Mode};
use stores::stack::blank_stack;

// As many calls as there is room for.
fn at_most(count: u64) -> u64
    ensures { result ≡ min count 256 }
{
    if count > 256 {
        return 256;
    }
    count
}

// Numbers of 64 bits are at most the largest of them: a proof learns it of a lent array by handing it on as a slice.
fn all_fit(numbers: &[u64])
    ensures { (i : ℕ) → get_or numbers.now i 0 ≤ MAX }
{
    let _ = numbers;
}

// No call is at hand yet.
pub(crate) fn first_serving(f: &Forest) -> Serving
    ensures { result ≡ first_serving f.now }
{
    let course = Course {
        over: true,
        ending: Ending::Cut,
        flow: Flow::Continue,
        index: 0,
        more: 0,
        exceeded: 0,
        done: 0,
        mark: f.mark,
        count: f.stores.tables.count,
        depth: 0,
        clock: f.clock,
        used: f.stores.strands.places.top,
        answer_used: f.stores.answers.places.top,
    };
    let asked = Asked {
        mode: Mode::Search,
        table: 0,
        limit: 0,
        clock_limit: f.clock_limit,
    };
    Serving {
        at: 0,
        busy: false,
        said: Said::Searched,
        asked,
        course,
    }
}

impl Forest {
    // As many calls as `count` says, at most 256, served in the forest where it lies. What the numbers of a call and of a reply say is told
    // in crate `batch`, calls.rt.
    pub fn serve(&mut self, count: u64, calls: &[u64; NUMBERS], replies: &mut [u64; NUMBERS])
        ensures { Sound self.old → ServeCallsSays self.old count calls.now replies.old self.new replies.new }
    {
        all_fit(calls);
        let first = first_serving(self);
        let mut stack = blank_stack();
        let s = serve_all(
            first,
            at_most(count),
            &self.book,
            self.clock_limit,
            &mut self.stores,
            &mut stack,
            calls,
            replies,
        );
        self.carry(s.course);
    }
}

// The same, of a forest by value.
pub fn serve_calls(
    f: Forest,
    count: u64,
    calls: &[u64; NUMBERS],
    replies: &mut [u64; NUMBERS],
) -> Forest
    ensures { Sound f → ServeCallsSays f count calls.now replies.old result replies.new }
{
    let mut forest = f;
    forest.serve(count, calls, replies);
    forest
}
