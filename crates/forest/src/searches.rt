// `root_answer` with a turn limit, and `peek_answer` with a round limit besides. What is asked is tested first; a stored answer and a
// floundered table are found by numbers, and only then are the stores lent to the loop.
ghost use Rattle.std.specs.Prelude.{◌≡◌};
ghost use Rattle.search.specs.RootAnswer.{start};
ghost use Rattle.forest.specs.Searches.{refusal_of, searching_refused, peeking_refused, outcome_of, course_in, renumbered, ran, searched, peeked};
ghost use Rattle.forest.specs.Searches.{Runs, SearchSays, PeekSays};

use crate::Forest;
use control::performed::Flow;
use search::course::{Asked, Course, Ending, Mode};
use search::ensure_root_answer::ensure_root_answer;
use search::root_answer::start;
use stores::stack::{blank_stack, push_entry};
use strands::times::TimeStamp;

// The listed results of a search or a peek.
#[derive(Clone, Copy)]
pub enum Outcome {
    Refused(u8),
    Found(u16, bool),
    NoMoreSolutions,
    Floundered,
    QuantumExceeded,
    NegativeCycle,
    InvalidAnswer,
    Cut,
    Stopped(u8),
}

// `turns` are those of the search.
#[derive(Clone, Copy)]
pub struct Searched {
    pub outcome: Outcome,
    pub turns: u64,
    pub forest: Forest,
}

// The index at which the peek ended, the turns of its last search, and how many of its searches ended in QuantumExceeded.
#[derive(Clone, Copy)]
pub struct Peeked {
    pub outcome: Outcome,
    pub index: u64,
    pub turns: u64,
    pub exceeded: u64,
    pub forest: Forest,
}

// What a search tells beside the forest.
#[derive(Clone, Copy)]
pub struct SearchReply {
    pub outcome: Outcome,
    pub turns: u64,
}

// What a peek tells beside the forest.
#[derive(Clone, Copy)]
pub struct PeekReply {
    pub outcome: Outcome,
    pub index: u64,
    pub turns: u64,
    pub exceeded: u64,
}

// What was run, and the forest that it leaves: contracts speak of both together.
#[derive(Clone, Copy)]
pub struct Ran {
    pub course: Course,
    pub forest: Forest,
}

// The number by which a search is refused before its limits are looked at: 20, 10, 11; or 0.
fn refusal(f: &Forest, table: u64, index: u64) -> u8
    ensures { result ≡ refusal_of f.now table index }
{
    let c = first_course(f, index, 0);
    batch::refusal::refusal(c, &f.stores, table, index)
}

fn outcome_of(ending: Ending) -> Outcome
    ensures { result ≡ outcome_of ending }
{
    match ending {
        Ending::Found(variant, ambiguous) => Outcome::Found(variant, ambiguous),
        Ending::NoMoreSolutions => Outcome::NoMoreSolutions,
        Ending::Floundered => Outcome::Floundered,
        Ending::QuantumExceeded => Outcome::QuantumExceeded,
        Ending::NegativeCycle => Outcome::NegativeCycle,
        Ending::InvalidAnswer => Outcome::InvalidAnswer,
        Ending::Cut => Outcome::Cut,
        Ending::Stopped(n) => Outcome::Stopped(n),
    }
}

// The course of searches before the first of them starts.
fn first_course(f: &Forest, index: u64, more: u64) -> Course
    ensures { result ≡ course_in f.now index more }
{
    Course {
        over: false,
        ending: Ending::Cut,
        flow: Flow::Continue,
        index,
        more,
        exceeded: 0,
        done: 0,
        mark: f.mark,
        count: f.stores.tables.count,
        depth: 0,
        clock: f.clock,
        used: f.stores.strands.places.top,
        answer_used: f.stores.answers.places.top,
    }
}

fn searching_refused(number: u8) -> SearchReply
    ensures { result ≡ searching_refused number }
{
    SearchReply {
        outcome: Outcome::Refused(number),
        turns: 0,
    }
}

fn peeking_refused(index: u64, number: u8) -> PeekReply
    ensures { result ≡ peeking_refused index number }
{
    PeekReply {
        outcome: Outcome::Refused(number),
        index,
        turns: 0,
        exceeded: 0,
    }
}

impl Forest {
    // The numbers that a course carries are the forest's from now on.
    pub(crate) fn carry(&mut self, c: Course)
        ensures { self.new ≡ renumbered self.old c }
    {
        self.stores.tables.count = c.count;
        self.stores.strands.places.top = c.used;
        self.stores.answers.places.top = c.answer_used;
        self.mark = c.mark;
        self.clock = c.clock;
    }

    // The first search is started, and where that ends it there is nothing to run.
    fn run(&mut self, asked: Asked, index: u64, more: u64) -> Course
        ensures { Runs self.old asked (start asked self.old.stores.tables.floundered self.old.stores.answers.places.next
            self.old.stores.answers.places.tail self.old.stores.answers.places.len self.old.stores.answers.variant
            self.old.stores.answers.key self.old.stores.answers.ambiguous (course_in self.old index more)) (ran result self.new) }
    {
        let c = start(asked, first_course(self, index, more), &self.stores);
        if c.over {
            self.carry(c);
            return c;
        }
        self.run_loop(asked, c)
    }

    // The loop, from the root's entry on.
    fn run_loop(&mut self, asked: Asked, c: Course) -> Course
        ensures { Runs self.old asked c (ran result self.new) }
    {
        let mut stack = blank_stack();
        push_entry(
            &mut stack.table,
            &mut stack.clock,
            &mut stack.positive,
            &mut stack.negative,
            &mut stack.active,
            0,
            asked.table,
            c.clock,
            TimeStamp::MAX.clock,
        );
        let course = ensure_root_answer(asked, c, &self.book, &mut self.stores, &mut stack);
        self.carry(course);
        course
    }

    // A search for the answer at an index of a table, by at most so many turns, in the forest where it lies. Refused with 20, 10, 11 and 12
    // in this order.
    pub fn search(&mut self, table: u64, index: u64, limit: u64) -> SearchReply
        ensures { SearchSays self.old table index limit (searched result self.new) }
    {
        let n = refusal(self, table, index);
        if n > 0 {
            return searching_refused(n);
        }
        if limit == 0 {
            return searching_refused(12);
        }
        let asked = Asked {
            mode: Mode::Search,
            table: (table % 256) as u8,
            limit,
            clock_limit: self.clock_limit,
        };
        let c = self.run(asked, index, 0);
        let ending = c.ending;
        SearchReply {
            outcome: outcome_of(ending),
            turns: c.done,
        }
    }

    // A peek from an index of a table on, by at most so many rounds and so many turns for each search, in the forest where it lies. Refused
    // with 20, 10, 11 and 12 in this order.
    pub fn peek(&mut self, table: u64, index: u64, rounds: u64, limit: u64) -> PeekReply
        ensures { PeekSays self.old table index rounds limit (peeked result self.new) }
    {
        let n = refusal(self, table, index);
        if n > 0 {
            return peeking_refused(index, n);
        }
        if rounds == 0 {
            return peeking_refused(index, 12);
        }
        if limit == 0 {
            return peeking_refused(index, 12);
        }
        let asked = Asked {
            mode: Mode::Peek,
            table: (table % 256) as u8,
            limit,
            clock_limit: self.clock_limit,
        };
        let c = self.run(asked, index, rounds - 1);
        let ending = c.ending;
        PeekReply {
            outcome: outcome_of(ending),
            index: c.index,
            turns: c.done,
            exceeded: c.exceeded,
        }
    }
}

// A search in a forest by value.
pub fn search(f: Forest, table: u64, index: u64, limit: u64) -> Searched
    ensures { SearchSays f table index limit result }
{
    let mut forest = f;
    let s = forest.search(table, index, limit);
    Searched {
        outcome: s.outcome,
        turns: s.turns,
        forest,
    }
}

// A peek in a forest by value.
pub fn peek(f: Forest, table: u64, index: u64, rounds: u64, limit: u64) -> Peeked
    ensures { PeekSays f table index rounds limit result }
{
    let mut forest = f;
    let p = forest.peek(table, index, rounds, limit);
    Peeked {
        outcome: p.outcome,
        index: p.index,
        turns: p.turns,
        exceeded: p.exceeded,
        forest,
    }
}
