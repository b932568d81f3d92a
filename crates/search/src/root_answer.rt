// logic.rs `root_answer` around its turns, by numbers alone: what is done before the first turn, how a search ends, and which search of a
// peek comes next.
ghost use Rattle.std.specs.Prelude.{◌≡◌, ◌<◌};
ghost use Rattle.rings.specs.Rings.{ring_of};
ghost use Rattle.search.specs.RootAnswer.{first_valid, index_from, stored_answer, pushes_root, start};
ghost use Rattle.search.specs.RootAnswer.{one_more, ending_of, counted, marked, finish, is_invalid, is_exceeded};
ghost use Rattle.search.specs.RootAnswer.{skip_invalid, next_round, next_search, end_search};

use crate::course::{Asked, Course, Ending, Mode, ended, is_peek};
use control::performed::Flow;
use rings::ring_at;
use sizes::wide;
use stores::Stores;
use stores::numbers::flag_at;
use stores::table::Answers;
use strands::times::TimeStamp;

// The last index that a peek goes on from, so that it ends; no table has as many answers.
const LAST_INDEX: u64 = 256;

// The first index from this one on whose answer of the table is not invalid: has no delayed goals; else the first with no stored answer.
fn first_valid(answers: &Answers, t: u8, from: u64) -> u64
    ensures { result ≡ first_valid answers.now.key from 0
        (ring_of answers.now.places.next answers.now.places.tail answers.now.places.len t) }
{
    let ring = &answers.places;
    let mut prev = ring.tail[t as usize];
    let count = u64::from(ring.len[t as usize]);
    for i in 0..count {
        let p = ring.next[wide(prev)];
        if i >= from && answers.key[wide(p)] == 0 {
            return i;
        }
        prev = p;
    }
    from.max(count)
}

// A peek goes by the invalid answers that are stored.
fn index_from(mode: Mode, answers: &Answers, t: u8, from: u64) -> u64
    ensures { result ≡ index_from mode answers.now.places.next answers.now.places.tail answers.now.places.len answers.now.key t from }
{
    match mode {
        Mode::Peek => first_valid(answers, t, from),
        _ => from,
    }
}

// The answer stored at an index of the table: one with delayed goals is invalid.
fn stored_answer(answers: &Answers, t: u8, index: u64) -> Ending
    ensures { result ≡ stored_answer answers.now.places.next answers.now.places.tail answers.now.places.len answers.now.variant
        answers.now.key answers.now.ambiguous t index }
{
    if index >= 256 {
        return Ending::Stopped(0);
    }
    let ring = &answers.places;
    let Some(place) = ring_at(&ring.next, &ring.tail, &ring.len, t, index as u16) else {
        return Ending::Stopped(0);
    };
    let p = wide(place);
    if answers.key[p] > 0 {
        return Ending::InvalidAnswer;
    }
    Ending::Found(answers.variant[p], answers.ambiguous[p] != 0)
}

// The first push: at the clock's limit nothing but the mark changes. A search that may do no turn is cut at once.
fn push_root(asked: Asked, c: Course) -> Course
    ensures { result ≡ pushes_root asked c }
{
    if c.clock >= asked.clock_limit {
        return Course {
            over: true,
            ending: Ending::Stopped(21),
            mark: 21,
            ..c
        };
    }
    let was = TimeStamp { clock: c.clock };
    let time = was.increment();
    if asked.limit == 0 {
        return Course {
            over: true,
            ending: Ending::Cut,
            clock: time.clock,
            ..c
        };
    }
    Course {
        over: false,
        ending: Ending::Cut,
        depth: 1,
        clock: time.clock,
        ..c
    }
}

// All that is done before the first turn of a search at the course's index: a floundered table or a stored answer ends it. Whoever calls
// writes the root's entry.
pub fn start(asked: Asked, was: Course, stores: &Stores) -> Course
    ensures { result ≡ start asked stores.now.tables.floundered stores.now.answers.places.next stores.now.answers.places.tail
        stores.now.answers.places.len stores.now.answers.variant stores.now.answers.key stores.now.answers.ambiguous was }
{
    let t = asked.table;
    let mode = asked.mode;
    if t as usize >= was.count {
        return ended(Course { done: 0, ..was }, Ending::Stopped(0));
    }
    if flag_at(&stores.tables.floundered, t) {
        return ended(Course { done: 0, ..was }, Ending::Floundered);
    }
    let i = index_from(mode, &stores.answers, t, was.index);
    let c = Course {
        done: 0,
        index: i,
        ..was
    };
    if i == u64::from(stores.answers.places.len[t as usize]) {
        return push_root(asked, c);
    }
    let stored = stored_answer(&stores.answers, t, i);
    ended(c, stored)
}

// One more, where there is such a number: turns and rounds are counted to their limits and no further.
pub fn one_more(n: u64) -> u64
    ensures { result ≡ one_more n }
{
    if n < u64::MAX { n + 1 } else { n }
}

// How a search ends by its last turn, with the answer that is stored for it: one that may go on is cut.
fn ending_of(flow: Flow, stored: Ending) -> Ending
    ensures { result ≡ ending_of flow stored }
{
    match flow {
        Flow::Continue => Ending::Cut,
        Flow::ReturnOk => stored,
        Flow::NoMoreSolutions => Ending::NoMoreSolutions,
        Flow::QuantumExceeded => Ending::QuantumExceeded,
        Flow::NegativeCycle => Ending::NegativeCycle,
        Flow::Stop(n) => Ending::Stopped(n),
    }
}

// A turn that stopped is undone, and isn't counted.
fn counted(flow: Flow, done: u64) -> u64
    ensures { result ≡ counted flow done }
{
    match flow {
        Flow::Stop(_) => done,
        _ => one_more(done),
    }
}

// A stop marks the forest with its number.
fn marked(flow: Flow, mark: u8) -> u8
    ensures { result ≡ marked flow mark }
{
    match flow {
        Flow::Stop(n) => n,
        _ => mark,
    }
}

// The search is put back, and has ended.
fn finish(c: Course, flow: Flow, stored: Ending) -> Course
    ensures { result ≡ finish flow stored c }
{
    let ending = ending_of(flow, stored);
    let done = counted(flow, c.done);
    let mark = marked(flow, c.mark);
    Course {
        over: true,
        ending,
        done,
        mark,
        depth: 0,
        ..c
    }
}

fn is_invalid(ending: Ending) -> bool
    ensures { result ≡ is_invalid ending }
{
    matches!(ending, Ending::InvalidAnswer)
}

fn is_exceeded(ending: Ending) -> bool
    ensures { result ≡ is_exceeded ending }
{
    matches!(ending, Ending::QuantumExceeded)
}

// An invalid answer: a peek goes on with the next index.
fn skip_invalid(c: Course) -> Course
    ensures { result ≡ skip_invalid c }
{
    if c.index < LAST_INDEX {
        return Course {
            over: false,
            index: c.index + 1,
            ..c
        };
    }
    c
}

// QuantumExceeded is counted, and a peek that has a round left goes on.
fn next_round(c: Course) -> Course
    ensures { result ≡ next_round c }
{
    let exceeded = one_more(c.exceeded);
    if c.more > 0 {
        return Course {
            over: false,
            more: c.more - 1,
            exceeded,
            ..c
        };
    }
    Course { exceeded, ..c }
}

// What comes after a search that has ended: the course is over, or another search is to start.
fn next_search(mode: Mode, c: Course) -> Course
    ensures { result ≡ next_search mode c }
{
    if is_peek(mode) && is_invalid(c.ending) {
        return skip_invalid(c);
    }
    if is_peek(mode) && is_exceeded(c.ending) {
        return next_round(c);
    }
    c
}

// The search ends by its last turn, and another one starts where the peek has one to do.
pub fn end_search(asked: Asked, c: Course, stores: &Stores) -> Course
    ensures { result ≡ end_search asked stores.now.tables.floundered stores.now.answers.places.next stores.now.answers.places.tail
        stores.now.answers.places.len stores.now.answers.variant stores.now.answers.key stores.now.answers.ambiguous c }
{
    let stored = stored_answer(&stores.answers, asked.table, c.index);
    let mode = asked.mode;
    let flow = c.flow;
    let n = next_search(mode, finish(c, flow, stored));
    if n.over {
        return n;
    }
    start(asked, n, stores)
}
