// A call as five numbers, and its reply as five.
ghost use Rattle.std.specs.Prelude.{◌≡◌, ◌<◌};
ghost use Rattle.batch.specs.Calls.{first_number, call_at, reply, found_word, future_word, word_of, value_of, reply_of, reply_put};

use search::course::{Asked, Course, Ending};

// At most 256 calls, and for each its kind and its arguments.
pub const MOST_CALLS: usize = 256;

pub const NUMBERS: usize = 1280;

// 0 opens goal a; 1 searches table a at index b by c turns; 2 peeks at table a from index b on, by c rounds and d turns a search; any other
// kind asks whether table a has, from index b on, or may come to have an answer of variant c.
#[derive(Clone, Copy)]
pub struct Call {
    pub kind: u64,
    pub a: u64,
    pub b: u64,
    pub c: u64,
    pub d: u64,
}

// What a call came to, where that is not its course's ending.
#[derive(Clone, Copy)]
pub enum Said {
    Refused(u8),
    Table(u64),
    Stopped(u8),
    Future(bool),
    Searched,
    Peeked,
}

// How far the calls are: the index of the call at hand, whether it was begun, what it came to so far, and the course of its searches,
// which has the forest's numbers too.
#[derive(Clone, Copy)]
pub struct Serving {
    pub at: u64,
    pub busy: bool,
    pub said: Said,
    pub asked: Asked,
    pub course: Course,
}

#[derive(Clone, Copy)]
pub struct Reply {
    pub word: u64,
    pub value: u64,
    pub index: u64,
    pub turns: u64,
    pub exceeded: u64,
}

// Where the numbers of a call stand.
fn first_number(at: u64) -> usize
    ensures { (result ≡ first_number at) × (result < 1276) }
{
    ((at % 256) * 5) as usize
}

pub fn call_at(calls: &[u64; NUMBERS], at: u64) -> Call
    ensures { result ≡ call_at calls.now at }
{
    let i = first_number(at);
    Call {
        kind: calls[i],
        a: calls[i + 1],
        b: calls[i + 2],
        c: calls[i + 3],
        d: calls[i + 4],
    }
}

// A reply with no more than a word and its number.
fn plain_reply(word: u64, value: u64) -> Reply
    ensures { result ≡ reply word value 0 0 0 }
{
    Reply {
        word,
        value,
        index: 0,
        turns: 0,
        exceeded: 0,
    }
}

fn found_word(ambiguous: bool) -> u64
    ensures { result ≡ found_word ambiguous }
{
    if ambiguous { 4 } else { 3 }
}

fn future_word(any: bool) -> u64
    ensures { result ≡ future_word any }
{
    if any { 12 } else { 11 }
}

fn ending_reply(ending: Ending) -> Reply
    ensures { result ≡ reply (word_of ending) (value_of ending) 0 0 0 }
{
    match ending {
        Ending::Found(variant, ambiguous) => plain_reply(found_word(ambiguous), u64::from(variant)),
        Ending::NoMoreSolutions => plain_reply(5, 0),
        Ending::Floundered => plain_reply(6, 0),
        Ending::QuantumExceeded => plain_reply(7, 0),
        Ending::NegativeCycle => plain_reply(8, 0),
        Ending::InvalidAnswer => plain_reply(9, 0),
        Ending::Cut => plain_reply(10, 0),
        Ending::Stopped(n) => plain_reply(2, u64::from(n)),
    }
}

fn searched(c: Course) -> Reply
    ensures { result ≡ reply (word_of c.ending) (value_of c.ending) 0 c.done 0 }
{
    let r = ending_reply(c.ending);
    Reply { turns: c.done, ..r }
}

fn peeked(c: Course) -> Reply
    ensures { result ≡ reply (word_of c.ending) (value_of c.ending) c.index c.done c.exceeded }
{
    let r = ending_reply(c.ending);
    Reply {
        index: c.index,
        turns: c.done,
        exceeded: c.exceeded,
        ..r
    }
}

// The reply of a call that came to this; where searches were made, by their course.
pub fn reply_of(said: Said, c: Course) -> Reply
    ensures { result ≡ reply_of said c }
{
    match said {
        Said::Refused(n) => plain_reply(0, u64::from(n)),
        Said::Table(t) => plain_reply(1, t),
        Said::Stopped(n) => plain_reply(2, u64::from(n)),
        Said::Future(any) => plain_reply(future_word(any), 0),
        Said::Searched => searched(c),
        Said::Peeked => peeked(c),
    }
}

pub fn put_reply(replies: &mut [u64; NUMBERS], at: u64, r: Reply)
    ensures { replies.new ≡ reply_put at r replies.old }
{
    let i = first_number(at);
    replies[i] = r.word;
    replies[i + 1] = r.value;
    replies[i + 2] = r.index;
    replies[i + 3] = r.turns;
    replies[i + 4] = r.exceeded;
}
