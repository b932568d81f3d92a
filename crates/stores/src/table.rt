// table.rs, the answers: they stand at the places of a table's ring in the order found. `[Answer; PLACES]` is written by whoever owns it;
// what is looked for among the answers stands beside them in arrays of numbers, which are lent. And `mark_floundered`, which frees answers
// and strands.
ghost use Rattle.std.specs.Prelude.{◌≡◌, true, false, ◌+◌, ◌*◌, ◌%◌, ◌<◌, drop, get_or, set, ltb};
ghost use Rattle.sizes.specs.Limits.{most_places};
ghost use Rattle.rings.specs.Rings.{ring_of, place_number, RingMove};
ghost use Rattle.strands.specs.View.{answer};
ghost use Rattle.stores.specs.Numbers.{free, flag_number, written_at};
ghost use Rattle.stores.specs.Places.{numbered, found_in};
ghost use Rattle.stores.specs.Table.{key_of, repeated_of, AnswerPushed, blank_answers};

use crate::numbers::{FREE, flag_of, set_flag};
use crate::places::{Places, blank_places, find_number, take_place};
use rings::{ring_enqueue, ring_move};
use sizes::{MOST_TABLES, PLACES, wide};
use strands::answers::blank_answer;
use strands::{Answer, within};

// The answers by place, and the numbers beside them: `key` is a number for the list of delayed goals.
#[derive(Clone, Copy)]
pub struct Answers {
    pub answers: [Answer; PLACES],
    pub variant: [u16; PLACES],
    pub key: [u64; PLACES],
    pub ambiguous: [u8; PLACES],
    pub places: Places,
}

// Every place is free, and what stands there is blank.
pub fn blank_answers() -> Answers
    ensures { result ≡ blank_answers }
{
    let b = blank_answer();
    let p = blank_places();
    Answers {
        answers: [b; PLACES],
        variant: [0; PLACES],
        key: [0; PLACES],
        ambiguous: [0; PLACES],
        places: p,
    }
}

// A delayed list as a number: the goals in base 128, the first the lowest digit. No digit is 0, so that lists of goals below 127 have
// different keys; eight digits fit.
pub fn key_of(x: Answer) -> u64
    ensures { result ≡ key_of (answer x).delayed_subgoals }
{
    let mut k: u64 = 0;
    for i in (0..within(x.delayed_count)).rev() {
        k = k * 128 + digit(x.delayed[i]);
    }
    k
}

fn digit(goal: u8) -> u64
    ensures { (result ≡ goal % 127 + 1) × (result < 128) }
{
    (goal % 127) as u64 + 1
}

// The numbers beside the answer x, at its place.
pub fn number_answer(
    variant: &mut [u16; PLACES],
    key: &mut [u64; PLACES],
    ambiguous: &mut [u8; PLACES],
    q: u8,
    x: Answer,
)
    ensures { (variant.new ≡ set variant.old q (answer x).variant)
        × (key.new ≡ set key.old q (key_of (answer x).delayed_subgoals))
        × (ambiguous.new ≡ set ambiguous.old q (flag_number (answer x).ambiguous)) }
{
    let i = q as usize;
    variant[i] = x.variant;
    key[i] = key_of(x);
    ambiguous[i] = flag_of(x.ambiguous);
}

// `next_answer_index`: how many answers a table has.
pub fn answer_count(len: &[u16; PLACES], t: u8) -> u16
    ensures { result ≡ get_or len.now t 0 }
{
    len[t as usize]
}

// The search of `push_answer` by variant and delayed goals: the place of the first answer that is the same.
pub fn find_answer(
    next: &[u8; PLACES],
    tail: &[u8; PLACES],
    len: &[u16; PLACES],
    t: u8,
    variant: &[u16; PLACES],
    key: &[u64; PLACES],
    x: Answer,
) -> Option<u8>
    ensures { place_number result ≡ found_in
        (numbered true variant.now x.variant key.now (key_of (answer x).delayed_subgoals))
        (ring_of next.now tail.now len.now t) }
{
    find_number(
        next,
        tail,
        len,
        t,
        0,
        variant,
        x.variant,
        key,
        key_of(x),
        true,
    )
}

// What `push_answer` comes to: the answer is there already, the search stops by a number, or the answer is new and goes to a place.
#[derive(Clone, Copy)]
pub enum PushAnswer {
    Repeat,
    Stop(u8),
    New(u8),
}

// `push_answer`. A new answer's place is in the table's ring; whoever owns the answers writes it there, with its numbers. 26 where the
// stored one is ambiguous and this one isn't; 23 where 256 are held.
pub fn push_answer(
    next: &mut [u8; PLACES],
    tail: &mut [u8; PLACES],
    len: &mut [u16; PLACES],
    top: &mut u16,
    t: u8,
    variant: &[u16; PLACES],
    key: &[u64; PLACES],
    ambiguous: &[u8; PLACES],
    x: Answer,
) -> PushAnswer
    ensures { AnswerPushed variant.now key.now ambiguous.now
        next.old tail.old len.old top.old t x
        next.new tail.new len.new top.new result }
{
    if let Some(p) = find_answer(next, tail, len, t, variant, key, x) {
        return repeated(ambiguous[wide(p)] != 0, x.ambiguous);
    }
    let Some(q) = take_place(next, tail, len, top) else {
        return PushAnswer::Stop(23);
    };
    ring_enqueue(next, tail, len, t, q);
    PushAnswer::New(q)
}

fn repeated(was: bool, is: bool) -> PushAnswer
    ensures { result ≡ repeated_of was is }
{
    if was && !is {
        PushAnswer::Stop(26)
    } else {
        PushAnswer::Repeat
    }
}

// The test of `any_future_answer` over the answers from an index on.
pub fn any_answer<'a>(
    next: &'a [u8; PLACES],
    tail: &'a [u8; PLACES],
    len: &'a [u16; PLACES],
    t: u8,
    from: usize,
    variant: &'a [u16; PLACES],
    v: u16,
    key: &'a [u64; PLACES],
) -> bool
    ensures { result ≡ ltb (found_in (numbered false variant.now v key.now 0)
        (drop from (ring_of next.now tail.now len.now t))) most_places }
{
    find_number(next, tail, len, t, from, variant, v, key, 0, false).is_some()
}

// `mark_floundered`: the flag, and the places of the table's queue and of its answers, which are free again.
pub fn mark_floundered(
    floundered: &mut [u8; MOST_TABLES],
    next: &mut [u8; PLACES],
    tail: &mut [u8; PLACES],
    len: &mut [u16; PLACES],
    answer_next: &mut [u8; PLACES],
    answer_tail: &mut [u8; PLACES],
    answer_len: &mut [u16; PLACES],
    t: u8,
)
    ensures { (floundered.new ≡ written_at t 1 floundered.old)
        × RingMove next.old tail.old len.old t free next.new tail.new len.new
        × RingMove answer_next.old answer_tail.old answer_len.old t free
        answer_next.new answer_tail.new answer_len.new }
{
    set_flag(floundered, t, true);
    ring_move(next, tail, len, t, FREE);
    ring_move(answer_next, answer_tail, answer_len, t, FREE);
}
