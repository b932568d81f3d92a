// Runs one operation of the stores, or the reading of a book, many times, for a clock outside: how many arguments there are names it. With
// none it only says so.
#![tactic(auto)]

ghost use Rattle.std.specs.Prelude.{◌<◌};
ghost use Rattle.std.specs.Counts.{IsPrefixLen};

use book::desk::desk;
use book::reader::read;
use book::{Book, Refusal};
use intake::input;
use paper_checks::levels::levels;
use paper_checks::{LeastLevels, Unlevelled};
use rings::{ring_at, ring_enqueue};
use sizes::{PLACES, READ_AHEAD};
use std::env::FillError;
use std::io::Stdin;
use std::rt::Env;
use stores::places::{Places, blank_places, take_place};
use stores::queue::{blank_strands, take_strand};
use stores::table::{PushAnswer, blank_answers, number_answer, push_answer};
use strands::Answer;
use strands::answers::blank_answer;

fn small(x: usize) -> u8
    ensures { result < 256 }
{
    if x < 256 { x as u8 } else { 0 }
}

// A place, or 256 for none.
fn number(place: Option<u8>) -> usize {
    match place {
        Some(p) => p as usize,
        None => PLACES,
    }
}

// That many places wait in ring 0.
fn filled(live: usize) -> Places {
    let p = blank_places();
    let mut next = p.next;
    let mut tail = p.tail;
    let mut len = p.len;
    let mut top = p.top;
    for _i in 0..live {
        let q = take_place(&mut next, &tail, &mut len, &mut top).unwrap_or(0);
        ring_enqueue(&mut next, &mut tail, &mut len, 0, q);
    }
    Places {
        next,
        tail,
        len,
        top,
    }
}

// A place is taken, and the one held before it given back.
fn places(live: usize, turns: usize) -> usize {
    let p = filled(live);
    let mut next = p.next;
    let mut tail = p.tail;
    let mut len = p.len;
    let mut top = p.top;
    let mut held = take_place(&mut next, &tail, &mut len, &mut top);
    for _i in 0..turns {
        let q = take_place(&mut next, &tail, &mut len, &mut top);
        ring_enqueue(&mut next, &mut tail, &mut len, 64, held.unwrap_or(0));
        held = q;
    }
    number(held)
}

// The first eligible strand is taken from the queue and goes to its end.
fn queue(live: usize, turns: usize) -> usize {
    let p = filled(live);
    let mut next = p.next;
    let mut tail = p.tail;
    let mut len = p.len;
    let time = [0u64; PLACES];
    let ambiguous = [0u8; PLACES];
    let mut last: usize = 0;
    for _i in 0..turns {
        let q = take_strand(
            &mut next, &mut tail, &mut len, 0, &time, &ambiguous, 1, true,
        );
        ring_enqueue(&mut next, &mut tail, &mut len, 0, q.unwrap_or(0));
        last = number(q);
    }
    last
}

// The same where no strand is eligible: the whole queue is looked at.
fn search(live: usize, turns: usize) -> usize {
    let p = filled(live);
    let mut next = p.next;
    let mut tail = p.tail;
    let mut len = p.len;
    let time = [7u64; PLACES];
    let ambiguous = [0u8; PLACES];
    let mut last: usize = 0;
    for _i in 0..turns {
        last = number(take_strand(
            &mut next, &mut tail, &mut len, 0, &time, &ambiguous, 1, true,
        ));
    }
    last
}

// A strand is read at the place taken, written again and queued: a small turn in the loop that owns the store.
fn turns_of(live: usize, turns: usize) -> u16 {
    let s = blank_strands();
    let mut strands = s.strands;
    let p = filled(live);
    let mut next = p.next;
    let mut tail = p.tail;
    let mut len = p.len;
    let time = [0u64; PLACES];
    let ambiguous = [0u8; PLACES];
    let mut last: u16 = 0;
    for _i in 0..turns {
        let q = take_strand(
            &mut next, &mut tail, &mut len, 0, &time, &ambiguous, 1, true,
        );
        let k = q.unwrap_or(0);
        let mut x = strands[k as usize];
        x.variant = last;
        strands[k as usize] = x;
        ring_enqueue(&mut next, &mut tail, &mut len, 0, k);
        last = other(last);
    }
    last
}

fn other(x: u16) -> u16 {
    if x > 0 { x - 1 } else { 1 }
}

// The place of an answer by its index, that one and the one before it in turn.
fn lookup(live: usize, first: u16, turns: usize) -> usize {
    let p = filled(live);
    let next = p.next;
    let tail = p.tail;
    let len = p.len;
    let mut index = first;
    let mut sum: usize = 0;
    for _i in 0..turns {
        sum = sum ^ number(ring_at(&next, &tail, &len, 0, index));
        index = flipped(index, first);
    }
    sum
}

fn flipped(index: u16, first: u16) -> u16 {
    if index == first { other(first) } else { first }
}

fn answer(variant: u16) -> Answer {
    let mut x = blank_answer();
    x.variant = variant;
    x
}

fn place_of(o: PushAnswer) -> usize
    ensures { result < 256 }
{
    match o {
        PushAnswer::Repeat => 255,
        PushAnswer::Stop(n) => n as usize,
        PushAnswer::New(q) => q as usize,
    }
}

// That many answers, and then pushes of the last again.
fn pushes(live: u16, turns: usize) -> usize {
    let a = blank_answers();
    let mut answers = a.answers;
    let mut variant = a.variant;
    let mut key = a.key;
    let mut ambiguous = a.ambiguous;
    let p = a.places;
    let mut next = p.next;
    let mut tail = p.tail;
    let mut len = p.len;
    let mut top = p.top;
    let mut last: usize = 0;
    let mut n: u16 = 0;
    for _i in 0..turns {
        let x = answer(n);
        last = place_of(push_answer(
            &mut next, &mut tail, &mut len, &mut top, 0, &variant, &key, &ambiguous, x,
        ));
        let k = small(last);
        answers[k as usize] = x;
        number_answer(&mut variant, &mut key, &mut ambiguous, k, x);
        n = following(n, live);
    }
    last
}

// Counts up to the last answer and stays there.
fn following(n: u16, live: u16) -> u16 {
    if n < live { n + 1 } else { n }
}

// Of each array of a book one number, so that none of what was read goes unused.
fn of_literals(b: &Book, k: usize) -> usize {
    let i = k % 2048;
    b.literal_kind[i] as usize ^ b.literal_goal[i] as usize ^ b.literal_want[i] as usize
}

fn of_clauses(b: &Book, k: usize) -> usize {
    let c = k % 256;
    b.clause_variant[c] as usize ^ b.clause_flags[c] as usize ^ b.clause_len[c] as usize
}

fn of_goals(b: &Book, k: usize) -> usize {
    let g = k % 64;
    b.goal_first[g] as usize ^ b.goal_len[g] as usize ^ b.goal_flags[g] as usize
}

fn tally(reading: Result<Book, Refusal>, k: usize) -> usize {
    match reading {
        Ok(b) => of_literals(&b, k) ^ of_clauses(&b, k) ^ of_goals(&b, k),
        Err(e) => u8::from(e) as usize,
    }
}

fn reading(bytes: &[u8], at_desk: bool) -> Result<Book, Refusal> {
    if at_desk { desk(bytes) } else { read(bytes) }
}

// How much of standard input there is; where it breaks off, what came before.
fn taken(from: &mut Stdin, bytes: &mut [u8]) -> usize
    ensures { IsPrefixLen result bytes.new }
{
    match input(from, bytes) {
        Ok(count) => count,
        Err(e) => e.count,
    }
}

// The book of standard input is read, by the old entry or at the desk.
fn readings(mut from: Stdin, at_desk: bool, turns: usize) -> usize {
    let mut bytes = [0u8; READ_AHEAD];
    let n = taken(&mut from, &mut bytes);
    let mut last: usize = 0;
    for _ in 0..turns {
        last = tally(reading(&bytes[..n], at_desk), last);
    }
    last
}

fn of_levels(found: Result<LeastLevels, Unlevelled>, k: usize) -> usize {
    let g = k % 64;
    match found {
        Ok(l) => l.levels[g] as usize ^ l.goals,
        Err(Unlevelled::Refused(e)) => u8::from(e) as usize,
        Err(Unlevelled::OnCycles(marks)) => marks[g] as usize ^ 38,
    }
}

// The book of standard input is checked: plain, levelled.
fn profiles(mut from: Stdin, turns: usize) -> usize {
    let mut bytes = [0u8; READ_AHEAD];
    let n = taken(&mut from, &mut bytes);
    let mut last: usize = 0;
    for _ in 0..turns {
        last = of_levels(levels(&bytes[..n]), last);
    }
    last
}

fn run(from: Stdin, k: usize) -> usize {
    match k {
        2 => places(16, 100000000),
        3 => places(254, 100000000),
        4 => queue(16, 100000000),
        5 => queue(256, 100000000),
        6 => search(16, 10000000),
        7 => search(256, 1000000),
        8 => turns_of(16, 100000000) as usize,
        9 => turns_of(256, 100000000) as usize,
        10 => lookup(16, 15, 10000000),
        11 => lookup(256, 255, 1000000),
        12 => pushes(15, 1000000),
        13 => pushes(255, 1000000),
        14 => readings(from, false, 20000),
        15 => readings(from, true, 20000),
        16 => profiles(from, 2000),
        _ => 0,
    }
}

// How many words the program was started with, its own name among them; of more than any operation's number so many.
fn words(rt: &impl Env) -> usize {
    let mut word = [0u8; 1];
    for i in 0..17 {
        if let Err(FillError::NotPresent) = rt.arg(i, &mut word) {
            return i;
        }
    }
    17
}

fn main(rt: HostRuntime) {
    let k = words(&rt);
    if k < 2 {
        let _ = println!(rt; "name an operation by the number of arguments: 1 to 15");
        return;
    }
    let n = run(rt.stdin(), k) as u64;
    let _ = println!(rt; "{n}");
}
