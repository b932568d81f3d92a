// Order 6: a strand is taken within its queue. What the queue shows then, and how many links, ends and lengths of all the rings are other
// than they were. A strand is told by its variant; one that was pursued at time 1 may be taken, one at 9 may not.
use crate::queues::{put, show, strand, take};
use crate::words::{line, number, one, place};
use rings::ring_at;
use std::io::Stdout;
use stores::places::Places;
use stores::queue::{Strands, blank_strands};

fn pursued(eligible: bool) -> u64 {
    if eligible { 1 } else { 9 }
}

fn table_for(by_turns: bool, i: u16) -> u8 {
    if by_turns && i % 2 == 0 { 6 } else { 5 }
}

// Strands 1 to `count`, of which only number `which` may be taken: in the queue of table 5, or by turns in those of tables 5 and 6.
fn filled(count: u16, by_turns: bool, which: u16) -> Strands {
    let mut r = blank_strands();
    for i in 1..=count {
        let p = put(r, table_for(by_turns, i), pursued(i == which), strand(i));
        r = p.strands;
    }
    r
}

// How many links, ends and lengths are other than they were.
fn compare(to: Stdout, p: Places, r: Places) {
    let next = p.next;
    let tail = p.tail;
    let len = p.len;
    let next_then = r.next;
    let tail_then = r.tail;
    let len_then = r.len;
    let mut links: usize = 0;
    let mut ends: usize = 0;
    let mut lengths: usize = 0;
    for i in 0..256 {
        links = links + one(next[i] != next_then[i]);
        ends = ends + one(tail[i] != tail_then[i]);
        lengths = lengths + one(len[i] != len_then[i]);
    }
    line(to, b"links changed", links);
    line(to, b"ends changed", ends);
    line(to, b"lengths changed", lengths);
}

fn waiting(to: Stdout, p: Places, t: u8) {
    let len = p.len;
    line(to, b"waiting", len[t as usize] as usize);
}

// The first of table 5's queue that may be taken, and what that changes.
fn take_from(to: Stdout, s: Strands) -> Strands {
    show(to, s, 5);
    let d = take(s, 5, 2);
    line(to, b"taken at place", place(d.place));
    let r = d.strands;
    show(to, r, 5);
    waiting(to, r.places, 5);
    compare(to, s.places, r.places);
    r
}

// From 1 2 3 4 the first, the second and the last; none of them; and the only one.
pub(crate) fn one_queue(to: Stdout) {
    take_from(to, filled(4, false, 1));
    take_from(to, filled(4, false, 2));
    take_from(to, filled(4, false, 4));
    take_from(to, filled(4, false, 0));
    take_from(to, filled(1, false, 1));
}

// The last of 256 in one queue: the one before it is the last then.
pub(crate) fn last_of_256(to: Stdout) {
    let r = take_from(to, filled(256, false, 256));
    let p = r.places;
    let tail = p.tail;
    line(to, b"the last at place", tail[5] as usize);
}

// The places along a queue, at most eight, each with the one that its link leads to.
fn links(to: Stdout, s: Strands, t: u8) {
    let p = s.places;
    let next = p.next;
    let tail = p.tail;
    let len = p.len;
    for i in 0..8 {
        if let Some(q) = ring_at(&next, &tail, &len, t, i) {
            number(to, q as u16);
            number(to, next[q as usize] as u16);
        }
    }
}

fn show_links(to: Stdout, s: Strands, t: u8) {
    let _ = print!(to; "links ");
    links(to, s, t);
    let _ = println!(to;);
}

// Two queues by turns in one store: from the one the third is taken, and the other's links are as they were.
pub(crate) fn two_queues(to: Stdout) {
    let s = filled(8, true, 5);
    show(to, s, 6);
    show_links(to, s, 6);
    let r = take_from(to, s);
    show(to, r, 6);
    show_links(to, r, 6);
}
