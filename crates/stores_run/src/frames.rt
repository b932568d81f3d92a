// Delayed goals, the stack's entries and the tables' goals, at their limits.
ghost use Rattle.std.specs.Prelude.{◌≤◌};

use crate::words::{line, one};
use sizes::MOST_TABLES;
use std::io::Stdout;
use stores::numbers::{first_of, flag_at, set_flag};
use stores::stack::{
    Stack, blank_stack, coinductive_from, pop, push_entry, set_active, take_caller,
};
use stores::tables::{Tables, blank_tables, index_of, insert};
use strands::Strand;
use strands::delaying::delay_goal;
use strands::making::blank;

#[derive(Clone, Copy)]
struct Over {
    over: usize,
    strand: Strand,
}

// Nine delayed goals for one strand.
fn nine(strand: Strand) -> Over {
    let mut s = strand;
    let mut n: usize = 0;
    for i in 0..9 {
        match delay_goal(s, i) {
            Some(t) => s = t,
            None => n += 1,
        }
    }
    Over { over: n, strand: s }
}

// Eight delayed goals and not nine.
pub(crate) fn delays(to: Stdout) {
    let d = nine(blank());
    let s = d.strand;
    line(to, b"delayed goals", s.delayed_count as usize);
    line(to, b"over", d.over);
}

// 65 pushes, each with an active strand at place 3.
fn pushed(k: Stack) -> Stack {
    let mut table = k.table;
    let mut clock = k.clock;
    let mut positive = k.positive;
    let mut negative = k.negative;
    let mut active = k.active;
    let mut depth = k.depth;
    for i in 0..65 {
        depth = push_entry(
            &mut table,
            &mut clock,
            &mut positive,
            &mut negative,
            &mut active,
            depth,
            i % 60,
            7,
            9,
        );
        set_active(&mut active, depth, 3);
    }
    Stack {
        depth,
        table,
        clock,
        positive,
        negative,
        active,
    }
}

// An index, or 64 for none.
fn at(index: Option<usize>) -> usize {
    index.unwrap_or(MOST_TABLES)
}

// 64 entries and not 65; the entry nearest the bottom is found.
pub(crate) fn entries(to: Stdout) {
    let k = pushed(blank_stack());
    let table = k.table;
    let mut active = k.active;
    let depth = k.depth;
    line(to, b"entries", depth);
    line(to, b"table 2 at", at(first_of(&table, depth, 2)));
    line(to, b"table 61 at", at(first_of(&table, depth, 61)));
    line(
        to,
        b"caller's place",
        take_caller(&mut active, depth) as usize,
    );
    line(
        to,
        b"caller's place again",
        take_caller(&mut active, depth) as usize,
    );
    line(to, b"popped to", pop(depth));
    cycle(to, k);
}

// Whether the entries from one up to the top are of coinductive tables: all are, and then all but table 9.
fn cycle(to: Stdout, k: Stack) {
    let table = k.table;
    let depth = k.depth;
    let mut coinductive = [1u8; MOST_TABLES];
    line(
        to,
        b"coinductive from 5",
        one(coinductive_from(&table, &coinductive, 5, depth)),
    );
    set_flag(&mut coinductive, 9, false);
    line(
        to,
        b"coinductive from 5",
        one(coinductive_from(&table, &coinductive, 5, depth)),
    );
    line(
        to,
        b"coinductive from 10",
        one(coinductive_from(&table, &coinductive, 10, depth)),
    );
}

// Tables for the goals 10 to 74; every second one is coinductive.
fn made(ts: Tables) -> Tables {
    let mut goal = ts.goal;
    let mut coinductive = ts.coinductive;
    let mut floundered = ts.floundered;
    let mut complete = ts.complete;
    let mut count = ts.count;
    for i in 0..65 {
        count = insert(
            &mut goal,
            &mut coinductive,
            &mut floundered,
            &mut complete,
            count,
            i + 10,
            i % 2 == 0,
            false,
        );
    }
    Tables {
        count,
        goal,
        coinductive,
        floundered,
        complete,
    }
}

// 64 tables and not 65, found by their goals.
pub(crate) fn goals(to: Stdout) {
    let ts = made(blank_tables());
    let goal = ts.goal;
    let complete = ts.complete;
    let coinductive = ts.coinductive;
    let count = ts.count;
    line(to, b"tables", count);
    line(to, b"goal 12 is table", index_of(&goal, count, 12));
    line(to, b"goal 9 is none:", index_of(&goal, count, 9));
    line(to, b"complete", one(flag_at(&complete, 3)));
    line(to, b"coinductive", one(flag_at(&coinductive, 3)));
}
