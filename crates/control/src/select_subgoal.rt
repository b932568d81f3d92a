// logic.rs `select_subgoal`, with `get_or_create_table_for_subgoal` and `propagate_floundered_subgoal`, reading only: the strand goes by
// value, the numbers of the tables and of the book are lent, and the goals that tables are to be made for are noted by value.
ghost use Rattle.std.specs.Prelude.{◌≡◌};
ghost use Rattle.control.specs.SelectSubgoal.{chosen, note, noted_at, table_number, table_floundered, live_with, selects};
ghost use Rattle.control.specs.SelectSubgoal.{propagated, made_for, found_for, literal_taken, held_against, reconsidered};
ghost use Rattle.control.specs.SelectSubgoal.{goes_on, passed, passes_for, select_subgoal};

use book::Literal;
use book::access::{goal_number, is_floundered};
use book::fitting::gets_table;
use sizes::{MOST_GOALS, MOST_LITERALS, MOST_TABLES};
use stores::numbers::{first_of, flag_at, upto};
use strands::fields::{deselected, made_ambiguous, select};
use strands::floundering::{flounder_subgoal, reconsider_floundered_subgoals};
use strands::literals::{
    NO_LITERAL, goal_of, is_negative, last_subgoal, next_subgoal_index, no_floundered, no_subgoals,
};
use strands::{Selected, Strand, within};

// The goals that tables are to be made for, in the order of making: each literal of a strand makes at most one.
#[derive(Clone, Copy)]
pub struct Made {
    pub count: u8,
    pub goals: [u8; MOST_LITERALS],
}

// How a pass ended: there is another one, or the loop's outcome.
#[derive(Clone, Copy)]
pub enum Selection {
    Again,
    Selected,
    NotSelected,
    Stop(u8),
}

// What a pass, or the whole loop, leaves: the live strands once the tables are made, the goals noted, and the strand.
#[derive(Clone, Copy)]
pub struct Choice {
    pub selection: Selection,
    pub live: u16,
    pub made: Made,
    pub strand: Strand,
}

// The literal that is chosen: the last one.
pub fn last_literal(s: Strand) -> Literal
    ensures { result ≡ chosen s }
{
    last_subgoal(s).unwrap_or(NO_LITERAL)
}

// One more goal is noted.
fn noted(made: Made, g: u8) -> Made
    ensures { result ≡ note g made }
{
    let n = made.count as usize;
    if n >= MOST_LITERALS {
        return made;
    }
    let mut m = made;
    m.goals[n] = g;
    m.count = (n + 1) as u8;
    m
}

// Where a goal is noted first; how many are where it isn't.
fn first_noted(made: Made, g: u8) -> usize
    ensures { result ≡ noted_at g made }
{
    let n = within(made.count);
    for i in 0..n {
        if made.goals[i] == g {
            return i;
        }
    }
    n
}

// `index_of` among the tables and, after these, those that are to be made; the number of the next one where the goal has none.
fn table_of(made: Made, goal: &[u8; MOST_TABLES], count: usize, g: u8) -> u8
    ensures { result ≡ table_number goal.now count g made }
{
    match first_of(goal, count, g) {
        Some(i) => i as u8,
        None => (upto(count) + first_noted(made, g)) as u8,
    }
}

// Whether a table is floundered; one that is to be made has its goal's flag.
fn table_floundered(
    made: Made,
    t: u8,
    floundered: &[u8; MOST_TABLES],
    count: usize,
    goal_flags: &[u8; MOST_GOALS],
) -> bool
    ensures { result ≡ table_floundered floundered.now count goal_flags.now t made }
{
    let n = upto(count);
    let at = t as usize;
    if at < n {
        return flag_at(floundered, t);
    }
    let m = within(made.count);
    let j = at - n;
    if j >= m {
        return false;
    }
    let goals = made.goals;
    is_floundered(goal_flags, goals[j] as usize)
}

// The live strands once the goal has its table: a floundered one has no strands, though the goal has clauses.
fn live_with(live: u16, g: u8, goal_flags: &[u8; MOST_GOALS], goal_len: &[u16; MOST_GOALS]) -> usize
    ensures { result ≡ live_with goal_flags.now goal_len.now g live }
{
    if is_floundered(goal_flags, g as usize) {
        return live as usize;
    }
    let clauses = goal_number(goal_len, g as usize);
    live as usize + clauses as usize
}

// The last literal is selected, with this table and its first answer.
fn selected_with(s: Strand, table: u8) -> Strand
    ensures { result ≡ selects table s }
{
    let i = next_subgoal_index(s);
    let k = Selected::Subgoal {
        index: i as u8,
        table,
        answer: 0,
    };
    select(s, k)
}

// `propagate_floundered_subgoal`: a "not" over a floundered table is stuck; a positive literal flounders.
fn propagate_floundered_subgoal(c: Choice) -> Choice
    ensures { result ≡ propagated c }
{
    let s = c.strand;
    let l = last_literal(s);
    let d = deselected(s);
    if is_negative(l) {
        let k = Selection::NotSelected;
        return Choice {
            selection: k,
            strand: d,
            ..c
        };
    }
    let t = flounder_subgoal(d);
    let k = Selection::Again;
    Choice {
        selection: k,
        strand: t,
        ..c
    }
}

// A table is to be made for the goal: 22 where its strands are too many.
fn make_table(
    c: Choice,
    g: u8,
    table: u8,
    goal_flags: &[u8; MOST_GOALS],
    goal_len: &[u16; MOST_GOALS],
) -> Choice
    ensures { result ≡ made_for goal_flags.now goal_len.now g table c }
{
    let live = live_with(c.live, g, goal_flags, goal_len);
    if live > 256 {
        let k = Selection::Stop(22);
        return Choice { selection: k, ..c };
    }
    let m = c.made;
    let made = noted(m, g);
    let s = c.strand;
    let strand = selected_with(s, table);
    let k = Selection::Again;
    Choice {
        selection: k,
        live: live as u16,
        made,
        strand,
    }
}

// `get_or_create_table_for_ucanonical_goal`
fn get_or_create_table(
    c: Choice,
    g: u8,
    goal: &[u8; MOST_TABLES],
    count: usize,
    goal_flags: &[u8; MOST_GOALS],
    goal_len: &[u16; MOST_GOALS],
) -> Choice
    ensures { result ≡ found_for goal.now count goal_flags.now goal_len.now g c }
{
    let m = c.made;
    let n = upto(count) + within(m.count);
    let table = table_of(m, goal, count, g);
    if table as usize >= n {
        return make_table(c, g, table, goal_flags, goal_len);
    }
    let s = c.strand;
    let strand = selected_with(s, table);
    let k = Selection::Again;
    Choice {
        selection: k,
        strand,
        ..c
    }
}

// `get_or_create_table_for_subgoal`, of the last literal: one that gets no table flounders.
fn get_or_create_table_for_subgoal(
    c: Choice,
    goal: &[u8; MOST_TABLES],
    count: usize,
    goal_flags: &[u8; MOST_GOALS],
    goal_len: &[u16; MOST_GOALS],
) -> Choice
    ensures { result ≡ literal_taken goal.now count goal_flags.now goal_len.now c }
{
    let s = c.strand;
    let l = last_literal(s);
    if gets_table(l) {
        let g = goal_of(l);
        return get_or_create_table(c, g, goal, count, goal_flags, goal_len);
    }
    let strand = flounder_subgoal(s);
    let k = Selection::Again;
    Choice {
        selection: k,
        strand,
        ..c
    }
}

// No literal is left: those that floundered are looked at again, and make the strand ambiguous where none returns.
fn reconsider(c: Choice) -> Choice
    ensures { result ≡ reconsidered c }
{
    let s = c.strand;
    if no_floundered(s) {
        let k = Selection::NotSelected;
        return Choice { selection: k, ..c };
    }
    let x = reconsider_floundered_subgoals(s);
    if no_subgoals(x) {
        let strand = made_ambiguous(x);
        let k = Selection::NotSelected;
        return Choice {
            selection: k,
            strand,
            ..c
        };
    }
    let k = Selection::Again;
    Choice {
        selection: k,
        strand: x,
        ..c
    }
}

// The selected subgoal is held against its table.
fn hold(
    c: Choice,
    table: u8,
    floundered: &[u8; MOST_TABLES],
    count: usize,
    goal_flags: &[u8; MOST_GOALS],
) -> Choice
    ensures { result ≡ held_against floundered.now count goal_flags.now table c }
{
    let m = c.made;
    if table_floundered(m, table, floundered, count, goal_flags) {
        return propagate_floundered_subgoal(c);
    }
    let k = Selection::Selected;
    Choice { selection: k, ..c }
}

// One pass of the loop.
fn pass(
    c: Choice,
    goal: &[u8; MOST_TABLES],
    floundered: &[u8; MOST_TABLES],
    count: usize,
    goal_flags: &[u8; MOST_GOALS],
    goal_len: &[u16; MOST_GOALS],
) -> Choice
    ensures { result ≡ passed goal.now floundered.now count
        goal_flags.now goal_len.now c }
{
    let s = c.strand;
    let k = s.selected;
    match k {
        Selected::Nothing => {
            if no_subgoals(s) {
                return reconsider(c);
            }
            get_or_create_table_for_subgoal(c, goal, count, goal_flags, goal_len)
        }
        Selected::Subgoal {
            index: _,
            table,
            answer: _,
        } => hold(c, table, floundered, count, goal_flags),
    }
}

fn goes_on(k: Selection) -> bool
    ensures { result ≡ goes_on k }
{
    matches!(k, Selection::Again)
}

// How many passes the loop may do: in one call a literal is floundered at most once, which takes two of them.
fn passes_for(s: Strand) -> usize
    ensures { result ≡ passes_for s }
{
    2 * (within(s.literal_count) + within(s.floundered_count)) + 4
}

// `select_subgoal`
pub fn select_subgoal(
    s: Strand,
    live: u16,
    goal: &[u8; MOST_TABLES],
    floundered: &[u8; MOST_TABLES],
    count: usize,
    goal_flags: &[u8; MOST_GOALS],
    goal_len: &[u16; MOST_GOALS],
) -> Choice
    ensures { result ≡ select_subgoal goal.now floundered.now count
        goal_flags.now goal_len.now live s }
{
    let made = Made {
        count: 0,
        goals: [0; MOST_LITERALS],
    };
    let first = Selection::Again;
    let mut c = Choice {
        selection: first,
        live,
        made,
        strand: s,
    };
    for _pass in 0..passes_for(s) {
        c = pass(c, goal, floundered, count, goal_flags, goal_len);
        if !goes_on(c.selection) {
            return c;
        }
    }
    let k = Selection::NotSelected;
    Choice { selection: k, ..c }
}
