// What a turn with a strand comes to, reading only. `choose` selects a subgoal and looks what the turn then needs: what the selected table
// holds for the strand, or whether the top's table has the answer that the strand gives. It names the place of the answer to be read;
// with that answer `decide` decides.
ghost use Rattle.std.specs.Prelude.{◌≡◌};
ghost use Rattle.control.specs.Choose.{on_stack, look_at, selected_sight, answer_sight, sight_for, look_place, sight_place};
ghost use Rattle.control.specs.Choose.{stop_of, choose, decide};

use crate::decision::{Decision, Deed, decide_on};
use crate::ensure_root_answer::Top;
use crate::on_no_remaining_subgoals::on_no_remaining_subgoals;
use crate::on_subgoal_selected::{Look, on_subgoal_selected};
use crate::select_subgoal::{Made, Selection, select_subgoal};
use rings::ring_at;
use sizes::{MOST_ENTRIES, MOST_GOALS, MOST_TABLES, PLACES};
use stores::numbers::{first_of, upto};
use stores::stack::coinductive_from;
use stores::table::find_answer;
use stores::tables::goal_at;
use strands::answers::answer_of;
use strands::{Answer, Selected, Strand};

// What the turn sees for its strand: nothing where the choice is a stop; what the selected table holds; the answer that the strand gives,
// stored at this place; or that this answer is new.
#[derive(Clone, Copy)]
pub enum Sight {
    Nothing,
    Looks(Look),
    Same(u8),
    Fresh,
}

// The choice, the answer that the strand gives if it has no literal left, what the turn sees, and where the answer stands that it looks
// at; place 0 where it looks at none.
#[derive(Clone, Copy)]
pub struct Chosen {
    pub selection: Selection,
    pub live: u16,
    pub made: Made,
    pub strand: Strand,
    pub gives: Answer,
    pub sight: Sight,
    pub place: u8,
}

// A table with no answer for the strand: it is on the stack at a height, or is pushed.
fn on_stack(
    t: u8,
    entry_table: &[u8; MOST_ENTRIES],
    coinductive: &[u8; MOST_TABLES],
    depth: usize,
) -> Look
    ensures { result ≡ on_stack entry_table.now coinductive.now depth t }
{
    match first_of(entry_table, depth, t) {
        None => Look::Push(t),
        Some(height) => {
            if coinductive_from(entry_table, coinductive, height, depth) {
                return Look::Coinductive;
            }
            Look::Cycle(height as u8)
        }
    }
}

// The answer at an index of the table, or else where the table is.
pub fn look_at(
    t: u8,
    index: u16,
    entry_table: &[u8; MOST_ENTRIES],
    coinductive: &[u8; MOST_TABLES],
    depth: usize,
    answer_next: &[u8; PLACES],
    answer_tail: &[u8; PLACES],
    answer_len: &[u16; PLACES],
) -> Look
    ensures { result ≡ look_at entry_table.now coinductive.now depth answer_next.now
        answer_tail.now answer_len.now t index }
{
    match ring_at(answer_next, answer_tail, answer_len, t, index) {
        Some(place) => Look::Answer(place),
        None => on_stack(t, entry_table, coinductive, depth),
    }
}

fn selected_sight(
    k: Selected,
    entry_table: &[u8; MOST_ENTRIES],
    coinductive: &[u8; MOST_TABLES],
    depth: usize,
    answer_next: &[u8; PLACES],
    answer_tail: &[u8; PLACES],
    answer_len: &[u16; PLACES],
) -> Sight
    ensures { result ≡ selected_sight entry_table.now coinductive.now depth answer_next.now
        answer_tail.now answer_len.now k }
{
    match k {
        Selected::Nothing => Sight::Nothing,
        Selected::Subgoal {
            index: _,
            table,
            answer,
        } => {
            let look = look_at(
                table,
                answer,
                entry_table,
                coinductive,
                depth,
                answer_next,
                answer_tail,
                answer_len,
            );
            Sight::Looks(look)
        }
    }
}

// Whether table t has the answer x.
fn answer_sight(
    x: Answer,
    t: u8,
    answer_next: &[u8; PLACES],
    answer_tail: &[u8; PLACES],
    answer_len: &[u16; PLACES],
    answer_variant: &[u16; PLACES],
    answer_key: &[u64; PLACES],
) -> Sight
    ensures { result ≡ answer_sight answer_next.now answer_tail.now answer_len.now
        answer_variant.now answer_key.now t x }
{
    let same = find_answer(
        answer_next,
        answer_tail,
        answer_len,
        t,
        answer_variant,
        answer_key,
        x,
    );
    match same {
        Some(place) => Sight::Same(place),
        None => Sight::Fresh,
    }
}

fn sight_for(
    selection: Selection,
    k: Selected,
    x: Answer,
    t: u8,
    entry_table: &[u8; MOST_ENTRIES],
    coinductive: &[u8; MOST_TABLES],
    depth: usize,
    answer_next: &[u8; PLACES],
    answer_tail: &[u8; PLACES],
    answer_len: &[u16; PLACES],
    answer_variant: &[u16; PLACES],
    answer_key: &[u64; PLACES],
) -> Sight
    ensures { result ≡ sight_for entry_table.now coinductive.now depth answer_next.now
        answer_tail.now answer_len.now answer_variant.now answer_key.now
        selection k t x }
{
    match selection {
        Selection::Again => answer_sight(
            x,
            t,
            answer_next,
            answer_tail,
            answer_len,
            answer_variant,
            answer_key,
        ),
        Selection::Selected => selected_sight(
            k,
            entry_table,
            coinductive,
            depth,
            answer_next,
            answer_tail,
            answer_len,
        ),
        Selection::NotSelected => answer_sight(
            x,
            t,
            answer_next,
            answer_tail,
            answer_len,
            answer_variant,
            answer_key,
        ),
        Selection::Stop(_) => Sight::Nothing,
    }
}

fn look_place(look: Look) -> u8
    ensures { result ≡ look_place look }
{
    match look {
        Look::Answer(p) => p,
        Look::Coinductive => 0,
        Look::Cycle(_) => 0,
        Look::Push(_) => 0,
    }
}

fn sight_place(sight: Sight) -> u8
    ensures { result ≡ sight_place sight }
{
    match sight {
        Sight::Nothing => 0,
        Sight::Looks(look) => look_place(look),
        Sight::Same(p) => p,
        Sight::Fresh => 0,
    }
}

// `live` is how many strands are queued, active or in hand.
pub fn choose(
    top: Top,
    s: Strand,
    live: u16,
    goal: &[u8; MOST_TABLES],
    coinductive: &[u8; MOST_TABLES],
    floundered: &[u8; MOST_TABLES],
    count: usize,
    goal_flags: &[u8; MOST_GOALS],
    goal_len: &[u16; MOST_GOALS],
    entry_table: &[u8; MOST_ENTRIES],
    answer_next: &[u8; PLACES],
    answer_tail: &[u8; PLACES],
    answer_len: &[u16; PLACES],
    answer_variant: &[u16; PLACES],
    answer_key: &[u64; PLACES],
) -> Chosen
    ensures { result ≡ choose goal.now coinductive.now floundered.now count
        goal_flags.now goal_len.now entry_table.now answer_next.now
        answer_tail.now answer_len.now answer_variant.now answer_key.now top s live }
{
    let c = select_subgoal(s, live, goal, floundered, count, goal_flags, goal_len);
    let t = c.strand;
    let own = goal_at(goal, top.table);
    let gives = answer_of(t, own);
    let selection = c.selection;
    let k = t.selected;
    let sight = sight_for(
        selection,
        k,
        gives,
        top.table,
        entry_table,
        coinductive,
        top.depth,
        answer_next,
        answer_tail,
        answer_len,
        answer_variant,
        answer_key,
    );
    let place = sight_place(sight);
    let made = c.made;
    Chosen {
        selection,
        live: c.live,
        made,
        strand: t,
        gives,
        sight,
        place,
    }
}

// The number of a stop.
fn stop_of(selection: Selection) -> u8
    ensures { result ≡ stop_of selection }
{
    match selection {
        Selection::Again => 0,
        Selection::Selected => 0,
        Selection::NotSelected => 0,
        Selection::Stop(n) => n,
    }
}

// a is the answer at the place that was named. `complete` is the answer mode of the top's table, `late` says that the clock is at its
// limit, and `held` is how many answers are stored.
pub fn decide(c: Chosen, a: Answer, complete: bool, late: bool, held: u16) -> Decision
    ensures { result ≡ decide c a complete late held }
{
    let s = c.strand;
    let x = c.gives;
    let selection = c.selection;
    let sight = c.sight;
    match sight {
        Sight::Nothing => {
            let n = stop_of(selection);
            decide_on(Deed::Stop(n), s, a)
        }
        Sight::Looks(look) => on_subgoal_selected(look, s, a, complete, c.live, late),
        Sight::Same(_) => on_no_remaining_subgoals(s, a, x, false, complete, held),
        Sight::Fresh => on_no_remaining_subgoals(s, a, x, true, complete, held),
    }
}
