// A search for the first answer of goal 0 of a book: before its first turn, and again after it was put back.
use book::Book;
use book::reader::read;
use control::make_tables::make_tables;
use control::select_subgoal::Made;
use search::solve_state::Search;
use stores::Stores;
use stores::queue::blank_strands;
use stores::stack::{blank_stack, push_entry};
use stores::table::blank_answers;
use stores::tables::blank_tables;
use strands::times::TimeStamp;

// The book with blank stores and the table of goal 0, before a search.
pub(crate) fn begun(bytes: &[u8]) -> Search {
    let book = read(bytes).unwrap_or(Book::blank());
    let mut tables = blank_tables();
    let mut strands = blank_strands();
    let made = Made {
        count: 1,
        goals: [0, 0, 0, 0, 0, 0, 0, 0],
    };
    tables.count = make_tables(
        &mut tables.goal,
        &mut tables.coinductive,
        &mut tables.floundered,
        &mut tables.complete,
        &mut strands.places.next,
        &mut strands.places.tail,
        &mut strands.places.len,
        &mut strands.places.top,
        &mut strands.time,
        &mut strands.ambiguous,
        &mut strands.variant,
        &mut strands.waits,
        &mut strands.wants,
        &book.goal_flags,
        &book.goal_first,
        &book.goal_len,
        &book.clause_variant,
        &book.clause_flags,
        tables.count,
        made,
    );
    Search {
        book,
        stores: Stores {
            tables,
            strands,
            answers: blank_answers(),
        },
        clock_limit: 1000000,
        mark: 0,
        clock: 0,
        stack: blank_stack(),
        table: 0,
        index: 0,
        limit: 1000,
        done: 0,
    }
}

// With the root's entry alone on the stack.
pub(crate) fn rooted(s: Search) -> Search {
    let was = TimeStamp { clock: s.clock };
    let time = was.increment();
    let mut t = s;
    t.clock = time.clock;
    t.stack.depth = push_entry(
        &mut t.stack.table,
        &mut t.stack.clock,
        &mut t.stack.positive,
        &mut t.stack.negative,
        &mut t.stack.active,
        0,
        s.table,
        time.clock,
        TimeStamp::MAX.clock,
    );
    t
}
