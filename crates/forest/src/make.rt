// `Forest::new` over a book: the bytes are read, by the old entry or at the exam desk, and the clock has a limit.
ghost use Rattle.std.specs.Prelude.{◌≡◌};
ghost use Rattle.forest.specs.Make.{bare, refused_by, begin, book_kept, made_anew, MakeSays, MakeAtDeskSays, Stems, MakeOfSays};

use crate::Forest;
use book::desk::desk;
use book::reader::read;
use book::{Book, Refusal};
use stores::Stores;
use stores::queue::blank_strands;
use stores::table::blank_answers;
use stores::tables::blank_tables;
use strands::times::TimeStamp;

#[derive(Clone, Copy)]
pub enum Making {
    Refused(u8),
    Made,
}

// With a refusal the forest holds a book without goals, and is marked.
#[derive(Clone, Copy)]
pub struct Made {
    pub making: Making,
    pub forest: Forest,
}

// A forest with this book and nothing in it.
fn bare_forest(book: Book, clock_limit: u64, mark: u8) -> Forest
    ensures { result ≡ bare book clock_limit mark }
{
    let stores = Stores {
        tables: blank_tables(),
        strands: blank_strands(),
        answers: blank_answers(),
    };
    Forest {
        book,
        stores,
        clock_limit,
        mark,
        clock: 0,
    }
}

// What is begun with: what making came to, the clock's limit and the mark.
#[derive(Clone, Copy)]
struct Begun {
    making: Making,
    limit: u64,
    mark: u8,
}

// A forest that is not made is marked with the number, so that whoever calls it is refused.
fn refused(number: u8) -> Begun
    ensures { result ≡ refused_by number }
{
    Begun {
        making: Making::Refused(number),
        limit: 0,
        mark: number,
    }
}

// Refused as the reading was, then with 13 where the clock's limit is 0 or the largest number.
fn begin(r: &Result<Book, Refusal>, clock_limit: u64) -> Begun
    ensures { result ≡ begin r.now clock_limit }
{
    match r {
        Err(refusal) => refused(u8::from(*refusal)),
        Ok(_) => {
            if clock_limit == 0 || clock_limit >= TimeStamp::MAX.clock {
                return refused(13);
            }
            Begun {
                making: Making::Made,
                limit: clock_limit,
                mark: 0,
            }
        }
    }
}

// Nothing is kept of a book of which no forest is made.
fn book_kept(r: Result<Book, Refusal>, making: Making) -> Book
    ensures { result ≡ book_kept r making }
{
    match r {
        Ok(book) => match making {
            Making::Made => book,
            Making::Refused(_) => Book::blank(),
        },
        Err(_) => Book::blank(),
    }
}

// What both ways in do behind the reading. A forest is put together in one place: each place more would have its own copies of it.
fn make_of(r: Result<Book, Refusal>, clock_limit: u64) -> Made
    requires { Stems r }
    ensures { MakeOfSays r clock_limit result }
{
    let b = begin(&r, clock_limit);
    Made {
        making: b.making,
        forest: bare_forest(book_kept(r, b.making), b.limit, b.mark),
    }
}

impl Forest {
    // The same, in the place of whatever this forest was.
    fn begin_anew(&mut self, r: Result<Book, Refusal>, clock_limit: u64) -> Making
        requires { Stems r }
        ensures { MakeOfSays r clock_limit (made_anew result self.new) }
    {
        let b = begin(&r, clock_limit);
        *self = bare_forest(book_kept(r, b.making), b.limit, b.mark);
        b.making
    }

    // As `make`, where the forest lies.
    pub fn make_anew(&mut self, bytes: &[u8], clock_limit: u64) -> Making
        ensures { MakeSays bytes.now clock_limit (made_anew result self.new) }
    {
        self.begin_anew(read(bytes), clock_limit)
    }

    // As `make_at_desk`, where the forest lies.
    pub fn make_anew_at_desk(&mut self, bytes: &[u8], clock_limit: u64) -> Making
        ensures { MakeAtDeskSays bytes.now clock_limit (made_anew result self.new) }
    {
        self.begin_anew(desk(bytes), clock_limit)
    }
}

// By the old entry, which takes a clause as often as it stands in a goal.
pub fn make(bytes: &[u8], clock_limit: u64) -> Made
    ensures { MakeSays bytes.now clock_limit result }
{
    make_of(read(bytes), clock_limit)
}

// As the exam desk takes a book: 36, where a goal has the same clause twice, comes before 13.
pub fn make_at_desk(bytes: &[u8], clock_limit: u64) -> Made
    ensures { MakeAtDeskSays bytes.now clock_limit result }
{
    make_of(desk(bytes), clock_limit)
}
