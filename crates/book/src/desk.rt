// The exam desk (change request 10): it reads a book as `read` does, and takes none in which a goal has the same clause twice.
ghost use Rattle.book.specs.View.{Taken};
ghost use Rattle.book.specs.Repeats.{Looks};

use crate::reader::read;
use crate::repeats::book_repeat;
use crate::{Book, Looked, Refusal};

// What the old entry reads, and where the desk would find a clause for the second time.
pub fn look(bytes: &[u8]) -> Result<Looked, Refusal>
    ensures { Looks bytes.now result }
{
    let book = read(bytes)?;
    let repeat = book_repeat(&book);
    Ok(Looked { book, repeat })
}

// Refused as `read` refuses, and then with 36.
pub fn desk(bytes: &[u8]) -> Result<Book, Refusal>
    ensures { Taken bytes.now result }
{
    let looked = look(bytes)?;
    match looked.repeat {
        Some(_) => Err(Refusal::RepeatedClause),
        None => Ok(looked.book),
    }
}
