// A plain paper: refused by the desk's numbers, then with 37; or accepted, with its book.
ghost use Rattle.book.specs.View.{Gives};
ghost use Rattle.paper_checks.specs.Paper.{plain_paper};

use crate::plain::is_plain;
use book::desk::desk;
use book::{Book, Refusal};

pub fn plain(bytes: &[u8]) -> Result<Book, Refusal>
    ensures { Gives (plain_paper bytes.now) result }
{
    let book = desk(bytes)?;
    if !is_plain(&book) {
        return Err(Refusal::NotPlain);
    }
    Ok(book)
}
