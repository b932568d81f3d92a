// Where a paper is not plain first, so that whoever wrote it can look there.
ghost use Rattle.std.specs.Prelude.{◌≡◌};
ghost use Rattle.papers.specs.NotPlain.{not_plain_place};
ghost use Rattle.paper_checks.specs.Places.{numbers};

use crate::NotPlain;
use crate::plain::book_place;
use book::desk::desk;

// There is no place where the desk refuses the paper, and none where the paper is plain.
pub fn not_plain(bytes: &[u8]) -> Option<NotPlain>
    ensures { result ≡ numbers (not_plain_place bytes.now) }
{
    match desk(bytes) {
        Ok(book) => book_place(&book),
        Err(_) => None,
    }
}
