// A line of a page (change request 3): the goal, the index at which the peek ended, the word of its outcome, and behind yes and maybe the
// variant, behind stop the number, each in its column. It is written from the numbers of a reply (crate `batch`, calls.rt).
ghost use Rattle.std.specs.Prelude.{◌≡◌};
ghost use Rattle.papers.specs.Listing.{blank_line, blank_lines, lines_left};
ghost use Rattle.pen.specs.Pen.{put_all, content};
ghost use Rattle.listing.specs.Lines.{word_column, number_column, number_spaced, reply_line, settled_word, next_line};

use pen::Pen;

// The columns' widths (`columns`).
const GOAL: usize = 3;

const INDEX: usize = 5;

const WORD: usize = 10;

const NUMBER: usize = 5;

// The lines of a page.
const PAGE: usize = 60;

// What is no word of a peek is not said: a call that is refused has none, and none of those that are listed is.
fn word(pen: &mut Pen, said: u64)
    ensures { content pen.new ≡ put_all (word_column said) (content pen.old) }
{
    match said {
        2 => pen.left(WORD, b"stop"),
        3 => pen.left(WORD, b"yes"),
        4 => pen.left(WORD, b"maybe"),
        5 => pen.left(WORD, b"none"),
        6 => pen.left(WORD, b"floundered"),
        7 => pen.left(WORD, b"again"),
        8 => pen.left(WORD, b"negcycle"),
        9 => pen.left(WORD, b"invalid"),
        10 => pen.left(WORD, b"cut"),
        11 => pen.left(WORD, b"unsettled"),
        _ => pen.blanks(WORD),
    }
}

// Behind a stop, a yes and a maybe there is a number.
fn number(pen: &mut Pen, said: u64, value: u64)
    ensures { content pen.new ≡ put_all (number_column said value) (content pen.old) }
{
    match said {
        2 => pen.right_number(NUMBER, value),
        3 => pen.right_number(NUMBER, value),
        4 => pen.right_number(NUMBER, value),
        _ => pen.blanks(NUMBER),
    }
}

// A number in its column, and the space behind it.
fn field(pen: &mut Pen, width: usize, n: u64)
    ensures { content pen.new ≡ put_all (number_spaced width n) (content pen.old) }
{
    pen.right_number(width, n);
    pen.text(b" ");
}

// The number of the word, where the goal's answers were skipped or not: 5 is none, and 11 says that it is unsettled.
pub(crate) fn settled(said: u64, skipped: bool) -> u64
    ensures { result ≡ settled_word said skipped }
{
    if said == 5 && skipped { 11 } else { said }
}

pub(crate) fn line(pen: &mut Pen, goal: u64, index: u64, said: u64, value: u64)
    ensures { content pen.new ≡ put_all (reply_line goal index said value) (content pen.old) }
{
    field(pen, GOAL, goal);
    field(pen, INDEX, index);
    word(pen, said);
    pen.text(b" ");
    number(pen, said, value);
    pen.text(b"\n");
}

// How many lines are on the page behind one more: none where it is full.
pub(crate) fn one_line_more(lines: usize) -> usize
    ensures { result ≡ next_line lines }
{
    if lines < PAGE - 1 { lines + 1 } else { 0 }
}

fn blank(pen: &mut Pen)
    ensures { content pen.new ≡ put_all blank_line (content pen.old) }
{
    pen.blanks(GOAL + 1 + INDEX + 1 + WORD + 1 + NUMBER);
    pen.text(b"\n");
}

// The page that so many lines are on is filled up.
pub(crate) fn fill(pen: &mut Pen, lines: usize)
    ensures { content pen.new ≡ put_all (blank_lines (lines_left lines)) (content pen.old) }
{
    let missing = (PAGE - lines % PAGE) % PAGE;
    for _line in 0..missing {
        blank(pen);
    }
}
