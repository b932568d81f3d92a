// What is said of a text on standard error: nothing where it has a book, the refusal's lines where it has none.
ghost use Rattle.std.specs.Prelude.{◌≡◌};
ghost use Rattle.book.specs.Refusals.{fault_number};
ghost use Rattle.pen.specs.Pen.{content};
ghost use Rattle.from_xsb.specs.Lines.{said};

use book::Refusal;
use pen::Pen;
use xsb_import::Imported;

pub(crate) fn say(pen: &mut Pen, r: &Result<Imported, Refusal>)
    ensures { content pen.new ≡ said (fault_number r.now) (content pen.old) }
{
    if let Err(e) = r {
        pen.refusal(u8::from(*e));
    }
}
