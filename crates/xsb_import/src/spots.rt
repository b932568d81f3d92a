// Where the reading of a text stands next: at another place, behind a literal, or nowhere, since the text is not of the form.
ghost use Rattle.std.specs.Prelude.{◌≡◌};
ghost use Rattle.xsb_import.specs.Reading.{moved, behind_spot};

use crate::{Ended, Place, Spot};

impl Spot {
    pub(crate) fn at(self, place: Place, ended: Option<Ended>) -> Spot
        ensures { result ≡ moved self place ended }
    {
        Spot {
            place,
            tables: self.tables,
            head: self.head,
            begun: self.begun,
            ended,
        }
    }

    // Behind a literal the rule ends, or another one comes.
    pub(crate) fn behind(self, b: u8, ended: Option<Ended>) -> Option<Spot>
        ensures { result ≡ behind_spot self b ended }
    {
        match b {
            b'.' => Some(self.at(Place::Fixed(11), ended)),
            b',' => Some(self.at(Place::Fixed(14), ended)),
            _ => None,
        }
    }
}
