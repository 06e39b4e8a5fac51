ghost use Rattle.std.specs.Prelude.{◌≡◌};
ghost use Rattle.survey.specs.Verdicts.{verdict_number};

use disk::{FileId, PageAddress};

// What a survey finds a page to be.
#[derive(Clone, Copy, PartialEq, Eq, Debug)]
pub enum Verdict {
    // page 0, which no call writes
    Reserved = 0,
    // with the free label
    Free = 1,
    // in the chain of a file
    Chained = 2,
    // every other page whose label can be read
    Stray = 3,
    // its label cannot be read
    Aside = 4,
}

impl Verdict {
    // The enum's own number: its cast is the conversion.
    pub fn number(self) -> u16
        ensures { result ≡ verdict_number self }
    {
        self as u16
    }
}

// What a survey tells of one page.
#[derive(Clone, Copy, PartialEq, Eq, Debug)]
pub struct Record {
    pub verdict: Verdict,
    // the leader of the chain that the page is in, or 0: docs/CALLS.md promises a 0 here, not an `Option`
    pub leader: PageAddress,
    // the file id and the page number of a chained or a stray page, else 0, likewise
    pub id: FileId,
    pub number: u16,
}

// How many pages of each verdict a survey found.
#[derive(Clone, Copy, Default, PartialEq, Eq, Debug)]
pub struct Totals {
    pub reserved: u16,
    pub free: u16,
    pub chained: u16,
    pub stray: u16,
    pub aside: u16,
}
