ghost use Rattle.std.specs.Prelude.{◌≡◌, Some, None};
ghost use Rattle.disk.specs.Refusals.{number, place_name, bad_parameter, meaning, refusal, refusal_of_two, hardware, told};

use crate::address::PageAddress;
use std::fmt;

// Why a call is refused. The numbers to 21 are those of the Alto operating system's messages.
#[derive(Clone, Copy, PartialEq, Eq, Debug)]
pub enum Reason {
    TooSmall = 4,
    TooBig = 5,
    BadParameter = 6,
    Hardware = 11,
    BadState = 12,
    BadName = 13,
    NoSuchEntry = 14,
    BadFile = 15,
    PageNotFull = 17,
    PageNumberTooSmall = 18,
    BadDiskAddress = 19,
    Exists = 20,
    TooMany = 21,
    NoFreePage = 30,
    Rivals = 31,
    LabelNotFree = 33,
}

impl Reason {
    // The enum's own number: its cast is the conversion.
    pub fn number(self) -> u16
        ensures { result ≡ number self }
    {
        self as u16
    }

    // What a refusal of that place means, in words.
    pub fn meaning(self, place: Place) -> &'static str
        ensures { result.now ≡ meaning place self }
    {
        match self {
            Reason::TooSmall => "the memory handed over is too small",
            Reason::TooBig => "a page, a count or the directory would be too big",
            Reason::BadParameter => place.bad_parameter(),
            Reason::Hardware => "the drive refused a write",
            Reason::BadState => "the pack is not ready",
            Reason::BadName => "the name is not a good one",
            Reason::NoSuchEntry => "the directory has no such entry",
            Reason::BadFile => "no such file stands there, or it cannot be read",
            Reason::PageNotFull => "a page is not full",
            Reason::PageNumberTooSmall => "the page number is too small",
            Reason::BadDiskAddress => "the disk address is not one of the pack",
            Reason::Exists => "the name is in the directory already",
            Reason::TooMany => "there are no more serial numbers",
            Reason::NoFreePage => "no page is free",
            Reason::Rivals => "two leaders claim one file",
            Reason::LabelNotFree => "a page that should be free has another label",
        }
    }
}

// Where the check that refused belongs.
#[derive(Clone, Copy, PartialEq, Eq, Debug)]
pub enum Place {
    Image,
    Pack,
    Directory,
    File,
    Drive,
}

impl Place {
    // What the place prints as, for whoever needs it as text.
    pub fn name(self) -> &'static str
        ensures { result.now ≡ place_name self }
    {
        match self {
            Place::Image => "image",
            Place::Pack => "pack",
            Place::Directory => "directory",
            Place::File => "file",
            Place::Drive => "drive",
        }
    }

    // What cannot be used: words that are no image, or the directory's own file.
    fn bad_parameter(self) -> &'static str
        ensures { result.now ≡ bad_parameter self }
    {
        match self {
            Place::Image => "this is not the image of a pack",
            Place::Pack => "this cannot be used",
            Place::Directory => "the directory's own entry stays",
            Place::File => "the directory's own file is not changed so",
            Place::Drive => "this cannot be used",
        }
    }
}

impl fmt::Display for Place {
    ghost output = { λ x. Some (place_name x) };

    fn fmt<W: fmt::Write>(&self, f: &mut fmt::Formatter<W>) -> fmt::Result {
        f.write_str(self.name())
    }
}

// A refusal: why, where, and at which page, or at which two. One that is of no page has page 0: each is
// printed with a page.
#[derive(Clone, Copy, PartialEq, Eq, Debug)]
pub struct Refusal {
    pub reason: Reason,
    pub place: Place,
    pub page: PageAddress,
    pub other: Option<PageAddress>,
}

impl Refusal {
    pub fn new(reason: Reason, place: Place, page: PageAddress) -> Refusal
        ensures { result ≡ refusal reason place page.page }
    {
        Refusal {
            reason,
            place,
            page,
            other: None,
        }
    }

    pub fn of_two(reason: Reason, place: Place, page: PageAddress, other: PageAddress) -> Refusal
        ensures { result ≡ refusal_of_two reason place page.page other.page }
    {
        Refusal {
            reason,
            place,
            page,
            other: Some(other),
        }
    }

    // What a drive answers to a write to that page that it refuses.
    pub fn hardware(page: PageAddress) -> Refusal
        ensures { result ≡ hardware page.page }
    {
        Refusal::new(Reason::Hardware, Place::Drive, page)
    }

    pub fn number(self) -> u16
        ensures { result ≡ number self.reason }
    {
        self.reason.number()
    }
}

impl fmt::Display for Refusal {
    ghost output = { λ x. Some (told x) };

    fn fmt<W: fmt::Write>(&self, f: &mut fmt::Formatter<W>) -> fmt::Result {
        let number = self.number();
        let place = self.place;
        let page = self.page.page;
        let meaning = self.reason.meaning(self.place);
        match self.other {
            None => write!(f, "refused {number} {place} {page}: {meaning}"),
            Some(other) => {
                let other = other.page;
                write!(f, "refused {number} {place} {page} {other}: {meaning}")
            }
        }
    }
}
