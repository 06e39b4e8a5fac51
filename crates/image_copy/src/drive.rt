ghost use Rattle.std.specs.Prelude.{◌≡◌, true, false, MatchOption, ◌&&◌, if◌then◌else◌, Ok, Err};
ghost use Rattle.disk.specs.Refusals.{hardware};
ghost use Rattle.disk.specs.Media.{label_at, data_at, a_label, a_data, label_write, data_write, Written, spun_up};
ghost use Rattle.image.specs.Images.{is_image, pages_in, image_medium, stored_if, Found};
ghost use Rattle.image_copy.specs.Drives.{has_pages, drive_medium, is_inside, takes, goes_through, stays_on, Exactly};

use disk::{Cylinders, Drive, Label, PageAddress, Reader, Refusal};
use image::{
    cylinders_or_one, open_image, shape, store_data, store_label, stored_data, stored_label,
    stored_mark,
};

// A drive over the words of an image that a pack can hold by value. Over words that are no image it has
// one cylinder that cannot be read, and turns off at each write to it.
// Its fields are plain, and `opened` is a flag that the contracts name: the prover does not cover a type
// argument that is a struct with a `&mut` and a ghost field, as in `Pack<ImageDrive>`.
#[derive(Drop)]
pub struct CopyDrive<'a> {
    words: &'a mut [u16],
    opened: bool,
    on: bool,
}

impl<'a> CopyDrive<'a> {
    pub fn new(words: &'a mut [u16]) -> CopyDrive<'a>
        ensures words { result.words.now ≡ words.old }
        ensures opened { result.opened ≡ is_image words.old }
        ensures on { result.on ≡ true }
        ensures medium { drive_medium result.opened result.on result.words.now ≡ image_medium true words.old }
    {
        let opened = open_image(words).is_ok();
        CopyDrive {
            words,
            opened,
            on: true,
        }
    }

    // The words, as the writes have left them. Those of a steady drive are an image with its pages.
    pub fn into_words(self) -> &'a mut [u16]
        ensures words { result.now ≡ self.entry.words.now }
        ensures pages { (drive_medium self.entry.opened self.entry.on self.entry.words.now).steady ≡ true → pages_in result.now ≡ (drive_medium self.entry.opened self.entry.on self.entry.words.now).pages }
    {
        let CopyDrive { words, .. } = self;
        words
    }

    // The words, where they were an image when the drive was made.
    fn opened_words(&self) -> Option<&[u16]>
        ensures { MatchOption result (self.now.opened ≡ false) (λ ws. (self.now.opened ≡ true) × (ws.now ≡ self.now.words.now)) }
    {
        if self.opened { Some(self.words) } else { None }
    }

    // The cylinders of the pages in the words, if there are any.
    #[tactic(auto, using(crate::proofs::Having::sizes))]
    fn measured(&self) -> Option<Cylinders>
        ensures { Found (has_pages self.now.opened self.now.words.now) self.now.words.now result }
    {
        shape(self.opened_words()?)
    }

    #[tactic(auto, using(crate::proofs::Having::reads))]
    fn label(&self, page: u16) -> Option<Label>
        ensures { result ≡ label_at (drive_medium self.now.opened self.now.on self.now.words.now).pages page }
    {
        stored_label(self.opened_words()?, page)
    }

    #[tactic(auto, using(crate::proofs::Having::reads))]
    fn data_words(&self, page: u16) -> Option<[u16; 256]>
        ensures { result ≡ data_at (drive_medium self.now.opened self.now.on self.now.words.now).pages page }
    {
        stored_data(self.opened_words()?, page)
    }

    // Whether there is that page, with a mark that an image has.
    fn takes(&self, page: u16) -> bool
        ensures { result ≡ (is_inside self.now.opened self.now.words.now page && takes self.now.opened self.now.words.now page) }
    {
        self.opened && stored_mark(self.words, page).is_some_and(|mark| mark <= 3)
    }

    // Puts a label on a page of the words, or data, and leaves the drive as it is.

    fn put_label(&mut self, page: u16, label: Label)
        ensures words { self.new.words.now ≡ stored_if self.old.words.now page (a_label label) }
        ensures opened { self.new.opened ≡ self.old.opened }
        ensures on { self.new.on ≡ self.old.on }
    {
        store_label(self.words, page, label);
    }

    fn put_data(&mut self, page: u16, words: &[u16; 256])
        ensures words { self.new.words.now ≡ stored_if self.old.words.now page (a_data words.now) }
        ensures opened { self.new.opened ≡ self.old.opened }
        ensures on { self.new.on ≡ self.old.on }
    {
        store_data(self.words, page, words);
    }

    // Lets a write to the page go through or refuses it. A page that takes no write turns the drive off.
    // This and the writes are as in `ImageDrive`, where whether the words are an image decides, and here
    // the page's own mark.
    fn admit(&mut self, at: PageAddress) -> Result<(), Refusal>
        ensures answer { result ≡ (if goes_through self.old.opened self.old.on self.old.words.now at.page then Ok tt else Err (hardware at.page)) }
        ensures on { self.new.on ≡ stays_on self.old.opened self.old.on self.old.words.now at.page }
        ensures words { self.new.words.now ≡ self.old.words.now }
        ensures opened { self.new.opened ≡ self.old.opened }
    {
        if self.on && self.takes(at.page) {
            return Ok(());
        }
        if at.page < self.cylinders().pages() {
            self.on = false;
        }
        Err(Refusal::hardware(at))
    }
}

impl<'a> Reader for CopyDrive<'a> {
    ghost medium = { λ d. drive_medium d.opened d.on d.words.now };

    #[tactic(auto, using(crate::proofs::Having::told))]
    fn cylinders(&self) -> Cylinders {
        cylinders_or_one(self.measured())
    }

    fn read_label(&mut self, at: PageAddress) -> Option<Label>
        ensures answer { result ≡ label_at (drive_medium self.old.opened self.old.on self.old.words.now).pages at.page }
        ensures same { drive_medium self.new.opened self.new.on self.new.words.now ≡ drive_medium self.old.opened self.old.on self.old.words.now }
        ensures words { self.new.words.now ≡ self.old.words.now }
        ensures opened { self.new.opened ≡ self.old.opened }
        ensures on { self.new.on ≡ self.old.on }
    {
        self.label(at.page)
    }

    fn read_data(&mut self, at: PageAddress) -> Option<[u16; 256]>
        ensures answer { result ≡ data_at (drive_medium self.old.opened self.old.on self.old.words.now).pages at.page }
        ensures same { drive_medium self.new.opened self.new.on self.new.words.now ≡ drive_medium self.old.opened self.old.on self.old.words.now }
        ensures words { self.new.words.now ≡ self.old.words.now }
        ensures opened { self.new.opened ≡ self.old.opened }
        ensures on { self.new.on ≡ self.old.on }
    {
        self.data_words(at.page)
    }
}

impl<'a> Drive for CopyDrive<'a> {
    fn write_label(&mut self, at: PageAddress, label: Label) -> Result<(), Refusal>
        ensures rule { Written (label_write at.page label) (drive_medium self.old.opened self.old.on self.old.words.now) result (drive_medium self.new.opened self.new.on self.new.words.now) }
        ensures exactly { Exactly (label_write at.page label) self.old.opened self.old.on self.old.words.now result self.new.on self.new.words.now }
        ensures opened { self.new.opened ≡ self.old.opened }
    {
        self.admit(at)?;
        self.put_label(at.page, label);
        Ok(())
    }

    fn write_data(&mut self, at: PageAddress, words: &[u16; 256]) -> Result<(), Refusal>
        ensures rule { Written (data_write at.page words.now) (drive_medium self.old.opened self.old.on self.old.words.now) result (drive_medium self.new.opened self.new.on self.new.words.now) }
        ensures exactly { Exactly (data_write at.page words.now) self.old.opened self.old.on self.old.words.now result self.new.on self.new.words.now }
        ensures opened { self.new.opened ≡ self.old.opened }
    {
        self.admit(at)?;
        self.put_data(at.page, words);
        Ok(())
    }

    fn spin_up(&mut self)
        ensures rule { drive_medium self.new.opened self.new.on self.new.words.now ≡ spun_up (drive_medium self.old.opened self.old.on self.old.words.now) }
        ensures words { self.new.words.now ≡ self.old.words.now }
        ensures opened { self.new.opened ≡ self.old.opened }
    {
        self.on = true;
    }
}
