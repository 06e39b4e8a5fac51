ghost use Rattle.std.specs.Prelude.{◌≡◌, true, if◌then◌else◌, Ok, Err};
ghost use Rattle.disk.specs.Refusals.{hardware};
ghost use Rattle.disk.specs.Media.{label_at, data_at, label_write, data_write, Written, spun_up};
ghost use Rattle.std.proofs.Props.{props};
ghost use Rattle.image.specs.Images.{is_image, pages_in, image_medium, goes_through, stays_on, Found, Exactly};

use crate::layout::{cylinders_or_one, data_in, label_in, measure, store_data, store_label};
use disk::{Cylinders, Drive, Label, PageAddress, Reader, Refusal};

// A drive that keeps its pack in the words of an image. Over words that are no image it has one
// cylinder that cannot be read, and turns off at each write to it.
#[derive(Drop)]
pub struct ImageDrive<'a> {
    words: &'a mut [u16],
    opened: Option<Cylinders>,
    on: bool,
    ghost kept: { Found (is_image words.now) words.now opened } by { Prim.hlevel props },
}

impl<'a> ImageDrive<'a> {
    pub fn new(words: &'a mut [u16]) -> ImageDrive<'a>
        ensures words { result.words.now ≡ words.old }
        ensures medium { image_medium result.on result.words.now ≡ image_medium true words.old }
    {
        let opened = measure(words);
        ImageDrive {
            words,
            opened,
            on: true,
        }
    }

    // The words, as the writes have left them.
    pub fn into_words(self) -> &'a mut [u16]
        ensures words { result.now ≡ self.entry.words.now }
        ensures pages { pages_in result.now ≡ (image_medium self.entry.on self.entry.words.now).pages }
    {
        let ImageDrive { words, .. } = self;
        words
    }

    #[tactic(auto, using(crate::proofs::Tables::reads))]
    fn label(&self, page: u16) -> Option<Label>
        ensures { result ≡ label_at (pages_in self.now.words.now) page }
    {
        label_in(self.words, self.opened?, page)
    }

    #[tactic(auto, using(crate::proofs::Tables::reads))]
    fn data_words(&self, page: u16) -> Option<[u16; 256]>
        ensures { result ≡ data_at (pages_in self.now.words.now) page }
    {
        data_in(self.words, self.opened?, page)
    }

    // Lets a write to the page go through or refuses it. Over words that are no image it turns the drive
    // off. The copying drive has its own: it decides by the page's mark, and here the image decides.
    fn admit(&mut self, at: PageAddress) -> Result<(), Refusal>
        ensures answer { result ≡ (if goes_through self.old.on self.old.words.now at.page then Ok tt else Err (hardware at.page)) }
        ensures words { self.new.words.now ≡ self.old.words.now }
        ensures on { self.new.on ≡ stays_on self.old.on self.old.words.now at.page }
    {
        if self.on && at.page < self.cylinders().pages() {
            self.on = self.opened.is_some();
            if self.on {
                return Ok(());
            }
        }
        Err(Refusal::hardware(at))
    }
}

impl<'a> Reader for ImageDrive<'a> {
    ghost medium = { λ d. image_medium d.on d.words.now };

    fn cylinders(&self) -> Cylinders {
        cylinders_or_one(self.opened)
    }

    fn read_label(&mut self, at: PageAddress) -> Option<Label>
        ensures answer { result ≡ label_at (image_medium self.old.on self.old.words.now).pages at.page }
        ensures same { image_medium self.new.on self.new.words.now ≡ image_medium self.old.on self.old.words.now }
        ensures words { self.new.words.now ≡ self.old.words.now }
        ensures on { self.new.on ≡ self.old.on }
    {
        self.label(at.page)
    }

    fn read_data(&mut self, at: PageAddress) -> Option<[u16; 256]>
        ensures answer { result ≡ data_at (image_medium self.old.on self.old.words.now).pages at.page }
        ensures same { image_medium self.new.on self.new.words.now ≡ image_medium self.old.on self.old.words.now }
        ensures words { self.new.words.now ≡ self.old.words.now }
        ensures on { self.new.on ≡ self.old.on }
    {
        self.data_words(at.page)
    }
}

impl<'a> Drive for ImageDrive<'a> {
    fn write_label(&mut self, at: PageAddress, label: Label) -> Result<(), Refusal>
        ensures rule { Written (label_write at.page label) (image_medium self.old.on self.old.words.now) result (image_medium self.new.on self.new.words.now) }
        ensures exactly { Exactly (label_write at.page label) self.old.on self.old.words.now result self.new.on self.new.words.now }
    {
        self.admit(at)?;
        store_label(self.words, at.page, label);
        Ok(())
    }

    fn write_data(&mut self, at: PageAddress, words: &[u16; 256]) -> Result<(), Refusal>
        ensures rule { Written (data_write at.page words.now) (image_medium self.old.on self.old.words.now) result (image_medium self.new.on self.new.words.now) }
        ensures exactly { Exactly (data_write at.page words.now) self.old.on self.old.words.now result self.new.on self.new.words.now }
    {
        self.admit(at)?;
        store_data(self.words, at.page, words);
        Ok(())
    }

    fn spin_up(&mut self)
        ensures rule { image_medium self.new.on self.new.words.now ≡ spun_up (image_medium self.old.on self.old.words.now) }
        ensures words { self.new.words.now ≡ self.old.words.now }
    {
        self.on = true;
    }
}
