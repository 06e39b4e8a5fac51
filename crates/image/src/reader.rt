ghost use Rattle.std.specs.Prelude.{◌≡◌, false};
ghost use Rattle.std.proofs.Props.{props};
ghost use Rattle.image.specs.Images.{is_image, image_medium, Found};

use crate::layout::{cylinders_or_one, data_in, label_in, measure};
use disk::{Cylinders, Label, PageAddress, Reader};

// Reads the words of an image. Over words that are no image it has one cylinder that cannot be read.
#[derive(Drop)]
pub struct ImageReader<'a> {
    words: &'a [u16],
    opened: Option<Cylinders>,
    ghost kept: { Found (is_image words.now) words.now opened } by { Prim.hlevel props },
}

impl<'a> ImageReader<'a> {
    pub fn new(words: &'a [u16]) -> ImageReader<'a>
        ensures { result.words.now ≡ words.now }
    {
        let opened = measure(words);
        ImageReader { words, opened }
    }
}

impl<'a> Reader for ImageReader<'a> {
    ghost medium = { λ d. image_medium false d.words.now };

    fn cylinders(&self) -> Cylinders {
        cylinders_or_one(self.opened)
    }

    // The drive reads in the same line: a function for both would ask of its callers what the ghost field of
    // each says of `opened`.
    #[tactic(auto, using(crate::proofs::Tables::reads))]
    fn read_label(&mut self, at: PageAddress) -> Option<Label> {
        label_in(self.words, self.opened?, at.page)
    }

    #[tactic(auto, using(crate::proofs::Tables::reads))]
    fn read_data(&mut self, at: PageAddress) -> Option<[u16; 256]> {
        data_in(self.words, self.opened?, at.page)
    }
}
