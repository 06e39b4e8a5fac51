ghost use Rattle.std.specs.Prelude.{false};
ghost use Rattle.image.specs.Images.{image_medium};

use crate::building::{full, junk, placed_pack};
use disk::{Cylinders, Label, PageAddress, Reader};
use image::ImageReader;
use std::test::Fail;
use survey::survey;

// A reader that counts the labels that it reads.
#[derive(Drop)]
struct Counting<'a> {
    below: ImageReader<'a>,
    labels: usize,
}

impl<'a> Reader for Counting<'a> {
    ghost medium = { λ d. image_medium false d.below.words.now };

    fn cylinders(&self) -> Cylinders {
        self.below.cylinders()
    }

    fn read_label(&mut self, at: PageAddress) -> Option<Label> {
        self.labels = self.labels.saturating_add(1);
        self.below.read_label(at)
    }

    fn read_data(&mut self, at: PageAddress) -> Option<[u16; 256]> {
        self.below.read_data(at)
    }
}

// Each label is read once by the scan, and once more for each page of a chain and for what it names.
#[test]
fn a_survey_reads_each_label_a_few_times(rt: HostRuntime) -> Result<(), Fail> {
    let words = placed_pack(
        rt.alloc(),
        &[full(3, 9, 0, 7), full(9, 4, 1, 7), full(4, 3, 0, 8)],
    )?;
    let mut reader = Counting {
        below: ImageReader::new(&words),
        labels: 0,
    };
    let mut table = [junk(); 24];
    assert!(rt; survey(&mut reader, &mut table).is_ok());
    assert_eq!(rt; reader.labels, 24 + 2 + 3);
    Ok(())
}
