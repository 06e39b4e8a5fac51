use crate::building::{ONE, at, free_pack, old_data, put_label, put_mark};
use disk::{Label, Reader};
use image::ImageReader;
use std::test::Fail;

#[test]
fn reads_of_the_first_page_and_of_the_last(rt: HostRuntime) -> Result<(), Fail> {
    let first = [1, 2, 3, 4, 5, 6, 7, 8];
    let last = [11, 12, 13, 14, 15, 16, 17, 18];
    let mut words = free_pack(rt.alloc(), 48)?;
    put_label(&mut words, 0, first);
    put_label(&mut words, 47, last);
    let mut reader = ImageReader::new(&words);
    assert_eq!(rt; reader.cylinders().count(), 2);
    assert_eq!(rt; reader.read_label(at(0)), Some(Label::from_words(first)));
    assert_eq!(rt; reader.read_data(at(0)), Some(old_data(0)));
    assert_eq!(rt; reader.read_label(at(47)), Some(Label::from_words(last)));
    assert_eq!(rt; reader.read_data(at(47)), Some(old_data(47)));
    assert_eq!(rt; reader.read_label(at(1)), Some(Label::free()));
    Ok(())
}

#[test]
fn reads_past_the_last_page(rt: HostRuntime) -> Result<(), Fail> {
    let pages = [24, 25, 48, 65535];
    let words = free_pack(rt.alloc(), ONE)?;
    let mut reader = ImageReader::new(&words);
    for page in pages {
        assert_eq!(rt; reader.read_label(at(page)), None);
        assert_eq!(rt; reader.read_data(at(page)), None);
    }
    Ok(())
}

#[test]
fn a_mark_says_what_cannot_be_read(rt: HostRuntime) -> Result<(), Fail> {
    // a mark, and whether the label and the data of a page that has it can be read
    let cases = [
        (0, true, true),
        (1, false, true),
        (2, true, false),
        (3, false, false),
    ];
    for (mark, label, data) in cases {
        let mut words = free_pack(rt.alloc(), ONE)?;
        put_mark(&mut words, ONE, 23, mark);
        let mut reader = ImageReader::new(&words);
        assert_eq!(rt; reader.read_label(at(23)).is_some(), label);
        assert_eq!(rt; reader.read_data(at(23)).is_some(), data);
        assert_eq!(rt; reader.read_label(at(22)), Some(Label::free()));
        assert_eq!(rt; reader.read_data(at(22)), Some(old_data(22)));
    }
    Ok(())
}

#[test]
fn words_that_are_no_image_are_one_unreadable_cylinder(rt: HostRuntime) {
    let mut reader = ImageReader::new(&[24, 0, 0]);
    assert_eq!(rt; reader.cylinders().count(), 1);
    for page in 0..25u16 {
        assert_eq!(rt; reader.read_label(at(page)), None);
        assert_eq!(rt; reader.read_data(at(page)), None);
    }
}
