use crate::building::{ONE, WORDS, at, free_pack, is_same, put_data, put_label, put_mark, refused};
use disk::{Drive, Label, Reader};
use image::ImageDrive;
use std::test::Fail;

#[test]
fn a_label_that_is_written_can_be_read(rt: HostRuntime) -> Result<(), Fail> {
    for mark in 0..4u16 {
        let mut words = free_pack(rt.alloc(), ONE)?;
        put_mark(&mut words, ONE, 5, mark);
        let mut drive = ImageDrive::new(&mut words);
        assert_eq!(rt; drive.write_label(at(5), Label::from_words(WORDS)), Ok(()));
        assert_eq!(rt; drive.read_label(at(5)), Some(Label::from_words(WORDS)));
        assert_eq!(rt; drive.read_data(at(5)).is_some(), mark < 2);
        let mut expected = free_pack(rt.alloc(), ONE)?;
        put_mark(&mut expected, ONE, 5, mark / 2 * 2);
        put_label(&mut expected, 5, WORDS);
        assert!(rt; is_same(drive.into_words(), &expected), "mark {mark}");
    }
    Ok(())
}

#[test]
fn data_that_are_written_can_be_read(rt: HostRuntime) -> Result<(), Fail> {
    for mark in 0..4u16 {
        let mut words = free_pack(rt.alloc(), ONE)?;
        put_mark(&mut words, ONE, 23, mark);
        let mut drive = ImageDrive::new(&mut words);
        assert_eq!(rt; drive.write_data(at(23), &[9; 256]), Ok(()));
        assert_eq!(rt; drive.read_data(at(23)), Some([9; 256]));
        assert_eq!(rt; drive.read_label(at(23)).is_some(), mark % 2 == 0);
        let mut expected = free_pack(rt.alloc(), ONE)?;
        put_mark(&mut expected, ONE, 23, mark % 2);
        put_data(&mut expected, ONE, 23, [9; 256]);
        assert!(rt; is_same(drive.into_words(), &expected), "mark {mark}");
    }
    Ok(())
}

#[test]
fn a_write_past_the_last_page_is_refused(rt: HostRuntime) -> Result<(), Fail> {
    let expected = free_pack(rt.alloc(), ONE)?;
    let mut words = free_pack(rt.alloc(), ONE)?;
    let mut drive = ImageDrive::new(&mut words);
    assert_eq!(rt;
        drive.write_label(at(24), Label::from_words(WORDS)),
        refused(24)
    );
    assert_eq!(rt; drive.write_data(at(24), &[9; 256]), refused(24));
    assert_eq!(rt; drive.write_data(at(65535), &[9; 256]), refused(65535));
    assert_eq!(rt; drive.read_label(at(24)), None);
    assert!(rt; is_same(drive.into_words(), &expected));
    Ok(())
}

#[test]
fn a_write_past_the_last_page_does_not_turn_the_drive_off(rt: HostRuntime) -> Result<(), Fail> {
    let mut words = free_pack(rt.alloc(), ONE)?;
    let mut drive = ImageDrive::new(&mut words);
    assert_eq!(rt; drive.write_data(at(24), &[9; 256]), refused(24));
    assert_eq!(rt; drive.write_data(at(23), &[9; 256]), Ok(()));
    assert_eq!(rt; drive.write_label(at(0), Label::from_words(WORDS)), Ok(()));
    assert_eq!(rt; drive.read_label(at(0)), Some(Label::from_words(WORDS)));
    Ok(())
}

#[test]
fn words_that_are_no_image_cannot_be_written(rt: HostRuntime) {
    let mut words = [24, 0, 0];
    let mut drive = ImageDrive::new(&mut words);
    assert_eq!(rt; drive.cylinders().count(), 1);
    assert_eq!(rt; drive.read_label(at(0)), None);
    assert_eq!(rt; drive.read_data(at(23)), None);
    assert_eq!(rt;
        drive.write_label(at(5), Label::from_words(WORDS)),
        refused(5)
    );
    assert_eq!(rt; drive.write_data(at(23), &[9; 256]), refused(23));
    assert_eq!(rt; drive.write_data(at(24), &[9; 256]), refused(24));
    drive.spin_up();
    assert_eq!(rt; drive.write_data(at(5), &[9; 256]), refused(5));
    assert_eq!(rt; drive.read_data(at(5)), None);
    assert!(rt; is_same(drive.into_words(), &[24, 0, 0]));
}
