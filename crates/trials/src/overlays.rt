use crate::building::{WORDS, at, free_pack, is_same, old_data, put_mark, refused};
use disk::{Drive, Label, Reader};
use image::ImageReader;
use overlay::Overlay;
use std::process::Abort;
use std::test::Fail;

#[test]
fn a_new_label_lies_over_old_data(rt: HostRuntime) -> Result<(), Fail> {
    let words = free_pack(rt.alloc(), 72)?;
    let mut drive = Overlay::new(ImageReader::new(&words));
    assert_eq!(rt; drive.cylinders().count(), 3);
    assert_eq!(rt; drive.slots_used(), 0);
    assert_eq!(rt; drive.write_label(at(71), Label::from_words(WORDS)), Ok(()));
    assert_eq!(rt; drive.slots_used(), 1);
    assert_eq!(rt; drive.read_label(at(71)), Some(Label::from_words(WORDS)));
    assert_eq!(rt; drive.read_data(at(71)), Some(old_data(71)));
    assert_eq!(rt; drive.read_label(at(70)), Some(Label::free()));
    let mut below = drive.into_below();
    assert_eq!(rt; below.read_label(at(71)), Some(Label::free()));
    Ok(())
}

#[test]
fn new_data_lie_over_an_old_label(rt: HostRuntime) -> Result<(), Fail> {
    let words = free_pack(rt.alloc(), 72)?;
    let mut drive = Overlay::new(ImageReader::new(&words));
    assert_eq!(rt; drive.write_data(at(0), &[9; 256]), Ok(()));
    assert_eq!(rt; drive.read_data(at(0)), Some([9; 256]));
    assert_eq!(rt; drive.read_label(at(0)), Some(Label::free()));
    assert_eq!(rt; drive.read_data(at(1)), Some(old_data(1)));
    // the other part of the same page takes no second slot
    assert_eq!(rt; drive.write_label(at(0), Label::from_words(WORDS)), Ok(()));
    assert_eq!(rt; drive.slots_used(), 1);
    assert_eq!(rt; drive.read_data(at(0)), Some([9; 256]));
    let mut below = drive.into_below();
    assert_eq!(rt; below.read_data(at(0)), Some(old_data(0)));
    Ok(())
}

#[test]
fn a_part_that_cannot_be_read_stays_so_under_the_other(rt: HostRuntime) -> Result<(), Fail> {
    let mut words = free_pack(rt.alloc(), 24)?;
    put_mark(&mut words, 24, 5, 3);
    let mut drive = Overlay::new(ImageReader::new(&words));
    assert_eq!(rt; drive.write_label(at(5), Label::from_words(WORDS)), Ok(()));
    assert_eq!(rt; drive.read_label(at(5)), Some(Label::from_words(WORDS)));
    assert_eq!(rt; drive.read_data(at(5)), None);
    assert_eq!(rt; drive.write_data(at(5), &[9; 256]), Ok(()));
    assert_eq!(rt; drive.read_data(at(5)), Some([9; 256]));
    Ok(())
}

#[test]
fn a_write_past_the_last_page_is_refused(rt: HostRuntime) -> Result<(), Fail> {
    let words = free_pack(rt.alloc(), 24)?;
    let mut drive = Overlay::new(ImageReader::new(&words));
    assert_eq!(rt;
        drive.write_label(at(24), Label::from_words(WORDS)),
        refused(24)
    );
    assert_eq!(rt; drive.write_data(at(24), &[9; 256]), refused(24));
    assert_eq!(rt; drive.read_label(at(24)), None);
    assert_eq!(rt; drive.slots_used(), 0);
    // and the drive stays on
    assert_eq!(rt; drive.write_data(at(23), &[9; 256]), Ok(()));
    Ok(())
}

// Writes the labels of 64 pages, and so takes every slot.
fn fill(rt: &impl Abort, drive: &mut Overlay<ImageReader>) {
    for page in 0..64u16 {
        assert_eq!(rt;
            drive.write_label(at(page), Label::from_words([page; 8])),
            Ok(())
        );
    }
    assert_eq!(rt; drive.slots_used(), 64);
}

#[test]
fn a_full_overlay_still_takes_the_pages_that_it_holds(rt: HostRuntime) -> Result<(), Fail> {
    let words = free_pack(rt.alloc(), 72)?;
    let expected = free_pack(rt.alloc(), 72)?;
    let mut drive = Overlay::new(ImageReader::new(&words));
    fill(&rt, &mut drive);
    assert_eq!(rt; drive.write_label(at(0), Label::from_words(WORDS)), Ok(()));
    assert_eq!(rt; drive.write_data(at(63), &[9; 256]), Ok(()));
    assert_eq!(rt; drive.read_label(at(0)), Some(Label::from_words(WORDS)));
    assert_eq!(rt; drive.read_data(at(63)), Some([9; 256]));
    assert_eq!(rt; drive.read_label(at(63)), Some(Label::from_words([63; 8])));
    assert_eq!(rt; drive.slots_used(), 64);
    drop(drive.into_below());
    assert!(rt; is_same(&words, &expected));
    Ok(())
}

#[test]
fn the_65th_page_turns_an_overlay_off(rt: HostRuntime) -> Result<(), Fail> {
    let words = free_pack(rt.alloc(), 72)?;
    let mut drive = Overlay::new(ImageReader::new(&words));
    fill(&rt, &mut drive);
    assert_eq!(rt;
        drive.write_label(at(64), Label::from_words(WORDS)),
        refused(64)
    );
    assert_eq!(rt; drive.read_label(at(64)), Some(Label::free()));
    // now it is off, and refuses the pages that it holds
    assert_eq!(rt;
        drive.write_label(at(0), Label::from_words(WORDS)),
        refused(0)
    );
    assert_eq!(rt; drive.write_data(at(63), &[9; 256]), refused(63));
    assert_eq!(rt; drive.read_label(at(0)), Some(Label::from_words([0; 8])));
    drive.spin_up();
    assert_eq!(rt; drive.write_label(at(0), Label::from_words(WORDS)), Ok(()));
    assert_eq!(rt; drive.write_data(at(63), &[9; 256]), Ok(()));
    assert_eq!(rt; drive.slots_used(), 64);
    assert_eq!(rt; drive.write_data(at(71), &[9; 256]), refused(71));
    assert_eq!(rt; drive.write_data(at(63), &[9; 256]), refused(63));
    Ok(())
}
