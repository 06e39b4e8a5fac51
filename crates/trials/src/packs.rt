use crate::building::{at, free_pack, junk, totals};
use disk::{Label, Place, Reader, Reason, Refusal};
use image::ImageReader;
use overlay::Overlay;
use pack::Pack;
use std::test::Fail;

#[test]
fn format_makes_a_directory_and_free_pages(rt: HostRuntime) -> Result<(), Fail> {
    let words = free_pack(rt.alloc(), 48)?;
    let mut pack = Pack::new(Overlay::new(ImageReader::new(&words)));
    assert!(rt; !pack.is_ready());
    assert_eq!(rt; pack.bits_free(), 0);
    assert_eq!(rt; pack.format(), Ok(()));
    assert!(rt; pack.is_ready());
    assert_eq!(rt; pack.highest(), 1);
    assert_eq!(rt; (pack.bits_free(), pack.bits_taken()), (45, 9699));
    let mut table = [junk(); 48];
    assert_eq!(rt; pack.survey(&mut table), Ok(totals([1, 45, 2, 0, 0])));
    let mut drive = pack.into_drive();
    let leader = Label::from_words([8192, 0, 0, 512, 0, 1, 32768, 1]);
    assert_eq!(rt; drive.read_label(at(1)), Some(leader));
    Ok(())
}

#[test]
fn format_stops_where_the_overlay_is_full(rt: HostRuntime) -> Result<(), Fail> {
    let words = free_pack(rt.alloc(), 72)?;
    let mut pack = Pack::new(Overlay::new(ImageReader::new(&words)));
    let full = Refusal::new(Reason::Hardware, Place::Drive, at(65));
    assert_eq!(rt; pack.format(), Err(full));
    assert!(rt; !pack.is_ready());
    assert_eq!(rt; pack.bits_free(), 0);
    Ok(())
}

#[test]
fn claims_are_placed_or_given_back(rt: HostRuntime) -> Result<(), Fail> {
    let words = free_pack(rt.alloc(), 24)?;
    let mut pack = Pack::new(Overlay::new(ImageReader::new(&words)));
    assert_eq!(rt; pack.format(), Ok(()));
    let Ok(first) = pack.claim(at(1)) else {
        return Err(Fail::new("no page is free"));
    };
    let page = first.page();
    pack.give_back(first);
    assert_eq!(rt; page, at(3));
    // from the last page on, the search goes round
    let Ok(again) = pack.claim(at(24)) else {
        return Err(Fail::new("no page is free"));
    };
    let page = again.page();
    let placed = pack.place(again, Label::from_words([0, 0, 0, 512, 0, 1, 0, 2]));
    assert_eq!(rt; page, at(3));
    assert_eq!(rt; placed, Ok(()));
    assert_eq!(rt; pack.bits_free(), 20);
    Ok(())
}
