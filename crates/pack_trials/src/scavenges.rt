use crate::building::{
    FREE, at, damaged_pack, free_pack, junk, label_words, put_label, totals, zero,
};
use disk::{Place, Reason, Refusal};
use image::ImageReader;
use image_copy::CopyDrive;
use overlay::Overlay;
use pack::Pack;
use std::test::Fail;

#[test]
fn a_damaged_pack_is_mended(rt: HostRuntime) -> Result<(), Fail> {
    let mut words = damaged_pack(rt.alloc())?;
    let mut pack = Pack::new(CopyDrive::new(words.as_mut_slice()));
    let mut table = [junk(); 25];
    // the answer and the table tell what stood there before
    assert_eq!(rt; pack.scavenge(&mut table), Ok(totals(13, 6, 3, 1)));
    assert_eq!(rt; table[4].leader.page, 3);
    assert_eq!(rt; table[24], junk());
    assert!(rt; pack.is_ready());
    assert_eq!(rt; (pack.highest(), pack.bits_free()), (65545, 16));
    let mended = pack.into_drive().into_words();
    assert_eq!(rt; label_words(mended, 1), [8192, 0, 0, 512, 0, 1, 32768, 1]);
    assert_eq!(rt; label_words(mended, 3), [20480, 0, 5, 512, 0, 1, 0, 2]);
    assert_eq!(rt; label_words(mended, 5), [16384, 12288, 6, 512, 1, 1, 0, 2]);
    assert_eq!(rt; label_words(mended, 4), [0, 20480, 7, 100, 2, 1, 0, 2]);
    assert_eq!(rt; label_words(mended, 6), [0, 0, 0, 512, 0, 1, 1, 9]);
    assert_eq!(rt;
        (label_words(mended, 7), label_words(mended, 8)),
        (FREE, FREE)
    );
    assert_eq!(rt;
        (label_words(mended, 9), label_words(mended, 10)),
        (FREE, FREE)
    );
    Ok(())
}

#[test]
fn a_second_scavenge_finds_nothing_to_mend(rt: HostRuntime) -> Result<(), Fail> {
    let mut words = damaged_pack(rt.alloc())?;
    let mut pack = Pack::new(CopyDrive::new(words.as_mut_slice()));
    let mut table = [junk(); 24];
    assert!(rt; pack.scavenge(&mut table).is_ok());
    let first = label_words(pack.into_drive().into_words(), 4);
    // an overlay that takes no slot was not written
    let mut again = Pack::new(Overlay::new(ImageReader::new(words.as_slice())));
    assert_eq!(rt; again.scavenge(&mut table), Ok(totals(16, 6, 0, 1)));
    assert_eq!(rt; again.into_drive().slots_used(), 0);
    assert_eq!(rt; label_words(words.as_slice(), 4), first);
    Ok(())
}

#[test]
fn rivals_stop_a_scavenge(rt: HostRuntime) -> Result<(), Fail> {
    let mut words = damaged_pack(rt.alloc())?;
    put_label(words.as_mut_slice(), 20, [0, 0, 0, 512, 0, 1, 0, 2]);
    let mut pack = Pack::new(Overlay::new(ImageReader::new(words.as_slice())));
    let mut table = [junk(); 25];
    let refusal = Refusal::of_two(Reason::Rivals, Place::Pack, at(3), at(20));
    assert_eq!(rt; pack.scavenge(&mut table), Err(refusal));
    assert_eq!(rt; (table[0], table[23], table[24]), (zero(), zero(), junk()));
    assert!(rt; !pack.is_ready());
    assert_eq!(rt; pack.into_drive().slots_used(), 0);
    Ok(())
}

#[test]
fn a_short_table_is_not_touched(rt: HostRuntime) -> Result<(), Fail> {
    let words = damaged_pack(rt.alloc())?;
    let mut pack = Pack::new(Overlay::new(ImageReader::new(words.as_slice())));
    let mut table = [junk(); 23];
    let refusal = Refusal::new(Reason::TooSmall, Place::Pack, at(0));
    assert_eq!(rt; pack.scavenge(&mut table), Err(refusal));
    assert_eq!(rt; table[0], junk());
    Ok(())
}

#[test]
fn a_full_overlay_cuts_a_scavenge(rt: HostRuntime) -> Result<(), Fail> {
    // 70 strays: their 65th finds no slot
    let mut words = free_pack(rt.alloc(), 72)?;
    for page in 1..71u16 {
        put_label(words.as_mut_slice(), page, [0, 0, 0, 5, 1, 1, 0, 8]);
    }
    let mut pack = Pack::new(Overlay::new(ImageReader::new(words.as_slice())));
    let mut table = [junk(); 72];
    let refusal = Refusal::new(Reason::Hardware, Place::Drive, at(65));
    assert_eq!(rt; pack.scavenge(&mut table), Err(refusal));
    assert_eq!(rt; (table[0], table[71]), (zero(), zero()));
    assert_eq!(rt; (pack.is_ready(), pack.bits_free()), (false, 0));
    // spun up again, it is full at the same page
    assert_eq!(rt; pack.scavenge(&mut table), Err(refusal));
    assert_eq!(rt; pack.into_drive().slots_used(), 64);
    Ok(())
}

#[test]
fn an_image_that_is_none_has_pages_aside(rt: HostRuntime) -> Result<(), Fail> {
    let mut words = [7u16; 10];
    let mut pack = Pack::new(CopyDrive::new(&mut words));
    let mut table = [junk(); 24];
    assert_eq!(rt; pack.scavenge(&mut table), Ok(totals(0, 0, 0, 23)));
    assert_eq!(rt; (pack.highest(), pack.bits_free()), (0, 0));
    match pack.claim(at(1)) {
        Ok(claim) => {
            pack.give_back(claim);
            Err(Fail::new("a page that cannot be read was claimed"))
        }
        Err(refusal) => {
            assert_eq!(rt;
                refusal,
                Refusal::new(Reason::NoFreePage, Place::Pack, at(0))
            );
            Ok(())
        },
    }
}
