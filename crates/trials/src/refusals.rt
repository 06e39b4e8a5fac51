use crate::building::at;
use disk::{Place, Reason, Refusal};
use std::alloc::Global;
use std::process::Abort;
use std::test::Fail;

#[test]
fn the_number_of_each_reason(rt: HostRuntime) {
    let cases = [
        (Reason::TooSmall, 4),
        (Reason::TooBig, 5),
        (Reason::BadParameter, 6),
        (Reason::Hardware, 11),
        (Reason::BadState, 12),
        (Reason::BadName, 13),
        (Reason::NoSuchEntry, 14),
        (Reason::BadFile, 15),
        (Reason::PageNotFull, 17),
        (Reason::PageNumberTooSmall, 18),
        (Reason::BadDiskAddress, 19),
        (Reason::Exists, 20),
        (Reason::TooMany, 21),
        (Reason::NoFreePage, 30),
        (Reason::Rivals, 31),
        (Reason::LabelNotFree, 33),
    ];
    for (reason, number) in cases {
        assert_eq!(rt; reason.number(), number);
        assert_eq!(rt; Refusal::new(reason, Place::Pack, at(7)).number(), number);
    }
}

#[test]
fn a_refusal_names_one_page_or_two(rt: HostRuntime) {
    let one = Refusal::new(Reason::BadFile, Place::File, at(7));
    assert_eq!(rt; (one.reason, one.place), (Reason::BadFile, Place::File));
    assert_eq!(rt; (one.page, one.other), (at(7), None));
    let two = Refusal::of_two(Reason::Rivals, Place::Pack, at(3), at(9));
    assert_eq!(rt; (two.page, two.other), (at(3), Some(at(9))));
    assert_ne!(rt; two, Refusal::new(Reason::Rivals, Place::Pack, at(3)));
}

#[test]
fn a_refused_write_is_the_drives(rt: HostRuntime) {
    let refused = Refusal::hardware(at(9743));
    assert_eq!(rt;
        (refused.reason, refused.place),
        (Reason::Hardware, Place::Drive)
    );
    assert_eq!(rt; (refused.page, refused.other), (at(9743), None));
    assert_eq!(rt; refused.number(), 11);
}

fn check_printed(rt: &impl Abort, heap: Global, refusal: Refusal, text: &str) -> Result<(), Fail> {
    let printed = format!(in heap; "{refusal}")?;
    assert_eq!(rt; printed.as_str(), text);
    Ok(())
}

#[test]
fn refusals_of_one_page_as_printed(rt: HostRuntime) -> Result<(), Fail> {
    let heap = rt.alloc();
    let image = Refusal::new(Reason::BadParameter, Place::Image, at(0));
    check_printed(
        &rt,
        heap,
        image,
        "refused 6 image 0: this is not the image of a pack",
    )?;
    let drive = Refusal::new(Reason::Hardware, Place::Drive, at(9743));
    check_printed(
        &rt,
        heap,
        drive,
        "refused 11 drive 9743: the drive refused a write",
    )?;
    let directory = Refusal::new(Reason::NoSuchEntry, Place::Directory, at(65535));
    check_printed(
        &rt,
        heap,
        directory,
        "refused 14 directory 65535: the directory has no such entry",
    )?;
    let file = Refusal::new(Reason::PageNotFull, Place::File, at(12));
    check_printed(&rt, heap, file, "refused 17 file 12: a page is not full")
}

#[test]
fn refusals_of_two_pages_as_printed(rt: HostRuntime) -> Result<(), Fail> {
    let heap = rt.alloc();
    let near = Refusal::of_two(Reason::Rivals, Place::Pack, at(3), at(9));
    check_printed(
        &rt,
        heap,
        near,
        "refused 31 pack 3 9: two leaders claim one file",
    )?;
    let far = Refusal::of_two(Reason::Rivals, Place::Pack, at(1), at(9743));
    check_printed(
        &rt,
        heap,
        far,
        "refused 31 pack 1 9743: two leaders claim one file",
    )
}

#[test]
fn places_as_printed(rt: HostRuntime) -> Result<(), Fail> {
    let cases = [
        (Place::Image, "image"),
        (Place::Pack, "pack"),
        (Place::Directory, "directory"),
        (Place::File, "file"),
        (Place::Drive, "drive"),
    ];
    for (place, name) in cases {
        let printed = format!(in rt.alloc(); "{place}")?;
        assert_eq!(rt; printed.as_str(), name);
    }
    Ok(())
}
