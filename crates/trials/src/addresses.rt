use crate::building::{at, cylinders};
use disk::{Cylinders, NoSuchSize, PageAddress, RealAddress};
use std::test::Fail;

fn word(word: u16) -> RealAddress {
    RealAddress { word }
}

#[test]
fn page_and_real_address_name_each_other(rt: HostRuntime) -> Result<(), Fail> {
    // how many cylinders the pack has, a page of it, and the page's real address
    let cases = [
        (4, 0, 0),
        (4, 1, 4096),
        (4, 12, 4),
        (4, 24, 8),
        (4, 95, 45084),
        (203, 4871, 46676),
        (406, 9743, 48300),
    ];
    for (count, page, real) in cases {
        let pack = cylinders(count)?;
        assert_eq!(rt; at(page).real(pack), Some(word(real)));
        assert_eq!(rt; word(real).page(pack), Some(at(page)));
    }
    Ok(())
}

#[test]
fn words_that_name_no_page(rt: HostRuntime) -> Result<(), Fail> {
    // sector 12, sector 15, the disk bit, the restore bit, and the first track past the pack
    let words = [49152, 65532, 2, 1, 3, 32];
    let pack = cylinders(4)?;
    for w in words {
        assert_eq!(rt; word(w).page(pack), None, "word {w}");
    }
    assert_eq!(rt; word(8).page(cylinders(1)?), None);
    Ok(())
}

#[test]
fn pages_past_the_last_have_no_real_address(rt: HostRuntime) -> Result<(), Fail> {
    let counts = [1, 4, 203, 406];
    for count in counts {
        let pack = cylinders(count)?;
        let n = pack.pages();
        assert_eq!(rt; at(n).real(pack), None);
        assert!(rt; at(n - 1).real(pack).is_some());
        assert_eq!(rt; at(65535).real(pack), None);
    }
    Ok(())
}

#[test]
fn packs_of_1_to_406_cylinders(rt: HostRuntime) -> Result<(), Fail> {
    assert!(rt; Cylinders::new(0).is_none());
    assert!(rt; Cylinders::new(407).is_none());
    assert!(rt; Cylinders::new(65535).is_none());
    let smallest = cylinders(1)?;
    assert_eq!(rt; (smallest.count(), smallest.pages()), (1, 24));
    let largest = cylinders(406)?;
    assert_eq!(rt; (largest.count(), largest.pages()), (406, 9744));
    Ok(())
}

#[test]
fn other_numbers_of_cylinders_are_named(rt: HostRuntime) -> Result<(), Fail> {
    assert_eq!(rt; Cylinders::try_from(0), Err(NoSuchSize(0)));
    assert_eq!(rt; Cylinders::try_from(407), Err(NoSuchSize(407)));
    assert_eq!(rt; Cylinders::try_from(406), Ok(cylinders(406)?));
    let size = NoSuchSize(407);
    let printed = format!(in rt.alloc(); "{size}")?;
    assert_eq!(rt; printed.as_str(), "a pack has 1 to 406 cylinders, not 407");
    Ok(())
}

#[test]
fn every_page_of_one_cylinder_there_and_back(rt: HostRuntime) -> Result<(), Fail> {
    let pack = cylinders(1)?;
    for page in 0..24u16 {
        let back = at(page).real(pack).and_then(|real| real.page(pack));
        assert_eq!(rt; back, Some(at(page)));
    }
    Ok(())
}
