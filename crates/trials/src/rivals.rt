use crate::building::{Placed, at, blank, full, junk, placed_pack, totals};
use disk::{Place, Reason, Refusal};
use image::ImageReader;
use std::alloc::Global;
use std::process::Abort;
use std::test::Fail;
use survey::{Record, Verdict, survey};

// The leaders of a pack, and the two that a survey names.
#[derive(Clone, Copy)]
struct Case {
    leaders: [Placed; 4],
    one: u16,
    two: u16,
}

fn leader(page: u16, serial: u16) -> Placed {
    full(page, 0, 0, serial)
}

fn check_case(rt: &impl Abort, heap: Global, case: Case) -> Result<(), Fail> {
    let words = placed_pack(heap, &case.leaders)?;
    let mut table = [junk(); 26];
    let answer = survey(&mut ImageReader::new(&words), &mut table);
    let refusal = Refusal::of_two(Reason::Rivals, Place::Pack, at(case.one), at(case.two));
    assert_eq!(rt; answer, Err(refusal));
    for record in table.iter().take(24) {
        assert_eq!(rt; *record, Record::bare(Verdict::Reserved));
    }
    assert_eq!(rt; (table[24], table[25]), (junk(), junk()));
    Ok(())
}

#[test]
fn two_leaders_of_one_file_are_refused(rt: HostRuntime) -> Result<(), Fail> {
    let none = blank();
    let cases = [
        // two, and three
        Case {
            leaders: [leader(3, 7), leader(9, 7), none, none],
            one: 3,
            two: 9,
        },
        Case {
            leaders: [leader(11, 7), leader(3, 7), leader(9, 7), leader(1, 8)],
            one: 3,
            two: 9,
        },
        // two pairs, one between the other, and one after the other
        Case {
            leaders: [leader(2, 7), leader(5, 8), leader(6, 8), leader(20, 7)],
            one: 2,
            two: 20,
        },
        Case {
            leaders: [leader(21, 7), leader(22, 7), leader(4, 8), leader(23, 8)],
            one: 4,
            two: 23,
        },
    ];
    for case in cases {
        check_case(&rt, rt.alloc(), case)?;
    }
    Ok(())
}

#[test]
fn leaders_that_differ_in_one_word_are_no_rivals(rt: HostRuntime) -> Result<(), Fail> {
    let version = Placed {
        page: 4,
        label: [0, 0, 0, 512, 0, 2, 0, 7],
    };
    let directory = Placed {
        page: 5,
        label: [0, 0, 0, 512, 0, 1, 32768, 7],
    };
    // nor is page 0 a rival
    let placed = [leader(3, 7), version, directory, leader(6, 8), leader(0, 7)];
    let words = placed_pack(rt.alloc(), &placed)?;
    let mut table = [junk(); 24];
    assert_eq!(rt;
        survey(&mut ImageReader::new(&words), &mut table),
        Ok(totals([1, 19, 4, 0, 0]))
    );
    Ok(())
}
