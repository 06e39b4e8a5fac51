use crate::building::{ONE, at, free_pack, put, put_mark};
use disk::{Place, Reason, Refusal};
use image::open_image;
use std::alloc::Global;
use std::process::Abort;
use std::test::Fail;

// How many cylinders the words open to.
fn opened(words: &[u16]) -> Result<u16, Refusal> {
    open_image(words).map(|cylinders| cylinders.count())
}

fn refused() -> Result<u16, Refusal> {
    Err(Refusal::new(Reason::BadParameter, Place::Image, at(0)))
}

fn check_refused(rt: &impl Abort, words: &[u16]) {
    assert_eq!(rt; opened(words), refused());
}

#[test]
fn packs_of_whole_cylinders_open(rt: HostRuntime) -> Result<(), Fail> {
    let smallest = free_pack(rt.alloc(), 24)?;
    assert_eq!(rt; smallest.len(), 6363);
    assert_eq!(rt; opened(&smallest), Ok(1));
    let double = free_pack(rt.alloc(), 48)?;
    assert_eq!(rt; opened(&double), Ok(2));
    let largest = free_pack(rt.alloc(), 9744)?;
    assert_eq!(rt; largest.len(), 2582163);
    assert_eq!(rt; opened(&largest), Ok(406));
    Ok(())
}

#[test]
fn other_numbers_of_pages_are_refused(rt: HostRuntime) -> Result<(), Fail> {
    // none, parts of cylinders, and 407 cylinders
    let counts = [0, 1, 23, 25, 47, 9768];
    for count in counts {
        let words = free_pack(rt.alloc(), count)?;
        assert_eq!(rt; opened(&words), refused(), "{count} pages");
    }
    Ok(())
}

#[test]
fn wrong_lengths_are_refused(rt: HostRuntime) -> Result<(), Fail> {
    check_refused(&rt, &[]);
    check_refused(&rt, &[24]);
    let mut words = free_pack(rt.alloc(), ONE)?;
    words.push(0)?;
    check_refused(&rt, &words);
    assert!(rt; words.pop().is_some());
    assert_eq!(rt; opened(&words), Ok(1));
    assert!(rt; words.pop().is_some());
    check_refused(&rt, &words);
    Ok(())
}

#[test]
fn wrong_counts_and_marks_are_refused(rt: HostRuntime) -> Result<(), Fail> {
    // a place in a pack of one cylinder, and another word for it
    let changes = [
        // the first, the second and the third count
        (0, 48),
        (193, 25),
        (6338, 0),
        // the marks of the first page and of the last
        (6339, 4),
        (6362, 4),
        (6362, 65535),
    ];
    for (place, word) in changes {
        let mut words = free_pack(rt.alloc(), ONE)?;
        put(&mut words, place, &[word]);
        assert_eq!(rt; opened(&words), refused(), "place {place}");
    }
    Ok(())
}

#[test]
fn marks_to_3_open(rt: HostRuntime) -> Result<(), Fail> {
    for mark in 0..4u16 {
        let mut words = free_pack(rt.alloc(), ONE)?;
        put_mark(&mut words, ONE, 0, mark);
        put_mark(&mut words, ONE, 23, mark);
        assert_eq!(rt; opened(&words), Ok(1), "mark {mark}");
    }
    Ok(())
}
