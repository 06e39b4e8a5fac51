use crate::building::{ONE, Placed, at, blank, full, junk, part, placed_pack, put_mark, totals};
use disk::{Place, Reason, Refusal};
use image::ImageReader;
use std::alloc::Global;
use std::process::Abort;
use std::test::Fail;
use survey::{Record, Verdict, survey};

// What a survey is to tell of a page.
#[derive(Clone, Copy)]
struct Told {
    page: usize,
    verdict: Verdict,
    leader: u16,
    number: u16,
}

fn chained(page: usize, leader: u16, number: u16) -> Told {
    Told {
        leader,
        number,
        ..bare(page, Verdict::Chained)
    }
}

fn stray(page: usize, number: u16) -> Told {
    Told {
        number,
        ..bare(page, Verdict::Stray)
    }
}

// Of a page that shows no file.
fn bare(page: usize, verdict: Verdict) -> Told {
    Told {
        page,
        verdict,
        leader: 0,
        number: 0,
    }
}

// The labels of a pack, the mark of page 9, and what a survey is to tell of three pages and in all.
#[derive(Clone, Copy)]
struct Case {
    placed: [Placed; 3],
    mark: u16,
    told: [Told; 3],
    totals: [u16; 5],
}

fn pack(placed: [Placed; 3], told: [Told; 3], totals: [u16; 5]) -> Case {
    Case {
        placed,
        mark: 0,
        told,
        totals,
    }
}

fn check_told(rt: &impl Abort, table: &[Record], told: Told, i: usize) {
    let record = table.get(told.page);
    assert_eq!(rt;
        record.map(|r| (r.verdict, r.leader.page, r.number)),
        Some((told.verdict, told.leader, told.number)),
        "case {i}, page {}",
        told.page
    );
}

fn check_case(rt: &impl Abort, heap: Global, case: Case, i: usize) -> Result<(), Fail> {
    let mut words = placed_pack(heap, &case.placed)?;
    put_mark(&mut words, ONE, 9, case.mark);
    let mut table = [junk(); 24];
    let answer = survey(&mut ImageReader::new(&words), &mut table);
    assert_eq!(rt; answer, Ok(totals(case.totals)), "case {i}");
    assert_eq!(rt; table[0], Record::bare(Verdict::Reserved), "case {i}");
    for told in case.told {
        check_told(rt, &table, told, i);
    }
    Ok(())
}

fn check_cases(rt: &impl Abort, heap: Global, cases: &[Case]) -> Result<(), Fail> {
    for (i, case) in cases.iter().enumerate() {
        check_case(rt, heap, *case, i)?;
    }
    Ok(())
}

#[test]
fn free_pages_and_strays(rt: HostRuntime) -> Result<(), Fail> {
    let none = blank();
    let leader = full(3, 9, 0, 7);
    let zero = Placed {
        page: 5,
        label: [0; 8],
    };
    let random = Placed {
        page: 3,
        label: [36864, 0, 0, 512, 0, 1, 16384, 7],
    };
    let random_page = Placed {
        page: 9,
        label: [0, 0, 0, 100, 1, 1, 16384, 7],
    };
    let free = bare(1, Verdict::Free);
    let reserved = bare(0, Verdict::Reserved);
    check_cases(
        &rt,
        rt.alloc(),
        &[
            // no file at all
            pack(
                [none, none, none],
                [reserved, free, bare(23, Verdict::Free)],
                [1, 23, 0, 0, 0],
            ),
            // a label of zeros
            pack(
                [zero, none, none],
                [stray(5, 0), free, free],
                [1, 22, 0, 1, 0],
            ),
            // a leader that is marked random
            pack(
                [random, random_page, none],
                [stray(3, 0), stray(9, 1), free],
                [1, 21, 0, 2, 0],
            ),
            // the label of a leader at page 0
            pack(
                [full(0, 9, 0, 7), part(9, 0, 1, 7), none],
                [reserved, stray(9, 1), free],
                [1, 22, 0, 1, 0],
            ),
            // a link from page 0 that closes a file
            pack(
                [leader, full(9, 0, 1, 7), full(0, 10, 2, 7)],
                [chained(3, 3, 0), chained(9, 3, 1), reserved],
                [1, 21, 2, 0, 0],
            ),
        ],
    )
}

#[test]
fn chains_and_what_breaks_them(rt: HostRuntime) -> Result<(), Fail> {
    let none = blank();
    let free = bare(1, Verdict::Free);
    let leader = full(3, 9, 0, 7);
    let first = chained(3, 3, 0);
    check_cases(
        &rt,
        rt.alloc(),
        &[
            // a leader alone
            pack(
                [full(3, 0, 0, 7), none, none],
                [first, free, free],
                [1, 22, 1, 0, 0],
            ),
            // a file of two pages
            pack(
                [leader, part(9, 0, 1, 7), none],
                [first, chained(9, 3, 1), free],
                [1, 21, 2, 0, 0],
            ),
            // two pages with one page number, of which one is linked
            pack(
                [leader, part(9, 0, 1, 7), part(10, 0, 1, 7)],
                [first, chained(9, 3, 1), stray(10, 1)],
                [1, 20, 2, 1, 0],
            ),
            // a link to a page of another file, and to one with another page number
            pack(
                [leader, part(9, 0, 1, 8), none],
                [first, stray(9, 1), free],
                [1, 21, 1, 1, 0],
            ),
            pack(
                [leader, part(9, 0, 2, 7), none],
                [first, stray(9, 2), free],
                [1, 21, 1, 1, 0],
            ),
            // a link back to the leader, and from the leader to itself
            pack(
                [leader, full(9, 3, 1, 7), none],
                [first, chained(9, 3, 1), free],
                [1, 21, 2, 0, 0],
            ),
            pack(
                [full(3, 3, 0, 7), none, none],
                [first, free, free],
                [1, 22, 1, 0, 0],
            ),
            // a page in the middle that is not full, and one that is
            pack(
                [leader, part(9, 10, 1, 7), part(10, 0, 2, 7)],
                [first, chained(9, 3, 1), stray(10, 2)],
                [1, 20, 2, 1, 0],
            ),
            pack(
                [leader, full(9, 10, 1, 7), part(10, 0, 2, 7)],
                [first, chained(9, 3, 1), chained(10, 3, 2)],
                [1, 20, 3, 0, 0],
            ),
        ],
    )
}

#[test]
fn a_page_that_cannot_be_read_breaks_a_chain(rt: HostRuntime) -> Result<(), Fail> {
    let placed = [full(3, 9, 0, 7), full(9, 10, 1, 7), part(10, 0, 2, 7)];
    let broken = Case {
        placed,
        mark: 1,
        told: [chained(3, 3, 0), bare(9, Verdict::Aside), stray(10, 2)],
        totals: [1, 20, 1, 1, 1],
    };
    // data that cannot be read break none
    let whole = Case {
        placed,
        mark: 2,
        told: [chained(3, 3, 0), chained(9, 3, 1), chained(10, 3, 2)],
        totals: [1, 20, 3, 0, 0],
    };
    check_cases(&rt, rt.alloc(), &[broken, whole])
}

#[test]
fn a_short_table_is_refused_and_left(rt: HostRuntime) -> Result<(), Fail> {
    let words = placed_pack(rt.alloc(), &[full(3, 9, 0, 7), part(9, 0, 1, 7)])?;
    let mut table = [junk(); 23];
    let answer = survey(&mut ImageReader::new(&words), &mut table);
    assert_eq!(rt;
        answer,
        Err(Refusal::new(Reason::TooSmall, Place::Pack, at(0)))
    );
    assert_eq!(rt; table, [junk(); 23]);
    Ok(())
}

#[test]
fn a_long_table_keeps_its_rest(rt: HostRuntime) -> Result<(), Fail> {
    let words = placed_pack(rt.alloc(), &[full(3, 9, 0, 7), part(9, 0, 1, 7)])?;
    let mut table = [junk(); 30];
    let answer = survey(&mut ImageReader::new(&words), &mut table);
    assert_eq!(rt; answer, Ok(totals([1, 21, 2, 0, 0])));
    assert_eq!(rt; table[23], Record::bare(Verdict::Free));
    for record in &table[24..] {
        assert_eq!(rt; *record, junk());
    }
    Ok(())
}

// The page that a survey gives a file as its page of that number.
fn page_of(table: &[Record], leader: u16, number: u16) -> Option<usize> {
    table.iter().position(|record| {
        record.verdict == Verdict::Chained
            && record.leader.page == leader
            && record.number == number
    })
}

// A pack with a file of three pages and a stray tells the same wherever they lie.
fn check_moved(rt: &impl Abort, heap: Global, pages: [u16; 4], i: usize) -> Result<(), Fail> {
    let [a, b, c, d] = pages;
    let placed = [
        full(a, b, 0, 7),
        full(b, c, 1, 7),
        part(c, 0, 2, 7),
        full(d, c, 1, 7),
    ];
    let words = placed_pack(heap, &placed)?;
    let mut table = [junk(); 24];
    let answer = survey(&mut ImageReader::new(&words), &mut table);
    assert_eq!(rt; answer, Ok(totals([1, 19, 3, 1, 0])));
    check_told(rt, &table, stray(d as usize, 1), i);
    assert_eq!(rt; page_of(&table, a, 0), Some(a as usize));
    assert_eq!(rt; page_of(&table, a, 1), Some(b as usize));
    assert_eq!(rt; page_of(&table, a, 2), Some(c as usize));
    assert_eq!(rt; page_of(&table, a, 3), None);
    Ok(())
}

#[test]
fn a_file_is_the_same_wherever_its_pages_lie(rt: HostRuntime) -> Result<(), Fail> {
    let moves = [
        [3, 9, 15, 4],
        [20, 2, 7, 3],
        [23, 22, 21, 1],
        [11, 12, 13, 14],
    ];
    for (i, pages) in moves.iter().enumerate() {
        check_moved(&rt, rt.alloc(), *pages, i)?;
    }
    Ok(())
}
