use disk::{Cylinders, FileId, PageAddress, Place, Reason, Refusal};
use std::alloc::{AllocError, Global};
use std::test::Fail;
use survey::{Record, Totals, Verdict};

// How many pages a pack of one cylinder has.
pub const ONE: u16 = 24;

// The words of the label of a free page.
const FREE: [u16; 8] = [0, 0, 0, 0, 0, 65535, 65535, 65535];

// The words of a label to write.
pub const WORDS: [u16; 8] = [1, 2, 3, 4, 5, 6, 7, 8];

pub fn at(page: u16) -> PageAddress {
    PageAddress { page }
}

pub fn cylinders(count: u16) -> Result<Cylinders, Fail> {
    Cylinders::new(count).ok_or_else(|| Fail::new("no pack has so many cylinders"))
}

// Puts the new words in their places from i on, where there are such places.
pub fn put(words: &mut [u16], i: usize, new: &[u16]) {
    if i < words.len() {
        for (place, word) in words[i..].iter_mut().zip(new) {
            *place = *word;
        }
    }
}

pub fn put_label(words: &mut [u16], page: u16, label: [u16; 8]) {
    put(words, 1 + 8 * page as usize, &label);
}

// Puts the mark of a page: 1 for a label that cannot be read, and 2 more for such data.
pub fn put_mark(words: &mut [u16], pages: u16, page: u16, mark: u16) {
    put(words, 3 + 264 * pages as usize + page as usize, &[mark]);
}

// The data that a page has in a pack of free pages: no two words of a small pack are the same.
pub fn old_data(page: u16) -> [u16; 256] {
    let mut data = [0; 256];
    for (word, k) in data.iter_mut().zip(0..256u16) {
        *word = page.wrapping_mul(256).wrapping_add(k);
    }
    data
}

pub fn put_data(words: &mut [u16], pages: u16, page: u16, data: [u16; 256]) {
    put(words, 2 + 8 * pages as usize + 256 * page as usize, &data);
}

// The words of a pack of so many pages, all of them free.
pub fn free_pack(heap: Global, pages: u16) -> Result<Vec<u16>, AllocError> {
    let mut words = vec![in heap; 0u16; 3 + 265 * pages as usize]?;
    put(&mut words, 0, &[pages]);
    put(&mut words, 1 + 8 * pages as usize, &[pages]);
    put(&mut words, 2 + 264 * pages as usize, &[pages]);
    for page in 0..pages {
        put_label(&mut words, page, FREE);
        put_data(&mut words, pages, page, old_data(page));
    }
    Ok(words)
}

// Whether words are the same: a function, since a Vec, an array and what a drive gives back are of other
// types, and the two sides of `==` have to be of one.
pub fn is_same(one: &[u16], two: &[u16]) -> bool {
    one == two
}

// The real address of a page of a pack of one cylinder.
pub fn link(page: u16) -> u16 {
    4096 * (page % 12) + 4 * (page / 12 % 2)
}

// A label, and the page that has it.
#[derive(Clone, Copy)]
pub struct Placed {
    pub page: u16,
    pub label: [u16; 8],
}

// A page of the file of that serial number, full, with its page number and with its next page.
pub fn full(page: u16, next: u16, number: u16, serial: u16) -> Placed {
    Placed {
        page,
        label: [link(next), 0, 0, 512, number, 1, 0, serial],
    }
}

// The same with fewer characters.
pub fn part(page: u16, next: u16, number: u16, serial: u16) -> Placed {
    let mut placed = full(page, next, number, serial);
    placed.label[3] = 511;
    placed
}

// A page that is free all the same.
pub fn blank() -> Placed {
    Placed {
        page: 23,
        label: FREE,
    }
}

// The words of a pack of one cylinder whose pages are free but for those.
pub fn placed_pack(heap: Global, placed: &[Placed]) -> Result<Vec<u16>, AllocError> {
    let mut words = free_pack(heap, ONE)?;
    for p in placed {
        put_label(&mut words, p.page, p.label);
    }
    Ok(words)
}

pub fn totals(numbers: [u16; 5]) -> Totals {
    let [reserved, free, chained, stray, aside] = numbers;
    Totals {
        reserved,
        free,
        chained,
        stray,
        aside,
    }
}

// What a drive answers that refuses a write to that page.
pub fn refused(page: u16) -> Result<(), Refusal> {
    Err(Refusal::new(Reason::Hardware, Place::Drive, at(page)))
}

// A record that no survey makes.
pub fn junk() -> Record {
    Record {
        verdict: Verdict::Aside,
        leader: at(65535),
        id: FileId {
            version: 7,
            serial1: 7,
            serial2: 7,
        },
        number: 9999,
    }
}
