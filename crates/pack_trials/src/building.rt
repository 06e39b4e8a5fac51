// Some helpers stand here as in `trials`, whose own no crate can import, being of its tests. A crate for
// both would owe contracts and edits for what only tests call, which is no plainer.
use disk::{FileId, PageAddress};
use std::alloc::{AllocError, Global};
use survey::{Record, Totals, Verdict};

pub const FREE: [u16; 8] = [0, 0, 0, 0, 0, 65535, 65535, 65535];

pub fn at(page: u16) -> PageAddress {
    PageAddress { page }
}

// Puts the new words in their places from i on, where there are such places.
fn put(words: &mut [u16], i: usize, new: &[u16]) {
    if i < words.len() {
        for (place, word) in words[i..].iter_mut().zip(new) {
            *place = *word;
        }
    }
}

pub fn put_label(words: &mut [u16], page: u16, label: [u16; 8]) {
    put(words, 1 + 8 * page as usize, &label);
}

// Puts the mark of a page: 1 for a label that cannot be read, and 2 more for such data.
pub fn put_mark(words: &mut [u16], pages: u16, page: u16, mark: u16) {
    put(words, 3 + 264 * pages as usize + page as usize, &[mark]);
}

// The eight words of a page's label in an image.
pub fn label_words(words: &[u16], page: u16) -> [u16; 8] {
    let first = 1 + 8 * page as usize;
    let mut label = [0; 8];
    if words.len() >= first + 8 {
        label.copy_from_slice(&words[first..first + 8]);
    }
    label
}

// The words of a pack of so many pages, all of them free, with data zero.
pub fn free_pack(heap: Global, pages: u16) -> Result<Vec<u16>, AllocError> {
    let mut words = vec![in heap; 0u16; 3 + 265 * pages as usize]?;
    put(&mut words, 0, &[pages]);
    put(&mut words, 1 + 8 * pages as usize, &[pages]);
    put(&mut words, 2 + 264 * pages as usize, &[pages]);
    for page in 0..pages {
        put_label(&mut words, page, FREE);
    }
    Ok(words)
}

// A pack of one cylinder with some damage: the directory on 1 and 2; a memo on 3, 5 and 4 whose
// links to the pages before are wrong; a leader on 6 that names the stray on 7; two more strays on 8
// and 9; and page 10, whose label cannot be read.
pub fn damaged_pack(heap: Global) -> Result<Vec<u16>, AllocError> {
    let mut words = free_pack(heap, 24)?;
    put_label(&mut words, 1, [8192, 0, 0, 512, 0, 1, 32768, 1]);
    put_label(&mut words, 2, [0, 4096, 0, 512, 1, 1, 32768, 1]);
    put_label(&mut words, 3, [20480, 777, 5, 512, 0, 1, 0, 2]);
    put_label(&mut words, 5, [16384, 4096, 6, 512, 1, 1, 0, 2]);
    put_label(&mut words, 4, [28672, 12288, 7, 100, 2, 1, 0, 2]);
    put_label(&mut words, 6, [28672, 0, 0, 512, 0, 1, 1, 9]);
    put_label(&mut words, 7, [0, 24576, 0, 12, 2, 1, 1, 9]);
    put_label(&mut words, 8, [0, 0, 0, 0, 0, 0, 0, 0]);
    put_label(&mut words, 9, [0, 0, 0, 512, 0, 1, 16384, 3]);
    put_mark(&mut words, 24, 10, 1);
    Ok(words)
}

// A record that no survey makes.
pub fn junk() -> Record {
    Record {
        verdict: Verdict::Aside,
        leader: at(65535),
        id: FileId {
            version: 7,
            serial1: 7,
            serial2: 7,
        },
        number: 9999,
    }
}

// A record that was cleared.
pub fn zero() -> Record {
    Record::bare(Verdict::Reserved)
}

pub fn totals(free: u16, chained: u16, stray: u16, aside: u16) -> Totals {
    Totals {
        reserved: 1,
        free,
        chained,
        stray,
        aside,
    }
}
