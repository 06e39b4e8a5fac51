ghost use Rattle.std.specs.Prelude.{◌≡◌, ◌+◌, ◌*◌, true, false, MatchOption};
ghost use Rattle.disk.specs.Media.{label_at, data_at, a_label, a_data};
ghost use Rattle.image.specs.Images.{count, is_shaped, marks_fine, is_image, pages_if, has_page, mark_at, stored_if, Found, Opened};
ghost use Rattle.image.specs.Steps.{Placed};

use crate::coding::refused;
use disk::{Cylinders, Label, Reason, Refusal};

// The cylinders, where the length and the three counts agree on a number that a pack has.
pub fn shape(words: &[u16]) -> Option<Cylinders>
    ensures { Found (is_shaped words.now) words.now result }
{
    let count = *words.first()?;
    let n = count as usize;
    if words.len() == 3 + 265 * n
        && words[1 + 8 * n] == count
        && words[2 + 264 * n] == count
        && count % 24 == 0
    {
        Cylinders::new(count / 24)
    } else {
        None
    }
}

// Whether no mark is above 3.
fn are_marks_fine(marks: &[u16]) -> bool
    ensures { result ≡ marks_fine marks.now }
{
    marks.iter().all(|mark| *mark <= 3)
}

// The cylinders of an image, if the words are one.
pub(crate) fn measure(words: &[u16]) -> Option<Cylinders>
    ensures { Found (is_image words.now) words.now result }
{
    let cylinders = shape(words)?;
    let n = cylinders.pages() as usize;
    are_marks_fine(&words[3 + 264 * n..]).then_some(cylinders)
}

// The cylinders of an image; a refusal for words that are none.
pub fn open_image(words: &[u16]) -> Result<Cylinders, Refusal>
    ensures { Opened words.now result }
{
    measure(words).ok_or(refused(Reason::BadParameter))
}

// How many cylinders are to be read: one that cannot be read where none are found.
pub fn cylinders_or_one(found: Option<Cylinders>) -> Cylinders
    ensures { MatchOption found (result.count ≡ 1) (λ c. result ≡ c) }
{
    found.unwrap_or(Cylinders::new(1).unwrap())
}

// Where the parts of a page stand in the words. The calls below take words and a page: a struct of both
// would be two, one that borrows the words to read and one to write.
#[derive(Clone, Copy)]
struct Places {
    label: usize,
    words: usize,
    mark: usize,
}

// None where words of that size have no such page.
fn places_in(words: &[u16], cylinders: Cylinders, page: u16) -> Option<Places>
    requires shaped { is_shaped words.now ≡ true }
    requires size { 24 * cylinders.count ≡ count words.now }
    ensures { MatchOption result (has_page words.now page ≡ false) (λ at. Placed words.now page at.label at.words at.mark) }
{
    if page >= cylinders.pages() {
        return None;
    }
    let n = cylinders.pages() as usize;
    let p = page as usize;
    Some(Places {
        label: 1 + 8 * p,
        words: 2 + 8 * n + 256 * p,
        mark: 3 + 264 * n + p,
    })
}

// None where the words lack the shape of an image or have no such page.
fn places_of(words: &[u16], page: u16) -> Option<Places>
    ensures { MatchOption result (has_page words.now page ≡ false) (λ at. Placed words.now page at.label at.words at.mark) }
{
    places_in(words, shape(words)?, page)
}

// The mark of a page in words of an image's shape, whatever it says.
pub fn stored_mark(words: &[u16], page: u16) -> Option<u16>
    ensures { result ≡ mark_at words.now page }
{
    let at = places_of(words, page)?;
    Some(words[at.mark])
}

// A label and data differ in their bit of the mark, their place and their type: reads and stores of
// both in one would take all three and be longer.

// A reader that has measured its words reads by the size that they have: to find it at each read takes some
// five times as long. That the words have it is asked for by `places_in` and both reads, since a struct of
// words and size would be made anew at each.

// The label of a page in words of that size, where its mark says that it can be read.
#[tactic(auto, using(crate::proofs::Tables::label_read))]
pub(crate) fn label_in(words: &[u16], cylinders: Cylinders, page: u16) -> Option<Label>
    requires shaped { is_shaped words.now ≡ true }
    requires size { 24 * cylinders.count ≡ count words.now }
    ensures { result ≡ label_at (pages_if (is_shaped words.now) words.now) page }
{
    let at = places_in(words, cylinders, page)?;
    if words[at.mark] % 2 == 1 {
        return None;
    }
    let mut eight = [0; 8];
    eight.copy_from_slice(&words[at.label..at.label + 8]);
    Some(Label::from_words(eight))
}

// The data of a page, likewise.
#[tactic(auto, using(crate::proofs::Tables::data_read))]
pub(crate) fn data_in(words: &[u16], cylinders: Cylinders, page: u16) -> Option<[u16; 256]>
    requires shaped { is_shaped words.now ≡ true }
    requires size { 24 * cylinders.count ≡ count words.now }
    ensures { result ≡ data_at (pages_if (is_shaped words.now) words.now) page }
{
    let at = places_in(words, cylinders, page)?;
    if words[at.mark] >= 2 {
        return None;
    }
    let mut data = [0; 256];
    data.copy_from_slice(&words[at.words..at.words + 256]);
    Some(data)
}

// The label of a page in words of an image's shape, likewise.
#[tactic(auto, using(crate::proofs::Tables::reads))]
pub fn stored_label(words: &[u16], page: u16) -> Option<Label>
    ensures { result ≡ label_at (pages_if (is_shaped words.now) words.now) page }
{
    label_in(words, shape(words)?, page)
}

// The data of a page in words of that shape, likewise.
#[tactic(auto, using(crate::proofs::Tables::reads))]
pub fn stored_data(words: &[u16], page: u16) -> Option<[u16; 256]>
    ensures { result ≡ data_at (pages_if (is_shaped words.now) words.now) page }
{
    data_in(words, shape(words)?, page)
}

// Puts a new label on a page, which can then be read. Words without that page stay as they are.
pub fn store_label(words: &mut [u16], page: u16, label: Label)
    ensures { words.new ≡ stored_if words.old page (a_label label) }
{
    if let Some(at) = places_of(words, page) {
        words[at.mark] -= words[at.mark] % 2;
        words[at.label..at.label + 8].copy_from_slice(&label.to_words());
    }
}

// Puts new data on a page, likewise.
pub fn store_data(words: &mut [u16], page: u16, data: &[u16; 256])
    ensures { words.new ≡ stored_if words.old page (a_data «data».now) }
{
    if let Some(at) = places_of(words, page) {
        words[at.mark] %= 2;
        words[at.words..at.words + 256].copy_from_slice(data);
    }
}
