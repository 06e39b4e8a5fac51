use crate::problem::Problem;
use crate::store::Target;
use disk::Cylinders;
use image_copy::CopyDrive;
use pack::Pack;
use std::alloc::{AllocError, Global};

// The words of an image of so many cylinders, all of them 0 but the counts.
fn blank_words(heap: Global, cylinders: Cylinders) -> Result<Vec<u16>, AllocError> {
    let pages = cylinders.pages();
    let n = pages as usize;
    let mut words = vec![in heap; 0u16; 3 + 265 * n]?;
    for count in [0, 1 + 8 * n, 2 + 264 * n] {
        if let Some(word) = words.get_mut(count) {
            *word = pages;
        }
    }
    Ok(words)
}

// Makes the image of a new pack.
pub fn make_pack(rt: &HostRuntime, count: u16, target: Target<'_>) -> Result<(), Problem> {
    let cylinders = Cylinders::try_from(count)?;
    target.check(rt)?;
    let n = cylinders.pages();
    println!(rt; "making a pack: cylinders {count}, pages {n}")?;
    let mut words = blank_words(rt.alloc(), cylinders)?;
    let mut pack = Pack::new(CopyDrive::new(words.as_mut_slice()));
    pack.format()?;
    let free = pack.bits_free();
    let highest = pack.highest();
    println!(rt; "formatted: free {free}, highest serial number {highest}")?;
    target.store(rt, pack.into_drive().into_words())
}
