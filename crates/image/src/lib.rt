// A pack kept in words: the image of a disk, a reader and a drive over it.
#![tactic(auto)]

mod coding;
mod drive;
mod layout;
mod reader;

pub use coding::{bytes_to_words, words_to_bytes};
pub use drive::ImageDrive;
pub use layout::{
    cylinders_or_one, open_image, shape, store_data, store_label, stored_data, stored_label,
    stored_mark,
};
pub use reader::ImageReader;
