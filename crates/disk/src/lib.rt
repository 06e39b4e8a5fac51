// The words of the disk format, and what a page, a reader and a drive mean.
#![tactic(auto)]

mod address;
mod cylinders;
mod drive;
mod label;
mod refusal;
mod size;

pub use address::{PageAddress, RealAddress, address_examples};
pub use cylinders::Cylinders;
pub use drive::{Drive, Reader};
pub use label::{FileId, Label, label_words};
pub use refusal::{Place, Reason, Refusal};
pub use size::NoSuchSize;
