// A drive over the words of an image, of plain fields, so that a pack can hold one by value.
#![tactic(auto)]

mod drive;

pub use drive::CopyDrive;
