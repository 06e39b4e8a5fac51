// Lists of planned writes, and what a run of them does to a drive; what files a pack holds, what each
// call is to write, and what a pack owes its user after a power failure.
#![tactic(auto)]

mod book;
mod frame;
mod free;
mod fresh;
mod handle;
mod kept;
mod run;
mod write;

pub use book::book_examples;
pub use frame::frame_laws;
pub use free::free_pages;
pub use fresh::{new_pack_examples, worked_examples};
pub use handle::Handle;
pub use kept::PackRecord;
pub use run::run_laws;
pub use write::{put_data, put_label};
