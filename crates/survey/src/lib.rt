// Which page belongs to which file.
#![tactic(auto)]

mod call;
mod count;
mod pairs;
mod scan;
mod table;
mod trace;
mod walk;

pub use call::survey;
pub use count::clear_records;
pub use table::{Record, Totals, Verdict};
pub use trace::Link;
pub use walk::next_link;
