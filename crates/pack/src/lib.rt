// A pack in a drive: its record, claims on free pages, format and the scavenge.
#![tactic(auto)]

mod claim;
mod fresh;
mod links;
mod mend;
mod pack;
mod renew;

pub use claim::Claim;
pub use pack::Pack;
