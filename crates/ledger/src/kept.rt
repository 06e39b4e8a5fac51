use bits::BitTable;

// What is kept in memory of a pack beside its drive: whether the pack is ready for the calls on
// files, the highest serial number that was given, and which pages are free.
#[derive(Clone, Copy)]
pub struct PackRecord {
    // no enum of two states: both have the same parts, and what a record that is not ready has in them counts
    pub ready: bool,
    pub highest: u32,
    pub bits: BitTable,
}
