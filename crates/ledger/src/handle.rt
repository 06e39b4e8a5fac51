use disk::{FileId, PageAddress};

// What opens a file: its id, and the page where its leader stands.
#[derive(Clone, Copy, PartialEq, Eq, Debug)]
pub struct Handle {
    pub id: FileId,
    pub leader: PageAddress,
}
