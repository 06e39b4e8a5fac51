ghost use Rattle.std.specs.Prelude.{◌≡◌};

use disk::PageAddress;

// A page that was taken from the free ones and is owed: one places its label, or gives it back. It
// cannot be forgotten, copied or made otherwise.
pub struct Claim {
    pub(crate) page: PageAddress,
}

impl Claim {
    pub fn page(&self) -> PageAddress
        ensures { result ≡ self.now.page }
    {
        self.page
    }
}
