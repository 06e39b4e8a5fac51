ghost use Rattle.std.specs.Prelude.{◌≡◌, ◌*◌, length};
ghost use Rattle.disk.specs.Media.{Medium, label_at, data_at, label_write, data_write, Written, spun_up};

use crate::address::PageAddress;
use crate::cylinders::Cylinders;
use crate::label::Label;
use crate::refusal::Refusal;

// Something that has the pages of a pack and can be read.
pub trait Reader {
    // what it means: its pages, and for a drive whether it is on and whether it is steady
    ghost medium: { Self → Medium };

    // How large the pack is: 24 pages for each cylinder.
    fn cylinders(&self) -> Cylinders
        ensures count { result.count ≡ (medium self.now).cylinders }
        ensures pages { length (medium self.now).pages ≡ 24 * result.count };

    // The label of a page, or none where it cannot be read. No read alters a page.
    fn read_label(&mut self, at: PageAddress) -> Option<Label>
        ensures answer { result ≡ label_at (medium self.old).pages at.page }
        ensures same { medium self.new ≡ medium self.old };

    // The data of a page, or none where it cannot be read.
    fn read_data(&mut self, at: PageAddress) -> Option<[u16; 256]>
        ensures answer { result ≡ data_at (medium self.old).pages at.page }
        ensures same { medium self.new ≡ medium self.old };
}

// A reader that can also be written, by the write rule.
pub trait Drive: Reader {
    fn write_label(&mut self, at: PageAddress, label: Label) -> Result<(), Refusal>
        ensures { Written (label_write at.page label) (Self.Reader.medium self.old) result (Self.Reader.medium self.new) };

    fn write_data(&mut self, at: PageAddress, words: &[u16; 256]) -> Result<(), Refusal>
        ensures { Written (data_write at.page words.now) (Self.Reader.medium self.old) result (Self.Reader.medium self.new) };

    // Turns the drive on.
    fn spin_up(&mut self)
        ensures { Self.Reader.medium self.new ≡ spun_up (Self.Reader.medium self.old) };
}
