ghost use Rattle.std.specs.Prelude.{◌≡◌};
ghost use Rattle.disk.specs.Media.{a_label, a_data};
ghost use Rattle.overlay.specs.Slots.{empty_slot, with_part};

use disk::{Label, PageAddress};

// A page that was written: its new label, its new data, or both.
#[derive(Clone, Copy, Default)]
pub struct Slot {
    pub page: PageAddress,
    pub label: Option<Label>,
    pub words: Option<[u16; 256]>,
}

impl Slot {
    // A slot of that page with nothing new in it.
    pub fn new(page: PageAddress) -> Slot
        ensures { result ≡ empty_slot page.page }
    {
        Slot {
            page,
            label: None,
            words: None,
        }
    }

    pub fn set_label(&mut self, label: Label)
        ensures { self.new ≡ with_part self.old (a_label label) }
    {
        self.label = Some(label);
    }

    pub fn set_data(&mut self, words: &[u16; 256])
        ensures { self.new ≡ with_part self.old (a_data words.now) }
    {
        self.words = Some(*words);
    }
}
