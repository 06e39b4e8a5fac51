ghost use Rattle.std.specs.Prelude.{◌≡◌, ◌≤◌, [], length, ◌==◌, find, position};
ghost use Rattle.std.specs.Option.{option_map};
ghost use Rattle.disk.specs.Media.{a_label, a_data};
ghost use Rattle.overlay.specs.Slots.{slot_of, held_pages};
ghost use Rattle.overlay.specs.Placing.{Opened, Kept};

use crate::slot::Slot;
use arrayvec::{ArrayVec, CapacityError};
use disk::{Label, PageAddress};

// The slots of an overlay, one to a page.
#[derive(Drop)]
pub struct SlotTable {
    slots: ArrayVec<Slot, 64>,
}

impl SlotTable {
    pub fn new() -> SlotTable
        ensures { result.slots.items ≡ [] }
    {
        SlotTable {
            slots: ArrayVec::new(),
        }
    }

    pub fn used(&self) -> usize
        ensures count { result ≡ length (held_pages self.now.slots.items) }
        ensures bound { result ≤ 64 }
    {
        self.slots.len()
    }

    // The slot of a page.
    fn slot(&self, at: PageAddress) -> Option<&Slot>
        ensures { option_map (λ s. s.now) result ≡ find (λ s. s.page.page == at.page) self.now.slots.items }
    {
        self.slots.iter().find(|s| s.page == at)
    }

    // The new label of a page.
    #[tactic(auto, using(crate::proofs::Keeping::slot_is))]
    pub fn label(&self, at: PageAddress) -> Option<Label>
        ensures { result ≡ (slot_of self.now.slots.items at.page).label }
    {
        self.slot(at)?.label
    }

    // The new data of a page.
    #[tactic(auto, using(crate::proofs::Keeping::slot_is))]
    pub fn data(&self, at: PageAddress) -> Option<[u16; 256]>
        ensures { result ≡ (slot_of self.now.slots.items at.page).words }
    {
        self.slot(at)?.words
    }

    // Where the slot of a page stands.
    fn place(&self, at: PageAddress) -> Option<usize>
        ensures { result ≡ position (λ s. s.page.page == at.page) self.now.slots.items }
    {
        self.slots.iter().position(|s| s.page == at)
    }

    // Where the slot of a page stands, which is made where it has none.
    fn open(&mut self, at: PageAddress) -> Result<usize, CapacityError>
        ensures { Opened self.old.slots.items at.page result self.new.slots.items }
    {
        if let Some(i) = self.place(at) {
            return Ok(i);
        }
        self.slots
            .try_push(Slot::new(at))
            .map_err(CapacityError::simplify)?;
        Ok(self.slots.len() - 1)
    }

    // A label and data differ in their type and in the slot's method that takes them: one function for
    // both would take a closure that changes the slot, and be longer.

    // Keeps a new label of a page; refused where no slot is left for it.
    pub fn put_label(&mut self, at: PageAddress, label: Label) -> Result<(), CapacityError>
        ensures { Kept self.old.slots.items at.page (a_label label) result self.new.slots.items }
    {
        let i = self.open(at)?;
        self.slots[i].set_label(label);
        Ok(())
    }

    // Keeps new data of a page; refused where no slot is left for it.
    pub fn put_data(&mut self, at: PageAddress, words: &[u16; 256]) -> Result<(), CapacityError>
        ensures { Kept self.old.slots.items at.page (a_data words.now) result self.new.slots.items }
    {
        let i = self.open(at)?;
        self.slots[i].set_data(words);
        Ok(())
    }
}
