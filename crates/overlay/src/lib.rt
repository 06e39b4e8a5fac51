// A drive laid over a reader: what is written stays in the drive, and never goes below.
#![tactic(auto)]

ghost use Rattle.std.specs.Prelude.{◌≡◌, ◌≤◌, true, false, ◌&&◌, [], length, Ok, IfErr, MatchResult, IsErrAnd, nat_lt};
ghost use Rattle.std.specs.Result.{is_ok};
ghost use Rattle.disk.specs.Refusals.{hardware};
ghost use Rattle.disk.specs.Media.{label_at, data_at, label_write, data_write, Written, spun_up};
ghost use Rattle.overlay.specs.Overlays.{medium_over, pages_held, Exactly};

mod slot;
mod table;

use arrayvec::CapacityError;
use disk::{Cylinders, Drive, Label, PageAddress, Reader, Refusal};
use table::SlotTable;

// A drive over any reader, with room for 64 pages that differ from those below.
#[derive(Drop)]
pub struct Overlay<R> {
    below: R,
    table: SlotTable,
    on: bool,
}

impl<R: Reader> Overlay<R> {
    #[tactic(auto, using(crate::proofs::Laying::laid_none))]
    pub fn new(below: R) -> Overlay<R>
        ensures medium { medium_over R.Reader.medium result ≡ record { cylinders = (R.Reader.medium below).cylinders; pages = (R.Reader.medium below).pages; on = true; steady = false } }
        ensures held { pages_held result ≡ [] }
        ensures below { result.below ≡ below }
    {
        Overlay {
            below,
            table: SlotTable::new(),
            on: true,
        }
    }

    // Gives the reader back.
    pub fn into_below(self) -> R
        ensures { result ≡ self.below }
    {
        self.below
    }

    // How many pages have a slot.
    pub fn slots_used(&self) -> usize
        ensures count { result ≡ length (pages_held self.now) }
        ensures bound { result ≤ 64 }
    {
        self.table.used()
    }

    // Whether the pack below has the page.
    fn has(&self, at: PageAddress) -> bool
        ensures { result ≡ nat_lt at.page (length (R.Reader.medium self.now.below).pages) }
    {
        at.page < self.below.cylinders().pages()
    }

    // Refuses a write where the drive is off or has no such page.
    fn accepts(&self, at: PageAddress) -> Result<(), Refusal>
        ensures variant { is_ok result ≡ (self.now.on && nat_lt at.page (length (R.Reader.medium self.now.below).pages)) }
        ensures err { IfErr result (λ e. e ≡ hardware at.page) }
    {
        if self.on && self.has(at) {
            Ok(())
        } else {
            Err(Refusal::hardware(at))
        }
    }

    // Answers a write to a page that is there. One that the table could not keep turns the drive off.
    fn answer(&mut self, at: PageAddress, kept: Result<(), CapacityError>) -> Result<(), Refusal>
        ensures on { self.new.on ≡ is_ok kept }
        ensures table { self.new.table ≡ self.old.table }
        ensures below { self.new.below ≡ self.old.below }
        ensures result { MatchResult kept (λ x. result ≡ Ok x) (λ d. IsErrAnd result (λ e. e ≡ hardware at.page)) }
    {
        self.on = kept.is_ok();
        kept.map_err(|_| Refusal::hardware(at))
    }
}

impl<R: Reader> Reader for Overlay<R> {
    ghost medium = { λ d. medium_over R.Reader.medium d };

    #[tactic(auto, using(crate::proofs::Laying::length_laid))]
    fn cylinders(&self) -> Cylinders {
        self.below.cylinders()
    }

    #[tactic(auto, using(crate::proofs::Laying::label_laid))]
    fn read_label(&mut self, at: PageAddress) -> Option<Label>
        ensures answer { result ≡ label_at (medium_over R.Reader.medium self.old).pages at.page }
        ensures same { medium_over R.Reader.medium self.new ≡ medium_over R.Reader.medium self.old }
        ensures held { pages_held self.new ≡ pages_held self.old }
        ensures below { R.Reader.medium self.new.below ≡ R.Reader.medium self.old.below }
    {
        if !self.has(at) {
            return None;
        }
        // a match: after `or_else` the proof would not know the reader that its closure borrows
        match self.table.label(at) {
            Some(label) => Some(label),
            None => self.below.read_label(at),
        }
    }

    #[tactic(auto, using(crate::proofs::Laying::data_laid))]
    fn read_data(&mut self, at: PageAddress) -> Option<[u16; 256]>
        ensures answer { result ≡ data_at (medium_over R.Reader.medium self.old).pages at.page }
        ensures same { medium_over R.Reader.medium self.new ≡ medium_over R.Reader.medium self.old }
        ensures held { pages_held self.new ≡ pages_held self.old }
        ensures below { R.Reader.medium self.new.below ≡ R.Reader.medium self.old.below }
    {
        if !self.has(at) {
            return None;
        }
        // a match, as in `read_label`
        match self.table.data(at) {
            Some(words) => Some(words),
            None => self.below.read_data(at),
        }
    }
}

impl<R: Reader> Drive for Overlay<R> {
    fn write_label(&mut self, at: PageAddress, label: Label) -> Result<(), Refusal>
        ensures rule { Written (label_write at.page label) (medium_over R.Reader.medium self.old) result (medium_over R.Reader.medium self.new) }
        ensures exactly { Exactly (label_write at.page label) (pages_held self.old) (medium_over R.Reader.medium self.old) result (pages_held self.new) (medium_over R.Reader.medium self.new) }
        ensures below { self.new.below ≡ self.old.below }
    {
        self.accepts(at)?;
        let kept = self.table.put_label(at, label);
        self.answer(at, kept)
    }

    fn write_data(&mut self, at: PageAddress, words: &[u16; 256]) -> Result<(), Refusal>
        ensures rule { Written (data_write at.page words.now) (medium_over R.Reader.medium self.old) result (medium_over R.Reader.medium self.new) }
        ensures exactly { Exactly (data_write at.page words.now) (pages_held self.old) (medium_over R.Reader.medium self.old) result (pages_held self.new) (medium_over R.Reader.medium self.new) }
        ensures below { self.new.below ≡ self.old.below }
    {
        self.accepts(at)?;
        let kept = self.table.put_data(at, words);
        self.answer(at, kept)
    }

    fn spin_up(&mut self)
        ensures rule { medium_over R.Reader.medium self.new ≡ spun_up (medium_over R.Reader.medium self.old) }
        ensures held { pages_held self.new ≡ pages_held self.old }
        ensures below { self.new.below ≡ self.old.below }
    {
        self.on = true;
    }
}
