// The bit table of a pack: one bit a page, 0 where the page is free.
#![tactic(auto)]

ghost use Rattle.std.specs.Prelude.{◌≡◌, ◌-◌, ◌<◌, ◌≤◌, min, ◌&&◌, if◌then◌else◌, ◌==◌, nat_lt};
ghost use Rattle.std.specs.Option.{option_map};
ghost use Rattle.bits.specs.Bits.{page_bit, taken, freed, none_free, first_free, round_free, start_page, ones_in, zeros_in, Run, BitLaws};

use disk::PageAddress;

// How many pages the largest pack has.
const PAGES: u16 = 9744;

// Of fixed size, for the largest pack: no library crate allocates.
#[derive(Clone, Copy)]
pub struct BitTable {
    words: [u16; 609],
}

impl BitTable {
    #[tactic(auto, unfolding(crate::specs::Bits::none_free))]
    pub fn none_free() -> BitTable
        ensures { result.words ≡ none_free }
    {
        BitTable {
            words: [0xffff; 609],
        }
    }

    #[tactic(auto, unfolding(crate::specs::Bits::page_bit))]
    pub fn is_free(&self, at: PageAddress) -> bool
        ensures { result ≡ (nat_lt at.page 9744 && page_bit self.now.words at.page == 0) }
    {
        at.page < PAGES && (self.words[at.page as usize / 16] >> (15 - at.page % 16)) % 2 == 0
    }

    // Marks the page as not free.
    #[tactic(auto, using(crate::proofs::Marks::made_one), unfolding(crate::specs::Bits::taken, crate::specs::Bits::page_bit))]
    pub fn take(&mut self, at: PageAddress)
        ensures { self.new.words ≡ (if nat_lt at.page 9744 then taken self.old.words at.page else self.old.words) }
    {
        if at.page < PAGES {
            self.words[at.page as usize / 16] |= 0x8000 >> (at.page % 16);
        }
    }

    // Marks the page as free.
    #[tactic(auto, using(crate::proofs::Marks::made_nought), unfolding(crate::specs::Bits::freed, crate::specs::Bits::page_bit))]
    pub fn free(&mut self, at: PageAddress)
        ensures { self.new.words ≡ (if nat_lt at.page 9744 then freed self.old.words at.page else self.old.words) }
    {
        if at.page < PAGES {
            self.words[at.page as usize / 16] &= !(0x8000 >> (at.page % 16));
        }
    }

    // The first free page of so many, from start on and round again from page 1.
    pub fn next_free(&self, start: PageAddress, pages: u16) -> Option<PageAddress>
        ensures { option_map (λ a. a.page) result ≡ round_free self.now.words (start_page start.page (min pages 9744)) (min pages 9744) }
    {
        let end = pages.min(PAGES);
        let first = start_page(start.page, end);
        self.first_free(first, end)
            .or_else(|| self.first_free(1, first))
    }

    // The first free page from a up to b - 1.
    #[tactic(auto, using(crate::proofs::Searches::ends))]
    fn first_free(&self, a: u16, b: u16) -> Option<PageAddress>
        requires { b ≤ 9744 }
        ensures { option_map (λ a. a.page) result ≡ first_free self.now.words a (b - a) }
    {
        // a `while`: a turn passes all ones that lead a word at once, as docs/CALLS.md promises, and `p` is
        // where the next word begins, not a counted index
        let mut p = a;
        while p < b {
            let n = ones_from(self.words[p as usize / 16], p % 16);
            let page = p - p % 16 + n;
            if n < 16 {
                return (page < b).then_some(PageAddress { page });
            }
            p = page;
        }
        None
    }

    // How many bits are 1.
    #[tactic(auto, unfolding(crate::specs::Bits::ones_in))]
    pub fn ones(&self) -> u32
        ensures { result ≡ ones_in self.now.words }
    {
        self.words.iter().map(|w| w.count_ones()).sum()
    }

    // How many bits are 0.
    pub fn zeros(&self) -> u32
        ensures { result ≡ zeros_in self.now.words }
    {
        self.words.iter().map(|w| w.count_zeros()).sum()
    }
}

// Where a search of so many pages starts.
fn start_page(start: u16, pages: u16) -> u16
    ensures { result ≡ start_page start pages }
{
    if (1..=pages).contains(&start) {
        start
    } else {
        1
    }
}

// Where the ones of a word that begin at bit k end; the bits before k are taken for ones.
#[tactic(auto, using(crate::proofs::Runs::runs))]
fn ones_from(w: u16, k: u16) -> u16
    requires { k < 16 }
    ensures { Run w k result }
{
    (w | !(0xffff >> k)).leading_ones() as u16
}

// What is proved of the definitions above.
pub fn bit_laws()
    ensures { BitLaws }
{}
