ghost use Rattle.std.specs.Prelude.{◌≡◌, ◌≤◌, length};
ghost use Rattle.bits.specs.Bits.{none_free, free_all};
ghost use Rattle.ledger.specs.Mends.{ends_free, largest_serial};
ghost use Rattle.pack.specs.Linking.{freed_in};

use bits::BitTable;
use disk::PageAddress;
use survey::{Record, Verdict};

// Whether a page of that verdict is free once the pack is mended.
fn ends_free(verdict: Verdict) -> bool
    ensures { result ≡ ends_free verdict }
{
    matches!(verdict, Verdict::Free | Verdict::Stray)
}

// The bits of a mended pack, by the records of its pages from the survey before.
pub(crate) fn mended_bits(table: &[Record]) -> BitTable
    requires { length table.now ≤ 9744 }
    ensures { result.words ≡ free_all (freed_in table.now (length table.now)) none_free }
{
    let mut bits = BitTable::none_free();
    for (page, found) in table.iter().enumerate() {
        if ends_free(found.verdict) {
            bits.free(PageAddress { page: page as u16 });
        }
    }
    bits
}

// The largest serial number of a chained page in a table, or 0 where there is none, as docs/CALLS.md
// promises of the highest.
pub(crate) fn largest_serial(table: &[Record]) -> u32
    ensures { result ≡ largest_serial table.now }
{
    table
        .iter()
        .filter(|found| found.verdict == Verdict::Chained)
        .map(|found| found.id.serial())
        .max()
        .unwrap_or(0)
}
