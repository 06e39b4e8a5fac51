ghost use Rattle.std.specs.Prelude.{◌≡◌, ◌<◌, length, All, find};
ghost use Rattle.survey.specs.Steps.{has_id, pair_of};

use crate::table::Record;
use disk::{FileId, PageAddress};

// The first of the pages that has that file id in the table.
fn first_of(table: &[Record], id: FileId, pages: &[PageAddress]) -> Option<PageAddress>
    requires { All (λ a. a.page < length table.now) pages.now }
    ensures { result ≡ find (has_id table.now id) pages.now }
{
    pages
        .iter()
        .copied()
        .find(|at| table[at.page as usize].id == id)
}

// The first two of the pages that have one file id in the table.
pub(crate) fn first_pair(
    table: &[Record],
    pages: &[PageAddress],
) -> Option<(PageAddress, PageAddress)>
    requires { All (λ a. a.page < length table.now) pages.now }
    ensures { result ≡ pair_of table.now pages.now }
{
    // a loop, for a `find_map` here is no shorter: its closure cuts the pages behind at `i`, too
    for (i, one) in pages.iter().enumerate() {
        let id = table[one.page as usize].id;
        if let Some(two) = first_of(table, id, &pages[i + 1..]) {
            return Some((*one, two));
        }
    }
    None
}
