ghost use Rattle.std.specs.Prelude.{◌≡◌};
ghost use Rattle.disk.specs.Addresses.{page_named, real_address};
ghost use Rattle.disk.specs.Media.{label_at};
ghost use Rattle.ledger.specs.Runs.{Ran};
ghost use Rattle.ledger.specs.Mends.{relabelling, mend_writes};
ghost use Rattle.pack.specs.Linking.{Surveyed, mended_by};

use crate::links::{Links, find_links};
use disk::{Drive, Label, PageAddress, Refusal};
use ledger::put_label;
use survey::{Record, Verdict};

// Gives a page the label that it is to have, where it can be read and is another: with these links
// in a chain, else free.
fn mend_page<D: Drive>(
    drive: &mut D,
    at: PageAddress,
    chained: Option<Links>,
) -> Result<(), Refusal>
    ensures { Ran (relabelling at.page (label_at (D.Reader.medium drive.old).pages at.page) (mended_by chained (label_at (D.Reader.medium drive.old).pages at.page))) (D.Reader.medium drive.old) result (D.Reader.medium drive.new) }
{
    let Some(old) = drive.read_label(at) else {
        return Ok(());
    };
    let new = match chained {
        Some(Links { next, previous }) => Label {
            next,
            previous,
            ..old
        },
        None => Label::free(),
    };
    if old == new {
        return Ok(());
    }
    put_label(drive, at, new)
}

// Mends a pack without rivals by the table of its survey: every page above 0 gets the label that it
// is to have, in the order of their addresses.
pub(crate) fn mend<D: Drive>(drive: &mut D, table: &[Record]) -> Result<(), Refusal>
    requires surveyed { Surveyed (page_named (D.Reader.medium drive.old).cylinders) (D.Reader.medium drive.old).pages table.now }
    ensures { Ran (mend_writes (page_named (D.Reader.medium drive.old).cylinders) real_address (D.Reader.medium drive.old).pages) (D.Reader.medium drive.old) result (D.Reader.medium drive.new) }
{
    let links = find_links(drive, table);
    // the links by their page, in the one arm that has any: zipped, all three arms would carry them
    for (page, record) in table.iter().enumerate() {
        let chained = match record.verdict {
            Verdict::Reserved => continue,
            Verdict::Chained => Some(links[page]),
            Verdict::Free | Verdict::Stray | Verdict::Aside => None,
        };
        mend_page(drive, PageAddress { page: page as u16 }, chained)?;
    }
    Ok(())
}
