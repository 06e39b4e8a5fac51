ghost use Rattle.std.specs.Prelude.{length};
ghost use Rattle.ledger.specs.Runs.{Ran, freed_all};

use crate::write::put_label;
use disk::{Drive, Label, PageAddress, Refusal};

// Writes the free label on each page above 0, from the lowest to the highest.
pub fn free_pages<D: Drive>(drive: &mut D) -> Result<(), Refusal>
    ensures { Ran (freed_all (length (D.Reader.medium drive.old).pages)) (D.Reader.medium drive.old) result (D.Reader.medium drive.new) }
{
    for page in 1..drive.cylinders().pages() {
        put_label(drive, PageAddress { page }, Label::free())?;
    }
    Ok(())
}
