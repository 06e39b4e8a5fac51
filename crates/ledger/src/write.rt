ghost use Rattle.std.specs.Prelude.{[], ◌∷◌};
ghost use Rattle.disk.specs.Media.{label_write, data_write};
ghost use Rattle.ledger.specs.Runs.{Ran};

use disk::{Drive, Label, PageAddress, Refusal};

// A label and data are written by two calls, as the drive has two: they differ in type, and one function of
// both would take the part in a form of its own.

// Writes the label of one page.
pub fn put_label<D: Drive>(drive: &mut D, at: PageAddress, label: Label) -> Result<(), Refusal>
    ensures { Ran (label_write at.page label ∷ []) (D.Reader.medium drive.old) result (D.Reader.medium drive.new) }
{
    drive.write_label(at, label)
}

// Writes the data of one page.
pub fn put_data<D: Drive>(drive: &mut D, at: PageAddress, words: &[u16; 256]) -> Result<(), Refusal>
    ensures { Ran (data_write at.page words.now ∷ []) (D.Reader.medium drive.old) result (D.Reader.medium drive.new) }
{
    drive.write_data(at, words)
}
