ghost use Rattle.std.specs.Prelude.{◌≡◌, ◌*◌, length};
ghost use Rattle.bits.specs.Bits.{none_free, free_all};
ghost use Rattle.ledger.specs.Formats.{leader_data, directory_data, directory_page_label, directory_leader_label, directory_writes, format_writes, new_free};
ghost use Rattle.ledger.specs.Runs.{Ran};

use bits::BitTable;
use disk::{Cylinders, Drive, Label, PageAddress, RealAddress, Refusal};
use ledger::{free_pages, put_data, put_label};

// The data page of a new directory: its own entry of 10 words, and a hole of the other 246.
fn directory_data() -> [u16; 256]
    ensures { result ≡ directory_data }
{
    let entry = [1034, 32768, 1, 1, 0, 1, 1619, 22867, 17481, 20992, 246];
    let mut words = [0; 256];
    words[..11].copy_from_slice(&entry);
    words
}

// The data of a leader that was made at time 0.
fn directory_leader_data() -> [u16; 256]
    ensures { result ≡ leader_data 0 0 }
{
    [0; 256]
}

// The label of the directory's leader, on page 1: page 2 comes next.
fn directory_leader_label() -> Label
    ensures { result ≡ directory_leader_label }
{
    Label {
        next: RealAddress { word: 8192 },
        previous: RealAddress { word: 0 },
        blank: 0,
        characters: 512,
        number: 0,
        version: 1,
        serial1: 32768,
        serial2: 1,
    }
}

// The label of the directory's data page, on page 2: it comes behind page 1.
fn directory_page_label() -> Label
    ensures { result ≡ directory_page_label }
{
    Label {
        next: RealAddress { word: 0 },
        previous: RealAddress { word: 4096 },
        number: 1,
        ..directory_leader_label()
    }
}

// Writes a new directory: page 2 and then its leader, data before label.
fn write_directory<D: Drive>(drive: &mut D) -> Result<(), Refusal>
    ensures { Ran directory_writes (D.Reader.medium drive.old) result (D.Reader.medium drive.new) }
{
    let leader = PageAddress { page: 1 };
    let page = PageAddress { page: 2 };
    put_data(drive, page, &directory_data())?;
    put_label(drive, page, directory_page_label())?;
    put_data(drive, leader, &directory_leader_data())?;
    put_label(drive, leader, directory_leader_label())?;
    Ok(())
}

// Frees all pages, and writes a new directory.
pub(crate) fn write_new<D: Drive>(drive: &mut D) -> Result<(), Refusal>
    ensures { Ran (format_writes (length (D.Reader.medium drive.old).pages)) (D.Reader.medium drive.old) result (D.Reader.medium drive.new) }
{
    free_pages(drive)?;
    write_directory(drive)
}

// The bits of a new pack of that size: all are free but the first three.
pub(crate) fn new_bits(cylinders: Cylinders) -> BitTable
    ensures { result.words ≡ free_all (new_free (24 * cylinders.count)) none_free }
{
    let mut bits = BitTable::none_free();
    for page in 3..cylinders.pages() {
        bits.free(PageAddress { page });
    }
    bits
}
