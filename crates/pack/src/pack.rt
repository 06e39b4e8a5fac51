ghost use Rattle.std.specs.Prelude.{◌≡◌, ◌≤◌, true, [], ◌∷◌, length, is_ok};
ghost use Rattle.disk.specs.Addresses.{page_named, real_address};
ghost use Rattle.disk.specs.Media.{label_at, label_write, spun_up};
ghost use Rattle.bits.specs.Bits.{ones_in, zeros_in};
ghost use Rattle.survey.specs.Chains.{rivalled};
ghost use Rattle.survey.specs.Verdicts.{survey_answer, survey_table};
ghost use Rattle.ledger.specs.Runs.{Ran};
ghost use Rattle.ledger.specs.Plans.{first_record, unready, Done, Planned};
ghost use Rattle.ledger.specs.Formats.{format_plan, FormatValue};
ghost use Rattle.ledger.specs.Mends.{mending, scavenge_table};
ghost use Rattle.ledger.specs.Scavenges.{Scavenged, ScavengeValue, ThroughOrOff, ThenMended, NothingLostOnTheWay};
ghost use Rattle.ledger.specs.News.{NewPack};
ghost use Rattle.ledger.specs.Searches.{searched, free_label_at};
ghost use Rattle.pack.specs.Claims.{returned, claim_answer, claim_record, pack_refusal, page_claimed, placed_record, surveyed_record};

use crate::claim::Claim;
use crate::fresh::{new_bits, write_new};
use crate::mend::mend;
use crate::renew::{largest_serial, mended_bits};
use bits::BitTable;
use disk::{Drive, Label, PageAddress, Place, Reason, Refusal};
use ledger::{PackRecord, put_label};
use survey::{Record, Totals, clear_records, survey};

// A refusal of the pack itself, at none of its pages.
fn pack_refusal(reason: Reason) -> Refusal
    ensures { result ≡ pack_refusal reason }
{
    Refusal::new(reason, Place::Pack, PageAddress { page: 0 })
}

// A pack in a drive, and what is kept of it in memory.
#[derive(Drop)]
pub struct Pack<D> {
    drive: D,
    kept: PackRecord,
}

impl<D: Drive> Pack<D> {
    // The pack in a drive, not ready yet.
    pub fn new(drive: D) -> Pack<D>
        ensures drive { result.drive ≡ drive }
        ensures kept { result.kept ≡ first_record }
    {
        let kept = PackRecord {
            ready: false,
            highest: 0,
            bits: BitTable::none_free(),
        };
        Pack { drive, kept }
    }

    // Gives the drive back.
    pub fn into_drive(self) -> D
        ensures { result ≡ self.drive }
    {
        let Pack { drive, kept: _ } = self;
        drive
    }

    pub fn is_ready(&self) -> bool
        ensures { result ≡ self.now.kept.ready }
    {
        self.kept.ready
    }

    // The highest serial number that was given or found.
    pub fn highest(&self) -> u32
        ensures { result ≡ self.now.kept.highest }
    {
        self.kept.highest
    }

    // How many bits of the bit table are 1.
    pub fn bits_taken(&self) -> u32
        ensures { result ≡ ones_in self.now.kept.bits.words }
    {
        self.kept.bits.ones()
    }

    // How many bits of the bit table are 0.
    pub fn bits_free(&self) -> u32
        ensures { result ≡ zeros_in self.now.kept.bits.words }
    {
        self.kept.bits.zeros()
    }

    // Surveys the pack. With rivals it is not ready any more.
    pub fn survey(&mut self, table: &mut [Record]) -> Result<Totals, Refusal>
        ensures answer { result ≡ survey_answer (page_named (D.Reader.medium self.old.drive).cylinders) (D.Reader.medium self.old.drive).pages (length table.old) }
        ensures table { table.new ≡ survey_table (page_named (D.Reader.medium self.old.drive).cylinders) (D.Reader.medium self.old.drive).pages table.old }
        ensures same { D.Reader.medium self.new.drive ≡ D.Reader.medium self.old.drive }
        ensures kept { self.new.kept ≡ surveyed_record self.old.kept result }
    {
        let answer = survey(&mut self.drive, table);
        if answer.is_err_and(|refusal| refusal.other.is_some()) {
            self.set_unready();
        }
        answer
    }

    // Makes a new pack: all pages free but the directory SYSDIR on pages 1 and 2.
    pub fn format(&mut self) -> Result<(), Refusal>
        ensures done { Done (format_plan (length (D.Reader.medium self.old.drive).pages)) (spun_up (D.Reader.medium self.old.drive)) self.old.kept result (D.Reader.medium self.new.drive) self.new.kept }
        ensures value { Planned (format_plan (length (D.Reader.medium self.old.drive).pages)) (spun_up (D.Reader.medium self.old.drive)) result (D.Reader.medium self.new.drive) self.new.kept }
        ensures steady { FormatValue (D.Reader.medium self.old.drive) result (D.Reader.medium self.new.drive) self.new.kept }
        ensures new { is_ok result ≡ true → NewPack (D.Reader.medium self.new.drive) self.new.kept }
    {
        self.drive.spin_up();
        let cylinders = self.drive.cylinders();
        let written = write_new(&mut self.drive);
        self.ready_unless_refused(written)?;
        self.kept = PackRecord {
            ready: true,
            highest: 1,
            bits: new_bits(cylinders),
        };
        Ok(())
    }

    // Puts the pack in order: links every chain both ways, and frees every page that is in none. It
    // answers what the survey before found, and leaves that in the table. With rivals nothing is
    // written.
    pub fn scavenge(&mut self, table: &mut [Record]) -> Result<Totals, Refusal>
        ensures done { Scavenged (D.Reader.medium self.old.drive) self.old.kept (length table.old) result (D.Reader.medium self.new.drive) self.new.kept }
        ensures table { table.new ≡ scavenge_table (page_named (D.Reader.medium self.old.drive).cylinders) (D.Reader.medium self.old.drive).pages table.old result }
        ensures value { ScavengeValue (D.Reader.medium self.old.drive) self.old.kept (length table.old) result (D.Reader.medium self.new.drive) self.new.kept }
        ensures through { ThroughOrOff (D.Reader.medium self.old.drive) (length table.old) result (D.Reader.medium self.new.drive) }
        ensures files { NothingLostOnTheWay (D.Reader.medium self.old.drive) (D.Reader.medium self.new.drive) }
        ensures mended { ThenMended (D.Reader.medium self.old.drive) result (D.Reader.medium self.new.drive) self.new.kept }
    {
        let pages = self.drive.cylinders().pages();
        if table.len() < pages as usize {
            return Err(pack_refusal(Reason::TooSmall));
        }
        self.drive.spin_up();
        self.restore(table)
    }

    // Surveys the pack into a table that is long enough, and mends what it found.
    fn restore(&mut self, table: &mut [Record]) -> Result<Totals, Refusal>
        requires { length (D.Reader.medium self.old.drive).pages ≤ length table.old }
        ensures done { Done (mending (page_named (D.Reader.medium self.old.drive).cylinders) real_address (D.Reader.medium self.old.drive).pages self.old.kept (rivalled (D.Reader.medium self.old.drive).pages)) (D.Reader.medium self.old.drive) self.old.kept result (D.Reader.medium self.new.drive) self.new.kept }
        ensures table { table.new ≡ scavenge_table (page_named (D.Reader.medium self.old.drive).cylinders) (D.Reader.medium self.old.drive).pages table.old result }
    {
        let pages = self.drive.cylinders().pages();
        let totals = self.survey(table)?;
        let found = &table[..pages as usize];
        let mended = mend(&mut self.drive, found);
        if let Err(refusal) = self.ready_unless_refused(mended) {
            clear_records(table, pages);
            return Err(refusal);
        }
        self.kept = PackRecord {
            ready: true,
            highest: largest_serial(found),
            bits: mended_bits(found),
        };
        Ok(totals)
    }

    // Claims the first page from a start on, and round again, whose bit is 0.
    pub fn claim(&mut self, start: PageAddress) -> Result<Claim, Refusal>
        ensures answer { page_claimed result ≡ claim_answer (D.Reader.medium self.old.drive).pages (searched self.old.kept start.page (length (D.Reader.medium self.old.drive).pages)) }
        ensures kept { self.new.kept ≡ claim_record (D.Reader.medium self.old.drive).pages self.old.kept (searched self.old.kept start.page (length (D.Reader.medium self.old.drive).pages)) }
        ensures same { D.Reader.medium self.new.drive ≡ D.Reader.medium self.old.drive }
    {
        let pages = self.drive.cylinders().pages();
        let free = self.kept.bits.next_free(start, pages);
        let page = free.ok_or(pack_refusal(Reason::NoFreePage))?;
        if self.has_free_label(page) {
            self.kept.bits.take(page);
            Ok(Claim { page })
        } else {
            self.set_unready();
            Err(Refusal::new(Reason::LabelNotFree, Place::Pack, page))
        }
    }

    // Spends a claim by writing the label of its page, also where power fails then.
    pub fn place(&mut self, claim: Claim, label: Label) -> Result<(), Refusal>
        ensures ran { Ran (label_write claim.page.page label ∷ []) (D.Reader.medium self.old.drive) result (D.Reader.medium self.new.drive) }
        ensures kept { self.new.kept ≡ placed_record self.old.kept result }
    {
        let Claim { page } = claim;
        let written = put_label(&mut self.drive, page, label);
        self.ready_unless_refused(written)
    }

    // Spends a claim unwritten: its page is free again.
    pub fn give_back(&mut self, claim: Claim)
        ensures kept { self.new.kept ≡ returned self.old.kept claim.page.page }
        ensures drive { self.new.drive ≡ self.old.drive }
    {
        let Claim { page } = claim;
        self.kept.bits.free(page);
    }

    // Whether the label of a page is the free one.
    fn has_free_label(&mut self, at: PageAddress) -> bool
        ensures answer { result ≡ free_label_at (label_at (D.Reader.medium self.old.drive).pages at.page) }
        ensures same { D.Reader.medium self.new.drive ≡ D.Reader.medium self.old.drive }
        ensures kept { self.new.kept ≡ self.old.kept }
    {
        self.drive
            .read_label(at)
            .is_some_and(|label| label.is_free())
    }

    // Hands an answer on. Where it is a refusal, the pack is not ready any more.
    fn ready_unless_refused(&mut self, answer: Result<(), Refusal>) -> Result<(), Refusal>
        ensures answer { result ≡ answer }
        ensures drive { self.new.drive ≡ self.old.drive }
        ensures kept { self.new.kept ≡ placed_record self.old.kept answer }
    {
        if answer.is_err() {
            self.set_unready();
        }
        answer
    }

    // The pack is not ready any more.
    fn set_unready(&mut self)
        ensures drive { self.new.drive ≡ self.old.drive }
        ensures kept { self.new.kept ≡ unready self.old.kept }
    {
        self.kept = PackRecord {
            ready: false,
            bits: BitTable::none_free(),
            ..self.kept
        };
    }
}
