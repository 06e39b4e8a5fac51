ghost use Rattle.std.specs.Prelude.{◌≡◌, ◌≤◌, ◌&&◌, length, Some, nat_lt};
ghost use Rattle.survey.specs.Chains.{leads};
ghost use Rattle.survey.specs.Verdicts.{bare, filed};
ghost use Rattle.survey.specs.Steps.{judged_at, Scanned, Listed};

use crate::table::{Record, Verdict};
use arrayvec::ArrayVec;
use disk::{FileId, Label, PageAddress, Reader};

impl Record {
    // Of a page that shows no file.
    pub fn bare(verdict: Verdict) -> Record
        ensures { result ≡ bare verdict }
    {
        Record {
            verdict,
            leader: PageAddress { page: 0 },
            id: FileId::default(),
            number: 0,
        }
    }

    // Of a page that shows the file of its label.
    pub fn filed(verdict: Verdict, leader: PageAddress, label: Label) -> Record
        ensures { result ≡ filed verdict leader.page label }
    {
        Record {
            verdict,
            leader,
            id: label.id(),
            number: label.number,
        }
    }
}

// Whether a label is a leader's.
fn is_leading(label: Label) -> bool
    ensures { result ≡ leads (Some label) }
{
    label.is_file() && label.number == 0 && label.characters == 512
}

// The record of a page before any chain is walked.
fn judge(at: PageAddress, label: Option<Label>) -> Record
    ensures { result ≡ judged_at at.page label (nat_lt 0 at.page && leads label) }
{
    match label {
        _ if at.page == 0 => Record::bare(Verdict::Reserved),
        None => Record::bare(Verdict::Aside),
        Some(l) if l.is_free() => Record::bare(Verdict::Free),
        Some(l) if is_leading(l) => Record::filed(Verdict::Chained, at, l),
        Some(l) => Record::filed(Verdict::Stray, PageAddress { page: 0 }, l),
    }
}

// Judges each page by its label alone, and lists the leaders, from the lowest up.
pub(crate) fn scan<R: Reader>(reader: &mut R, table: &mut [Record]) -> ArrayVec<PageAddress, 9744>
    requires records { length table.old ≡ length (R.Reader.medium reader.old).pages }
    requires room { length table.old ≤ 9744 }
    ensures same { R.Reader.medium reader.new ≡ R.Reader.medium reader.old }
    ensures scanned { Scanned (R.Reader.medium reader.old).pages (length (R.Reader.medium reader.old).pages) table.new }
    ensures listed { Listed (R.Reader.medium reader.old).pages (length (R.Reader.medium reader.old).pages) result.items }
{
    let mut leaders = ArrayVec::new();
    for (page, record) in table.iter_mut().enumerate() {
        let at = PageAddress { page: page as u16 };
        *record = judge(at, reader.read_label(at));
        if record.verdict == Verdict::Chained {
            leaders.push(at);
        }
    }
    leaders
}
