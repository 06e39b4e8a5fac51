ghost use Rattle.std.specs.Prelude.{◌≡◌, ◌<◌, length};
ghost use Rattle.survey.specs.Verdicts.{counted, totals, cleared};
ghost use Rattle.survey.specs.Laws.{all_of};

use crate::table::{Record, Totals, Verdict};

impl Totals {
    // With one page more.
    fn count(&mut self, verdict: Verdict)
        requires { all_of self.old < 65535 }
        ensures { self.new ≡ counted verdict self.old }
    {
        match verdict {
            Verdict::Reserved => self.reserved += 1,
            Verdict::Free => self.free += 1,
            Verdict::Chained => self.chained += 1,
            Verdict::Stray => self.stray += 1,
            Verdict::Aside => self.aside += 1,
        }
    }
}

// How many of the records have each verdict.
pub(crate) fn total(table: &[Record]) -> Totals
    requires { length table.now < 65536 }
    ensures { result ≡ totals table.now }
{
    let mut all = Totals::default();
    for record in table {
        all.count(record.verdict);
    }
    all
}

// Clears the records of the first n pages; a table that is shorter is not touched.
pub fn clear_records(table: &mut [Record], n: u16)
    ensures { table.new ≡ cleared n table.old }
{
    let n = n as usize;
    if n <= table.len() {
        table[..n].fill(Record::bare(Verdict::Reserved));
    }
}
