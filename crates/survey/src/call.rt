ghost use Rattle.std.specs.Prelude.{◌≡◌, length};
ghost use Rattle.disk.specs.Addresses.{page_named, real_address};
ghost use Rattle.survey.specs.Laws.{SurveyLaws};
ghost use Rattle.survey.specs.Moves.{MovesChangeNothing};
ghost use Rattle.survey.specs.Verdicts.{survey_answer, survey_table};

use crate::count::total;
use crate::pairs::first_pair;
use crate::scan::scan;
use crate::table::{Record, Totals, Verdict};
use crate::walk::walk_all;
use disk::{PageAddress, Place, Reader, Reason, Refusal};

// Tells of each page which file it belongs to, and counts the pages of each verdict. The first N
// records of the table are filled, whatever stood there; with two leaders of one file id the
// survey is refused, and these records are zero.
pub fn survey<R: Reader>(reader: &mut R, table: &mut [Record]) -> Result<Totals, Refusal>
    ensures answer { result ≡ survey_answer (page_named (R.Reader.medium reader.old).cylinders) (R.Reader.medium reader.old).pages (length table.old) }
    ensures table { table.new ≡ survey_table (page_named (R.Reader.medium reader.old).cylinders) (R.Reader.medium reader.old).pages table.old }
    ensures same { R.Reader.medium reader.new ≡ R.Reader.medium reader.old }
    ensures laws { SurveyLaws (page_named (R.Reader.medium reader.old).cylinders) (R.Reader.medium reader.old).pages }
    ensures moves { MovesChangeNothing (page_named (R.Reader.medium reader.old).cylinders) real_address (R.Reader.medium reader.old).pages }
{
    let n = reader.cylinders().pages() as usize;
    if table.len() < n {
        return Err(Refusal::new(Reason::TooSmall, Place::Pack, PageAddress { page: 0 }));
    }
    let table = &mut table[..n];
    let leaders = scan(reader, table);
    if let Some((one, two)) = first_pair(table, leaders.as_slice()) {
        table.fill(Record::bare(Verdict::Reserved));
        return Err(Refusal::of_two(Reason::Rivals, Place::Pack, one, two));
    }
    walk_all(reader, table, leaders.as_slice());
    Ok(total(table))
}
