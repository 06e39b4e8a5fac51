use crate::load::{Steps, load};
use crate::problem::Problem;
use disk::{Reader, Refusal};
use image::ImageReader;
use std::fmt;
use survey::{Record, Totals, Verdict, survey};

// What a refused survey means: with rivals, also of which file.
pub fn explained<R: Reader>(reader: &mut R, refusal: Refusal) -> Problem {
    if refusal.other.is_some() {
        if let Some(label) = reader.read_label(refusal.page) {
            let id = label.id();
            return Problem::Rivals { refusal, id };
        }
    }
    Problem::Refused(refusal)
}

// Surveys a pack into a table of its own.
pub fn find_records<R: Reader>(
    rt: &HostRuntime,
    reader: &mut R,
    steps: Steps,
) -> Result<(Vec<Record>, Totals), Problem> {
    let heap = rt.alloc();
    let n = reader.cylinders().pages();
    steps.say(rt, format!(in heap; "surveying {n} pages")?.as_str())?;
    let mut records = vec![in heap; Record::bare(Verdict::Reserved); n as usize]?;
    let totals = survey(reader, records.as_mut_slice()).map_err(|refusal| explained(
        reader, refusal,
    ))?;
    Ok((records, totals))
}

// How many pages have each verdict, in one line.
#[derive(Clone, Copy)]
pub struct TotalsLine(pub Totals);

impl fmt::Display for TotalsLine {
    fn fmt<W: fmt::Write>(&self, f: &mut fmt::Formatter<W>) -> fmt::Result {
        let Totals {
            reserved,
            free,
            chained,
            stray,
            aside,
        } = self.0;
        write!(
            f,
            "reserved {reserved}, free {free}, chained {chained}, stray {stray}, aside {aside}"
        )
    }
}

// Prints how many pages have each verdict.
pub fn show_survey(rt: &HostRuntime, path: &str) -> Result<(), Problem> {
    let words = load(rt, path, Steps::Told)?;
    let mut reader = ImageReader::new(words.as_slice());
    let (_, totals) = find_records(rt, &mut reader, Steps::Told)?;
    let Totals {
        reserved,
        free,
        chained,
        stray,
        aside,
    } = totals;
    println!(rt;
        "reserved {reserved}\nfree {free}\nchained {chained}\nstray {stray}\naside {aside}"
    )?;
    Ok(())
}

// A record in plain numbers.
#[derive(Clone, Copy)]
struct RecordLine {
    page: usize,
    record: Record,
}

impl fmt::Display for RecordLine {
    fn fmt<W: fmt::Write>(&self, f: &mut fmt::Formatter<W>) -> fmt::Result {
        let page = self.page;
        let Record {
            verdict,
            leader,
            id,
            number,
        } = self.record;
        let verdict = verdict.number();
        let leader = leader.page;
        let version = id.version;
        let serial1 = id.serial1;
        let serial2 = id.serial2;
        write!(
            f,
            "{page} {verdict} {leader} {version} {serial1} {serial2} {number}"
        )
    }
}

// Prints the survey's table in plain numbers, and nothing else.
pub fn show_table(rt: &HostRuntime, path: &str) -> Result<(), Problem> {
    let words = load(rt, path, Steps::Silent)?;
    let mut reader = ImageReader::new(words.as_slice());
    let (records, _) = find_records(rt, &mut reader, Steps::Silent)?;
    for (page, record) in records.iter().copied().enumerate() {
        rt.println(RecordLine { page, record })?;
    }
    Ok(())
}
