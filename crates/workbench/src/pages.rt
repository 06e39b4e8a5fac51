use crate::load::{Steps, load};
use crate::problem::Problem;
use crate::survey_text::find_records;
use disk::{Cylinders, Label, PageAddress, Reader, RealAddress};
use image::ImageReader;
use std::fmt;
use survey::{Record, Verdict};

// A link of a label, with the page that it names.
#[derive(Clone, Copy)]
struct LinkText {
    link: RealAddress,
    cylinders: Cylinders,
}

impl fmt::Display for LinkText {
    fn fmt<W: fmt::Write>(&self, f: &mut fmt::Formatter<W>) -> fmt::Result {
        let word = self.link.word;
        if word == 0 {
            return write!(f, "0 (none)");
        }
        match self.link.page(self.cylinders) {
            Some(named) => {
                let page = named.page;
                write!(f, "{word} (page {page})")
            }
            None => write!(f, "{word} (no page)"),
        }
    }
}

// A label, word by word.
#[derive(Clone, Copy)]
struct LabelText {
    label: Label,
    cylinders: Cylinders,
}

impl fmt::Display for LabelText {
    fn fmt<W: fmt::Write>(&self, f: &mut fmt::Formatter<W>) -> fmt::Result {
        let cylinders = self.cylinders;
        let Label {
            next,
            previous,
            blank,
            characters,
            number,
            version,
            serial1,
            serial2,
        } = self.label;
        let next = LinkText {
            link: next,
            cylinders,
        };
        let previous = LinkText {
            link: previous,
            cylinders,
        };
        write!(
            f,
            "next {next} previous {previous} blank {blank} characters {characters} number {number} version {version} serial1 {serial1} serial2 {serial2}"
        )
    }
}

// What a survey found a page to be.
#[derive(Clone, Copy)]
struct VerdictText(Record);

impl fmt::Display for VerdictText {
    fn fmt<W: fmt::Write>(&self, f: &mut fmt::Formatter<W>) -> fmt::Result {
        let leader = self.0.leader.page;
        let number = self.0.number;
        match self.0.verdict {
            Verdict::Reserved => write!(f, "reserved"),
            Verdict::Free => write!(f, "free"),
            Verdict::Chained => write!(f, "chained, leader {leader}, page number {number}"),
            Verdict::Stray => write!(f, "stray"),
            Verdict::Aside => write!(f, "aside"),
        }
    }
}

// What is told of a page.
#[derive(Clone, Copy)]
struct PageText {
    at: PageAddress,
    cylinders: Cylinders,
    label: Option<Label>,
    readable: bool,
    record: Option<Record>,
}

impl fmt::Display for PageText {
    fn fmt<W: fmt::Write>(&self, f: &mut fmt::Formatter<W>) -> fmt::Result {
        let cylinders = self.cylinders;
        let page = self.at.page;
        write!(f, "page {page}")?;
        if let Some(real) = self.at.real(cylinders) {
            let word = real.word;
            write!(f, " real {word}")?;
        }
        match self.label {
            Some(label) => {
                let label = LabelText { label, cylinders };
                write!(f, ": {label}")?;
            }
            None => write!(f, ": label unreadable")?,
        }
        if !self.readable {
            write!(f, "; data unreadable")?;
        }
        if let Some(record) = self.record {
            let verdict = VerdictText(record);
            write!(f, "; {verdict}")?;
        }
        Ok(())
    }
}

// Prints a line for each page; there are no records where the survey was refused.
fn list_pages<R: Reader>(
    rt: &HostRuntime,
    reader: &mut R,
    records: &[Record],
) -> Result<(), Problem> {
    let cylinders = reader.cylinders();
    // By number: a reader is asked for a page by its address, and has no list to go through.
    for page in 0..cylinders.pages() {
        let at = PageAddress { page };
        rt.println(PageText {
            at,
            cylinders,
            label: reader.read_label(at),
            readable: reader.read_data(at).is_some(),
            record: records.get(page as usize).copied(),
        })?;
    }
    Ok(())
}

// Tells what stands on every page of an image, and which file it belongs to.
pub fn show_pages(rt: &HostRuntime, path: &str) -> Result<(), Problem> {
    let words = load(rt, path, Steps::Told)?;
    let mut reader = ImageReader::new(words.as_slice());
    match find_records(rt, &mut reader, Steps::Told) {
        Ok((records, _)) => list_pages(rt, &mut reader, records.as_slice()),
        Err(problem) => {
            list_pages(rt, &mut reader, &[])?;
            Err(problem)
        }
    }
}
