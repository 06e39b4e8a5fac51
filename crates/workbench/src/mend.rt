use crate::load::{Steps, load};
use crate::problem::Problem;
use crate::survey_text::{TotalsLine, explained, find_records};
use disk::Reader;
use image::ImageReader;
use image_copy::CopyDrive;
use pack::Pack;
use survey::{Record, Totals, Verdict};

// What a scavenge altered: links of chained pages, the pages that these are on, and stray pages that are
// free now.
#[derive(Clone, Copy, Default)]
struct Changes {
    links: usize,
    linked: usize,
    freed: usize,
}

// What a scavenge found and did.
#[derive(Clone, Copy)]
struct Found {
    before: Totals,
    changes: Changes,
    after: Totals,
}

// In how many of their first words two labels differ.
fn count_changed(old: &[u16], new: &[u16], words: usize) -> usize {
    old.iter()
        .zip(new)
        .take(words)
        .filter(|(one, other)| one != other)
        .count()
}

// The labels of an image, eight words each, and what lies behind them.
fn labels(words: &[u16]) -> &[u16] {
    words.get(1..).unwrap_or(&[])
}

// What was altered on the pages, by the records of the survey before.
fn find_changes(old: &[u16], new: &[u16], records: &[Record]) -> Changes {
    let mut changes = Changes::default();
    let pages = labels(old).chunks(8).zip(labels(new).chunks(8));
    for ((old, new), record) in pages.zip(records) {
        match record.verdict {
            Verdict::Chained => {
                let links = count_changed(old, new, 2);
                changes.links = changes.links.saturating_add(links);
                if links > 0 {
                    changes.linked = changes.linked.saturating_add(1);
                }
            }
            Verdict::Stray if old != new => changes.freed = changes.freed.saturating_add(1),
            _ => {}
        }
    }
    changes
}

// Mends the pack in a copy of the words of an image.
fn mend_copy(rt: &HostRuntime, words: &[u16], copy: &mut [u16]) -> Result<Found, Problem> {
    let mut reader = ImageReader::new(words);
    let n = reader.cylinders().pages();
    println!(rt; "scavenging a copy of {n} pages")?;
    let mut records = vec![in rt.alloc(); Record::bare(Verdict::Reserved); n as usize]?;
    let mut pack = Pack::new(CopyDrive::new(copy));
    let before = pack
        .scavenge(records.as_mut_slice())
        .map_err(|refusal| explained(&mut reader, refusal))?;
    let mended = pack.into_drive().into_words();
    let changes = find_changes(words, mended, records.as_slice());
    let (_, after) = find_records(rt, &mut ImageReader::new(mended), Steps::Told)?;
    Ok(Found {
        before,
        changes,
        after,
    })
}

fn tell_found(rt: &HostRuntime, found: Found) -> Result<(), Problem> {
    let before = TotalsLine(found.before);
    let after = TotalsLine(found.after);
    let Changes {
        links,
        linked,
        freed,
    } = found.changes;
    println!(rt; "before: {before}")?;
    println!(rt; "links mended: {links} (on {linked} of the chained pages)")?;
    println!(rt; "stray pages freed: {freed}")?;
    println!(rt; "after: {after}")?;
    Ok(())
}

// The words of an image once its pack is mended. It tells what it found and did.
pub fn mend_image(rt: &HostRuntime, path: &str) -> Result<Vec<u16>, Problem> {
    let words = load(rt, path, Steps::Told)?;
    let mut copy = words.clone()?;
    let found = mend_copy(rt, words.as_slice(), copy.as_mut_slice())?;
    tell_found(rt, found)?;
    Ok(copy)
}
