ghost use Rattle.std.specs.Prelude.{◌≤◌};

use crate::load::{Steps, load};
use crate::problem::Problem;
use crate::survey_text::find_records;
use image::ImageReader;
use std::alloc::{AllocError, Global};
use survey::{Record, Verdict};

// The letter with that number from a first one on, and after the 26th that one again.
fn letter(first: u8, order: usize) -> char
    requires { first ≤ 97 }
{
    char::from(first + (order % 26) as u8)
}

// The last digit of a number.
fn last_digit(number: u16) -> char {
    char::from(b'0' + (number % 10) as u8)
}

// Whether a record is that of a leader.
fn is_leader(record: &Record) -> bool {
    record.verdict == Verdict::Chained && record.number == 0
}

// The leaders of the files, in their order.
fn leaders(heap: Global, records: &[Record]) -> Result<Vec<u16>, AllocError> {
    records
        .iter()
        .filter(|record| is_leader(record))
        .map(|record| record.leader.page)
        .collect(heap)
}

// The character of a page on the map of all files.
fn mark(record: &Record, leaders: &[u16]) -> char {
    match record.verdict {
        Verdict::Reserved => '0',
        Verdict::Free => '.',
        Verdict::Chained => {
            let file = leaders.binary_search(&record.leader.page).unwrap_or(0);
            letter(if record.number == 0 { b'A' } else { b'a' }, file)
        }
        Verdict::Stray => '?',
        Verdict::Aside => '!',
    }
}

// The character of a page on the map of the file of one leader.
fn mark_of_file(record: &Record, leader: u16) -> char {
    match record.verdict {
        Verdict::Reserved => ':',
        Verdict::Free => '.',
        Verdict::Chained if record.leader.page == leader => last_digit(record.number),
        Verdict::Chained => '-',
        Verdict::Stray => '?',
        Verdict::Aside => '!',
    }
}

// A row for each cylinder, of the characters that its pages are marked with.
fn rows<F: Fn(&Record) -> char>(
    heap: Global,
    records: &[Record],
    mark: F,
) -> Result<String, AllocError>
    requires { F.IsAlwaysCallable mark }
{
    let mut text = String::new(heap);
    for (cylinder, pages) in records.chunks(24).enumerate() {
        text.push_str(format!(in heap; "{cylinder:>3} ")?.as_str())?;
        for record in pages {
            text.push(mark(record))?;
        }
        text.push('\n')?;
    }
    Ok(text)
}

// The pages of a file in their order.
fn file_line(heap: Global, records: &[Record], leader: u16) -> Result<String, AllocError> {
    let mut pages: Vec<(u16, usize)> = records
        .iter()
        .enumerate()
        .filter(|(_, record)| record.verdict == Verdict::Chained && record.leader.page == leader)
        .map(|(page, record)| (record.number, page))
        .collect(heap)?;
    pages.sort_unstable();
    let mut text = format!(in heap; "pages of the file at {leader}, in order:")?;
    for (_, page) in &pages {
        text.push_str(format!(in heap; " {page}")?.as_str())?;
    }
    text.push('\n')?;
    Ok(text)
}

// The leader of the file that a page is in.
fn leader_of(records: &[Record], page: u16) -> Option<u16> {
    let record = records.get(page as usize)?;
    (record.verdict == Verdict::Chained).then_some(record.leader.page)
}

fn show_all(rt: &HostRuntime, records: &[Record]) -> Result<(), Problem> {
    let heap = rt.alloc();
    let leaders = leaders(heap, records)?;
    rt.println("0 reserved, . free, ? stray, ! label unreadable;")?;
    rt.println(
        "A leader and its pages a, the next file's B and b, and so on, after Z and z again A and a",
    )?;
    rt.print(rows(heap, records, |record| mark(record, leaders.as_slice()))?)?;
    Ok(())
}

fn show_file(rt: &HostRuntime, records: &[Record], page: u16) -> Result<(), Problem> {
    let heap = rt.alloc();
    let Some(leader) = leader_of(records, page) else {
        return Err(Problem::InNoFile(page));
    };
    rt.println(": reserved, . free, ? stray, ! label unreadable, - a page of another file;")?;
    rt.println("a digit: a page of this file, by the last digit of its page number, the leader 0")?;
    rt.print(rows(heap, records, |record| mark_of_file(record, leader))?)?;
    rt.print(file_line(heap, records, leader)?)?;
    Ok(())
}

// Draws a row for each cylinder, of all files or of the file that a page is in.
pub fn show_map(rt: &HostRuntime, path: &str, file: Option<u16>) -> Result<(), Problem> {
    let words = load(rt, path, Steps::Told)?;
    let mut reader = ImageReader::new(words.as_slice());
    let (records, _) = find_records(rt, &mut reader, Steps::Told)?;
    match file {
        None => show_all(rt, records.as_slice()),
        Some(page) => show_file(rt, records.as_slice(), page),
    }
}
