// The program: images of Alto disk packs.
#![tactic(auto)]

mod load;
mod make;
mod map;
mod mend;
mod output;
mod pages;
mod problem;
mod store;
mod survey_text;
mod usage;

use make::make_pack;
use map::show_map;
use mend::mend_image;
use output::{Output, is_same_path, output_of};
use pages::show_pages;
use problem::Problem;
use std::env;
use std::process::ExitCode;
use store::Target;
use survey_text::{show_survey, show_table};
use usage::USAGE;

// The program failed, and has said why.
#[derive(Drop)]
struct Failed;

// The words of the command line, without the program's own name.
fn asked(rt: &HostRuntime) -> Result<Vec<String>, Problem> {
    Ok(env::args(rt)?.skip(1).collect(rt.alloc())?)
}

// Says in one line why work on a file failed, if it did.
fn told<T: Drop>(rt: &HostRuntime, outcome: Result<T, Problem>, path: &str) -> Result<T, Failed> {
    outcome.map_err(|problem| {
        let _ = eprintln!(rt; "{problem}: {path}");
        Failed
    })
}

// The command line is none that the program knows.
fn unknown(rt: &HostRuntime) -> Result<(), Failed> {
    let _ = rt.eprint(USAGE);
    Err(Failed)
}

// Obeys a command that tells of an image.
fn obey_tell(rt: &HostRuntime, words: &[String]) -> Result<(), Failed> {
    let [word, image, options @ ..] = words else {
        return unknown(rt);
    };
    let path = image.as_str();
    let outcome = match (word.as_str(), options) {
        ("pages", []) => show_pages(rt, path),
        ("survey", []) => show_survey(rt, path),
        ("table", []) => show_table(rt, path),
        ("map", []) => show_map(rt, path, None),
        ("map", [option, page]) if option.as_str() == "--file" => {
            let Ok(page) = page.as_str().parse() else {
                return unknown(rt);
            };
            show_map(rt, path, Some(page))
        }
        _ => return unknown(rt),
    };
    told(rt, outcome, path)
}

// Obeys `format CYLINDERS OUT [--force]`.
fn obey_format(rt: &HostRuntime, count: &str, options: &[String]) -> Result<(), Failed> {
    let target = output_of(options).and_then(|output| output.to_write());
    match (count.parse(), target) {
        (Ok(count), Some(target)) => told(rt, make_pack(rt, count, target), target.path),
        _ => unknown(rt),
    }
}

// Where a mended image may go: to a file other than the one that is read.
fn check_other(rt: &HostRuntime, image: &str, target: Target<'_>) -> Result<(), Problem> {
    if is_same_path(image, target.path) {
        return Err(Problem::SameFile);
    }
    target.check(rt)
}

// Writes a mended image.
fn put_away(
    rt: &HostRuntime,
    image: &str,
    target: Target<'_>,
    words: &[u16],
) -> Result<(), Problem> {
    target.check_apart(rt, image)?;
    target.store(rt, words)
}

// Scavenges an image, and writes the mended one where that is asked for.
fn scavenge(rt: &HostRuntime, image: &str, output: Output<'_>) -> Result<(), Failed> {
    if let Some(target) = output.named() {
        told(rt, check_other(rt, image, target), target.path)?;
    }
    let words = told(rt, mend_image(rt, image), image)?;
    match output.to_write() {
        Some(target) => {
            let stored = put_away(rt, image, target, words.as_slice());
            told(rt, stored, target.path)
        }
        None => {
            let _ = rt.println("dry run: nothing is written");
            Ok(())
        }
    }
}

// Obeys `scavenge IMAGE OUT [--force] [--dry-run]`; a dry run needs no OUT.
fn obey_scavenge(rt: &HostRuntime, image: &str, options: &[String]) -> Result<(), Failed> {
    match output_of(options) {
        Some(output) if !image.starts_with("--") && (output.named().is_some() || output.is_dry()) =>
            { scavenge(rt, image, output) }
        _ => unknown(rt),
    }
}

fn obey(rt: &HostRuntime, words: &[String]) -> Result<(), Failed> {
    match words {
        [help] if help.as_str() == "help" => {
            let _ = rt.print(USAGE);
            Ok(())
        }
        [format, count, options @ ..] if format.as_str() == "format" => {
            obey_format(rt, count.as_str(), options)
        }
        [scavenge, image, options @ ..] if scavenge.as_str() == "scavenge" => {
            obey_scavenge(rt, image.as_str(), options)
        }
        _ => obey_tell(rt, words),
    }
}

fn main(rt: HostRuntime) -> ExitCode {
    match asked(&rt) {
        Ok(words) => match obey(&rt, words.as_slice()) {
            Ok(()) => ExitCode::SUCCESS,
            Err(Failed) => ExitCode::FAILURE,
        },
        Err(problem) => {
            let _ = eprintln!(rt; "{problem}: the command line");
            ExitCode::FAILURE
        }
    }
}
