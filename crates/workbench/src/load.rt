use crate::problem::{Flaw, Problem};
use image::{bytes_to_words, open_image};
use std::fs;

// The bytes of the image of a pack of 406 cylinders.
const LARGEST: u64 = 5164326;

// Whether a command prints the steps that it takes.
#[derive(Clone, Copy, PartialEq, Eq)]
pub enum Steps {
    Told,
    Silent,
}

impl Steps {
    // Prints a step, if steps are told.
    pub fn say(self, rt: &HostRuntime, step: &str) -> Result<(), Problem> {
        if self == Steps::Told {
            rt.println(step)?;
        }
        Ok(())
    }
}

// Why the words are no image, where they are none.
fn flaw(words: &[u16]) -> Flaw {
    let Some(first) = words.first().copied() else {
        return Flaw::Empty;
    };
    let n = first as usize;
    let wanted = 3 + 265 * n;
    if words.len() != wanted {
        return Flaw::Length {
            pages: first,
            wanted,
            words: words.len(),
        };
    }
    let second = words[1 + 8 * n];
    if second != first {
        return Flaw::SecondCount { first, second };
    }
    let third = words[2 + 264 * n];
    if third != first {
        return Flaw::ThirdCount { first, third };
    }
    words[3 + 264 * n..]
        .iter()
        .copied()
        .enumerate()
        .find(|(_, mark)| *mark > 3)
        .map_or(
            Flaw::Size { pages: first },
            |(page, mark)| Flaw::Mark { page, mark },
        )
}

// The words of a file, not yet opened.
fn read_words(rt: &HostRuntime, path: &str) -> Result<Vec<u16>, Problem> {
    let about = fs::metadata(rt, path)?;
    if !about.is_file() {
        return Err(Problem::NoFile);
    }
    if about.len() > LARGEST {
        return Err(Problem::TooLong(about.len()));
    }
    let bytes = fs::read(rt, path)?;
    let mut words = vec![in rt.alloc(); 0u16; bytes.len() / 2]?;
    bytes_to_words(bytes.as_slice(), words.as_mut_slice()).map_err(|refusal| {
        let flaw = Flaw::Odd { bytes: bytes.len() };
        Problem::NoImage(refusal, flaw)
    })?;
    Ok(words)
}

// Reads the image of a pack.
pub fn load(rt: &HostRuntime, path: &str, steps: Steps) -> Result<Vec<u16>, Problem> {
    let heap = rt.alloc();
    steps.say(rt, format!(in heap; "reading {path}")?.as_str())?;
    let words = read_words(rt, path)?;
    let count = words.len();
    steps.say(rt, format!(in heap; "read {count} words")?.as_str())?;
    let cylinders = open_image(words.as_slice()).map_err(|refusal| Problem::NoImage(
        refusal,
        flaw(words.as_slice()),
    ))?;
    let c = cylinders.count();
    let n = cylinders.pages();
    steps.say(
        rt,
        format!(in heap; "opened: cylinders {c}, pages {n}")?.as_str(),
    )?;
    Ok(words)
}
