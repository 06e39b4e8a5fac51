use crate::problem::Problem;
use image::words_to_bytes;
use std::alloc::{AllocError, Global};
use std::fs;
use std::fs::{File, OpenFile};
use std::io::Write;

// Whether a file that is there already may be replaced.
#[derive(Clone, Copy, PartialEq, Eq)]
pub enum Replace {
    Never,
    Allowed,
}

// A file that an image is to be written to.
#[derive(Clone, Copy)]
pub struct Target<'a> {
    pub path: &'a str,
    pub replace: Replace,
}

impl<'a> Target<'a> {
    // The name under which the file is written first.
    fn beside(self, heap: Global) -> Result<String, AllocError> {
        let path = self.path;
        format!(in heap; "{path}.new")
    }

    // Refuses a file that is there already and may not be replaced, and so for the file beside it, which
    // an earlier run may have left.
    pub fn check(self, rt: &HostRuntime) -> Result<(), Problem> {
        if self.replace == Replace::Allowed {
            return Ok(());
        }
        if fs::exists(rt, self.path)? {
            return Err(Problem::Exists);
        }
        if fs::exists(rt, self.beside(rt.alloc())?.as_str())? {
            return Err(Problem::LeftOver);
        }
        Ok(())
    }

    // Refuses to replace a file that may be the image that was read, under another name.
    pub fn check_apart(self, rt: &HostRuntime, image: &str) -> Result<(), Problem> {
        let name = self.beside(rt.alloc())?;
        if holds_same(rt, image, self.path)? || holds_same(rt, image, name.as_str())? {
            return Err(Problem::SameFile);
        }
        Ok(())
    }

    // Makes the file beside, where none is there or it may be replaced.
    fn create(self, rt: &HostRuntime, name: &str) -> Result<File, Problem> {
        if self.replace == Replace::Allowed && fs::exists(rt, name)? {
            fs::remove_file(rt, name)?;
        }
        Ok(File::create_new(rt, name)?)
    }

    // Writes an image: to a new file beside it, which takes its name only once it is whole.
    pub fn store(self, rt: &HostRuntime, words: &[u16]) -> Result<(), Problem> {
        self.check(rt)?;
        let heap = rt.alloc();
        let mut bytes = vec![in heap; 0u8; words.len().saturating_mul(2)]?;
        words_to_bytes(words, bytes.as_mut_slice())?;
        let name = self.beside(heap)?;
        let file = self.create(rt, name.as_str())?;
        match finish(rt, file, bytes.as_slice(), name.as_str(), self.path) {
            Ok(()) => {
                let path = self.path;
                println!(rt; "wrote {path}")?;
                Ok(())
            }
            Err(problem) => {
                let _ = fs::remove_file(rt, name.as_str());
                Err(problem)
            }
        }
    }
}

// Whether a file is there that holds the same bytes as the image that was read.
fn holds_same(rt: &HostRuntime, image: &str, path: &str) -> Result<bool, Problem> {
    if !fs::exists(rt, path)? {
        return Ok(false);
    }
    let read = fs::read(rt, image)?;
    let there = fs::read(rt, path)?;
    Ok(read.as_slice() == there.as_slice())
}

// Writes the bytes to the file beside, and gives it the name that it is to have.
fn finish(
    rt: &HostRuntime,
    mut file: File,
    bytes: &[u8],
    name: &str,
    path: &str,
) -> Result<(), Problem> {
    file.write_all(bytes)?;
    file.sync_all()?;
    fs::rename(rt, name, path)?;
    Ok(())
}
