use crate::store::{Replace, Target};

// Whether an image is written, or only what would be is told.
#[derive(Clone, Copy, PartialEq, Eq)]
enum Run {
    Real,
    Dry,
}

// What the words behind a command say of its output.
#[derive(Clone, Copy)]
pub struct Output<'a> {
    path: Option<&'a str>,
    replace: Replace,
    run: Run,
}

impl<'a> Output<'a> {
    // The file that is named, if one is.
    pub fn named(self) -> Option<Target<'a>> {
        let path = self.path?;
        let replace = self.replace;
        Some(Target { path, replace })
    }

    // The file that is to be written; none in a dry run.
    pub fn to_write(self) -> Option<Target<'a>> {
        self.named().filter(|_| self.run == Run::Real)
    }

    // Whether nothing is to be written.
    pub fn is_dry(self) -> bool {
        self.run == Run::Dry
    }
}

// The output that some words ask for; none where a word means nothing there.
pub fn output_of(words: &[String]) -> Option<Output<'_>> {
    let mut output = Output {
        path: None,
        replace: Replace::Never,
        run: Run::Real,
    };
    for word in words {
        match word.as_str() {
            "--force" => output.replace = Replace::Allowed,
            "--dry-run" => output.run = Run::Dry,
            path => {
                if output.path.is_some() || path.starts_with("--") {
                    return None;
                }
                output.path = Some(path);
            }
        }
    }
    Some(output)
}

// Whether two paths are written the same, but for a ./ before them.
pub fn is_same_path(one: &str, other: &str) -> bool {
    one.strip_prefix("./").unwrap_or(one) == other.strip_prefix("./").unwrap_or(other)
}
