use disk::{FileId, NoSuchSize, Refusal};
use std::alloc::AllocError;
use std::io;
use thiserror::Error;

// Why the words of a file are no image.
#[derive(Clone, Copy, Debug, Error)]
pub enum Flaw {
    #[error("the file is empty")]
    Empty,
    #[error("the file has {bytes} bytes, an odd number")]
    Odd {
        bytes: usize,
    },
    #[error("the first word says {pages} pages, which take {wanted} words, and there are {words}")]
    Length {
        pages: u16,
        wanted: usize,
        words: usize,
    },
    #[error("the first word says {first} pages, and the count before the data says {second}")]
    SecondCount {
        first: u16,
        second: u16,
    },
    #[error("the first word says {first} pages, and the count before the marks says {third}")]
    ThirdCount {
        first: u16,
        third: u16,
    },
    #[error("{pages} pages are not 24 for each of 1 to 406 cylinders")]
    Size {
        pages: u16,
    },
    #[error("page {page} has the mark {mark}, and no mark is above 3")]
    Mark {
        page: usize,
        mark: u16,
    },
}

// Why a command failed.
#[derive(Debug, Drop, Error)]
pub enum Problem {
    #[error("{0}")]
    Io(#[from] io::Error),
    #[error("this is not a file")]
    NoFile,
    #[error("the file has {0} bytes, and the image of the largest pack (406 cylinders) has 5164326")]
    TooLong(u64),
    #[error("{0} ({1})")]
    NoImage(Refusal, Flaw),
    #[error("{0}")]
    Refused(#[from] Refusal),
    #[error("{refusal} (version {}, serial words {} and {})", .id.version, .id.serial1, .id.serial2)]
    Rivals { refusal: Refusal, id: FileId },
    #[error("page {0} is in no file")]
    InNoFile(u16),
    #[error("the file is there already; --force replaces it")]
    Exists,
    #[error("a file OUT.new is there already; --force replaces it")]
    LeftOver,
    #[error("this is the image that is read, or holds the same; name another file")]
    SameFile,
    #[error("{0}")]
    NoSuchPack(#[from] NoSuchSize),
    #[error("there is not enough memory")]
    Memory(#[from(alloc)] AllocError),
}
