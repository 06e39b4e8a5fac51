ghost use Rattle.std.specs.Prelude.{◌≡◌, ◌<◌, if◌then◌else◌, Some, None, nat_lt};
ghost use Rattle.disk.specs.Labels.{directory_mark, random_mark, serial_number, numbered, unmarked, most_serials, Numbering, id_of, free_label, is_free, is_file, words_of, label_of, LabelWords};

use crate::address::RealAddress;

// What tells one file from another: the last three words of a label.
#[derive(Clone, Copy, PartialEq, Eq, Debug, Default)]
pub struct FileId {
    pub version: u16,
    pub serial1: u16,
    pub serial2: u16,
}

impl FileId {
    // The id of a file with that serial number and with neither mark; none above 30 bits.
    pub fn numbered(version: u16, serial: u32) -> Option<FileId>
        ensures value { result ≡ (if nat_lt serial most_serials then Some (numbered version serial) else None) }
        ensures inverse { Numbering }
    {
        if serial < 1073741824 {
            Some(FileId {
                version,
                serial1: (serial / 65536) as u16,
                serial2: (serial % 65536) as u16,
            })
        } else {
            None
        }
    }

    // The 30-bit serial number, without the marks.
    pub fn serial(self) -> u32
        ensures value { result ≡ serial_number self }
        ensures bound { result < most_serials }
    {
        self.serial1 as u32 % 16384 * 65536 + self.serial2 as u32
    }

    // Whether bit 0 of the first serial word says that the file is a directory.
    pub fn is_directory(self) -> bool
        ensures { result ≡ directory_mark self }
    {
        self.serial1 / 32768 % 2 == 1
    }

    // Whether bit 1 of the first serial word, the random mark, is set.
    pub fn is_random(self) -> bool
        ensures { result ≡ random_mark self }
    {
        self.serial1 / 16384 % 2 == 1
    }
}

// The label of a page, word by word.
#[derive(Clone, Copy, PartialEq, Eq, Debug)]
pub struct Label {
    pub next: RealAddress,
    pub previous: RealAddress,
    pub blank: u16,
    pub characters: u16,
    pub number: u16,
    pub version: u16,
    pub serial1: u16,
    pub serial2: u16,
}

impl Label {
    // The label of a page that no file has.
    pub fn free() -> Label
        ensures { result ≡ free_label }
    {
        Label {
            next: RealAddress { word: 0 },
            previous: RealAddress { word: 0 },
            blank: 0,
            characters: 0,
            number: 0,
            version: 65535,
            serial1: 65535,
            serial2: 65535,
        }
    }

    // As `From` does, under a name that says so.
    pub fn from_words(words: [u16; 8]) -> Label
        ensures { result ≡ label_of words }
    {
        let [
            next,
            previous,
            blank,
            characters,
            number,
            version,
            serial1,
            serial2,
        ] = words;
        Label {
            next: RealAddress { word: next },
            previous: RealAddress { word: previous },
            blank,
            characters,
            number,
            version,
            serial1,
            serial2,
        }
    }

    // As `From` does, likewise.
    pub fn to_words(self) -> [u16; 8]
        ensures { result ≡ words_of self }
    {
        [
            self.next.word,
            self.previous.word,
            self.blank,
            self.characters,
            self.number,
            self.version,
            self.serial1,
            self.serial2,
        ]
    }

    pub fn id(self) -> FileId
        ensures { result ≡ id_of self }
    {
        FileId {
            version: self.version,
            serial1: self.serial1,
            serial2: self.serial2,
        }
    }

    pub fn is_free(self) -> bool
        ensures { result ≡ is_free self }
    {
        self == Label::free()
    }

    // Whether the label may belong to a file: not the free one, not marked random, and with no
    // more characters than a page holds.
    pub fn is_file(self) -> bool
        ensures { result ≡ is_file self }
    {
        !self.is_free() && !self.id().is_random() && self.characters <= 512
    }
}

impl From<[u16; 8]> for Label {
    ghost from_gives = { λ words label. label ≡ label_of words };

    fn from(words: [u16; 8]) -> Label {
        Label::from_words(words)
    }
}

impl From<Label> for [u16; 8] {
    ghost from_gives = { λ label words. words ≡ words_of label };

    fn from(label: Label) -> [u16; 8] {
        label.to_words()
    }
}

// A label and its eight words give each other back.
pub fn label_words()
    ensures { LabelWords }
{}
