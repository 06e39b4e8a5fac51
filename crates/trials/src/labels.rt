use disk::{FileId, Label};

// The words of a label of a file, with that many characters and that first serial word.
fn filed(characters: u16, serial1: u16) -> Label {
    Label::from_words([4096, 8, 0, characters, 3, 1, serial1, 77])
}

#[test]
fn a_label_is_its_eight_words(rt: HostRuntime) {
    let words = [1, 2, 3, 4, 5, 6, 7, 8];
    let label = Label::from_words(words);
    assert_eq!(rt; (label.next.word, label.previous.word), (1, 2));
    assert_eq!(rt; (label.blank, label.characters, label.number), (3, 4, 5));
    assert_eq!(rt; (label.version, label.serial1, label.serial2), (6, 7, 8));
    assert_eq!(rt; label.to_words(), words);
    assert_eq!(rt; Label::from_words(label.to_words()), label);
    let id = FileId {
        version: 6,
        serial1: 7,
        serial2: 8,
    };
    assert_eq!(rt; label.id(), id);
}

#[test]
fn a_label_and_eight_words_convert(rt: HostRuntime) {
    let words = [1, 2, 3, 4, 5, 6, 7, 8];
    assert_eq!(rt; Label::from(words), Label::from_words(words));
    assert_eq!(rt; <[u16; 8]>::from(Label::from_words(words)), words);
}

#[test]
fn the_free_label(rt: HostRuntime) {
    let words = [0, 0, 0, 0, 0, 65535, 65535, 65535];
    assert_eq!(rt; Label::free().to_words(), words);
    assert!(rt; Label::free().is_free());
    assert!(rt; !Label::free().is_file());
    assert!(rt; Label::from_words(words).is_free());
    assert!(rt; !Label::from_words([0; 8]).is_free());
    assert!(rt; Label::from_words([0; 8]).is_file());
}

#[test]
fn one_other_word_and_a_label_is_not_free(rt: HostRuntime) {
    // by its place: which of the eight words is another one is the case
    for k in 0..8 {
        let mut words = Label::free().to_words();
        words[k] ^= 1;
        assert!(rt; !Label::from_words(words).is_free(), "word {k}");
    }
}

#[test]
fn labels_that_may_belong_to_a_file(rt: HostRuntime) {
    assert!(rt; filed(0, 0).is_file());
    assert!(rt; filed(512, 0).is_file());
    assert!(rt; !filed(513, 0).is_file());
    assert!(rt; !filed(65535, 0).is_file());
    // marked random, and marked a directory
    assert!(rt; !filed(512, 16384).is_file());
    assert!(rt; !filed(512, 65535).is_file());
    assert!(rt; filed(512, 32768).is_file());
}

#[test]
fn serial_numbers_and_their_words(rt: HostRuntime) {
    // a serial number and its two words
    let cases = [
        (0, 0, 0),
        (1, 0, 1),
        (65535, 0, 65535),
        (65536, 1, 0),
        (1073741823, 16383, 65535),
    ];
    for (number, serial1, serial2) in cases {
        let id = FileId {
            version: 9,
            serial1,
            serial2,
        };
        assert_eq!(rt; FileId::numbered(9, number), Some(id));
        assert_eq!(rt; id.serial(), number);
        assert!(rt; !id.is_directory() && !id.is_random());
    }
    assert_eq!(rt; FileId::numbered(9, 1073741824), None);
    assert_eq!(rt; FileId::numbered(9, 4294967295), None);
}

#[test]
fn marks_of_a_file_id(rt: HostRuntime) {
    let directory = filed(512, 32768 + 5).id();
    assert!(rt; directory.is_directory() && !directory.is_random());
    assert_eq!(rt; directory.serial(), 5 * 65536 + 77);
    let random = filed(512, 16384 + 5).id();
    assert!(rt; !random.is_directory() && random.is_random());
    assert_eq!(rt; random.serial(), 5 * 65536 + 77);
}
