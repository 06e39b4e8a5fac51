use crate::building::{
    ONE, WORDS, at, free_pack, is_same, old_data, put_data, put_label, put_mark,
};
use disk::{Cylinders, Label, Reader};
use image::{
    ImageReader, cylinders_or_one, shape, store_data, store_label, stored_data, stored_label,
    stored_mark,
};
use std::test::Fail;

#[test]
fn parts_of_a_page_by_its_mark(rt: HostRuntime) -> Result<(), Fail> {
    let mut words = free_pack(rt.alloc(), ONE)?;
    put_mark(&mut words, ONE, 23, 3);
    assert_eq!(rt; shape(&words).map(|c| c.count()), Some(1));
    assert_eq!(rt; cylinders_or_one(shape(&words)).count(), 1);
    assert_eq!(rt; cylinders_or_one(Cylinders::new(203)).count(), 203);
    assert_eq!(rt;
        (stored_label(&words, 22), stored_mark(&words, 22)),
        (Some(Label::free()), Some(0))
    );
    assert_eq!(rt; stored_data(&words, 22), Some(old_data(22)));
    assert_eq!(rt;
        (stored_label(&words, 23), stored_mark(&words, 23)),
        (None, Some(3))
    );
    assert_eq!(rt; stored_data(&words, 23), None);
    assert_eq!(rt;
        (stored_label(&words, 24), stored_mark(&words, 24)),
        (None, None)
    );
    Ok(())
}

#[test]
fn parts_are_stored_and_their_marks_cleared(rt: HostRuntime) -> Result<(), Fail> {
    let mut words = free_pack(rt.alloc(), ONE)?;
    put_mark(&mut words, ONE, 23, 3);
    let mut expected = free_pack(rt.alloc(), ONE)?;
    put_mark(&mut expected, ONE, 23, 2);
    put_label(&mut expected, 23, WORDS);
    store_label(&mut words, 23, Label::from_words(WORDS));
    assert!(rt; is_same(&words, &expected));
    put_mark(&mut expected, ONE, 23, 0);
    put_data(&mut expected, ONE, 23, [9; 256]);
    store_data(&mut words, 23, &[9; 256]);
    assert!(rt; is_same(&words, &expected));
    store_label(&mut words, 24, Label::from_words(WORDS));
    store_data(&mut words, 24, &[9; 256]);
    assert!(rt; is_same(&words, &expected));
    let mut reader = ImageReader::new(&words);
    assert_eq!(rt; reader.read_label(at(23)), Some(Label::from_words(WORDS)));
    Ok(())
}

#[test]
fn words_without_a_shape_stay_as_they_are(rt: HostRuntime) {
    let mut words = [24; 10];
    assert_eq!(rt; shape(&words), None);
    assert_eq!(rt; cylinders_or_one(shape(&words)).count(), 1);
    assert_eq!(rt;
        (stored_label(&words, 0), stored_data(&words, 0)),
        (None, None)
    );
    assert_eq!(rt; stored_mark(&words, 0), None);
    store_label(&mut words, 0, Label::from_words(WORDS));
    store_data(&mut words, 0, &[9; 256]);
    assert_eq!(rt; words, [24; 10]);
}
