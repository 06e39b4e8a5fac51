use crate::building::{FREE, at, label_words};
use disk::{Place, Reason, Refusal};
use image_copy::CopyDrive;
use pack::Pack;

// The words of an image of one cylinder, with all labels and data zero.
fn one_cylinder() -> [u16; 6363] {
    let mut words = [0; 6363];
    words[0] = 24;
    words[193] = 24;
    words[6338] = 24;
    words
}

#[test]
fn format_writes_the_words_of_an_image(rt: HostRuntime) {
    let mut words = one_cylinder();
    let mut pack = Pack::new(CopyDrive::new(&mut words));
    assert!(rt; pack.format().is_ok());
    assert!(rt; pack.is_ready());
    let written = pack.into_drive().into_words();
    assert_eq!(rt; written.len(), 6363);
    assert_eq!(rt; label_words(written, 0), [0; 8]);
    assert_eq!(rt; label_words(written, 1), [8192, 0, 0, 512, 0, 1, 32768, 1]);
    assert_eq!(rt; label_words(written, 2), [0, 4096, 0, 512, 1, 1, 32768, 1]);
    assert_eq!(rt; label_words(written, 23), FREE);
}

#[test]
fn words_that_are_no_image_stay_as_they_are(rt: HostRuntime) {
    let mut words = one_cylinder();
    // a mark that no image has
    words[6340] = 4;
    let mut pack = Pack::new(CopyDrive::new(&mut words));
    let refusal = Refusal::new(Reason::Hardware, Place::Drive, at(1));
    assert_eq!(rt; pack.format(), Err(refusal));
    assert!(rt; !pack.is_ready());
    let written = pack.into_drive().into_words();
    assert_eq!(rt; label_words(written, 1), [0; 8]);
    assert!(rt; written.len() == 6363 && written[6340] == 4);
}
