use crate::building::at;
use disk::{Place, Reason, Refusal};
use image::{bytes_to_words, words_to_bytes};

fn refused(reason: Reason) -> Refusal {
    Refusal::new(reason, Place::Image, at(0))
}

#[test]
fn bytes_and_words_give_each_other_back(rt: HostRuntime) {
    let bytes = [18, 52, 255, 0, 0, 255];
    let mut words = [0; 3];
    assert_eq!(rt; bytes_to_words(&bytes, &mut words), Ok(3));
    assert_eq!(rt; words, [4660, 65280, 255]);
    let mut back = [0; 6];
    assert_eq!(rt; words_to_bytes(&words, &mut back), Ok(6));
    assert_eq!(rt; back, bytes);
}

#[test]
fn no_bytes_make_no_words(rt: HostRuntime) {
    let mut words = [7; 2];
    assert_eq!(rt; bytes_to_words(&[], &mut words), Ok(0));
    assert_eq!(rt; bytes_to_words(&[], &mut []), Ok(0));
    assert_eq!(rt; words, [7; 2]);
    let mut bytes = [9; 2];
    assert_eq!(rt; words_to_bytes(&[], &mut bytes), Ok(0));
    assert_eq!(rt; bytes, [9; 2]);
}

#[test]
fn what_is_longer_keeps_its_rest(rt: HostRuntime) {
    let mut words = [7; 4];
    assert_eq!(rt; bytes_to_words(&[1, 2, 3, 4], &mut words), Ok(2));
    assert_eq!(rt; words, [258, 772, 7, 7]);
    let mut bytes = [9; 5];
    assert_eq!(rt; words_to_bytes(&[258, 772], &mut bytes), Ok(4));
    assert_eq!(rt; bytes, [1, 2, 3, 4, 9]);
}

#[test]
fn an_odd_number_of_bytes_is_refused(rt: HostRuntime) {
    let mut words = [7; 4];
    assert_eq!(rt;
        bytes_to_words(&[1, 2, 3], &mut words),
        Err(refused(Reason::BadParameter))
    );
    // before too few words are
    assert_eq!(rt;
        bytes_to_words(&[1], &mut []),
        Err(refused(Reason::BadParameter))
    );
    assert_eq!(rt; words, [7; 4]);
}

#[test]
fn too_little_room_is_refused(rt: HostRuntime) {
    let mut words = [7; 1];
    assert_eq!(rt;
        bytes_to_words(&[1, 2, 3, 4], &mut words),
        Err(refused(Reason::TooSmall))
    );
    assert_eq!(rt; words, [7; 1]);
    let mut bytes = [9; 3];
    assert_eq!(rt;
        words_to_bytes(&[258, 772], &mut bytes),
        Err(refused(Reason::TooSmall))
    );
    assert_eq!(rt; bytes, [9; 3]);
}
