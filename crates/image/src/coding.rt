ghost use Rattle.std.specs.Prelude.{◌≡◌, ◌%◌, length};
ghost use Rattle.disk.specs.Refusals.{refusal};
ghost use Rattle.disk.specs.declared.refusal.Place.TheVariants.{Image};
ghost use Rattle.image.specs.Bytes.{words_of_bytes, bytes_of_words, words_made, bytes_made, over};

use disk::{PageAddress, Place, Reason, Refusal};

// A refusal of the words or bytes of an image.
pub(crate) fn refused(reason: Reason) -> Refusal
    ensures { result ≡ refusal reason Image 0 }
{
    Refusal::new(reason, Place::Image, PageAddress { page: 0 })
}

// Puts the bytes into the first words, the high byte of each first, and says how many words that
// makes. An odd number of bytes is refused, and so are too few words; then no word is altered.
pub fn bytes_to_words(bytes: &[u8], words: &mut [u16]) -> Result<usize, Refusal>
    ensures answer { result ≡ words_made (length bytes.now) (length words.old) }
    ensures words { words.new ≡ over result (words_of_bytes bytes.now) words.old }
    ensures inverse { length bytes.now % 2 ≡ 0 → bytes_of_words (words_of_bytes bytes.now) ≡ bytes.now }
{
    if bytes.len() % 2 == 1 {
        return Err(refused(Reason::BadParameter));
    }
    let n = bytes.len() / 2;
    if words.len() < n {
        return Err(refused(Reason::TooSmall));
    }
    // by index: after `iter_mut` the proof would know the length of the words alone
    for (i, pair) in bytes.chunks_exact(2).enumerate() {
        words[i] = u16::from_be_bytes([pair[0], pair[1]]);
    }
    Ok(n)
}

// Puts the words into the first bytes, the high byte of each first, and says how many bytes that
// makes. Too few bytes are refused, and then none is altered.
pub fn words_to_bytes(words: &[u16], bytes: &mut [u8]) -> Result<usize, Refusal>
    ensures answer { result ≡ bytes_made (length words.now) (length bytes.old) }
    ensures bytes { bytes.new ≡ over result (bytes_of_words words.now) bytes.old }
    ensures inverse { words_of_bytes (bytes_of_words words.now) ≡ words.now }
{
    let n = words.len();
    if bytes.len() / 2 < n {
        return Err(refused(Reason::TooSmall));
    }
    // by index: after `chunks_exact_mut` the proof would know the length of the bytes alone
    for (i, word) in words.iter().enumerate() {
        let [high, low] = word.to_be_bytes();
        bytes[2 * i] = high;
        bytes[2 * i + 1] = low;
    }
    Ok(2 * n)
}
