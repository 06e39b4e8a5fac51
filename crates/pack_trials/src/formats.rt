use crate::building::{FREE, free_pack, junk, label_words, totals};
use image_copy::CopyDrive;
use pack::Pack;
use std::test::Fail;

#[test]
fn a_large_pack_is_formatted_and_in_order(rt: HostRuntime) -> Result<(), Fail> {
    let mut words = free_pack(rt.alloc(), 4872)?;
    let mut pack = Pack::new(CopyDrive::new(words.as_mut_slice()));
    assert!(rt; pack.format().is_ok());
    assert_eq!(rt; (pack.highest(), pack.bits_free()), (1, 4869));
    let mut table = vec![in rt.alloc(); junk(); 4872]?;
    assert_eq!(rt;
        pack.scavenge(table.as_mut_slice()),
        Ok(totals(4869, 2, 0, 0))
    );
    assert_eq!(rt; (pack.highest(), pack.bits_free()), (1, 4869));
    let written = pack.into_drive().into_words();
    assert_eq!(rt; label_words(written, 1), [8192, 0, 0, 512, 0, 1, 32768, 1]);
    assert_eq!(rt; label_words(written, 4871), FREE);
    Ok(())
}
