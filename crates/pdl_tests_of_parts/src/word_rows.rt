// Words that no expression asks for by themselves.
use pdl_word::{Word, mask, rep};

#[test]
fn masks_and_repeated_words(rt: HostRuntime) {
    assert!(rt; [mask(1), mask(8)] == [1, 0xff]);
    assert!(rt; [mask(63), mask(64)] == [0x7fff_ffff_ffff_ffff, 0xffff_ffff_ffff_ffff]);
    assert!(rt; [rep(1, 8, 1), rep(4, 3, 0xa)] == [0xff, 0xaaa]);
    assert!(rt; [mask(65), mask(128)] == [0x1_ffff_ffff_ffff_ffff, Word::MAX]);
    assert!(rt; [rep(64, 1, 7), rep(32, 2, 1)] == [7, 0x1_0000_0001]);
    assert!(rt; [rep(128, 1, 7), rep(64, 2, 1)] == [7, 0x1_0000_0000_0000_0001]);
}
