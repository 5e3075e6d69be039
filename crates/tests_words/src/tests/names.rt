//! The words and fingerprints of names, counted by hand, and how names are printed.

use cat_key::{Name, Pair};
use std::alloc::Global;

/// The three words of a name, and behind them its fingerprint.
fn numbers_of(text: &[u8]) -> Option<[u64; 4]> {
    let name = Name::read(text).ok()?;
    let [first, second, third] = name.words();
    Some([first, second, third, u64::from(name.fingerprint())])
}

#[test]
fn names_have_their_words(rt: HostRuntime) {
    let short = [0x6161_0000_0000_0000, 0, 0, 132];
    let middle = [0x696d_672f_3030_3031, 0x2e72_6177_0000_0000, 0, 53];
    let longest = [
        0x6162_6364_6566_6768,
        0x696a_6b6c_6d6e_6f70,
        0x7172_7374_7576_7778,
        28,
    ];
    assert!(rt; numbers_of(b"aa") == Some(short));
    assert!(rt; numbers_of(b"img/0001.raw") == Some(middle));
    assert!(rt; numbers_of(b"abcdefghijklmnopqrstuvwx") == Some(longest));
}

/// Whether this is printed for the name, and for its pair with 7.
fn is_shown(alloc: Global, text: &[u8], want: &str) -> Option<bool> {
    let name = Name::read(text).ok()?;
    let pair = Pair { name, value: 7 };
    let text = format!(in alloc; "{name} {pair:?}").ok()?;
    Some(text.as_str() == want)
}

#[test]
fn names_are_printed(rt: HostRuntime) {
    let want = "img/0001.raw Pair { name: Name(img/0001.raw), value: 7 }";
    assert!(rt; is_shown(rt.alloc(), b"img/0001.raw", want) == Some(true));
}
