//! The plain map of several members: it splits where a member is whole, and is full where none can be split.

use cat_key::Name;
use member_map::MemberMap;
use shapes::NameMap;
use std::alloc::Global;

/// Puts a name of one letter, where there is room for it.
fn put(map: &mut MemberMap, letter: u8) {
    if let Ok(name) = Name::read(&[letter]) {
        let _answer = map.put(&name, 7);
    }
}

/// How many of these letters come into a map of two members of four names each at most.
fn kept(alloc: Global, letters: &[u8]) -> Option<u64> {
    let mut map = MemberMap::new(alloc, 4, 2).ok()?;
    for letter in letters {
        put(&mut map, *letter);
    }
    Some(map.len())
}

/// The fifth name splits the one member. The upper half has room for one more then, and the lower half for two.
#[test]
fn a_whole_member_is_split(rt: HostRuntime) {
    assert!(rt; kept(rt.alloc(), b"abcdefgABC") == Some(8));
}
