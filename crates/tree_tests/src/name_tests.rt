//! What no clause says: that calls come through with ample memory, and what the clauses mean at examples of names and paths.
use ccfs_base::{Name, NameFault, Path, PathFault};
use std::test::Fail;

#[test]
fn the_place_of_a_bad_name_is_its_first_bad_byte_or_its_length(rt: HostRuntime) {
    let long = [b'a'; 65];
    let cases = [
        (b"".as_slice(), 0),
        (b"..".as_slice(), 2),
        (b"ab/c".as_slice(), 2),
        (b"a b".as_slice(), 1),
        (&long, 65),
    ];
    for (text, place) in cases {
        assert_eq!(rt; Name::parse(text), Err(NameFault::BadName { place }));
    }
}

#[test]
fn names_are_in_the_order_of_their_bytes(rt: HostRuntime) -> Result<(), Fail> {
    assert!(rt; Name::empty() < Name::parse(b"a")?);
    assert!(rt; Name::parse(b"a")? < Name::parse(b"a.")?);
    Ok(())
}

#[test]
fn a_path_gives_its_text_and_its_names(rt: HostRuntime) -> Result<(), Fail> {
    let path = Path::parse(rt.alloc(), b"/a/bc")?.copy()?;
    assert_eq!(rt; path.all(), b"/a/bc".as_slice());
    assert!(rt; !path.is_root());
    let mut names = path.names();
    assert_eq!(rt; names.next_name(), Some(Name::parse(b"a")?));
    assert_eq!(rt; names.next_name(), Some(Name::parse(b"bc")?));
    assert_eq!(rt; names.next_name(), None);
    Ok(())
}

#[test]
fn the_place_of_a_bad_path_is_the_start_of_its_first_bad_component(rt: HostRuntime) {
    let cases = [
        (b"".as_slice(), 0),
        (b"a/b".as_slice(), 0),
        (b"//".as_slice(), 1),
        (b"/a/".as_slice(), 3),
        (b"/a//b".as_slice(), 3),
        (b"/a/b c".as_slice(), 3),
    ];
    for (text, place) in cases {
        assert_eq!(rt;
            Path::parse(rt.alloc(), text).err(),
            Some(PathFault::BadPath { place })
        );
    }
}
