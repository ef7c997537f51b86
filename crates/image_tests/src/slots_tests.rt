//! What the clauses of `flat_dirs` mean at slots that were worked out by hand, and what no clause says: that calls come through
//! with ample memory.
use ccfs_base::Name;
use flat_dirs::{Slot, SlotFault, Slots, decode_slot, encode_slot};
use std::alloc::Global;
use std::process::Abort;
use std::test::Fail;

/// A name.
type Text = &'static [u8];

/// The slot of `ab` in directory 258: the parent is 2 + 256 * 1, and the length is 2.
const SMALL: [u8; 69] = [
    2, 1, 0, 0, 2, 97, 98, 0, 0, 0, 0, 0, 0, 0, 0, 0, 0, 0, 0, 0, 0, 0, 0, 0, 0, 0, 0, 0, 0, 0, 0,
    0, 0, 0, 0, 0, 0, 0, 0, 0, 0, 0, 0, 0, 0, 0, 0, 0, 0, 0, 0, 0, 0, 0, 0, 0, 0, 0, 0, 0, 0, 0, 0,
    0, 0, 0, 0, 0, 0,
];

/// That of the longest name, 64 times `z`, in the directory of the greatest number.
const LONGEST: [u8; 69] = [
    255, 255, 255, 255, 64, 122, 122, 122, 122, 122, 122, 122, 122, 122, 122, 122, 122, 122, 122,
    122, 122, 122, 122, 122, 122, 122, 122, 122, 122, 122, 122, 122, 122, 122, 122, 122, 122, 122,
    122, 122, 122, 122, 122, 122, 122, 122, 122, 122, 122, 122, 122, 122, 122, 122, 122, 122, 122,
    122, 122, 122, 122, 122, 122, 122, 122, 122, 122, 122, 122,
];

/// The slot of this name in this directory.
fn slot(parent: u32, name: &[u8]) -> Result<Slot, Fail> {
    Ok(Slot {
        parent,
        name: Name::parse(name)?,
    })
}

#[test]
fn a_slot_is_its_parent_its_length_and_its_name(rt: HostRuntime) -> Result<(), Fail> {
    for (slot, bytes) in [
        (slot(258, b"ab")?, SMALL),
        (slot(4_294_967_295, &[b'z'; 64])?, LONGEST),
    ] {
        assert_eq!(rt; encode_slot(&slot), bytes);
        assert_eq!(rt; decode_slot(&bytes), Ok(slot));
    }
    Ok(())
}

/// Bytes put at places of the small slot, and the name in directory 258 that is read then, where one is.
const READ: [(&'static [(usize, u8)], Option<Text>); 14] = [
    // The bytes behind the name aren't looked at.
    (&[(7, 47), (68, 255)], Some(b"ab")),
    // Zeros alone are no slot.
    (&[(0, 0), (1, 0), (4, 0), (5, 0), (6, 0)], None),
    (&[(4, 0)], None),
    (&[(4, 1)], Some(b"a")),
    (&[(4, 3)], None),
    (&[(4, 65)], None),
    (&[(4, 255)], None),
    (&[(5, 0x20)], None),
    (&[(5, 0x21)], Some(b"!b")),
    (&[(6, 0x7e)], Some(b"a~")),
    (&[(6, 0x7f)], None),
    (&[(6, b'/')], None),
    (&[(6, b'.')], Some(b"a.")),
    (&[(5, b'.'), (6, b'.')], None),
];

/// The small slot with these bytes at these places, as it is read.
fn read_with(changes: &[(usize, u8)]) -> Result<Slot, SlotFault> {
    let mut bytes = SMALL;
    for (place, byte) in changes {
        if *place < 69 {
            bytes[*place] = *byte;
        }
    }
    decode_slot(&bytes)
}

#[test]
fn a_length_or_a_name_that_no_name_has_is_refused(rt: HostRuntime) -> Result<(), Fail> {
    for (changes, name) in &READ {
        let wanted = match name {
            Some(name) => Ok(slot(258, name)?),
            None => Err(SlotFault::BadSlot),
        };
        assert_eq!(rt; read_with(changes), wanted, "at {changes:?}");
    }
    Ok(())
}

/// What is done with slots, or seen of them.
#[derive(Clone, Copy, Debug, Drop)]
enum Step {
    /// An inode gets a slot in a directory, under a name.
    Put(u32, u32, Text),
    /// An inode loses its slot.
    Remove(u32),
    /// A directory, and its inodes.
    Entries(u32, &'static [u32]),
    /// A directory, a name, and the inode that has it there.
    Find(u32, Text, Option<u32>),
    /// An inode, and its directory and name.
    Get(u32, Option<(u32, Text)>),
}

/// Takes a step, and tells whether it goes as it says.
fn goes(alloc: Global, slots: &mut Slots, step: &Step) -> Result<bool, Fail> {
    match *step {
        Step::Put(inode, parent, name) => {
            slots.put(inode, slot(parent, name)?)?;
            Ok(true)
        }
        Step::Remove(inode) => {
            slots.remove(inode);
            Ok(true)
        }
        Step::Entries(parent, inodes) => Ok(slots.entries(alloc, parent)?.as_slice() == inodes),
        Step::Find(parent, name, inode) => Ok(slots.find(parent, &Name::parse(name)?) == inode),
        Step::Get(inode, wanted) => {
            let wanted = match wanted {
                Some((parent, name)) => Some(slot(parent, name)?),
                None => None,
            };
            Ok(slots.get(inode).copied() == wanted)
        }
    }
}

/// In directory 1 `b` is 2, `a` is 5, `B` is 7 and `a.b` is 9, and in directory 3 `a` is 4.
const START: [Step; 5] = [
    Step::Put(5, 1, b"a"),
    Step::Put(4, 3, b"a"),
    Step::Put(9, 1, b"a.b"),
    Step::Put(2, 1, b"b"),
    Step::Put(7, 1, b"B"),
];

/// Takes steps.
fn take(rt: &impl Abort, alloc: Global, slots: &mut Slots, steps: &[Step]) -> Result<(), Fail> {
    for step in steps {
        assert!(rt; goes(alloc, slots, step)?, "at {step:?}");
    }
    Ok(())
}

/// A directory is listed in byte order of names, and a name is found in its own directory alone.
const SEEN: [Step; 9] = [
    Step::Entries(1, &[7, 5, 9, 2]),
    Step::Entries(3, &[4]),
    Step::Entries(2, &[]),
    Step::Find(1, b"a", Some(5)),
    Step::Find(3, b"a", Some(4)),
    Step::Find(2, b"a", None),
    Step::Find(1, b"a.", None),
    Step::Get(9, Some((1, b"a.b"))),
    Step::Get(3, None),
];

/// A slot that is replaced or removed leaves its place.
const MOVED: [Step; 7] = [
    Step::Put(5, 3, b"c"),
    Step::Remove(9),
    Step::Remove(8),
    Step::Find(1, b"a", None),
    Step::Find(3, b"c", Some(5)),
    Step::Entries(1, &[7, 2]),
    Step::Entries(3, &[4, 5]),
];

/// Of twins the lowest is found, and both are listed.
const TWINS: [Step; 4] = [
    Step::Put(3, 1, b"a"),
    Step::Put(8, 1, b"a"),
    Step::Find(1, b"a", Some(3)),
    Step::Entries(1, &[7, 3, 5, 8, 9, 2]),
];

#[test]
fn slots_go_as_the_steps_say(rt: HostRuntime) -> Result<(), Fail> {
    for steps in [SEEN.as_slice(), MOVED.as_slice(), TWINS.as_slice()] {
        let mut slots = Slots::new(rt.alloc());
        take(&rt, rt.alloc(), &mut slots, &START)?;
        take(&rt, rt.alloc(), &mut slots, steps)?;
    }
    Ok(())
}
