//! The scripts: several streams, on an image of 32 inodes.
use super::beside::is_same;
use std::test::Fail;

#[test]
fn streams_that_meet_seal_each_other(rt: HostRuntime) -> Result<(), Fail> {
    for script in [
        b"1 setstream 1\n2 setstream 2\n1 mkdir /a\n2 create /a/f\n1 create /a/g\n2 unlink /a/f\n1 rename /a/g /h\n2 streamsync\n0 stat /a\n".as_slice(),
        b"1 setstream 1\n2 setstream 2\n3 setstream 3\n1 mkdir /a\n2 mkdir /b\n3 mkdir /c\n1 rename /a /b/a\n2 rename /b /c/b\n3 rename /c /a\n3 sync\n0 list / 0\n",
        b"4 setstream 63\n4 mkdir /a\n4 mkdir /a/b\n0 rmdir /a/b\n4 rmdir /a\n0 flush\n4 flush\n4 streamsync\n0 sync\n0 list / 0\n",
    ] {
        is_same(rt.alloc(), script)?;
    }
    Ok(())
}

#[test]
fn renames_replace_and_refuse_as_the_model_does(rt: HostRuntime) -> Result<(), Fail> {
    for script in [
        b"0 mkdir /a\n0 create /a/f\n0 create /g\n0 sync\n1 setstream 1\n1 rename /g /a/f\n0 rename /a/f /a/f\n0 rename /a /a/x\n0 rename /a /g\n1 streamsync\n0 list /a 0\n".as_slice(),
        b"0 create /a\n0 create /b\n0 rename /a /b\n0 rename /b /a\n0 streamsync\n0 create /b\n0 rename /b /a\n0 stat /a\n0 list / 1\n0 streamsync\n",
        b"0 mkdir /a\n0 mkdir /a/b\n0 mkdir /a/b/c\n0 rename /a/b/c /c\n0 rename /a /c/a\n0 rename /c /c/a/b/c\n0 rename /c/a/b /a\n0 streamsync\n0 stat /a\n0 list /c 0\n",
    ] {
        is_same(rt.alloc(), script)?;
    }
    Ok(())
}

#[test]
fn inodes_run_out_and_come_back_as_in_the_model(rt: HostRuntime) -> Result<(), Fail> {
    let script =
        b"0 create /00\n0 create /01\n0 create /02\n0 create /03\n0 create /04\n0 create /05\n0 create /06\n0 create /07\n0 create /08\n0 create /09\n0 create /10\n0 create /11\n0 create /12\n0 create /13\n0 create /14\n0 create /15\n0 create /16\n0 create /17\n0 create /18\n0 create /19\n0 create /20\n0 create /21\n0 create /22\n0 create /23\n0 create /24\n0 create /25\n0 create /26\n0 create /27\n0 create /28\n0 create /29\n0 create /30\n0 streamsync\n1 setstream 1\n1 unlink /03\n0 create /30\n1 create /30\n0 create /31\n1 rename /05 /06\n0 create /31\n1 streamsync\n0 create /31\n0 create /32\n0 sync\n0 list / 20\n";
    is_same(rt.alloc(), script.as_slice())
}
