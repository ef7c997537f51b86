//! What no clause says: that cuts come through with ample memory, and what they are at an example.
use ccfs_base::Name;
use plain_model::{Step, tree_of_cut};
use std::process::Abort;
use std::test::Fail;
use tree_model::{ROOT, Tree, Update};

#[test]
fn each_seal_adds_the_updates_of_its_stream(rt: HostRuntime) -> Result<(), Fail> {
    let opening = Tree::root_alone(rt.alloc())?;
    let dir = Update::Make {
        dir: ROOT,
        name: Name::parse(b"a")?,
        id: 1,
        is_dir: true,
    };
    let file = Update::Make {
        dir: 1,
        name: Name::parse(b"f")?,
        id: 2,
        is_dir: false,
    };
    opening.is_a_tree();
    let mut between = opening.copy(rt.alloc())?;
    assert!(rt; between.applies(&dir));
    between.apply(&dir)?;
    between.is_a_tree();
    assert!(rt; between.applies(&file));
    let steps = [
        Step::Enter {
            stream: 1,
            update: dir,
        },
        Step::Seal { stream: 1 },
        Step::Enter {
            stream: 2,
            update: file,
        },
        Step::Seal { stream: 2 },
    ];
    let none = tree_of_cut(rt.alloc(), &opening, &steps, 0)?;
    assert!(rt; none.len() == 1);
    let one = tree_of_cut(rt.alloc(), &opening, &steps, 1)?;
    assert!(rt; one.len() == 2);
    let both = tree_of_cut(rt.alloc(), &opening, &steps, 2)?;
    assert!(rt; both.len() == 3);
    Ok(())
}
