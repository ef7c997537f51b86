//! What the records of changes do: each law is the contract of a function that changes nothing.
ghost use Rattle.image_model.specs.ChangeLaws.{RecordsChangeTables, RecordsLieInside};

/// The records of a change, put on the bytes of a volume, change what the metadata tells of inodes as the change says, the
/// count of free inodes by one or not at all, and nothing else.
pub fn records_change_tables()
    ensures { RecordsChangeTables }
{}

/// The records of a change lie in the bytes of the volume, where its inode is there and what it names is a name.
#[tactic(auto, using(crate::proofs::ChangingTables::records_lie_inside))]
pub fn records_lie_inside()
    ensures { RecordsLieInside }
{}
