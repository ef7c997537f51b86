//! Records of updates in the logs of streams.
ghost use Rattle.std.specs.Prelude.{◌≡◌, ◌<◌, ◌++◌, ◌∷◌, [], OnOk};
ghost use Rattle.ccfs_base.specs.Rooms.{IsFirst};
ghost use Rattle.record_logs.specs.Kept.{call_by};
ghost use Rattle.shared_meta.specs.Area.{area, AreAsBefore, MayLog, IsLoggedIn};
ghost use Rattle.front_laws.specs.Logging.{MayLogAll};
ghost use Rattle.front_core.specs.Logged.{calls_of, AreLogged};

use ccfs_base::{NoMemory, Rec};
use shared_meta::SharedMeta;

/// Takes the memory for logging one record for a stream: the call stands last in the room.
fn room_for(meta: &mut SharedMeta, stream: u8, rec: &Rec) -> Result<(), NoMemory>
    requires { stream < 64 }
    ensures kept { AreAsBefore (area meta.old) (area meta.new) }
    ensures ok { OnOk result (meta.new.room ≡ meta.old.room ++ call_by stream rec.now ∷ []) }
{
    match rec {
        Rec::Range { off, bytes } => meta.put_room(stream, *off, bytes.all()),
        Rec::Add { off, by } => meta.add_room(stream, *off, by.cast_signed()),
        Rec::Bit { off, bit, on } => meta.flip_room(stream, *off, *bit, *on),
    }
}

/// Logs one record for a stream, which the first call of the room does. It takes no memory.
fn log(meta: &mut SharedMeta, stream: u8, rec: &Rec)
    requires room { IsFirst (call_by stream rec.now) meta.old.room }
    requires may { MayLog (area meta.old) (call_by stream rec.now) }
    ensures { IsLoggedIn (area meta.old) (call_by stream rec.now) (area meta.new) }
{
    match rec {
        Rec::Range { off, bytes } => meta.put(stream, *off, bytes.all()).unwrap(),
        Rec::Add { off, by } => meta.add(stream, *off, by.cast_signed()).unwrap(),
        Rec::Bit { off, bit, on } => meta.flip(stream, *off, *bit, *on).unwrap(),
    }
}

/// Takes the memory for logging these records, in their order, for a stream: the calls stand last in the room. Without memory a part of
/// them may stand there.
pub fn room_for_all(meta: &mut SharedMeta, stream: u8, recs: &[Rec]) -> Result<(), NoMemory>
    requires { stream < 64 }
    ensures kept { AreAsBefore (area meta.old) (area meta.new) }
    ensures ok { OnOk result (meta.new.room ≡ meta.old.room ++ calls_of stream recs.now) }
{
    for rec in recs {
        room_for(meta, stream, rec)?;
    }
    Ok(())
}

/// Logs records for a stream, in their order, for which the room was made. It takes no memory.
pub fn log_all(meta: &mut SharedMeta, stream: u8, recs: &[Rec])
    requires room { meta.old.room ≡ calls_of stream recs.now }
    requires may { MayLogAll (area meta.old) stream recs.now }
    ensures { AreLogged (area meta.old) stream recs.now (area meta.new) }
{
    for rec in recs {
        log(meta, stream, rec);
    }
}
