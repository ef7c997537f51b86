// Which calls of a disk in memory fail.
ghost use Rattle.std.specs.Prelude.{◌≡◌};
ghost use Rattle.disk_model.specs.Plan.{covers};

/// Which calls a plan counts.
#[derive(Clone, Copy, Debug, PartialEq, Eq, Drop)]
pub enum CallKind {
    /// All five: `size`, `set_size`, `read_at`, `write_at` and `sync`.
    Any,
    /// `read_at` alone.
    Read,
    /// `write_at` alone.
    Write,
    /// `sync` alone.
    Sync,
}

/// Which calls of a disk in memory fail. Calls are numbered from 1, from when the plan was set.
#[derive(Clone, Copy, Debug, PartialEq, Eq, Drop)]
pub enum FailPlan {
    /// None.
    Never,
    /// Each call from this number on.
    From { call: u64 },
    /// Of the calls of this kind the one with this number, and no other.
    One { kind: CallKind, number: u64 },
}

/// What a call asks the device for.
#[derive(Clone, Copy, Debug, PartialEq, Eq, Drop)]
pub enum DeviceCall {
    Size,
    SetSize,
    ReadAt,
    WriteAt,
    SyncAll,
}

impl CallKind {
    /// Whether calls of this kind include that one.
    pub fn covers(self, call: DeviceCall) -> bool
        ensures { result ≡ covers self call }
    {
        match self {
            CallKind::Any => true,
            CallKind::Read => matches!(call, DeviceCall::ReadAt),
            CallKind::Write => matches!(call, DeviceCall::WriteAt),
            CallKind::Sync => matches!(call, DeviceCall::SyncAll),
        }
    }
}
