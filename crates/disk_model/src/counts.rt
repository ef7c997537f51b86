// The calls of a disk in memory since its plan was set, and its faults.
ghost use Rattle.std.specs.Prelude.{◌≡◌, ◌≤◌};
ghost use Rattle.fault_counts.specs.Counts.{raised};

use crate::plan::DeviceCall;
use crate::{CallKind, DiskFailed, FailPlan};
use fault_counts::raised_count;

/// The plan, the calls since it was set, and the faults.
#[derive(Drop)]
pub struct Counts {
    pub plan: FailPlan,
    pub calls: u64,
    pub reads: u64,
    pub writes: u64,
    pub syncs: u64,
    pub faults: u64,
    pub starved: u64,
}

impl Counts {
    ghost use Rattle.disk_model.specs.Plan.{Counted, names};
    ghost use Rattle.disk_model.specs.Counts.{covered};

    /// No calls, no faults, and a plan that fails none.
    pub fn new() -> Counts
        ensures plan { result.plan ≡ FailPlan.Never }
        ensures calls { (kind : _) → covered result kind ≡ 0 }
        ensures faults { result.faults ≡ 0 }
        ensures starved { result.starved ≡ 0 }
    {
        Counts {
            plan: FailPlan::Never,
            calls: 0,
            reads: 0,
            writes: 0,
            syncs: 0,
            faults: 0,
            starved: 0,
        }
    }

    /// Sets the plan, and counts calls from 0 again.
    pub fn set_plan(&mut self, plan: FailPlan)
        ensures plan { self.new.plan ≡ plan }
        ensures calls { (kind : _) → covered self.new kind ≡ 0 }
        ensures faults { self.new.faults ≡ self.old.faults }
        ensures starved { self.new.starved ≡ self.old.starved }
    {
        self.plan = plan;
        self.calls = 0;
        self.reads = 0;
        self.writes = 0;
        self.syncs = 0;
    }

    /// Counts a call, and says whether the plan fails it.
    pub fn next(&mut self, call: DeviceCall) -> bool
        ensures named { result ≡ names self.old.plan call (covered self.new) }
        ensures counted { Counted call (covered self.old) (covered self.new) }
        ensures plan { self.new.plan ≡ self.old.plan }
        ensures faults { self.new.faults ≡ self.old.faults }
        ensures starved { self.new.starved ≡ self.old.starved }
    {
        self.count(call);
        self.is_planned(call)
    }

    fn count(&mut self, call: DeviceCall)
        ensures counted { Counted call (covered self.old) (covered self.new) }
        ensures plan { self.new.plan ≡ self.old.plan }
        ensures faults { self.new.faults ≡ self.old.faults }
        ensures starved { self.new.starved ≡ self.old.starved }
    {
        self.calls = raised_count(self.calls);
        match call {
            DeviceCall::ReadAt => self.reads = raised_count(self.reads),
            DeviceCall::WriteAt => self.writes = raised_count(self.writes),
            DeviceCall::SyncAll => self.syncs = raised_count(self.syncs),
            DeviceCall::Size | DeviceCall::SetSize => {}
        }
    }

    fn is_planned(&self, call: DeviceCall) -> bool
        ensures { result ≡ names self.now.plan call (covered self.now) }
    {
        match self.plan {
            FailPlan::Never => false,
            FailPlan::From { call: first } => first <= self.calls,
            FailPlan::One { kind, number } => kind.covers(call) && self.of_kind(kind) == number,
        }
    }

    fn of_kind(&self, kind: CallKind) -> u64
        ensures { result ≡ covered self.now kind }
    {
        match kind {
            CallKind::Any => self.calls,
            CallKind::Read => self.reads,
            CallKind::Write => self.writes,
            CallKind::Sync => self.syncs,
        }
    }

    /// Counts a fault.
    pub fn fail(&mut self) -> DiskFailed
        ensures counted { self.new ≡ record self.old { faults = raised self.old.faults } }
        ensures later { self.old.faults ≤ self.new.faults }
    {
        self.faults = raised_count(self.faults);
        DiskFailed
    }

    /// Counts a fault for want of memory.
    pub fn starve(&mut self) -> DiskFailed
        ensures counted { self.new ≡ record self.old { faults = raised self.old.faults; starved = raised self.old.starved } }
        ensures later { self.old.faults ≤ self.new.faults }
    {
        self.faults = raised_count(self.faults);
        self.starved = raised_count(self.starved);
        DiskFailed
    }
}
