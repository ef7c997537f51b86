// A disk that is a file: a part of the trusted edge. It tells nothing of its contents.
ghost use Rattle.std.specs.Prelude.{◌≡◌, ◌≤◌, ℕ, List, [], false, None};
ghost use Rattle.fault_counts.specs.Counts.{Rose};

use disk_model::{Disk, DiskFailed};
use fault_counts::raised_count;
use std::fs::{File, OpenFile, OpenOptions};
use std::os::unix::fs::FileExt;
use std::rt::Files;

/// A disk image in a file, which is opened at the first call. A call on a missing file is a fault, but for `set_size`,
/// which makes it. Once the system failed to sync the file, it may have dropped what was written, so no later `sync`
/// answers Ok.
#[derive(Drop)]
pub struct FileDisk<'a, R: Files<File = File>> {
    rt: &'a R,
    path: &'a str,
    file: Option<File>,
    has_lost: bool,
    known: u64,
    faults: u64,
}

impl<'a, R: Files<File = File>> FileDisk<'a, R> {
    /// The disk in the file of that path. Its known length is 0 until `size` or `set_size` answers Ok.
    pub fn at(rt: &'a R, path: &'a str) -> Self
        ensures path { result.path.now ≡ path.now }
        ensures unopened { result.file ≡ None }
        ensures lost { result.has_lost ≡ false }
        ensures known { result.known ≡ 0 }
        ensures faults { result.faults ≡ 0 }
    {
        FileDisk {
            rt,
            path,
            file: None,
            has_lost: false,
            known: 0,
            faults: 0,
        }
    }

    /// Counts a fault.
    fn fail(&mut self) -> DiskFailed
        ensures faults { Rose self.old.faults self.new.faults }
        ensures later { self.old.faults ≤ self.new.faults }
        ensures known { self.new.known ≡ self.old.known }
        ensures lost { self.new.has_lost ≡ self.old.has_lost }
    {
        self.faults = raised_count(self.faults);
        DiskFailed
    }

    /// Opens the file, where it isn't open yet.
    fn open(&mut self, may_make: bool)
        ensures faults { self.new.faults ≡ self.old.faults }
        ensures known { self.new.known ≡ self.old.known }
        ensures lost { self.new.has_lost ≡ self.old.has_lost }
    {
        if self.file.is_none() {
            let mut how = OpenOptions::new();
            how.read(true).write(true).create(may_make);
            self.file = how.open(self.rt, self.path).ok();
        }
    }
}

impl<'a, R: Files<File = File>> Disk for FileDisk<'a, R> {
    ghost tells = { ⊥ };

    ghost most = { 67112960 };

    ghost known = { λ d. d.known };

    ghost faults = { λ d. d.faults };

    ghost written = { λ d. 0 };

    ghost seen = { λ d. [] };

    ghost in_doubt = { λ d. false };

    ghost may_leave = { λ d c. ⊥ };

    ghost moment = { λ d. 0 };

    ghost left_since = { λ d t c. ⊥ };

    ghost length_seen = { λ told. absurd told };

    ghost may_leave_seen = { λ told. absurd told };

    ghost counts_now = { λ told. absurd told };

    ghost only_now = { λ told. absurd told };

    ghost earlier = { λ told. absurd told };

    fn size(&mut self) -> Result<u64, DiskFailed> {
        self.open(false);
        let length = match &self.file {
            Some(file) => file.metadata().ok().map(|about| about.len()),
            None => None,
        };
        match length {
            Some(length) => {
                self.known = length;
                Ok(length)
            }
            None => Err(self.fail()),
        }
    }

    fn set_size(&mut self, bytes: u64) -> Result<(), DiskFailed> {
        self.open(true);
        let done = match &self.file {
            Some(file) => file.set_len(bytes).is_ok(),
            None => false,
        };
        if done {
            self.known = bytes;
            return Ok(());
        }
        Err(self.fail())
    }

    fn read_at(&mut self, off: u64, into: &mut [u8]) -> Result<(), DiskFailed> {
        self.open(false);
        let done = match &self.file {
            Some(file) => file.read_exact_at(into, off).is_ok(),
            None => false,
        };
        if done {
            return Ok(());
        }
        Err(self.fail())
    }

    fn write_at(&mut self, off: u64, bytes: &[u8]) -> Result<(), DiskFailed> {
        self.open(false);
        let done = match &self.file {
            Some(file) => file.write_all_at(bytes, off).is_ok(),
            None => false,
        };
        if done {
            return Ok(());
        }
        Err(self.fail())
    }

    fn sync(&mut self) -> Result<(), DiskFailed> {
        self.open(false);
        let done = match &self.file {
            Some(file) => !self.has_lost && file.sync_all().is_ok(),
            None => false,
        };
        if done {
            return Ok(());
        }
        self.has_lost = self.file.is_some();
        Err(self.fail())
    }

    fn faults(&self) -> u64 {
        self.faults
    }

    fn known_size(&self) -> u64 {
        self.known
    }
}
