// A script in a file: a part of the trusted edge. It tells nothing of its contents.
ghost use Rattle.std.specs.Prelude.{◌≡◌, ◌≤◌, ℕ, List, [], None};
ghost use Rattle.fault_counts.specs.Counts.{Rose};

use ccfs_base::{Source, SourceFailed};
use fault_counts::raised_count;
use std::fs::{self, File};
use std::io::Read;
use std::rt::Files;

/// A script in a file, which is opened at the first call. A missing file is a fault.
#[derive(Drop)]
pub struct FileSource<'a, R: Files<File = File>> {
    rt: &'a R,
    path: &'a str,
    file: Option<File>,
    faults: u64,
}

impl<'a, R: Files<File = File>> FileSource<'a, R> {
    /// The script in the file of that path.
    pub fn at(rt: &'a R, path: &'a str) -> Self
        ensures path { result.path.now ≡ path.now }
        ensures unopened { result.file ≡ None }
        ensures faults { result.faults ≡ 0 }
    {
        FileSource {
            rt,
            path,
            file: None,
            faults: 0,
        }
    }

    /// Opens the file, where it isn't open yet.
    fn open(&mut self)
        ensures { self.new.faults ≡ self.old.faults }
    {
        if self.file.is_none() {
            self.file = fs::open(self.rt, self.path).ok();
        }
    }
}

impl<'a, R: Files<File = File>> Source for FileSource<'a, R> {
    ghost tells = { ⊥ };

    ghost given = { λ s. [] };

    ghost left = { λ s. [] };

    ghost faults = { λ s. s.faults };

    fn read(&mut self, into: &mut [u8]) -> Result<usize, SourceFailed> {
        self.open();
        let read = match &mut self.file {
            Some(file) => file.read(into).ok(),
            None => None,
        };
        match read {
            Some(count) => Ok(count),
            None => {
                self.faults = raised_count(self.faults);
                Err(SourceFailed)
            }
        }
    }
}
