ghost use Rattle.std.specs.Prelude.{None, ◌≡◌, ◌≤◌};
ghost use Rattle.ibx_base.specs.Counts.{Rose};

use ibx_base::{Failed, Files};
use std::fs::File;
use std::io::Read;

/// The files of the disk, which tell nothing of what they hold.
#[derive(Drop)]
pub struct DiskFiles<'r> {
    rt: &'r HostRuntime,
    begun: Option<File>,
    faults: u64,
}

impl<'r> DiskFiles<'r> {
    /// No file is begun, and no fault was met.
    pub fn new(rt: &'r HostRuntime) -> DiskFiles<'r>
        ensures { result.faults ≡ 0 }
    {
        DiskFiles {
            rt,
            begun: None,
            faults: 0,
        }
    }

    // Counts a fault.
    fn failed(&mut self) -> Failed
        ensures never_falls { self.old.faults ≤ self.new.faults }
        ensures counted { Rose self.old.faults self.new.faults }
    {
        self.faults = self.faults.saturating_add(1);
        Failed
    }
}

impl Files for DiskFiles<'_> {
    ghost contents = { λ _. None };

    ghost begun = { λ _. None };

    ghost faults = { λ f. f.faults };

    ghost misses = { λ _. 0 };

    fn begin(&mut self, name: &str) -> Result<(), Failed> {
        self.begun = None;
        match File::open(self.rt, name) {
            Ok(file) => {
                self.begun = Some(file);
                Ok(())
            }
            Err(_) => Err(self.failed()),
        }
    }

    fn read(&mut self, buf: &mut [u8]) -> Result<usize, Failed> {
        let Some(file) = &mut self.begun else {
            return Ok(0);
        };
        match file.read(buf) {
            Ok(count) => Ok(count),
            Err(_) => Err(self.failed()),
        }
    }
}
