ghost use Rattle.std.specs.Prelude.{◌≡◌, ◌≤◌, ◌<◌, ℕ, List, Option, [], ◌∷◌, ◌++◌, length, vec_len, IfOk, IfSome};
ghost use Rattle.std.specs.Prelude.{OnOk, OnErr, None, Some, IsSome, is_err};
ghost use Rattle.std.specs.List.{slice_get, position, list_any};
ghost use Rattle.ibx_base.specs.Counts.{HasCause, raised as raised_count};
ghost use Rattle.ibx_base.specs.Files.{Begins, CountsMiss, ReadsFrom};
ghost use Rattle.ibx_base.specs.MemFiles.{is_named, content_of, begun_at, next_fails, begin_fails, after_begin};
ghost use Rattle.ibx_base.specs.MemFiles.{count_read, after_read, no_files, with_entry, with_failure, counted, Finds};

use crate::files::Files;
use crate::status::{Failed, NoMemory};
use std::alloc::Global;
use std::marker::Model;

// A file in memory.
#[derive(Drop)]
struct MemFile {
    name: String,
    bytes: Vec<u8>,
}

impl Model for MemFile {
    ghost use Rattle.std.specs.Prelude.{string_bytes};
    ghost use Rattle.ibx_base.specs.MemFiles.{Entry};

    ghost Value = { Entry };

    ghost view = { λ f. record { name = string_bytes f.name; bytes = f.bytes.items } };
}

impl MemFile {
    fn new(alloc: Global, name: &str, bytes: &[u8]) -> Result<MemFile, NoMemory>
        ensures { IfOk result (λ file. file ≡ record { name = name.now; bytes = bytes.now }) }
    {
        Ok(MemFile {
            name: String::from_str(alloc, name)?,
            bytes: Vec::from_slice(alloc, bytes)?,
        })
    }

    fn is_named(&self, name: &str) -> bool
        ensures { result ≡ is_named name.now self.now }
    {
        self.name.as_str() == name
    }

    fn bytes(&self) -> &[u8]
        ensures { result.now ≡ self.now.bytes }
    {
        &self.bytes
    }
}

// The begun file by its index, and how many of its bytes were read.
#[derive(Clone, Copy)]
struct Place {
    file: usize,
    read: usize,
}

/// Files in memory, for programs that read no disk. The calls `begin` and `read` are numbered together
/// from 1, and those whose number was added by `fail_at` fail.
#[derive(Drop)]
pub struct MemFiles {
    alloc: Global,
    files: Vec<MemFile>,
    fails: Vec<u64>,
    calls: u64,
    begun: Option<Place>,
    faults: u64,
    misses: u64,
}

impl Model for MemFiles {
    ghost use Rattle.std.specs.Prelude.{option_and_then, vec_len};
    ghost use Rattle.ibx_base.specs.MemFiles.{Memory};
    ghost use Rattle.ibx_base.specs.Places.{begun_place, IsPlace};

    ghost Value = { Memory };

    ghost view = { λ m. record {
      entries = m.files.items;
      fails = m.fails.items;
      calls = m.calls;
      begun = begun_place m.files.items m.begun;
      faults = m.faults;
      misses = m.misses;
    } };

    ghost invariant = { λ m. IsPlace m.files.items m.begun };
}

impl MemFiles {
    /// No files, and no failing call.
    pub fn new(alloc: Global) -> MemFiles
        ensures { result ≡ no_files }
    {
        MemFiles {
            alloc,
            files: Vec::new(alloc),
            fails: Vec::new(alloc),
            calls: 0,
            begun: None,
            faults: 0,
            misses: 0,
        }
    }

    /// Adds a file as the last entry; of two entries with one name the first is used.
    pub fn add(&mut self, name: &str, bytes: &[u8]) -> Result<(), NoMemory>
        ensures added { OnOk result (self.new ≡ with_entry self.old name.now bytes.now) }
        ensures same { OnErr result (self.new ≡ self.old) }
    {
        let file = MemFile::new(self.alloc, name, bytes)?;
        self.files.push(file)?;
        Ok(())
    }

    /// Adds the number of a call that is to fail.
    pub fn fail_at(&mut self, call: u64) -> Result<(), NoMemory>
        ensures added { OnOk result (self.new ≡ with_failure self.old call) }
        ensures same { OnErr result (self.new ≡ self.old) }
    {
        self.fails.push(call)?;
        Ok(())
    }

    // Counts a call, and says whether it is to fail.
    fn count_call(&mut self) -> bool
        ensures answer { result ≡ next_fails self.old }
        ensures counted { self.new ≡ counted self.old }
    {
        self.calls = raised(self.calls);
        self.fails.contains(&self.calls)
    }
}

/// One more, as far as the type goes.
pub fn raised(count: u64) -> u64
    ensures { result ≡ raised_count count }
{
    count.saturating_add(1)
}

// The index of the first file of this name.
fn find(files: &[MemFile], name: &str) -> Option<usize>
    ensures { Finds files.now name.now result }
{
    position_of(files, name)
}

fn position_of(files: &[MemFile], name: &str) -> Option<usize>
    ensures { result ≡ position (is_named name.now) files.now }
{
    files.iter().position(|file| file.is_named(name))
}

impl Files for MemFiles {
    ghost contents = { λ m. Some (content_of m.entries) };

    ghost begun = { λ m. m.begun };

    ghost faults = { λ m. m.faults };

    ghost misses = { λ m. m.misses };

    fn begin(&mut self, name: &str) -> Result<(), Failed>
        ensures exact { self.new ≡ after_begin self.old name.now }
        ensures fails { is_err result ≡ begin_fails self.old name.now }
        ensures kept { content_of self.new.entries ≡ content_of self.old.entries }
        ensures begun { OnOk result (Begins (Some (content_of self.old.entries)) name.now self.new.begun) }
        ensures none { OnErr result (self.new.begun ≡ None) }
        ensures cause { HasCause self.old.faults self.new.faults result }
        ensures misses { CountsMiss (Some (content_of self.old.entries)) name.now self.old.misses self.new.misses }
    {
        let fails = self.count_call();
        self.begun = None;
        match find(&self.files, name) {
            None => {
                self.misses = raised(self.misses);
                self.faults = raised(self.faults);
                Err(Failed)
            }
            Some(_) if fails => {
                self.faults = raised(self.faults);
                Err(Failed)
            }
            Some(file) => {
                self.begun = Some(Place { file, read: 0 });
                Ok(())
            }
        }
    }

    fn read(&mut self, buf: &mut [u8]) -> Result<usize, Failed>
        ensures exact { self.new ≡ after_read self.old (length buf.old) }
        ensures fails { is_err result ≡ next_fails self.old }
        ensures count { IfOk result (λ count. count ≡ count_read self.old.begun (length buf.old)) }
        ensures kept { content_of self.new.entries ≡ content_of self.old.entries }
        ensures within { IfOk result (λ count. count ≤ length buf.old) }
        ensures bytes { IfOk result (λ count. ReadsFrom self.old.begun buf.old count self.new.begun buf.new) }
        ensures nothing { IfOk result (λ count. IsSome (Some (content_of self.old.entries)) → self.old.begun ≡ None
            → count ≡ 0) }
        ensures left { OnErr result (self.new.begun ≡ self.old.begun) }
        ensures cause { HasCause self.old.faults self.new.faults result }
        ensures misses { self.new.misses ≡ self.old.misses }
    {
        if self.count_call() {
            self.faults = raised(self.faults);
            return Err(Failed);
        }
        let Some(place) = self.begun else {
            return Ok(0);
        };
        let left = &self.files[place.file].bytes()[place.read..];
        let count = left.len().min(buf.len());
        buf[..count].copy_from_slice(&left[..count]);
        self.begun = Some(Place {
            file: place.file,
            read: place.read + count,
        });
        Ok(count)
    }
}
