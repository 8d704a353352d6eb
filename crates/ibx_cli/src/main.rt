//! The program: its words, the disk, standard output and standard error, handed to the top call.
#![tactic(auto)]

mod disk;
mod streams;

use disk::DiskFiles;
use ibx_base::{Failed, Status, write_all};
use ibx_top::ibex;
use std::cell::RefCell;
use std::env;
use std::io::ErrorKind;
use std::process::ExitCode;
use streams::{Gathered, Printed, Reported};

// The status where the system's call for the command words failed.
const NO_WORDS: u8 = 13;

// The status where standard output can't be written.
const NO_OUTPUT: u8 = 4;

// The status where there was no memory for the command words.
const NO_MEMORY: u8 = 7;

fn main(rt: HostRuntime) -> ExitCode {
    let alloc = rt.alloc();
    let args = match env::args(&rt) {
        Ok(args) => args,
        Err(error) if error.kind() == ErrorKind::OutOfMemory => return ExitCode::from(NO_MEMORY),
        Err(_) => return ExitCode::from(NO_WORDS),
    };
    let Ok(words) = args.skip(1).collect::<Vec<String>>(alloc) else {
        return ExitCode::from(NO_MEMORY);
    };
    let mut files = DiskFiles::new(&rt);
    let gathered = RefCell::new(Gathered::new(rt.stdout()));
    let mut out = Printed::new(&gathered);
    let mut err = Reported::new(&gathered, rt.stderr());
    let status: Status = ibex(alloc, &words, &mut files, &mut out, &mut err);
    // What is still gathered is written now; where that fails it is as if the top call had met the fault.
    let flushed = match gathered.try_borrow_mut() {
        Ok(mut gathered) => gathered.flush(),
        Err(_) => Err(Failed),
    };
    if status.code != NO_OUTPUT && flushed.is_err() {
        let _ = write_all(&mut err, b"ibex: cannot write\n");
        return ExitCode::from(NO_OUTPUT);
    }
    ExitCode::from(status.code)
}
