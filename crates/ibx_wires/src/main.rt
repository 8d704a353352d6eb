//! Prints the requests on the bus of a run, cycle by cycle: the words are those of the command `run`, and the run goes
//! on past a halting store up to its budget.
//!
//! A line is `CYCLE i ADDR ENABLES WRITE WORD` for the instruction port and the same with `d` for the data port: the
//! cycle decimal, the byte address in 8 hexadecimal digits, the byte enables in one, 1 for a write, and the codeword
//! in 10 hexadecimal digits, which is 0 for a read. A cycle without a request has no line. (The format is our own
//! rule.)
#![tactic(auto)]

ghost use Rattle.ibx_elf.specs.Ram.{IsRamRange};

use ibx_command::{Command, Run, read_words};
use ibx_elf::load;
use ibx_isa::Req;
use ibx_plan::{Bounds, Plan, read};
use ibx_soc::{BusOut, Config, Soc};
use std::alloc::Global;
use std::io::{self, BufWriter, Write};
use std::process::ExitCode;
use std::{env, fs};

// The most bytes that a plan may have, 4 MiB.
const PLAN_LIMIT: usize = 4_194_304;

// The end of the cycles that a system can make.
const LAST_CYCLE: u64 = 1 << 62;

// Why nothing is printed, or not all of it.
enum Trouble {
    Words,
    Plan,
    File,
    Memory,
    Stream,
}

// The plan of this name, which has no flip; the empty one where there is no name.
fn plan_named(
    rt: &HostRuntime,
    alloc: Global,
    name: Option<&str>,
    bounds: &Bounds,
) -> Result<Plan, Trouble> {
    let Some(name) = name else {
        return Ok(Plan::empty(alloc));
    };
    let text = fs::read(rt, name).map_err(|_| Trouble::Stream)?;
    if text.len() > PLAN_LIMIT {
        return Err(Trouble::Plan);
    }
    read(alloc, &text, bounds).map_err(|_| Trouble::Plan)
}

// Writes the line of a request, if there is one.
fn print_request<W: Write>(out: &mut W, cycle: u64, port: char, req: Req) -> io::Result<()> {
    if !req.valid {
        return Ok(());
    }
    writeln!(
        out,
        "{cycle} {port} {:08x} {:x} {} {:010x}",
        req.addr,
        req.be,
        u8::from(req.write),
        req.word
    )
}

// Writes the lines of a cycle: the instruction port's first.
fn print_bus<W: Write>(out: &mut W, cycle: u64, bus: BusOut) -> io::Result<()> {
    print_request(out, cycle, 'i', bus.fetch)?;
    print_request(out, cycle, 'd', bus.load_store)
}

// Steps a system for so many cycles, and writes the requests of each.
fn print_run<W: Write>(out: &mut W, soc: &mut Soc<'_>, cycles: u64) -> io::Result<()> {
    for _ in 0..cycles {
        let cycle = soc.cycle();
        if cycle >= LAST_CYCLE {
            break;
        }
        let shown = soc.step();
        print_bus(out, cycle, shown.bus)?;
    }
    out.flush()
}

// Runs what the words say.
fn perform(rt: &HostRuntime, asked: Run<'_>) -> Result<(), Trouble>
    requires { IsRamRange asked.options.ram }
{
    let alloc = rt.alloc();
    let ram = asked.options.ram;
    let bounds = Bounds {
        ram_words: ram.size / 4,
        delay: asked.options.delay.cycles(),
        flips: 0,
        cycles: asked.options.cycles,
    };
    let plan = plan_named(rt, alloc, asked.plan, &bounds)?;
    let file = fs::read(rt, asked.file).map_err(|_| Trouble::Stream)?;
    let image = load(&file, ram).map_err(|_| Trouble::File)?;
    let config = Config {
        ram,
        mul: asked.options.mul,
        delay: asked.options.delay,
    };
    let mut soc = Soc::new(alloc, &image, &config, &plan).map_err(|_| Trouble::Memory)?;
    let mut out = BufWriter::new(alloc, rt.stdout()).map_err(|_| Trouble::Memory)?;
    print_run(&mut out, &mut soc, asked.options.cycles).map_err(|_| Trouble::Stream)
}

// What the words of the program come to.
fn answer(rt: &HostRuntime) -> Result<(), Trouble> {
    let args = env::args(rt).map_err(|_| Trouble::Words)?;
    let words = args
        .skip(1)
        .collect::<Vec<String>>(rt.alloc())
        .map_err(|_| Trouble::Memory)?;
    match read_words(&words) {
        Some(Command::Run(asked)) => perform(rt, asked),
        _ => Err(Trouble::Words),
    }
}

fn main(rt: HostRuntime) -> ExitCode {
    match answer(&rt) {
        Ok(()) => ExitCode::from(0),
        Err(trouble) => {
            let _ = eprintln!(rt;
                "ibx_wires: {}",
                match trouble {
                    Trouble::Words => "bad words",
                    Trouble::Plan => "the plan is refused",
                    Trouble::File => "the file is refused",
                    Trouble::Memory => "out of memory",
                    Trouble::Stream => "a file can't be read, or the output not written",
                }
            );
            ExitCode::from(1)
        }
    }
}
