ghost use Rattle.std.specs.Prelude.{◌≡◌, ◌%◌, IfSome};
ghost use Rattle.ibx_isa.specs.Events.{IsPrintable};
ghost use Rattle.ibx_isa.specs.Wires.{IsRequest};
ghost use Rattle.ibx_system.specs.System.{fetch_of, load_store_of};
ghost use Rattle.ibx_soc.specs.Cycles.{alerts_with, at_cycle, bus_of, cycle_by, happens_at};

use ibx_core::Out;
use ibx_isa::{Alerts, Event, Req};

/// The requests of both bus ports in a cycle; a port without a request has all wires 0.
#[derive(Clone, Copy, Debug, PartialEq, Eq)]
pub struct BusOut {
    pub fetch: Req,
    pub load_store: Req,
}

/// What a cycle shows: both requests, the alerts that rise in it, and what is done in it, if anything.
#[derive(Clone, Copy, Debug, PartialEq, Eq)]
pub struct Cycle {
    pub bus: BusOut,
    pub alerts: Alerts,
    pub event: Option<Event>,
}

/// The request of the instruction port.
pub(crate) fn fetch(o: &Out) -> Req
    requires { o.now.iaddr % 4 ≡ 0 }
    ensures value { result ≡ fetch_of o.now }
    ensures fits { IsRequest result }
{
    Req {
        valid: o.ireq,
        write: false,
        be: if o.ireq { 15 } else { 0 },
        addr: o.iaddr,
        word: 0,
    }
}

/// The request of the data port.
pub(crate) fn load_store(o: &Out) -> Req
    requires { o.now.daddr % 4 ≡ 0 }
    ensures value { result ≡ load_store_of o.now }
    ensures fits { IsRequest result }
{
    Req {
        valid: o.dreq,
        write: o.dwe,
        be: o.dbe,
        addr: o.daddr,
        word: o.dword,
    }
}

// The alerts of main's output, and INTERNAL besides where the comparator tells a difference.
fn alerts(o: &Out, told: bool) -> Alerts
    ensures { result ≡ alerts_with told o.now.alerts }
{
    if told {
        Alerts(o.alerts | Alerts::INTERNAL.0)
    } else {
        Alerts(o.alerts)
    }
}

// An event with its cycle.
fn at_cycle(event: Event, cycle: u64) -> Event
    ensures value { result ≡ at_cycle cycle event }
    ensures printable { IsPrintable event → IsPrintable result }
{
    match event {
        Event::Retire {
            pc,
            word,
            rd,
            value,
            mem,
            ctl,
            ops,
            ..
        } => Event::Retire {
            cycle,
            pc,
            word,
            rd,
            value,
            mem,
            ctl,
            ops,
        },
        Event::Trap {
            pc,
            word,
            cause,
            tval,
            addr,
            ..
        } => Event::Trap {
            cycle,
            pc,
            word,
            cause,
            tval,
            addr,
        },
        Event::Irq { pc, cause, .. } => Event::Irq { cycle, pc, cause },
    }
}

impl Cycle {
    /// A cycle by its number, by whether a difference is told in it, and by main's output.
    pub(crate) fn of(at: u64, told: bool, o: &Out) -> Cycle
        requires fetch { o.now.iaddr % 4 ≡ 0 }
        requires load_store { o.now.daddr % 4 ≡ 0 }
        requires printable { IfSome o.now.event IsPrintable }
        ensures value { result ≡ cycle_by at told o.now }
        ensures printable { IfSome result.event IsPrintable }
    {
        Cycle {
            bus: BusOut {
                fetch: fetch(o),
                load_store: load_store(o),
            },
            alerts: alerts(o, told),
            event: dated(o.event, at),
        }
    }
}

fn dated(event: Option<Event>, at: u64) -> Option<Event>
    requires { IfSome event IsPrintable }
    ensures value { result ≡ happens_at at event }
    ensures printable { IfSome result IsPrintable }
{
    match event {
        None => None,
        Some(event) => Some(at_cycle(event, at)),
    }
}
