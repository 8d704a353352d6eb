ghost use Rattle.std.specs.Prelude.{◌≡◌, ◌≢◌, ◌<◌, ◌^◌};
ghost use Rattle.ibx_isa.specs.Wires.{IsRequest};
ghost use Rattle.ibx_icache.specs.WordPort.{AreCodewords, is_bad_word};
ghost use Rattle.ibx_icache.specs.Rules.{IsOutput};
ghost use Rattle.ibx_core.specs.Core.{alerts_of, is_bus, is_flipped as is_flipped_of, is_internal, is_minor, tag_ways};
ghost use Rattle.ibx_core.specs.Core.{tag_word, with_access, with_port, with_reads};

use crate::cycle::instruction_answer;
use crate::reads::Reads;
use crate::sight::data_answer;
use crate::state::State;
use crate::wires::{In, Out};
use ibx_icache::CacheOut;
use ibx_isa::{Req, Rsp};
use ibx_secded::Code;

#[inline(always)]
fn is_bad(word: u64) -> bool
    requires { word < 2 ^ 39 }
    ensures { result ≡ is_bad_word word }
{
    Code::<32, 7>::syndrome(word) != 0
}

#[inline(always)]
fn is_flipped(rsp: &Rsp) -> bool
    requires { rsp.now.word < 2 ^ 39 }
    ensures { result ≡ is_flipped_of rsp.now }
{
    rsp.valid && is_bad(rsp.word)
}

// The ways whose tag words are written: both where a set is emptied.
#[inline(always)]
fn ways(port: &CacheOut) -> u8
    requires { port.now.ways < 2 ^ 2 }
    ensures value { result ≡ tag_ways port.now }
    ensures fits { result < 2 ^ 2 }
{
    if port.clear { 3 } else { port.ways }
}

// The tag word that is written: the codeword of 0 where a set is emptied.
#[tactic(auto, using(crate::proofs::Tags::tag_is), unfolding(crate::specs::Core::tag_word))]
fn tag(port: &CacheOut) -> u32
    requires widths { IsOutput port.now }
    requires sound { port.now.ways ≢ 0 → AreCodewords port.now.tag port.now.line0 port.now.line1 }
    ensures value { result ≡ tag_word port.now }
    ensures fits { result < 2 ^ 28 }
{
    if port.clear {
        Code::<22, 6>::encode(0) as u32
    } else if port.ways == 0 {
        0
    } else {
        port.tag as u32
    }
}

impl State {
    // The alerts by their causes; `minor` is that a way that is looked up has a flipped bit.
    #[inline(always)]
    #[tactic(auto, unfolding(crate::specs::Core::alerts_of))]
    pub fn alerts(&self, i: &In, minor: bool) -> u8
        requires { minor ≡ is_minor self.now i.now }
        ensures value { result ≡ alerts_of self.now i.now }
        ensures fits { result < 2 ^ 3 }
    {
        let internal = is_bad(i.rega) || is_bad(i.regb) || self.csrs.glitch();
        let bus = is_flipped(&instruction_answer(i)) || is_flipped(&data_answer(i));
        u8::from(minor) + 2 * u8::from(internal) + 4 * u8::from(bus)
    }
}

/// Drives the data port's request.
#[inline(always)]
pub fn put_access(o: &mut Out, req: &Req)
    requires { IsRequest req.now }
    ensures { o.new ≡ with_access o.old req.now }
{
    o.dreq = req.valid;
    o.dwe = req.write;
    o.dbe = req.be;
    o.daddr = req.addr;
    o.dword = req.word;
}

/// Drives what is read.
#[inline(always)]
pub fn put_reads(o: &mut Out, reads: &Reads)
    requires first { reads.now.ra < 32 }
    requires second { reads.now.rb < 32 }
    ensures { o.new ≡ with_reads o.old reads.now }
{
    o.ra = reads.ra;
    o.rb = reads.rb;
    o.line = reads.line;
}

/// Drives the instruction port's request, and the words of the cache that are written.
#[inline(always)]
pub fn put_port(o: &mut Out, port: &CacheOut)
    requires widths { IsOutput port.now }
    requires sound { port.now.ways ≢ 0 → AreCodewords port.now.tag port.now.line0 port.now.line1 }
    ensures { o.new ≡ with_port o.old port.now }
{
    o.ireq = port.bus.valid;
    o.iaddr = port.bus.addr;
    o.tways = ways(port);
    o.tset = port.set;
    o.tword = tag(port);
    o.dways = port.ways;
    o.dw0 = port.line0;
    o.dw1 = port.line1;
}
