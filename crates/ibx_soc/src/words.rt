ghost use Rattle.std.specs.Prelude.{◌≡◌, ◌<◌, ◌^◌, length};
ghost use Rattle.ibx_system.specs.System.{registers_after, tags_after, way_after, writes_way, put_if, tag_index};
ghost use Rattle.ibx_system.specs.System.{line_index};

use ibx_core::Out;
use ibx_ram::{CodedRam, RegFile};

// Whether a set of ways has this one.
fn has_way(ways: u8, way: u8) -> bool
    requires { way < 2 }
    ensures { result ≡ writes_way ways way }
{
    if way == 0 {
        ways % 2 == 1
    } else {
        ways / 2 % 2 == 1
    }
}

/// The register write of a cycle.
pub(crate) fn write_register(registers: &mut RegFile, o: &Out)
    ensures { registers.new ≡ registers_after registers.old o.now }
{
    if o.rw && o.rwn != 0 {
        registers.put(o.rwn, o.rwword);
    }
}

fn put_tag(tags: &mut CodedRam<22, 6>, written: bool, at: u32, word: u32)
    requires inside { at < length tags.old }
    requires fits { word < 2 ^ 28 }
    ensures { tags.new ≡ put_if written tags.old at word }
{
    if written {
        tags.put(at, word as u64);
    }
}

fn put_line(lines: &mut CodedRam<32, 7>, written: bool, at: u32, word: u64)
    requires inside { at < length lines.old }
    requires fits { word < 2 ^ 39 }
    ensures { lines.new ≡ put_if written lines.old at word }
{
    if written {
        lines.put(at, word);
    }
}

/// The tag writes of a cycle.
#[tactic(auto, using(ibx_system::proofs::Codewords::length_put))]
pub(crate) fn write_tags(tags: &mut CodedRam<22, 6>, o: &Out)
    requires { length tags.old ≡ 512 }
    ensures value { tags.new ≡ tags_after tags.old o.now }
    ensures size { length tags.new ≡ 512 }
{
    let set = o.tset as u32;
    put_tag(tags, has_way(o.tways, 0), set * 2, o.tword);
    put_tag(tags, has_way(o.tways, 1), set * 2 + 1, o.tword);
}

/// The data words of one way that a cycle writes.
#[tactic(auto, using(ibx_system::proofs::Codewords::length_put))]
pub(crate) fn write_way(lines: &mut CodedRam<32, 7>, o: &Out, way: u8)
    requires way { way < 2 }
    requires size { length lines.old ≡ 1024 }
    ensures value { lines.new ≡ way_after lines.old o.now way }
    ensures size { length lines.new ≡ 1024 }
{
    let at = (o.tset as u32 * 2 + way as u32) * 2;
    let written = has_way(o.dways, way);
    put_line(lines, written, at, o.dw0);
    put_line(lines, written, at + 1, o.dw1);
}
