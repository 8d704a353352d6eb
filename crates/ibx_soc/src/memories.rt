ghost use Rattle.std.specs.Prelude.{◌≡◌, ◌<◌, ◌^◌, ◌+◌, ◌*◌, ◌%◌, ◌≤◌, ◌/◌, ℕ, All, length, true, IfOk};
ghost use Rattle.ibx_plan.specs.Sites.{site_fits};
ghost use Rattle.ibx_system.specs.System.{changed, dgrant_of, igrant_of, settle, shown};
ghost use Rattle.ibx_system.specs.Core.{core_parts};
ghost use Rattle.ibx_bus.specs.Memory.{coded_memory};
ghost use Rattle.ibx_elf.specs.Image.{HoldsWords};
ghost use Rattle.ibx_system.specs.Flips.{place_flip};
ghost use Rattle.ibx_soc.specs.Seen.{Sizes, place_of};
ghost use Rattle.ibx_soc.specs.First.{first_place, image_words, mul_number};

use crate::cycle::{fetch, load_store};
use crate::pending::with_pending;
use crate::words::{write_register, write_tags, write_way};
use ibx_base::NoMemory;
use ibx_bus::{Memory, Port};
use ibx_core::{In, Out, Reads};
use ibx_elf::Image;
use ibx_isa::MulKind;
use ibx_plan::{Plan, Site};
use ibx_ram::{CodedRam, RegFile};
use std::alloc::Global;

/// The words round the cores, with what no cycle changes: the plan and the multiplier.
#[derive(Drop)]
pub(crate) struct Memories<'p> {
    registers: RegFile,
    /// Tag words, by set and way.
    tags: CodedRam<22, 6>,
    /// The cache's data words, by set, way and half.
    lines: CodedRam<32, 7>,
    memory: Memory,
    iport: Port<'p>,
    dport: Port<'p>,
    /// The change of an output word in the next cycle, by the word's number and the bit.
    pending: Option<(u8, u8)>,
    /// The cycles that were made.
    pub(crate) cycle: u64,
    /// The multiplier as its wire has it.
    mul: u8,
    ram_words: u32,
    plan: &'p Plan,
}

fn mul_wire(mul: MulKind) -> u8
    ensures value { result ≡ mul_number mul }
    ensures small { result ≤ 2 }
{
    match mul {
        MulKind::Single => 0,
        MulKind::Fast => 1,
        MulKind::Slow => 2,
    }
}

impl<'p> Memories<'p> {
    // What the words show in this cycle, before the grants and without a pending flip.
    #[tactic(auto, unfolding(ibx_system::specs::System::shown), using(ibx_system::proofs::Bus::answer_is))]
    fn show(&self, r: &Reads) -> In
        requires sizes { Sizes self.now }
        requires first { r.now.ra < 32 }
        requires second { r.now.rb < 32 }
        ensures { result ≡ shown (place_of self.now) r.now }
    {
        let irsp = self.iport.answer();
        let drsp = self.dport.answer();
        let set = r.line / 8 % 256;
        let half = r.line / 4 % 2;
        In {
            irsp_valid: irsp.valid,
            irsp_err: irsp.err,
            irsp_word: irsp.word,
            drsp_valid: drsp.valid,
            drsp_err: drsp.err,
            drsp_word: drsp.word,
            igrant: false,
            dgrant: false,
            rega: self.registers.get(r.ra),
            regb: self.registers.get(r.rb),
            tag0: self.tags.get(set * 2) as u32,
            tag1: self.tags.get(set * 2 + 1) as u32,
            data0: self.lines.get(set * 2 * 2 + half),
            data1: self.lines.get((set * 2 + 1) * 2 + half),
            lines: self.plan.lines(self.cycle),
            mul: self.mul,
        }
    }

    /// What a core that reads `r` is shown, before the grants.
    pub(crate) fn look(&self, r: &Reads) -> In
        requires sizes { Sizes self.now }
        requires first { r.now.ra < 32 }
        requires second { r.now.rb < 32 }
        ensures { result ≡ changed (place_of self.now).pending (shown (place_of self.now) r.now) }
    {
        with_pending(&self.show(r), self.pending)
    }

    /// Ends the cycle by main's output, and says which port grants: both ports with the memory, and the written words.
    #[tactic(auto, unfolding(ibx_system::specs::System::settle), using(ibx_system::proofs::Bus::fetch_keeps))]
    pub(crate) fn settle(&mut self, o: &Out) -> (bool, bool)
        requires sizes { Sizes self.old }
        requires cycle { self.old.cycle < 2 ^ 62 }
        requires fetch { o.now.iaddr % 4 ≡ 0 }
        requires load_store { o.now.daddr % 4 ≡ 0 }
        ensures igrant { result.0 ≡ igrant_of (place_of self.old) o.now }
        ensures dgrant { result.1 ≡ dgrant_of (place_of self.old) o.now }
        ensures place { place_of self.new ≡ settle core_parts (place_of self.old) o.now }
        ensures sizes { Sizes self.new }
    {
        let igrant = self.iport.step(&fetch(o), &mut self.memory);
        let dgrant = self.dport.step(&load_store(o), &mut self.memory);
        write_register(&mut self.registers, o);
        write_tags(&mut self.tags, o);
        write_way(&mut self.lines, o, 0);
        write_way(&mut self.lines, o, 1);
        self.pending = None;
        self.cycle += 1;
        (igrant, dgrant)
    }

    /// Whether there is such a bit in a system with this delay.
    pub(crate) fn has(&self, site: &Site, delay: u8) -> bool
        requires { Sizes self.now }
        ensures { result ≡ site_fits (length self.now.memory.words) delay site.now }
    {
        site.fits(self.ram_words, delay)
    }

    /// Changes a bit of a word, where the site names one.
    #[tactic(auto, unfolding(ibx_system::specs::Flips::place_flip, ibx_plan::specs::Sites::site_fits, ibx_plan::specs::Sites::ranges))]
    pub(crate) fn flip(&mut self, site: &Site)
        requires sizes { Sizes self.old }
        requires fits { (delay : ℕ) × (site_fits (length self.old.memory.words) delay site.now ≡ true) }
        ensures place { place_of self.new ≡ place_flip site.now (place_of self.old) }
        ensures sizes { Sizes self.new }
    {
        match *site {
            Site::Reg { n, bit } => self.registers.flip(n, bit),
            Site::Tag { set, way, bit } => self.tags.flip(set as u32 * 2 + way as u32, bit),
            Site::Line {
                set,
                way,
                half,
                bit,
            } => self
                .lines
                .flip((set as u32 * 2 + way as u32) * 2 + half as u32, bit),
            Site::Output { wire, bit } => self.pending = Some((wire, bit)),
            Site::Answer { port, bit } => {
                if port == 0 {
                    self.iport.flip(bit);
                } else {
                    self.dport.flip(bit);
                }
            }
            Site::Mem { word, bit } => self.memory.flip(word, bit),
            Site::Main { .. } | Site::Shadow { .. } | Site::Delay { .. } => {}
        }
    }

    /// The words at reset, with an image in RAM.
    pub(crate) fn new(
        alloc: Global,
        image: &Image<'_>,
        mul: MulKind,
        plan: &'p Plan,
    ) -> Result<Memories<'p>, NoMemory>
        ensures place { IfOk result (λ m. place_of m ≡ first_place (image_words image.now) image.now.ram.base
            (record { mul = mul_number mul; changes = plan.now.changes }) plan.now.iwaits plan.now.dwaits) }
        ensures sizes { IfOk result Sizes }
        ensures small { IfOk result (λ _. All (λ word. word < 2 ^ 32) (image_words image.now)) }
        ensures size { IfOk result (λ m. 4 * length m.memory.words ≡ image.now.ram.size) }
    {
        let memory = filled(alloc, image)?;
        Ok(Memories {
            registers: RegFile::new(alloc)?,
            tags: CodedRam::new(alloc, 512)?,
            lines: CodedRam::new(alloc, 1024)?,
            memory,
            iport: Port::new(plan.iwaits()),
            dport: Port::new(plan.dwaits()),
            pending: None,
            cycle: 0,
            mul: mul_wire(mul),
            ram_words: image.ram().size / 4,
            plan,
        })
    }
}

// The words of an image.
fn words_of(alloc: Global, image: &Image<'_>) -> Result<Vec<u32>, NoMemory>
    ensures count { IfOk result (λ words. length words.items ≡ image.now.ram.size / 4) }
    ensures holds { IfOk result (λ words. HoldsWords image.now words.items) }
{
    let count = (image.ram().size / 4) as usize;
    let mut words = vec![in alloc; 0; count]?;
    image.fill(&mut words);
    Ok(words)
}

// What the type says of words.
fn are_words(words: &[u32])
    ensures { All (λ word. word < 2 ^ 32) words.now }
{}

// RAM with the codewords of an image's words.
fn filled(alloc: Global, image: &Image<'_>) -> Result<Memory, NoMemory>
    ensures value { IfOk result (λ memory. memory ≡ coded_memory (image_words image.now) image.now.ram.base) }
    ensures small { IfOk result (λ _. All (λ word. word < 2 ^ 32) (image_words image.now)) }
    ensures size { IfOk result (λ memory. 4 * length memory.words ≡ image.now.ram.size) }
{
    let words = words_of(alloc, image)?;
    are_words(&words);
    let memory = Memory::new(alloc, &words, image.ram().base)?;
    Ok(memory)
}
