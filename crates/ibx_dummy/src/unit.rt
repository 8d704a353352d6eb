ghost use Rattle.std.specs.Prelude.{◌≡◌, ◌≢◌, ◌+◌, ◌<◌, ◌≤◌, true, false, IsTrue, ◌↔◌};
ghost use Rattle.ibx_dummy.specs.Dummies.{counted_by, dummies_reset, dummy_funct, dummy_word, inserted, is_due};
ghost use Rattle.ibx_dummy.specs.Dummies.{lfsr_next, seeded, threshold};
ghost use Rattle.ibx_dummy.specs.Laws.{IsDummyOf, IsThreshold, Shifts, stepped_back};

/// Dummy instructions: a register that shifts with feedback, and the real instructions since the last dummy.
#[derive(Clone, Copy, Debug, PartialEq, Eq)]
pub struct Dummy {
    /// The shift register: its bits give the threshold and the dummy.
    pub lfsr: u32,
    /// The real instructions admitted since the last dummy, 0 to 31.
    pub dcount: u8,
}

// The register's value at reset, and where 0 is seeded.
const FIRST: u32 = 0xace1_ace1;

// The taps of the polynomial x^32 + x^22 + x^2 + x + 1.
const FEEDBACK: u32 = 0x8020_0003;

impl Dummy {
    /// The unit at reset.
    pub fn reset() -> Dummy
        ensures fields { result ≡ dummies_reset }
    {
        Dummy {
            lfsr: FIRST,
            dcount: 0,
        }
    }

    /// Whether a dummy is due. `enable` is `dummy_instr_en` and `mask`, 0 to 7, `dummy_instr_mask` of `cpuctrl`. The
    /// register tells how many real instructions a dummy waits for, by its bits 1:0 and those of 4:2 that the mask has.
    #[tactic(auto, using(crate::proofs::Steps::threshold_bits))]
    pub fn due(&self, enable: bool, mask: u8) -> bool
        ensures due { result ≡ is_due enable mask self.now }
        ensures threshold { IsThreshold self.now.lfsr mask (threshold self.now.lfsr mask) }
        ensures reached { IsTrue result ↔ (IsTrue enable × (threshold self.now.lfsr mask ≤ self.now.dcount)) }
        ensures at_last { 31 ≤ self.now.dcount → result ≡ enable }
    {
        enable && self.threshold(mask) <= self.dcount
    }

    /// The dummy that is due, an instruction word without an effect (RISC-V Unprivileged ISA, 2.2 and 24): ADD, MUL,
    /// DIV or AND by bits 16:15 of the register, with x0 for its result. Bits 9:5 and 14:10 are its operands.
    #[tactic(auto, using(crate::proofs::Fields::is_dummy_of), unfolding(crate::specs::Dummies::dummy_word))]
    pub fn pick(&self) -> u32
        ensures word { result ≡ dummy_word self.now.lfsr }
        ensures fields { IsDummyOf self.now.lfsr result }
    {
        // funct7 and funct3
        let funct = match self.lfsr >> 15 & 3 {
            0 => 0x0000_0000,
            1 => 0x0200_0000,
            2 => 0x0200_4000,
            _ => 0x0000_7000,
        };
        let second = self.lfsr >> 10 & 0x1f;
        let first = self.lfsr >> 5 & 0x1f;
        funct + (second << 20) + (first << 15) + 0x33
    }

    /// A dummy is admitted: the register shifts, and the count begins anew.
    pub fn inserted(&mut self)
        ensures fields { self.new ≡ inserted self.old }
        ensures shifts { Shifts self.old.lfsr self.new.lfsr }
        ensures lives { self.old.lfsr ≢ 0 → self.new.lfsr ≢ 0 }
        ensures reversible { stepped_back self.new.lfsr ≡ self.old.lfsr }
        ensures anew { self.new.dcount ≡ 0 }
    {
        *self = Dummy {
            lfsr: shifted(self.lfsr),
            dcount: 0,
        };
    }

    /// A real instruction is admitted. It is counted while `enable`, `dummy_instr_en` of `cpuctrl`, is true, up to 31.
    pub fn admitted(&mut self, enable: bool)
        ensures fields { self.new ≡ counted_by enable self.old }
        ensures counts { enable ≡ true → self.old.dcount < 31 → self.new.dcount ≡ self.old.dcount + 1 }
        ensures rests { enable ≡ false → self.new ≡ self.old }
        ensures most { self.old.dcount ≤ 31 → self.new.dcount ≤ 31 }
        ensures kept { self.new.lfsr ≡ self.old.lfsr }
    {
        if enable {
            self.dcount = self.dcount.saturating_add(1).min(31);
        }
    }

    /// `value` is written to `secureseed`. A register of 0 would never change, so 0 seeds the value of reset.
    pub fn seed(&mut self, value: u32)
        ensures fields { self.new ≡ seeded value self.old }
        ensures value { value ≢ 0 → self.new.lfsr ≡ value }
        ensures lives { self.new.lfsr ≢ 0 }
        ensures kept { self.new.dcount ≡ self.old.dcount }
    {
        self.lfsr = if value == 0 { FIRST } else { value };
    }

    // The real instructions that a dummy waits for.
    fn threshold(&self, mask: u8) -> u8
        ensures value { result ≡ threshold self.now.lfsr mask }
        ensures most { result ≤ 31 }
    {
        (self.lfsr % 32 & (mask as u32 * 4 + 3)) as u8
    }
}

fn shifted(lfsr: u32) -> u32
    ensures value { result ≡ lfsr_next lfsr }
    ensures shifts { Shifts lfsr result }
    ensures lives { lfsr ≢ 0 → result ≢ 0 }
    ensures reversible { stepped_back result ≡ lfsr }
{
    if lfsr % 2 == 1 {
        lfsr / 2 ^ FEEDBACK
    } else {
        lfsr / 2
    }
}
