ghost use Rattle.std.specs.Prelude.{◌≡◌, ◌==◌, not};
ghost use Rattle.ibx_bits.specs.Bytes.{complement};
ghost use Rattle.ibx_csr.specs.Fields.{glitch_of, any_glitch, guarded_trap, guarded_cfg, guarded_low, guarded_high};

use crate::csrs::Csrs;

// Each group's differences in one word, which is 0 where every copy is a complement: no branch depends on a register.
impl Csrs {
    #[inline(always)]
    #[tactic(auto, unfolding(crate::specs::Fields::glitch_of), using(crate::proofs::Words::or_some))]
    pub(crate) fn has_glitch(&self) -> bool
        ensures { result ≡ glitch_of self.now }
    {
        let differences = self.differences_trap()
            | self.differences_cfg()
            | self.differences_low()
            | self.differences_high();
        differences != 0
    }

    #[inline(always)]
    #[tactic(auto, using(crate::proofs::Words::or_some, crate::proofs::Words::any_of_three, crate::proofs::Words::or_never))]
    fn differences_trap(&self) -> u32
        ensures { not (result == 0) ≡ any_glitch (guarded_trap self.now) }
    {
        difference(self.mstatus, self.mstatus_n)
            | difference(self.mtvec, self.mtvec_n)
            | difference(self.cpuctrl, self.cpuctrl_n)
            | difference(self.mseccfg, self.mseccfg_n)
    }

    #[inline(always)]
    #[tactic(auto, using(crate::proofs::Words::or_some, crate::proofs::Words::any_of_three, crate::proofs::Words::or_never))]
    fn differences_cfg(&self) -> u32
        ensures { not (result == 0) ≡ any_glitch (guarded_cfg self.now) }
    {
        difference(self.pmpcfg0, self.pmpcfg0_n)
            | difference(self.pmpcfg1, self.pmpcfg1_n)
            | difference(self.pmpcfg2, self.pmpcfg2_n)
            | difference(self.pmpcfg3, self.pmpcfg3_n)
    }

    #[inline(always)]
    #[tactic(auto, using(crate::proofs::Words::or_some, crate::proofs::Words::any_of_three, crate::proofs::Words::or_never))]
    fn differences_low(&self) -> u32
        ensures { not (result == 0) ≡ any_glitch (guarded_low self.now) }
    {
        difference(self.pmpaddr0, self.pmpaddr0_n)
            | difference(self.pmpaddr1, self.pmpaddr1_n)
            | difference(self.pmpaddr2, self.pmpaddr2_n)
            | difference(self.pmpaddr3, self.pmpaddr3_n)
            | difference(self.pmpaddr4, self.pmpaddr4_n)
            | difference(self.pmpaddr5, self.pmpaddr5_n)
            | difference(self.pmpaddr6, self.pmpaddr6_n)
            | difference(self.pmpaddr7, self.pmpaddr7_n)
    }

    #[inline(always)]
    #[tactic(auto, using(crate::proofs::Words::or_some, crate::proofs::Words::any_of_three, crate::proofs::Words::or_never))]
    fn differences_high(&self) -> u32
        ensures { not (result == 0) ≡ any_glitch (guarded_high self.now) }
    {
        difference(self.pmpaddr8, self.pmpaddr8_n)
            | difference(self.pmpaddr9, self.pmpaddr9_n)
            | difference(self.pmpaddr10, self.pmpaddr10_n)
            | difference(self.pmpaddr11, self.pmpaddr11_n)
            | difference(self.pmpaddr12, self.pmpaddr12_n)
            | difference(self.pmpaddr13, self.pmpaddr13_n)
            | difference(self.pmpaddr14, self.pmpaddr14_n)
            | difference(self.pmpaddr15, self.pmpaddr15_n)
    }
}

// The bits in which a copy isn't the complement of its register.
#[inline(always)]
#[tactic(auto, using(crate::proofs::Words::xor_some))]
fn difference(register: u32, copy: u32) -> u32
    ensures { not (result == 0) ≡ not (copy == complement register) }
{
    copy ^ !register
}
