ghost use Rattle.std.specs.Prelude.{◌≡◌};
ghost use Rattle.ibx_secret.specs.Marks.{Marks, csr_mark, mark_csr, marks_entered};
ghost use Rattle.ibx_secret.specs.PackedCsrs.{csr_marks, no_marks};

use ibx_csr::Csr;

/// The marks of the registers that may depend on secret bytes; a counter has one for both halves.
#[derive(Clone, Copy, Debug, PartialEq, Eq)]
pub struct CsrMarks {
    pub mscratch: bool,
    pub mepc: bool,
    pub mcause: bool,
    pub mtval: bool,
    pub mcycle: bool,
    pub minstret: bool,
}

impl CsrMarks {
    /// None is marked.
    pub fn none() -> CsrMarks
        ensures { result ≡ no_marks }
    {
        CsrMarks {
            mscratch: false,
            mepc: false,
            mcause: false,
            mtval: false,
            mcycle: false,
            minstret: false,
        }
    }

    /// The mark of a register; all others never have one.
    pub fn has(&self, register: Csr) -> bool
        ensures { (m : Marks) → csr_marks m ≡ self.now → result ≡ csr_mark m register }
    {
        match register {
            Csr::Mscratch => self.mscratch,
            Csr::Mepc => self.mepc,
            Csr::Mcause => self.mcause,
            Csr::Mtval => self.mtval,
            Csr::Mcycle | Csr::Mcycleh => self.mcycle,
            Csr::Minstret | Csr::Minstreth => self.minstret,
            _ => false,
        }
    }

    /// A register takes a mark. A write of one half of a counter leaves the other half.
    pub fn put(&mut self, register: Csr, mark: bool)
        ensures { (m : Marks) → csr_marks m ≡ self.old → csr_marks (mark_csr m register mark) ≡ self.new }
    {
        match register {
            Csr::Mscratch => self.mscratch = mark,
            Csr::Mepc => self.mepc = mark,
            Csr::Mcause => self.mcause = mark,
            Csr::Mtval => self.mtval = mark,
            Csr::Mcycle | Csr::Mcycleh => self.mcycle = self.mcycle || mark,
            Csr::Minstret | Csr::Minstreth => self.minstret = self.minstret || mark,
            _ => {}
        }
    }

    /// What a trap writes is the same for all secrets.
    pub fn enter(&mut self)
        ensures { (m : Marks) → csr_marks m ≡ self.old → csr_marks (marks_entered m) ≡ self.new }
    {
        self.mepc = false;
        self.mcause = false;
        self.mtval = false;
    }
}
