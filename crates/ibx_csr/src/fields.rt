ghost use Rattle.std.specs.Prelude.{◌≡◌, slice_index};
ghost use Rattle.ibx_csr.specs.Fields.{cfgs, addrs, put_cfg, put_addr};

use crate::csrs::Csrs;

// The protection unit's registers by their numbers.
impl Csrs {
    /// Word `index` of the configuration, or 0 for a higher number.
    pub(crate) fn cfg(&self, index: u8) -> u32
        ensures { result ≡ slice_index (cfgs self.now) index }
    {
        match index {
            0 => self.pmpcfg0,
            1 => self.pmpcfg1,
            2 => self.pmpcfg2,
            3 => self.pmpcfg3,
            _ => 0,
        }
    }

    /// Address `index`, or 0 for a higher number.
    pub(crate) fn addr(&self, index: u8) -> u32
        ensures { result ≡ slice_index (addrs self.now) index }
    {
        match index {
            0 => self.pmpaddr0,
            1 => self.pmpaddr1,
            2 => self.pmpaddr2,
            3 => self.pmpaddr3,
            4 => self.pmpaddr4,
            5 => self.pmpaddr5,
            6 => self.pmpaddr6,
            7 => self.pmpaddr7,
            8 => self.pmpaddr8,
            9 => self.pmpaddr9,
            10 => self.pmpaddr10,
            11 => self.pmpaddr11,
            12 => self.pmpaddr12,
            13 => self.pmpaddr13,
            14 => self.pmpaddr14,
            15 => self.pmpaddr15,
            _ => 0,
        }
    }

    /// Writes word `index` of the configuration, and its complement.
    pub(crate) fn put_cfg(&mut self, index: u8, value: u32)
        ensures { self.new ≡ put_cfg self.old index value }
    {
        match index {
            0 => {
                self.pmpcfg0 = value;
                self.pmpcfg0_n = !value;
            }
            1 => {
                self.pmpcfg1 = value;
                self.pmpcfg1_n = !value;
            }
            2 => {
                self.pmpcfg2 = value;
                self.pmpcfg2_n = !value;
            }
            3 => {
                self.pmpcfg3 = value;
                self.pmpcfg3_n = !value;
            }
            _ => {}
        }
    }

    /// Writes address `index`, and its complement.
    pub(crate) fn put_addr(&mut self, index: u8, value: u32)
        ensures { self.new ≡ put_addr self.old index value }
    {
        match index {
            0 => {
                self.pmpaddr0 = value;
                self.pmpaddr0_n = !value;
            }
            1 => {
                self.pmpaddr1 = value;
                self.pmpaddr1_n = !value;
            }
            2 => {
                self.pmpaddr2 = value;
                self.pmpaddr2_n = !value;
            }
            3 => {
                self.pmpaddr3 = value;
                self.pmpaddr3_n = !value;
            }
            4 => {
                self.pmpaddr4 = value;
                self.pmpaddr4_n = !value;
            }
            5 => {
                self.pmpaddr5 = value;
                self.pmpaddr5_n = !value;
            }
            6 => {
                self.pmpaddr6 = value;
                self.pmpaddr6_n = !value;
            }
            7 => {
                self.pmpaddr7 = value;
                self.pmpaddr7_n = !value;
            }
            8 => {
                self.pmpaddr8 = value;
                self.pmpaddr8_n = !value;
            }
            9 => {
                self.pmpaddr9 = value;
                self.pmpaddr9_n = !value;
            }
            10 => {
                self.pmpaddr10 = value;
                self.pmpaddr10_n = !value;
            }
            11 => {
                self.pmpaddr11 = value;
                self.pmpaddr11_n = !value;
            }
            12 => {
                self.pmpaddr12 = value;
                self.pmpaddr12_n = !value;
            }
            13 => {
                self.pmpaddr13 = value;
                self.pmpaddr13_n = !value;
            }
            14 => {
                self.pmpaddr14 = value;
                self.pmpaddr14_n = !value;
            }
            15 => {
                self.pmpaddr15 = value;
                self.pmpaddr15_n = !value;
            }
            _ => {}
        }
    }
}
