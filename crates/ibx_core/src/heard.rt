ghost use Rattle.std.specs.Prelude.{◌≡◌};
ghost use Rattle.ibx_icache.specs.WordPort.{matches};
ghost use Rattle.ibx_core.specs.Core.{heard as heard_of};

use crate::state::State;
use crate::wires::In;
use ibx_secded::Code;

impl State {
    // Whether a tag word is that of the line that is looked up, told by its payload alone.
    #[inline(always)]
    fn matches(&self, tag: u32) -> bool
        ensures { result ≡ matches tag self.now.words.c_addr }
    {
        let line = 0x20_0000 + (self.words.c_addr / 0x800) as u64;
        Code::<22, 6>::payload(tag as u64) == line
    }

    /// The wires with 0 in place of each unused word.
    #[inline(always)]
    #[tactic(auto, unfolding(crate::specs::Core::heard))]
    pub fn heard(&self, i: &In) -> In
        ensures { result ≡ heard_of self.now i.now }
    {
        let looks = self.words.c_state == 1;
        let first = looks && self.matches(i.tag0);
        let second = looks && !self.matches(i.tag0) && self.matches(i.tag1);
        In {
            irsp_word: if i.irsp_valid { i.irsp_word } else { 0 },
            drsp_word: if i.drsp_valid { i.drsp_word } else { 0 },
            tag0: if looks { i.tag0 } else { 0 },
            tag1: if looks { i.tag1 } else { 0 },
            data0: if first { i.data0 } else { 0 },
            data1: if second { i.data1 } else { 0 },
            ..*i
        }
    }
}
