ghost use Rattle.ibx_core.specs.Core.{IsBegun, core_next, core_out};
ghost use Rattle.ibx_core.specs.Wires.{agree};

use crate::machine::Core;
use crate::wires::{In, Out};
use ibx_lockstep::{CoreCycle, CoreStep};

impl CoreStep for Core {
    type In = In;

    type Out = Out;

    ghost gives = { core_out };

    ghost leaves = { core_next };

    ghost agree = { agree };

    fn out(&self, i: &In) -> Out {
        Core::out(self, i)
    }

    fn advance(&mut self, i: &In) {
        Core::advance(self, i);
    }

    #[inline(always)]
    fn same(a: &Out, b: &Out) -> bool {
        a.same(b)
    }
}

impl CoreCycle for Core {
    ghost begun = { IsBegun };

    #[inline(always)]
    fn begin(&mut self, i: &In, o: &mut Out) {
        Core::begin(self, i, o);
    }

    #[inline(always)]
    fn finish(&mut self, i: &In, o: &Out) {
        Core::finish(self, i, o);
    }
}
