// The share, by descent over 28 bits: a bit is kept where the circuit is in time with it.
ghost use Rattle.std.specs.Prelude.{◌≡◌, ◌<◌, ◌^◌, length};
ghost use Rattle.circuit.specs.Columns.{netlist_of};
ghost use Rattle.circuit.specs.Times.{in_time};
ghost use Rattle.circuit.specs.Share.{lifted, share_of};

use crate::cases::Case;
use crate::lifts::lift;

impl Case<'_> {
    // With t more for each who is served, worked out in d and arr.
    fn fits(self, d: &mut [i32], arr: &mut [i64], t: u32) -> bool
        requires lengths { (length d.old ≡ length self.circuit.kinds.now) × (length arr.old ≡ length self.circuit.kinds.now) }
        requires t_bound { t < 2 ^ 28 }
        ensures { result ≡ in_time (netlist_of self.entry.circuit) (lifted self.entry.served.now t self.entry.base.now) }
    {
        lift(d, self.base, self.served, t);
        timing::in_time(arr, self.circuit, d)
    }

    pub fn share(self, d: &mut [i32], arr: &mut [i64]) -> u32
        requires { (length d.old ≡ length self.circuit.kinds.now) × (length arr.old ≡ length self.circuit.kinds.now) }
        ensures { result ≡ share_of (netlist_of self.entry.circuit) self.entry.served.now self.entry.base.now }
    {
        let mut t = 0;
        for k in (0..28u32).rev() {
            let more = t + (1 << k);
            if self.fits(d, arr, more) {
                t = more;
            }
        }
        t
    }
}
