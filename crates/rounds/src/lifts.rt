// Delays with a share for each of the served.
ghost use Rattle.std.specs.Prelude.{◌≡◌, cond, ◌<◌, ◌^◌, eqb, length};
ghost use Rattle.whole.specs.Range.{Bounded};
ghost use Rattle.circuit.specs.Share.{lifted};

// t for one who is served, by the byte of the mark, nothing for another.
fn due(mark: u8, t: u32) -> u32
    ensures { result ≡ cond (eqb mark 1) t 0 }
{
    if mark == 1 { t } else { 0 }
}

// Base delays, and t more for each who is served.
pub fn lift(d: &mut [i32], base: &[i32], served: &[u8], t: u32)
    requires { (length d.old ≡ length base.now) × (length served.now ≡ length base.now) × Bounded (2 ^ 29) base.now × (t < 2 ^ 28) }
    ensures { d.new ≡ lifted served.now t base.now }
{
    for (x, delay) in d.iter_mut().enumerate() {
        *delay = base[x].strict_add_unsigned(due(served[x], t));
    }
}
