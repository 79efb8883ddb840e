// What a budget adds to each base delay.
ghost use Rattle.std.specs.Prelude.{◌≡◌, ◌-ℤ◌, length};
ghost use Rattle.whole.specs.Whole.{up};
ghost use Rattle.rounds.specs.Increments.{rises_of};

// What a delay f is above a delay b: two numbers of four bytes are never further apart than four bytes can say, and `try_from` would give a `Result`.
fn rise(f: i32, b: i32) -> u32
    ensures { result ≡ up (f -ℤ b) }
{
    (i64::from(f) - i64::from(b)).max(0) as u32
}

// Final delay less base.
pub fn increments_in(incs: &mut [u32], finals: &[i32], bases: &[i32])
    requires { (length incs.old ≡ length bases.now) × (length finals.now ≡ length bases.now) }
    ensures { incs.new ≡ rises_of finals.now bases.now }
{
    for (x, inc) in incs.iter_mut().enumerate() {
        *inc = rise(finals[x], bases[x]);
    }
}
