// One step of a walk, each way: the first connection that goes on, and the component at its other end.
ghost use Rattle.std.specs.Prelude.{◌≡◌, ◌&&◌, ◌<◌, ◌^◌, length};
ghost use Rattle.whole.specs.Range.{Bounded};
ghost use Rattle.circuit.specs.Lists.{below};
ghost use Rattle.circuit.specs.Rounds.{level};
ghost use Rattle.segments.specs.Lent.{Laid};

use timing::Times;

// Connections, delays and times of the same components. The marks are lent to each step that needs them: in here they would be asked of all.
#[derive(Clone, Copy)]
pub struct Timed<'a> {
    pub from: &'a [u16],
    pub to: &'a [u16],
    pub delays: &'a [i32],
    pub times: Times<'a>,
    pub ghost laid: { Laid from.now to.now delays.now times.arrivals.now },
}

// An equality of the times z, arrivals or required times, on the connection from f to t. Its bounds are of the columns that it reads.
#[tactic(auto, unfolding(circuit::specs::Rounds::level, whole::specs::Whole::eq_z))]
fn is_level(delays: &[i32], z: &[i64], f: u16, t: u16) -> bool
    requires { (f < length delays.now) × (t < length delays.now) × (length z.now ≡ length delays.now) × Bounded (2 ^ 61) z.now × Bounded (2 ^ 29) delays.now }
    ensures { result ≡ level delays.now z.now f t }
{
    z[usize::from(t)] == z[usize::from(f)] + i64::from(delays[usize::from(t)])
}

impl Timed<'_> {
    ghost use Rattle.segments.specs.Timed.{leads_in, feeds_in, after_in, before_in};

    // Both equalities hold.
    fn is_taut(self, f: u16, t: u16) -> bool
        requires { (f < length self.delays.now) × (t < length self.delays.now) }
        ensures { result ≡ level self.entry.delays.now self.entry.times.required.now f t && level self.entry.delays.now self.entry.times.arrivals.now f t }
    {
        is_level(self.delays, self.times.required, f, t)
            && is_level(self.delays, self.times.arrivals, f, t)
    }

    // Connection j leads on from x.
    #[tactic(auto, unfolding(circuit::specs::Rounds::leads))]
    fn leads_on(self, x: usize, j: usize) -> bool
        requires { j < length self.from.now }
        ensures { result ≡ leads_in self.entry x j }
    {
        usize::from(self.from[j]) == x && self.is_taut(self.from[j], self.to[j])
    }

    // Connection j comes to x from a served component, by the byte among the marks.
    #[tactic(auto, unfolding(circuit::specs::Rounds::feeds))]
    fn feeds_in(self, served: &[u8], x: usize, j: usize) -> bool
        requires { (j < length self.from.now) × (length served.now ≡ length self.delays.now) }
        ensures { result ≡ feeds_in self.entry served.now x j }
    {
        usize::from(self.to[j]) == x
            && served[usize::from(self.from[j])] == 1
            && self.is_taut(self.from[j], self.to[j])
    }

    // The component after x on a walk forward.
    pub fn next(self, x: usize) -> Option<usize>
        ensures { result ≡ below (length self.entry.delays.now) (after_in self.entry x) }
    {
        (0..self.from.len())
            .find(|&j| self.leads_on(x, j))
            .map(|j| usize::from(self.to[j]))
    }

    // The component before x on a walk backward. One function for both ways would ask marks of `next` too, which needs none.
    pub fn previous(self, served: &[u8], x: usize) -> Option<usize>
        requires { length served.now ≡ length self.delays.now }
        ensures { result ≡ below (length self.entry.delays.now) (before_in self.entry served.now x) }
    {
        (0..self.from.len())
            .find(|&j| self.feeds_in(served, x, j))
            .map(|j| usize::from(self.from[j]))
    }
}
