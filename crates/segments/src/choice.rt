// The component that a round starts from.
ghost use Rattle.std.specs.Prelude.{◌≡◌, ◌<◌, IfSome, length, unwrap_or};
ghost use Rattle.circuit.specs.Lists.{below};
ghost use Rattle.circuit.specs.Rounds.{beats, choice_of, positive};

use timing::Times;

// x is served and has positive slack. A mark is a byte here, in the steps and in the rounds, since they take lists with any: a `bool` would ask more.
#[tactic(auto, unfolding(circuit::specs::Rounds::positive))]
fn is_positive(served: &[u8], times: Times<'_>, x: usize) -> bool
    requires { (length times.arrivals.now ≡ length served.now) × (x < length served.now) }
    ensures { result ≡ positive served.now times.entry.arrivals.now times.entry.required.now x }
{
    served[x] == 1 && 0 < times.slack_at(x)
}

// x is taken over the best before it.
#[tactic(auto, unfolding(circuit::specs::Rounds::beats, circuit::specs::Rounds::positive))]
fn is_better(served: &[u8], times: Times<'_>, x: usize, best: Option<usize>) -> bool
    requires { (length times.arrivals.now ≡ length served.now) × (x < length served.now) × IfSome best (λ b. b < length served.now) }
    ensures { result ≡ beats served.now times.entry.arrivals.now times.entry.required.now x (unwrap_or best (length served.now)) }
{
    is_positive(served, times, x)
        && match best {
            Some(b) => times.slack_at(x) < times.slack_at(b),
            None => true,
        }
}

// Of the served with positive slack, one of least slack, and the lowest of these.
pub fn choose(served: &[u8], times: Times<'_>) -> Option<usize>
    requires { length times.arrivals.now ≡ length served.now }
    ensures { result ≡ below (length served.now) (choice_of served.now times.entry.arrivals.now times.entry.required.now (length served.now)) }
{
    let mut best = None;
    for x in 0..served.len() {
        if is_better(served, times, x, best) {
            best = Some(x);
        }
    }
    best
}
