// The segment of a component. It grows both ways from the middle of a lent slice, so that it is one part of it, first to last. The two
// walks stay two: one with a direction would have to choose its step, its places and its end by it, and share the store of a number alone.
// A component goes into two bytes as it is, by `as`: `try_from` would give a `Result` of what cannot fail.
ghost use Rattle.std.specs.Prelude.{◌≡◌, ◌∷◌, ◌+◌, ◌-◌, ◌*◌, ◌<◌, ◌≤◌, length, get_or};
ghost use Rattle.std.proofs.Math.Seq.{slice};
ghost use Rattle.circuit.specs.Rounds.{ahead, behind};
ghost use Rattle.segments.specs.Timed.{after_in, before_in, segment_in};
ghost use Rattle.segments.specs.Walk.{Spans};

use crate::steps::Timed;

// Where a segment stands: from start, up to end and not at it. std's `Range` would not be `Copy`.
#[derive(Clone, Copy, Debug, PartialEq, Eq)]
pub struct Span {
    pub start: usize,
    pub end: usize,
}

impl Timed<'_> {
    // On from the component at p: where the walk ends.
    #[tactic(auto, using(crate::specs::Walk::onward_stops, crate::specs::Walk::onward_ends))]
    fn walk_on(self, seg: &mut [u16], p: usize) -> usize
        requires { (p < length seg.old) × (length self.delays.now ≤ 1024) }
        ensures { Spans seg.new p result (get_or seg.old p 0 ∷ ahead (after_in self.entry) (length self.entry.delays.now) (length seg.old - (p + 1)) (get_or seg.old p 0)) }
    {
        for e in p + 1..seg.len() {
            match self.next(usize::from(seg[e - 1])) {
                Some(y) => seg[e] = y as u16,
                None => return e,
            }
        }
        seg.len()
    }

    // Back from the component at p, where the segment so far ends at e: where it begins.
    #[tactic(auto, using(crate::specs::Walk::backing_rests, crate::specs::Walk::backing_ends))]
    fn walk_back(self, served: &[u8], seg: &mut [u16], p: usize, e: usize) -> usize
        requires { (length served.now ≡ length self.delays.now) × (p < e) × (e ≤ length seg.old) × (length self.delays.now ≤ 1024) }
        ensures { Spans seg.new result e (behind (before_in self.entry served.now) (length self.entry.delays.now) p (get_or seg.old p 0) (slice p e seg.old)) }
    {
        for q in (0..p).rev() {
            match self.previous(served, usize::from(seg[q + 1])) {
                Some(y) => seg[q] = y as u16,
                None => return q + 1,
            }
        }
        0
    }

    // Where the segment of x stands in seg.
    #[tactic(auto, using(crate::specs::Walk::segment_spans))]
    pub fn span(self, served: &[u8], seg: &mut [u16], x: usize) -> Span
        requires { (length served.now ≡ length self.delays.now) × (x < length self.delays.now) × (length self.delays.now ≤ 1024) × (length seg.old ≡ 2 * length self.delays.now + 1) }
        ensures { Spans seg.new result.start result.end (segment_in self.entry served.now x) }
    {
        let n = self.delays.len();
        seg[n] = x as u16;
        let end = self.walk_on(seg, n);
        let start = self.walk_back(served, seg, n, end);
        Span { start, end }
    }

    // The part of seg with the segment of x.
    #[tactic(auto, using(crate::specs::Walk::cut))]
    pub fn walk<'s>(self, served: &[u8], seg: &'s mut [u16], x: usize) -> &'s [u16]
        requires { (length served.now ≡ length self.delays.now) × (x < length self.delays.now) × (length self.delays.now ≤ 1024) × (length seg.old ≡ 2 * length self.delays.now + 1) }
        ensures { result.now ≡ segment_in self.entry served.now x }
    {
        let Span { start, end } = self.span(served, seg, x);
        &seg[start..end]
    }
}
