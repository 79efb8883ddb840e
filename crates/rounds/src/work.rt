// What a budget is worked out in.
ghost use Rattle.rounds.specs.Sized.{Sized};

// The delays, their arrivals and required times, and the segment of a round. Slices that the caller lends, so that they may be parts of arrays
// with room for more components than the circuit has. How long they are beside each other never changes, so that it stands here; how long the
// delays are beside a circuit is asked where it does not follow.
#[derive(Drop)]
pub struct Work<'a> {
    pub delays: &'a mut [i32],
    pub arrivals: &'a mut [i64],
    pub required: &'a mut [i64],
    pub segment: &'a mut [u16],
    pub ghost sized: { Sized delays.now arrivals.now required.now segment.now },
}
