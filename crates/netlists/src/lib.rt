// Netlist files: judged front to back, and decoded on the way into arrays that the caller lends.
#![tactic(auto)]

ghost use Rattle.std.specs.Prelude.{◌≡◌, not, ◌&&◌, ◌≤◌, ◌<◌, eqb, length, take, set, pos};
ghost use Rattle.std.specs.Bool.{beq};
ghost use Rattle.circuit.specs.Kinds.{byte_of};
ghost use Rattle.circuit.specs.Lists.{tabulate, lowest, below};
ghost use Rattle.netlists.specs.Judge.{key, fields_ok, wiring_ok, number_in, place_in, on_component, on_connection, on_record};
ghost use Rattle.netlists.specs.Ends.{Below, mark_of, fault_at, fault_by, fault_of};
ghost use Rattle.netlists.specs.Held.{component_of, connection_of, time_in, Front, OneComponent, OneConnection, held, LongParts, LongWires, arrays, Room, ended_at, Took, OneStep, Read, Judges};

use circuit::{Circuit, Kind};
use records::{Reader, Record};
use whole::BigEndian;

// How many components and connections a taken netlist has.
#[derive(Clone, Copy, Debug, PartialEq, Eq)]
pub struct Extent {
    pub components: usize,
    pub connections: usize,
}

// Why a netlist is refused: the offset of the record at fault or, of `Ends`, the component.
#[derive(Clone, Copy, Debug, PartialEq, Eq)]
pub enum Fault {
    Broken(usize),
    Tag(usize),
    Size(usize),
    Field(usize),
    Wiring(usize),
    Ends(usize),
}

impl Fault {
    // The refusal's number, 2 to 7.
    pub fn number(self) -> u32
        ensures { result ≡ number_in self }
    {
        match self {
            Fault::Broken(_) => 2,
            Fault::Tag(_) => 3,
            Fault::Size(_) => 4,
            Fault::Field(_) => 5,
            Fault::Wiring(_) => 6,
            Fault::Ends(_) => 7,
        }
    }

    pub fn place(self) -> usize
        ensures { result ≡ place_in self }
    {
        match self {
            Fault::Broken(at)
            | Fault::Tag(at)
            | Fault::Size(at)
            | Fault::Field(at)
            | Fault::Wiring(at) => at,
            Fault::Ends(x) => x,
        }
    }
}

// Between two records: the offset of the next, how many components and connections were stored, and the least key that the next connection
// may have. The counts stand beside the arrays that are lent: with them in one struct, what a step leaves would be said of its fields all the same.
#[derive(Clone, Copy, Default)]
struct State {
    at: usize,
    comps: usize,
    conns: usize,
    least: u32,
}

// The fields of a component's record, and of a connection's.
#[derive(Clone, Copy)]
struct Component {
    kind: u8,
    base: u32,
    time: i32,
}

#[derive(Clone, Copy)]
struct Connection {
    from: u16,
    to: u16,
}

// Both read in the contents that the reader handed on, where they stand in the file.
fn read_component(p: &[u8]) -> Component
    requires { length p.now ≡ 9 }
    ensures { result ≡ component_of p.now }
{
    Component {
        kind: p[0],
        base: u32::at(p, 1),
        time: i32::at(p, 5),
    }
}

fn read_connection(p: &[u8]) -> Connection
    requires { length p.now ≡ 4 }
    ensures { result ≡ connection_of p.now }
{
    Connection {
        from: u16::at(p, 0),
        to: u16::at(p, 2),
    }
}

fn time_in(time: i32) -> bool
    ensures { result ≡ time_in time }
{
    -100_000_000 <= time && time <= 100_000_000
}

// A kind, a base delay of 16 bits, which is 0 for an input, and a time, which is 0 for an inner component.
#[tactic(auto, unfolding(crate::specs::Judge::fields_ok, whole::specs::Whole::eq_z))]
fn fields_ok(c: Component) -> bool
    ensures { result ≡ fields_ok c.kind c.base c.time }
{
    match Kind::try_from(c.kind) {
        Ok(Kind::Input) => c.base == 0 && time_in(c.time),
        Ok(Kind::Inner) => c.base <= 65535 && c.time == 0,
        Ok(Kind::Output) => c.base <= 65535 && time_in(c.time),
        Err(_) => false,
    }
}

// (to, from) as one number.
fn key_of(from: u16, to: u16) -> u32
    ensures { result ≡ key from to }
{
    u32::from(to) * 65536 + u32::from(from)
}

// Between two of so many components, upwards, and after the connections before it.
#[tactic(auto, unfolding(crate::specs::Judge::wiring_ok))]
fn wiring_ok(from: u16, to: u16, count: usize, least: u32) -> bool
    ensures { result ≡ wiring_ok from to count least }
{
    usize::from(from) < count && usize::from(to) < count && from < to && least <= key_of(from, to)
}

// ---- what is decoded

// Where the components and the connections of a netlist are decoded into: as many of each as a netlist may have.
#[derive(Drop)]
pub struct Decoded {
    pub kinds: [u8; 1024],
    pub bases: [i32; 1024],
    pub times: [i32; 1024],
    pub from: [u16; 4096],
    pub to: [u16; 4096],
}

impl Decoded {
    pub const EMPTY: Decoded = Decoded {
        kinds: [0; 1024],
        bases: [0; 1024],
        times: [0; 1024],
        from: [0; 4096],
        to: [0; 4096],
    };

    // The columns of a netlist of this extent: the front of the arrays.
    pub fn circuit(&self, extent: Extent) -> Circuit<'_>
        requires { (extent.components ≤ 1024) × (extent.connections ≤ 4096) }
        ensures { Front result extent self.now }
    {
        Circuit {
            kinds: &self.kinds[..extent.components],
            times: &self.times[..extent.components],
            from: &self.from[..extent.connections],
            to: &self.to[..extent.connections],
        }
    }

    // The base delays of its components.
    pub fn bases(&self, extent: Extent) -> &[i32]
        requires { extent.components ≤ 1024 }
        ensures { result.now ≡ take extent.components self.now.bases }
    {
        &self.bases[..extent.components]
    }

    // Component i, and connection j, behind those before them. By the clause the base delay goes into its type: `try_from` would give a `Result`.
    fn put_component(&mut self, i: usize, c: Component)
        requires { (i < 1024) × (c.base ≤ 65535) }
        ensures one { OneComponent self.old self.new i c }
        ensures rest { (self.new.kinds ≡ set self.old.kinds i c.kind) × (self.new.bases ≡ set self.old.bases i (pos c.base)) × (self.new.times ≡ set self.old.times i c.time) }
    {
        self.kinds[i] = c.kind;
        self.bases[i] = c.base as i32;
        self.times[i] = c.time;
    }

    fn put_connection(&mut self, j: usize, w: Connection)
        requires { j < 4096 }
        ensures one { OneConnection self.old self.new j w }
        ensures rest { (self.new.from ≡ set self.old.from j w.from) × (self.new.to ≡ set self.old.to j w.to) }
    {
        self.from[j] = w.from;
        self.to[j] = w.to;
    }
}

// ---- one record

fn on_component(p: &[u8], st: State, next: usize, decoded: &mut Decoded) -> Result<State, Fault>
    requires { Room st decoded.old }
    ensures took { Took result decoded.old decoded.new (on_component p.now (held st decoded.old) next) }
    ensures wires { (decoded.new.from ≡ decoded.old.from) × (decoded.new.to ≡ decoded.old.to) }
{
    if p.len() != 9 || st.conns != 0 {
        return Err(Fault::Tag(st.at));
    }
    if 1024 <= st.comps {
        return Err(Fault::Size(st.at));
    }
    let c = read_component(p);
    if !fields_ok(c) {
        return Err(Fault::Field(st.at));
    }
    decoded.put_component(st.comps, c);
    Ok(State {
        at: next,
        comps: st.comps + 1,
        ..st
    })
}

fn on_connection(p: &[u8], st: State, next: usize, decoded: &mut Decoded) -> Result<State, Fault>
    requires { Room st decoded.old }
    ensures took { Took result decoded.old decoded.new (on_connection p.now (held st decoded.old) next) }
    ensures parts { (decoded.new.kinds ≡ decoded.old.kinds) × (decoded.new.bases ≡ decoded.old.bases) × (decoded.new.times ≡ decoded.old.times) }
{
    if p.len() != 4 {
        return Err(Fault::Tag(st.at));
    }
    if 4096 <= st.conns {
        return Err(Fault::Size(st.at));
    }
    let w = read_connection(p);
    if !wiring_ok(w.from, w.to, st.comps, st.least) {
        return Err(Fault::Wiring(st.at));
    }
    decoded.put_connection(st.conns, w);
    Ok(State {
        at: next,
        conns: st.conns + 1,
        least: key_of(w.from, w.to) + 1,
        ..st
    })
}

// A component has the tag 1, a connection the tag 2: an enum of tags would be made by this match. What each does stays two functions, since they
// share no step but the first test.
fn on_record(r: Record, p: &[u8], st: State, decoded: &mut Decoded) -> Result<State, Fault>
    requires { Room st decoded.old }
    ensures { Took result decoded.old decoded.new (on_record r.tag p.now (held st decoded.old) r.next) }
{
    match r.tag {
        1 => on_component(p, st, r.next, decoded),
        2 => on_connection(p, st, r.next, decoded),
        _ => Err(Fault::Tag(st.at)),
    }
}

// The next state, or none at the file's end.
fn step(s: &[u8], st: State, decoded: &mut Decoded) -> Result<Option<State>, Fault>
    requires { Room st decoded.old }
    ensures { OneStep result s.now st decoded.old decoded.new }
{
    let reader = Reader::new(s, st.at);
    match reader.next() {
        Ok(Some(r)) => {
            let p = reader.contents(r.start, r.len);
            Ok(Some(on_record(r, p, st, decoded)?))
        }
        Ok(None) => Ok(None),
        Err(_) => Err(Fault::Broken(st.at)),
    }
}

// At the end of a file of so many bytes.
fn ended(size: usize, st: State) -> Result<Extent, Fault>
    ensures { result ≡ ended_at size st.comps st.conns }
{
    if st.comps == 0 {
        return Err(Fault::Size(size));
    }
    Ok(Extent {
        components: st.comps,
        connections: st.conns,
    })
}

// A record takes three bytes or more, so that the file's length is fuel enough.
fn read_records(s: &[u8], decoded: &mut Decoded) -> Result<Extent, Fault>
    ensures { Read s.now result decoded.new }
{
    let mut st = State::default();
    for _ in 0..s.len() {
        let Some(next) = step(s, st, decoded)? else {
            break;
        };
        st = next;
    }
    ended(s.len(), st)
}

// ---- ENDS

// 1 for each component that the list meets and 0 for the others, whatever was there before.
fn mark(met: &mut [u8], l: &[u16])
    requires { Below l.now (length met.old) }
    ensures { met.new ≡ tabulate (mark_of l.now) (length met.old) }
{
    met.fill(0);
    for &x in l {
        met[usize::from(x)] = 1;
    }
}

// A component of kind k must not be met, and one of another kind must. Kinds and marks are bytes, as their columns have them.
// A kind as the file has it, against the kind that the rule is of.
fn is_fault(kind: u8, k: Kind, mark: u8) -> bool
    ensures { result ≡ beq (eqb kind (byte_of k)) (eqb mark 1) }
{
    (kind == k as u8) == (mark == 1)
}

fn lowest_fault(kinds: &[u8], k: Kind, met: &[u8]) -> Option<usize>
    requires { length met.now ≡ length kinds.now }
    ensures { result ≡ below (length kinds.now) (lowest (fault_at kinds.now met.now (byte_of k)) (length kinds.now)) }
{
    (0..kinds.len()).find(|&x| is_fault(kinds[x], k, met[x]))
}

// The lowest fault by one of the two lists.
fn fault_by(kinds: &[u8], l: &[u16], k: Kind, met: &mut [u8]) -> Option<usize>
    requires { (length met.old ≡ length kinds.now) × Below l.now (length kinds.now) }
    ensures { result ≡ below (length kinds.now) (fault_by kinds.now l.now (byte_of k)) }
{
    mark(met, l);
    lowest_fault(kinds, k, met)
}

// The lowest fault by either: an input has no fan-in and no other is without, an output has no fan-out and no other is without.
fn fault_of(circuit: Circuit<'_>, met: &mut [u8]) -> Option<usize>
    requires met_len { length met.old ≡ length circuit.kinds.now }
    requires below { Below circuit.from.now (length circuit.kinds.now) × Below circuit.to.now (length circuit.kinds.now) }
    ensures { result ≡ below (length circuit.entry.kinds.now) (fault_of circuit.entry.kinds.now circuit.entry.from.now circuit.entry.to.now) }
{
    let i = fault_by(circuit.kinds, circuit.to, Kind::Input, met);
    let o = fault_by(circuit.kinds, circuit.from, Kind::Output, met);
    match (i, o) {
        (Some(x), Some(y)) => Some(x.min(y)),
        _ => i.or(o),
    }
}

// ---- the netlist

impl Decoded {
    // Judges a file, and decodes a taken one: its components and connections stand at the front of the arrays. ENDS works in `met`: what it holds
    // says nothing, before or after.
    pub fn read(&mut self, s: &[u8], met: &mut [u8]) -> Result<Extent, Fault>
        requires { length met.old ≡ 1024 }
        ensures { Judges s.now result self.new }
    {
        let extent = read_records(s, self)?;
        match fault_of(self.circuit(extent), &mut met[..extent.components]) {
            Some(x) => Err(Fault::Ends(x)),
            None => Ok(extent),
        }
    }
}

// The same into columns that need not stand in one value. They are filled where the netlist is taken, and stay as they were where it is not.
pub fn read_netlist(
    s: &[u8],
    kinds: &mut [u8],
    bases: &mut [i32],
    times: &mut [i32],
    from: &mut [u16],
    to: &mut [u16],
    met: &mut [u8],
) -> Result<Extent, Fault>
    requires { LongParts kinds.old bases.old times.old × LongWires from.old to.old × (length met.old ≡ 1024) }
    ensures { Judges s.now result (arrays kinds.new bases.new times.new from.new to.new) }
{
    let mut decoded = Decoded::EMPTY;
    let extent = decoded.read(s, met)?;
    kinds.copy_from_slice(&decoded.kinds);
    bases.copy_from_slice(&decoded.bases);
    times.copy_from_slice(&decoded.times);
    from.copy_from_slice(&decoded.from);
    to.copy_from_slice(&decoded.to);
    Ok(extent)
}
