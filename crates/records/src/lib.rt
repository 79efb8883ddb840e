// Tagged records: a tag byte, two bytes of length, and that many bytes of contents.
#![tactic(auto)]

ghost use Rattle.std.specs.Prelude.{◌≡◌, ◌+◌, ◌≤◌, length};
ghost use Rattle.whole.specs.Bytes.{number_at};
ghost use Rattle.records.specs.Record.{record_at, part_of};

use whole::BigEndian;

// A record of a file: its tag, its contents, which are the `len` bytes from `start` on, and the place of the next. It says where they stand and
// does not hold them: so it is plain data, which the definition equals. The reader hands the contents on as a part of its file.
#[derive(Clone, Copy, Debug, PartialEq, Eq)]
pub struct Record {
    pub tag: u8,
    pub start: usize,
    pub len: usize,
    pub next: usize,
}

// Too few bytes for a record.
#[derive(Clone, Copy, Debug, PartialEq, Eq)]
pub struct Broken;

// The two bytes of length in a record's head.
fn length_at(s: &[u8], i: usize) -> usize
    requires { i + 2 ≤ length s.now }
    ensures { (result ≡ number_at 2 s.now i) × (result ≤ 65535) }
{
    usize::from(u16::at(s, i))
}

// The record at a place, or none at the file's end. It takes any place, so that no caller owes a bound.
fn record_at(s: &[u8], at: usize) -> Result<Option<Record>, Broken>
    ensures { result ≡ record_at s.now at }
{
    if s.len() <= at {
        return Ok(None);
    }
    let left = s.len() - at;
    if left < 3 {
        return Err(Broken);
    }
    let len = length_at(s, at + 1);
    if left - 3 < len {
        return Err(Broken);
    }
    Ok(Some(Record {
        tag: s[at],
        start: at + 3,
        len,
        next: at + 3 + len,
    }))
}

// The contents of a record, as a part of the file from its middle. Field readers take that part and read the numbers where they stand.
fn contents(s: &[u8], start: usize, len: usize) -> &[u8]
    requires { start + len ≤ length s.now }
    ensures { result.now ≡ part_of s.now start len }
{
    &s[start..start + len]
}

// The record reader: it remembers the file it was given and its place in it. Its methods take it apart and leave the work to the functions
// above: each of those has a proof of its own, over any file and place.
#[derive(Clone, Copy)]
pub struct Reader<'a> {
    pub src: &'a [u8],
    pub at: usize,
}

impl<'a> Reader<'a> {
    pub fn new(src: &'a [u8], at: usize) -> Reader<'a>
        ensures { (result.src ≡ src.entry) × (result.at ≡ at) }
    {
        Reader { src, at }
    }

    // The record at the reader's place.
    pub fn next(self) -> Result<Option<Record>, Broken>
        ensures { result ≡ record_at self.entry.src.now self.entry.at }
    {
        record_at(self.src, self.at)
    }

    // The contents of a record, as a part of the file that the reader was given.
    pub fn contents(self, start: usize, len: usize) -> &'a [u8]
        requires { start + len ≤ length self.src.now }
        ensures { result.now ≡ part_of self.entry.src.now start len }
    {
        contents(self.src, start, len)
    }
}
