// The parts of which netlist and result files are made.

use crate::file::File;

// What is added to a file, or written over what stands there: a byte, a record's head (tag and length) before contents as they stand, or a
// whole record with its fields, in the order that they have in a file.
#[derive(Clone, Copy)]
pub(crate) enum Part {
    Byte(u8),
    Head(u8, u16),
    Component(u8, u32, i32),
    Connection(u16, u16),
    Summary(u8, u32, u16),
    Bound(u16, u32, u32),
}

fn append_head(file: &mut File, tag: u8, len: u16) {
    file.append(&[tag]);
    file.append(&len.to_be_bytes());
}

impl Part {
    // Components and connections come by the thousand: each is appended in one piece.
    pub(crate) fn append_to(self, file: &mut File) {
        match self {
            Part::Byte(x) => file.append(&[x]),
            Part::Head(tag, len) => append_head(file, tag, len),
            Part::Component(kind, base, time) => {
                let (b, t) = (base.to_be_bytes(), time.to_be_bytes());
                file.append(&[
                    1, 0, 9, kind, b[0], b[1], b[2], b[3], t[0], t[1], t[2], t[3],
                ]);
            }
            Part::Connection(from, to) => {
                let (f, t) = (from.to_be_bytes(), to.to_be_bytes());
                file.append(&[2, 0, 4, f[0], f[1], t[0], t[1]]);
            }
            Part::Summary(mode, share, rounds) => {
                append_head(file, 16, 7);
                file.append(&[mode]);
                file.append(&share.to_be_bytes());
                file.append(&rounds.to_be_bytes());
            }
            Part::Bound(component, base, increment) => {
                append_head(file, 17, 10);
                file.append(&component.to_be_bytes());
                file.append(&base.to_be_bytes());
                file.append(&increment.to_be_bytes());
            }
        }
    }

    // A file that ends before the part does becomes longer.
    pub(crate) fn write_over(self, file: &mut File, at: u16) {
        let before = file.len();
        file.resize(usize::from(at));
        self.append_to(file);
        file.reach(before);
    }
}

pub(crate) fn append_all(file: &mut File, parts: &[Part]) {
    for part in parts {
        part.append_to(file);
    }
}
