// A file while it is built.

// Longer than any of the files that are judged.
const ROOM: usize = 32768;

// In a buffer of its own, so that no file wants memory that may not be there. What does not fit is left out: no caller has to count.
#[derive(Drop)]
pub(crate) struct File {
    bytes: [u8; ROOM],
    len: usize,
}

impl File {
    pub(crate) const EMPTY: File = File {
        bytes: [0; ROOM],
        len: 0,
    };

    pub(crate) fn bytes(&self) -> &[u8] {
        &self.bytes[..self.len.min(ROOM)]
    }

    pub(crate) fn len(&self) -> usize {
        self.len
    }

    pub(crate) fn append(&mut self, part: &[u8]) {
        if self.len <= ROOM && part.len() <= ROOM - self.len {
            let end = self.len + part.len();
            self.bytes[self.len..end].copy_from_slice(part);
            self.len = end;
        }
    }

    // Cut to a length, or filled up with zeros as far as there is room.
    pub(crate) fn resize(&mut self, len: usize) {
        let end = len.min(ROOM);
        if self.len < end {
            self.bytes[self.len..end].fill(0);
        }
        self.len = end;
    }

    // As long as before at least: what stood behind the part that was appended last is a part of the file again.
    pub(crate) fn reach(&mut self, before: usize) {
        self.len = self.len.max(before);
    }
}
