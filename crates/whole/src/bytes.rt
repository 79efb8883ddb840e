// Numbers in slices of bytes, the high byte first.
#![tactic(auto, unfolding(crate::specs::Bytes::number_at, crate::specs::Bytes::put_at))]

ghost use Rattle.std.specs.Prelude.{◌≡◌, ◌≤◌, ◌<◌, ◌+◌, ◌^◌, ℕ, ℤ, List, length, FitsSigned};
ghost use Rattle.std.specs.Int.{w32};
ghost use Rattle.whole.specs.Bytes.{number_at, put_at, signed_at, put_signed, number_put, signed_put};

pub trait BigEndian {
    // how many bytes a number takes
    ghost width: { ℕ };

    // which numbers those bytes hold
    ghost Fits: { Self → Type 0 };

    // the number that stands at a place
    ghost read: { List ℕ → ℕ → Self };

    // the bytes once a number was put at a place
    ghost written: { List ℕ → ℕ → Self → List ℕ };

    fn at(bytes: &[u8], i: usize) -> Self
        requires { i + width ≤ length bytes.now }
        ensures { result ≡ read bytes.now i };

    fn put(self, bytes: &mut [u8], i: usize)
        requires { i + width ≤ length bytes.old }
        ensures { bytes.new ≡ written bytes.old i self };

    // What is put reads back.
    ghost reads_back: { (d : List ℕ) (i : ℕ) (x : Self) → i + width ≤ length d → Fits x → read (written d i x) i ≡ x };
}

impl BigEndian for u8 {
    ghost width = { 1 };

    ghost Fits = { λ x. x < 256 ^ 1 };

    ghost read = { number_at 1 };

    ghost written = { put_at 1 };

    ghost reads_back = { number_put 1 };

    fn at(bytes: &[u8], i: usize) -> u8 {
        bytes[i]
    }

    fn put(self, bytes: &mut [u8], i: usize) {
        bytes[i] = self;
    }
}

impl BigEndian for u16 {
    ghost width = { 2 };

    ghost Fits = { λ x. x < 256 ^ 2 };

    ghost read = { number_at 2 };

    ghost written = { put_at 2 };

    ghost reads_back = { number_put 2 };

    fn at(bytes: &[u8], i: usize) -> u16 {
        u16::from_be_bytes([bytes[i], bytes[i + 1]])
    }

    fn put(self, bytes: &mut [u8], i: usize) {
        bytes[i..i + 2].copy_from_slice(&self.to_be_bytes());
    }
}

impl BigEndian for u32 {
    ghost width = { 4 };

    ghost Fits = { λ x. x < 256 ^ 4 };

    ghost read = { number_at 4 };

    ghost written = { put_at 4 };

    ghost reads_back = { number_put 4 };

    fn at(bytes: &[u8], i: usize) -> u32 {
        u32::from_be_bytes([bytes[i], bytes[i + 1], bytes[i + 2], bytes[i + 3]])
    }

    fn put(self, bytes: &mut [u8], i: usize) {
        let word = self.to_be_bytes();
        bytes[i..i + 4].copy_from_slice(&[word[0], word[1], word[2], word[3]]);
    }
}

// Two's complement.
impl BigEndian for i32 {
    ghost width = { 4 };

    ghost Fits = { FitsSigned w32 };

    ghost read = { signed_at };

    ghost written = { put_signed };

    ghost reads_back = { signed_put };

    fn at(bytes: &[u8], i: usize) -> i32 {
        u32::at(bytes, i).cast_signed()
    }

    fn put(self, bytes: &mut [u8], i: usize) {
        self.cast_unsigned().put(bytes, i);
    }
}
