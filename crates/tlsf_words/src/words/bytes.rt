ghost use Rattle.std.specs.Prelude.{◌≡◌, ℕ, ◌+◌, ◌-◌, ◌*◌, ◌/◌, ◌<◌, ◌≤◌, ◌≢◌, ◌^◌, ◌⊎◌, ◌∷◌, length, slice_index};
ghost use Rattle.tlsf_words.specs.Bytes.{RangesAreApart, byte_in, bytes_in, payload_byte};
ghost use Rattle.tlsf_words.specs.Frame.{Reads, Changes, WritesBytes, ReadsBytes};
ghost use Rattle.tlsf_words.specs.Touched.{times};

use super::Words;
use crate::run::Run;
use crate::splice::{drop_bytes, first_word, join_bytes};

// Bytes of payloads: whole words and edges.
impl Words {
    /// Writes bytes into the payload behind the header at a place, from a byte offset of it on. Each word that has one of them
    /// is written once. The first and the last, where they have other bytes too, are read before, and those bytes stay.
    ///
    /// ```
    /// words.copy_in(at, 6, b"abcd");     // bytes 6 to 9 of the payload: the last two of one word, the first two of the next
    /// ```
    // Always inline, as `copy_out`: a call and the registers that it takes cost as much as a word.
    #[inline(always)]
    pub fn copy_in(&mut self, at: u32, offset: u32, bytes: &[u8])
        requires { payload_byte at offset + length bytes.now ≤ 8 * length self.old.words }
        ensures bytes { bytes_in self.new.words (payload_byte at offset) (length bytes.now) ≡ bytes.now }
        ensures writes { WritesBytes (2 * (length bytes.now / 8 + 2)) (payload_byte at offset) (payload_byte at offset + length bytes.now) self.old self.new }
    {
        let start = 8 * (at as usize + 3) + offset as usize;
        if start % 8 == 0 && bytes.len() % 8 == 0 {
            self.write_whole(start / 8, bytes.len() / 8, bytes);
            return;
        }
        if bytes.len() < 8 {
            self.write_few(start, bytes);
            return;
        }
        self.write_run(start, bytes);
    }

    /// Makes bytes of the payload behind the header at a place zero: that at an offset, and those behind it in the same word.
    ///
    /// ```
    /// words.zero_rest(at, 13);     // bytes 13, 14 and 15 of the payload
    /// ```
    #[tactic(auto, using(crate::proofs::Touching::times_other))]
    pub fn zero_rest(&mut self, at: u32, offset: u32)
        requires { payload_byte at offset < 8 * length self.old.words }
        ensures zero { (k : ℕ) → payload_byte at offset ≤ k → k < 8 * (payload_byte at offset / 8 + 1) → byte_in self.new.words k ≡ 0 }
        ensures writes { WritesBytes 2 (payload_byte at offset) (8 * (payload_byte at offset / 8 + 1)) self.old self.new }
        ensures touches { self.new.touches ≡ self.old.touches + 2 }
    {
        let start = 8 * (at as usize + 3) + offset as usize;
        let first = start % 8;
        self.write_piece(start / 8, first, &[0; 8][first..]);
    }

    /// Reads bytes of the payload behind the header at a place, from a byte offset of it on, until `out` is full. Each word that
    /// has one of them is read once.
    ///
    /// ```
    /// words.copy_out(at, 6, &mut bytes);     // bytes 6 to 9 of the payload, where `bytes` has four
    /// ```
    #[inline(always)]
    pub fn copy_out(&mut self, at: u32, offset: u32, out: &mut [u8])
        requires { payload_byte at offset + length out.old ≤ 8 * length self.old.words }
        ensures bytes { out.new ≡ bytes_in self.old.words (payload_byte at offset) (length out.old) }
        ensures reads { ReadsBytes (length out.old / 8 + 2) (payload_byte at offset) (payload_byte at offset + length out.old) self.old self.new }
    {
        let start = 8 * (at as usize + 3) + offset as usize;
        if start % 8 == 0 && out.len() % 8 == 0 {
            self.read_whole(start / 8, out.len() / 8, out);
            return;
        }
        if out.len() < 8 {
            self.read_few(start, out);
            return;
        }
        self.read_run(start, out);
    }

    /// Copies the first `len` payload bytes behind the header at a place, `from`, to those behind another, `to`. Each word that has
    /// one of them is read and written once, and the other bytes stay. The whole words of the two lie apart, or are the same.
    ///
    /// ```
    /// words.copy_payload(0, 16, 13);     // a whole word and five bytes of the next, from place 3 on, to place 19 and the next
    /// ```
    #[tactic(auto, using(crate::proofs::Touching::times_other))]
    pub fn copy_payload(&mut self, from: u32, to: u32, len: u32)
        requires from { payload_byte from len ≤ 8 * length self.old.words }
        requires to { payload_byte to len ≤ 8 * length self.old.words }
        requires apart { RangesAreApart from to (len / 8) }
        ensures bytes { bytes_in self.new.words (payload_byte to 0) len ≡ bytes_in self.old.words (payload_byte from 0) len }
        ensures changes { Changes (payload_byte to 0) (payload_byte to len) self.old self.new }
        ensures touches { self.new.touches ≤ self.old.touches + 2 * (len / 8) + 3 }
        ensures touched { (k : ℕ) → (k < from + 3) ⊎ (payload_byte from len ≤ 8 * k) → (k < to + 3) ⊎ (payload_byte to len ≤ 8 * k) → times self.new.touched k ≡ times self.old.touched k }
        ensures rise { self.old.touches ≤ self.new.touches }
    {
        let source = from as usize + 3;
        let target = to as usize + 3;
        let whole = len as usize / 8;
        let rest = len as usize % 8;
        if rest == 0 {
            self.copy_words(source, target, whole);
            return;
        }
        // Read first: the words that are copied may come to lie over it.
        let last = self.read(source + whole).to_le_bytes();
        self.copy_words(source, target, whole);
        self.write_piece(target + whole, 0, &last[..rest]);
    }

    /// Copies `n` words from one place to another. It says of each byte of the region what becomes of it.
    #[inline]
    fn copy_words(&mut self, from: usize, to: usize, n: usize)
        requires from { from + n ≤ length self.old.words }
        requires to { to + n ≤ length self.old.words }
        requires apart { RangesAreApart from to n }
        requires small { (from < 2 ^ 40) × (to < 2 ^ 40) × (n < 2 ^ 40) }
        ensures copied { (k : ℕ) → k < 8 * n → byte_in self.new.words (8 * to + k) ≡ byte_in self.old.words (8 * from + k) }
        ensures changes { Changes (8 * to) (8 * (to + n)) self.old self.new }
        ensures touches { self.new.touches ≡ self.old.touches + 2 * n }
        ensures touched { (k : ℕ) → (k < from) ⊎ (from + n ≤ k) → (k < to) ⊎ (to + n ≤ k) → times self.new.touched k ≡ times self.old.touched k }
    {
        self.words.copy(from, to, n);
    }

    /// Writes bytes into one word, from byte `first` of it on. Its other bytes stay.
    #[inline]
    fn write_piece(&mut self, place: usize, first: usize, bytes: &[u8])
        requires inside { place < length self.old.words }
        requires within { first + length bytes.now ≤ 8 }
        ensures bytes { (k : ℕ) → k < length bytes.now → byte_in self.new.words (8 * place + first + k) ≡ slice_index bytes.now k }
        ensures before { (k : ℕ) → k < 8 * place + first → byte_in self.new.words k ≡ byte_in self.old.words k }
        ensures behind { (k : ℕ) → 8 * place + first + length bytes.now ≤ k → byte_in self.new.words k ≡ byte_in self.old.words k }
        ensures words { (k : ℕ) → k ≢ place → slice_index self.new.words k ≡ slice_index self.old.words k }
        ensures length { length self.new.words ≡ length self.old.words }
        ensures starts { self.new.starts ≡ self.old.starts }
        ensures stays { self.new.extents ≡ self.old.extents }
        ensures touches { self.new.touches ≡ self.old.touches + 2 }
        ensures touched { self.new.touched ≡ place ∷ place ∷ self.old.touched }
    {
        let mut word = self.read(place).to_le_bytes();
        word[first..first + bytes.len()].copy_from_slice(bytes);
        self.write(place, u64::from_le_bytes(word));
    }

    /// Reads bytes of one word, from byte `first` of it on.
    #[inline]
    fn read_piece(&mut self, place: usize, first: usize, out: &mut [u8])
        requires inside { place < length self.old.words }
        requires within { first + length out.old ≤ 8 }
        ensures bytes { (k : ℕ) → k < length out.old → slice_index out.new k ≡ byte_in self.old.words (8 * place + first + k) }
        ensures reads { Reads place self.old self.new }
    {
        let word = self.read(place).to_le_bytes();
        out.copy_from_slice(&word[first..first + out.len()]);
    }

    /// Writes bytes into one word, as `write_piece`, or none at all: then there need not be such a word.
    #[inline]
    #[tactic(auto, using(crate::proofs::Touching::times_other))]
    fn write_edge(&mut self, place: usize, first: usize, bytes: &[u8])
        requires inside { 0 < length bytes.now → place < length self.old.words }
        requires within { first + length bytes.now ≤ 8 }
        ensures bytes { (k : ℕ) → k < length bytes.now → byte_in self.new.words (8 * place + first + k) ≡ slice_index bytes.now k }
        ensures writes { WritesBytes 2 (8 * place + first) (8 * place + first + length bytes.now) self.old self.new }
    {
        if !bytes.is_empty() {
            self.write_piece(place, first, bytes);
        }
    }

    /// Reads bytes of one word, as `read_piece`, or none at all: then there need not be such a word.
    #[inline]
    #[tactic(auto, using(crate::proofs::Touching::times_other))]
    fn read_edge(&mut self, place: usize, first: usize, out: &mut [u8])
        requires inside { 0 < length out.old → place < length self.old.words }
        requires within { first + length out.old ≤ 8 }
        ensures bytes { (k : ℕ) → k < length out.old → slice_index out.new k ≡ byte_in self.old.words (8 * place + first + k) }
        ensures reads { ReadsBytes 1 (8 * place + first) (8 * place + first + length out.old) self.old self.new }
    {
        if !out.is_empty() {
            self.read_piece(place, first, out);
        }
    }

    /// Writes fewer than eight bytes, from a byte of the words on: they stand in one word or two.
    #[inline(never)]
    fn write_few(&mut self, start: usize, bytes: &[u8])
        requires few { length bytes.now < 8 }
        requires inside { start + length bytes.now ≤ 8 * length self.old.words }
        ensures bytes { bytes_in self.new.words start (length bytes.now) ≡ bytes.now }
        ensures writes { WritesBytes 4 start (start + length bytes.now) self.old self.new }
    {
        let first = bytes.len().min(8 - start % 8);
        self.write_edge(start / 8, start % 8, &bytes[..first]);
        self.write_edge(start / 8 + 1, 0, &bytes[first..]);
    }

    /// Reads fewer than eight bytes, from a byte of the words on: they stand in one word or two.
    #[inline(never)]
    fn read_few(&mut self, start: usize, out: &mut [u8])
        requires few { length out.old < 8 }
        requires inside { start + length out.old ≤ 8 * length self.old.words }
        ensures bytes { out.new ≡ bytes_in self.old.words start (length out.old) }
        ensures reads { ReadsBytes 2 start (start + length out.old) self.old self.new }
    {
        let first = out.len().min(8 - start % 8);
        self.read_edge(start / 8, start % 8, &mut out[..first]);
        self.read_edge(start / 8 + 1, 0, &mut out[first..]);
    }

    /// Writes eight bytes or more, from a byte of the words on. Apart, so that whole words alone, as most are, take none of its registers.
    #[inline(never)]
    fn write_run(&mut self, start: usize, bytes: &[u8])
        requires near { start < 2 ^ 36 }
        requires enough { 8 ≤ length bytes.now }
        requires inside { start + length bytes.now ≤ 8 * length self.old.words }
        ensures bytes { bytes_in self.new.words start (length bytes.now) ≡ bytes.now }
        ensures writes { WritesBytes (2 * (length bytes.now / 8 + 2)) start (start + length bytes.now) self.old self.new }
    {
        let run = Run::of(start, bytes.len());
        self.write_head(start / 8, start % 8, bytes);
        // The whole words last: no register has to outlive the loop.
        self.write_tail(run.first + run.whole, bytes.len() - run.tail, bytes);
        self.write_whole(run.first, run.whole, &bytes[run.head..run.tail]);
    }

    /// Reads eight bytes or more, from a byte of the words on. Apart, as `write_run`.
    #[inline(never)]
    fn read_run(&mut self, start: usize, out: &mut [u8])
        requires near { start < 2 ^ 36 }
        requires enough { 8 ≤ length out.old }
        requires inside { start + length out.old ≤ 8 * length self.old.words }
        ensures bytes { out.new ≡ bytes_in self.old.words start (length out.old) }
        ensures reads { ReadsBytes (length out.old / 8 + 2) start (start + length out.old) self.old self.new }
    {
        let run = Run::of(start, out.len());
        self.read_head(start / 8, start % 8, out);
        // The whole words last, as in `write_run`.
        self.read_tail(run.first + run.whole, out.len() - run.tail, out);
        self.read_whole(run.first, run.whole, &mut out[run.head..run.tail]);
    }

    /// Writes the first of eight bytes or more into one word, from byte `first` of it on, where it isn't to be written whole.
    #[inline]
    #[tactic(auto, using(crate::proofs::Touching::times_other))]
    fn write_head(&mut self, place: usize, first: usize, bytes: &[u8])
        requires inside { 0 < first → place < length self.old.words }
        requires within { first < 8 }
        requires enough { 8 ≤ length bytes.now }
        ensures bytes { (k : ℕ) → 0 < first → first + k < 8 → byte_in self.new.words (8 * place + first + k) ≡ slice_index bytes.now k }
        ensures writes { WritesBytes 2 (8 * place + first) (8 * place + 8) self.old self.new }
    {
        if first == 0 {
            return;
        }
        let word = self.read(place);
        self.write(place, join_bytes(word, first_word(bytes), first));
    }

    /// Writes the last `n` of eight bytes or more into one word, from its first byte on, where it isn't to be written whole.
    #[inline]
    #[tactic(auto, using(crate::proofs::Touching::times_other))]
    fn write_tail(&mut self, place: usize, n: usize, bytes: &[u8])
        requires inside { 0 < n → place < length self.old.words }
        requires within { n < 8 }
        requires enough { 8 ≤ length bytes.now }
        ensures bytes { (k : ℕ) → k < n → byte_in self.new.words (8 * place + k) ≡ slice_index bytes.now (length bytes.now - n + k) }
        ensures writes { WritesBytes 2 (8 * place) (8 * place + n) self.old self.new }
    {
        if n == 0 {
            return;
        }
        let last = drop_bytes(first_word(&bytes[bytes.len() - 8..]), 8 - n);
        let rest = drop_bytes(self.read(place), n);
        self.write(place, join_bytes(last, rest, n));
    }

    /// Reads bytes of one word, from byte `first` of it on, into the first of eight bytes or more. It is for a word that isn't read
    /// whole.
    #[inline]
    #[tactic(auto, using(crate::proofs::Touching::times_other))]
    fn read_head(&mut self, place: usize, first: usize, out: &mut [u8])
        requires inside { 0 < first → place < length self.old.words }
        requires within { first < 8 }
        requires enough { 8 ≤ length out.old }
        ensures bytes { (k : ℕ) → 0 < first → first + k < 8 → slice_index out.new k ≡ byte_in self.old.words (8 * place + first + k) }
        ensures reads { ReadsBytes 1 (8 * place + first) (8 * place + 8) self.old self.new }
    {
        if first == 0 {
            return;
        }
        let word = drop_bytes(self.read(place), first);
        out[..8].copy_from_slice(&word.to_le_bytes());
    }

    /// Reads the first `n` bytes of one word into the last of eight bytes or more, where it isn't to be read whole.
    #[inline]
    #[tactic(auto, using(crate::proofs::Touching::times_other))]
    fn read_tail(&mut self, place: usize, n: usize, out: &mut [u8])
        requires inside { 0 < n → place < length self.old.words }
        requires within { n < 8 }
        requires enough { 8 ≤ length out.old }
        ensures bytes { (k : ℕ) → k < n → slice_index out.new (length out.old - n + k) ≡ byte_in self.old.words (8 * place + k) }
        ensures before { (k : ℕ) → k < length out.old - n → slice_index out.new k ≡ slice_index out.old k }
        ensures reads { ReadsBytes 1 (8 * place) (8 * place + n) self.old self.new }
    {
        if n == 0 {
            return;
        }
        let from = out.len() - 8;
        let word = self.read(place);
        let last = join_bytes(first_word(&out[from..]), word, 8 - n);
        out[from..].copy_from_slice(&last.to_le_bytes());
    }

    /// Writes `n` whole words, from a place on. It says of each byte of the region what becomes of it.
    #[inline]
    fn write_whole(&mut self, place: usize, n: usize, bytes: &[u8])
        requires inside { place + n ≤ length self.old.words }
        requires whole { length bytes.now ≡ 8 * n }
        ensures bytes { (k : ℕ) → k < 8 * n → byte_in self.new.words (8 * place + k) ≡ slice_index bytes.now k }
        ensures writes { WritesBytes n (8 * place) (8 * (place + n)) self.old self.new }
        ensures touches { self.new.touches ≡ self.old.touches + n }
    {
        self.words.write_bytes(place, n, bytes);
    }

    /// Reads `n` whole words, from a place on.
    #[inline]
    fn read_whole(&mut self, place: usize, n: usize, out: &mut [u8])
        requires inside { place + n ≤ length self.old.words }
        requires whole { length out.old ≡ 8 * n }
        ensures bytes { (k : ℕ) → k < 8 * n → slice_index out.new k ≡ byte_in self.old.words (8 * place + k) }
        ensures reads { ReadsBytes n (8 * place) (8 * (place + n)) self.old self.new }
        ensures touches { self.new.touches ≡ self.old.touches + n }
    {
        self.words.read_bytes(place, n, out);
    }
}
