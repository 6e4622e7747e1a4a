use std::fmt;

/// Words of regions, with the ratio of their bytes to those that are asked for: `words 13631 bytes 109048 ratio 2.13`.
#[derive(Clone, Copy)]
pub struct RegionSize {
    words: u32,
    ratio: u64,
}

impl RegionSize {
    ghost use Rattle.std.specs.Prelude.{◌≡◌, ◌≤◌, ◌*◌, ◌^◌};
    ghost use Rattle.tlsf_command.specs.SizeLines.{hundredths};

    /// A region of `words` words, 2^27 at most, where `asked` bytes are asked for, 1 to 2^35. The ratio is to the nearest
    /// hundredth.
    pub fn new(words: u32, asked: u64) -> RegionSize
        requires some { 1 ≤ asked }
        requires few { asked ≤ 2 ^ 35 }
        requires most { words ≤ 2 ^ 27 }
        ensures words { result.words ≡ words }
        ensures ratio { result.ratio ≡ hundredths (8 * words) asked }
    {
        let ratio = (100 * (8 * u64::from(words)) + asked / 2) / asked;
        RegionSize { words, ratio }
    }
}

impl fmt::Display for RegionSize {
    ghost use Rattle.std.specs.Prelude.{Some};
    ghost use Rattle.tlsf_command.specs.SizeLines.{words_text};

    ghost output = { λ it. Some (words_text it.words it.ratio) };

    fn fmt<W: fmt::Write>(&self, f: &mut fmt::Formatter<W>) -> fmt::Result {
        let words = self.words;
        let bytes = 8 * u64::from(self.words);
        let whole = self.ratio / 100;
        let tenth = self.ratio / 10 % 10;
        let hundredth = self.ratio % 10;
        write!(
            f,
            "words {words} bytes {bytes} ratio {whole}.{tenth}{hundredth}"
        )
    }
}
