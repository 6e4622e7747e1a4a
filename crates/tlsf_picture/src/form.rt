ghost use Rattle.tlsf_map.specs.Told.{Adds};
ghost use Rattle.tlsf_picture.specs.Drawn.{picture_told};

use std::alloc::{AllocError, Global};
use tlsf_map::{MappedHeap, write_svg, write_text};

/// How heaps are drawn.
#[derive(Clone, Copy, Debug, PartialEq, Eq)]
pub enum Form {
    /// As an SVG file.
    Svg,
    /// In the characters of a terminal of 80 columns.
    Text,
}

impl Form {
    ghost use Rattle.std.specs.Prelude.{◌≤◌, length, OnOk, string_bytes};

    /// Adds the picture of heaps with `words` words each, at most eight.
    pub fn write(
        self,
        alloc: Global,
        text: &mut String,
        words: u32,
        heaps: &[MappedHeap],
    ) -> Result<(), AllocError>
        requires { length heaps.now ≤ 8 }
        ensures { OnOk result (Adds (picture_told self words heaps.now) (string_bytes text.old) (string_bytes text.new)) }
    {
        match self {
            Form::Svg => write_svg(alloc, text, words, heaps),
            Form::Text => write_text(alloc, text, words, heaps),
        }
    }
}
