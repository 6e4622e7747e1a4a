//! The values that cross to C beside an arena of offsets.
ghost use Rattle.std.specs.Prelude.{◌≡◌};

use crate::names::BlockName;
use tlsf_offsets::{Span, Usage};

/// Bytes of the memory that an arena cuts up: where they lie, how many they are, and the name that they go back by.
#[repr(C)]
#[derive(Clone, Copy)]
pub struct OffsetSpan {
    pub name: BlockName,
    pub offset: u64,
    pub size: u64,
}

impl OffsetSpan {
    ghost use Rattle.tlsf_c.specs.OffsetHandles.{span_of};

    pub fn of(span: Span) -> OffsetSpan
        ensures { span_of result ≡ span }
    {
        OffsetSpan {
            name: BlockName::of(span.name),
            offset: span.offset,
            size: span.size,
        }
    }
}

/// How much of an arena is held and how much is left, in bytes.
#[repr(C)]
#[derive(Clone, Copy)]
pub struct OffsetUsage {
    pub spans: u32,
    pub held: u64,
    pub free: u64,
    pub largest: u64,
}

impl OffsetUsage {
    ghost use Rattle.tlsf_c.specs.OffsetHandles.{usage_told};

    pub fn of(usage: Usage) -> OffsetUsage
        ensures { usage_told result ≡ usage }
    {
        OffsetUsage {
            spans: usage.spans,
            held: usage.held,
            free: usage.free,
            largest: usage.largest,
        }
    }
}
