ghost use Rattle.std.specs.Prelude.{◌≡◌, ◌≢◌, ℕ, ◌+◌, ◌*◌, ◌≤◌};
ghost use Rattle.tlsf_offsets.specs.Offsets.{SpansAreApart, IsHeld, IsOffsets, Offsets};
ghost use Rattle.tlsf_offsets.specs.declared.span.Span.{Span};

/// Two spans that an arena holds have no byte in common, and each lies in its memory. `IsOffsets` holds before and after each call.
///
/// ```text
/// spans of 4, 16 and 44 units of 256 bytes: offsets 0, 1,024 and 5,120 of 16,384 bytes
/// ```
pub fn spans_never_overlap()
    ensures apart { (sli : ℕ) (o : Offsets) (a b : Span) → IsOffsets sli o → IsHeld o a → IsHeld o b → a.name ≢ b.name → SpansAreApart a b }
    ensures within { (sli : ℕ) (o : Offsets) (a : Span) → IsOffsets sli o → IsHeld o a → a.offset + a.size ≤ o.unit * o.heap.words }
    // It has the bytes of no name but its own.
    ensures one { (sli : ℕ) (o : Offsets) (a b : Span) → IsOffsets sli o → IsHeld o a → IsHeld o b → a.name ≡ b.name → a ≡ b }
{}
