ghost use Rattle.std.specs.Prelude.{◌≡◌};
ghost use Rattle.tlsf_diagnosis.specs.PassedLimits.{limit_note};

use tlsf_lines::Limit;

/// The line that is noted of a trace that passes a limit.
pub fn note_of(limit: Limit) -> &'static str
    ensures { result.now ≡ limit_note limit }
{
    match limit {
        Limit::Bytes =>
            "  the trace has more than 1,048,576 bytes: tools/sequence takes several traces\n",
        Limit::Lines =>
            "  the trace has more than 32,768 lines: line 32,769 is one too many; tools/sequence takes several traces\n",
        Limit::Reads => {
            "  the trace had not ended after 65,536 reads: it comes in pieces that are too small\n"
        }
    }
}
