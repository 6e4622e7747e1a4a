/// The work of a replay.
///
/// ```
/// let Summary { calls, bytes } = replay(alloc, &mut reader, &mut writer)?;
/// ```
#[derive(Clone, Copy, Debug, PartialEq, Eq)]
pub struct Summary {
    /// How many call lines were run, 0 to 32,767: each line after the header but `phase`. The drains at the end of a phase and of
    /// the trace are none.
    pub calls: u32,
    /// How many bytes were written, reply lines and report lines.
    pub bytes: u64,
}
