/// A limit of an input.
#[derive(Clone, Copy, Debug, PartialEq, Eq)]
pub enum Limit {
    /// 1,048,576 bytes.
    Bytes,
    /// 32,768 lines. The bytes after the last line feed count as a line.
    Lines,
    /// 65,536 reads, the one that shows the end among them.
    Reads,
}
