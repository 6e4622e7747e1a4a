ghost use Rattle.std.specs.Prelude.{ℕ};
ghost use Rattle.tlsf_class.specs.Classes.{IsLevel};
ghost use Rattle.tlsf_yard_laws.specs.Yards.{YardHoldsWhatIsLive, YardKeepsBytes, YardMixedSizesServe, YardMixedSizesSuffice};

/// How large the heap of a worker must be, so that none of its requests is ever refused for want of room.
///
/// The heap needs the words of `tlsf_pool::mixed_sizes_suffice`, for the most blocks of it that are held at any moment. The entries
/// of its own worker tell them: its accepted allocates, less the releases that its heap accepted, at once or in a drain. So a block
/// whose name waits in a lane counts as held. With lanes of C posts from each of n - 1 other workers, up to C * (n - 1) such blocks
/// are held beside those in use.
///
/// ```text
/// worker 0 allocates, worker 1 releases: 1 held, a post under way
/// worker 0 drains: none held
/// ```
pub fn yard_never_refuses()
    ensures room { (sli : ℕ) → IsLevel sli → YardMixedSizesSuffice sli }
    ensures served { (sli : ℕ) → IsLevel sli → YardMixedSizesServe sli }
    ensures held { (sli : ℕ) → YardHoldsWhatIsLive sli }
{}

/// A worker's blocks keep their bytes, whatever the other workers do.
///
/// The calls that its own worker's entries tell of a heap, with their answers, tell the bytes under each name of it. Nothing that
/// another worker does changes a byte, and none of its posts does before a drain.
///
/// ```text
/// worker 0 allocates x and writes 07 to it, worker 1 releases x: x still has 07
/// worker 0 drains: x has no bytes any more
/// ```
pub fn yard_keeps_bytes()
    ensures { (sli : ℕ) → IsLevel sli → YardKeepsBytes sli }
{}
