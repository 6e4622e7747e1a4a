ghost use Rattle.tlsf_held.specs.Measures.{HeldKindsSuffice, HeldPoolsSuffice, HeldWordsSuffice};

/// A worker whose heap has the words that its line names was never refused for want of room in that trace.
///
/// So a trace leads to heaps that never lack room. Where its line names more words than they have, write these into its header and
/// measure it again. Once no line names more words than the header, no `a` line is answered NoFit, by the law of sizes
/// (`tlsf_yard_laws::yard_never_refuses`). The same holds of any run whose calls keep within the same numbers.
///
/// ```text
/// tlsf 1 1 64 1, a 0 1 100, a 0 2 8, f 0 1:   held 0 blocks 2 bytes 100 words 50 region 64 wanted 20
/// ```
pub fn held_words_suffice()
    ensures { HeldWordsSuffice }
{}

/// Let a worker's heap have the words of the table of kinds that its calls keep to. Then it was never refused for want of room in
/// that trace.
///
/// The words are those of `tlsf_pool::kinds_suffice`, which `tlsf size` writes for the table's options. Where all rows are of blocks of
/// up to 8 bytes, no block may be resized to more.
///
/// ```text
/// tlsf 1 1 64 1, a 0 1 100, a 0 2 8, f 0 1:   --level 4 --blocks 1 --bytes 8 --blocks 1 --bytes 100
/// ```
pub fn held_kinds_suffice()
    ensures { HeldKindsSuffice }
{}

/// Let pools have the kinds of a worker's table, merged for whatever number of heaps. At each request of the run that was measured
/// let them hold blocks of the lengths that the run holds. Then they have a place for it, in the heap to which it goes.
///
/// `tlsf_pool::Pools::allocate` asks for no more, so it is never `Full` or `TooLong`. A request that was refused counts as asked
/// for. A resize counts as if the block had the new length from the beginning, since pools resize none.
///
/// ```text
/// tlsf 1 1 64 1, a 0 1 100, a 0 2 8, f 0 1:   --level 4 --blocks 1 --bytes 8 --blocks 1 --bytes 100
/// ```
pub fn held_pools_suffice()
    ensures { HeldPoolsSuffice }
{}
