ghost use Rattle.std.specs.Prelude.{ℕ};
ghost use Rattle.tlsf_class.specs.Classes.{IsLevel};
ghost use Rattle.tlsf_pool.specs.laws.Contents.{ChangesOneName, HasWhatIsLive, ReadsBack, ReadsContents, ReadsWhatWasWritten, WritesIntoContents};

/// To its user a heap is a map from live names to bytes.
///
/// One equation tells what each call makes of the map. An accepted allocate puts zeros under its new name, and an accepted resize
/// cuts the bytes under its own or puts zeros after them. An accepted write replaces some, and an accepted release takes its own
/// name away. Every other name keeps its bytes, and a refused call changes none.
///
/// ```text
/// let a = heap.allocate(2)?;              // a: 00 00
/// let b = heap.allocate(1)?;              // a: 00 00, b: 00
/// heap.write(a, 1, &[7])?;                // a: 00 07, b: 00
/// heap.resize(b, 2)?;                     // a: 00 07, b: 00 00
/// heap.release(b)?;                       // a: 00 07
/// ```
pub fn heap_is_a_map()
    ensures live { HasWhatIsLive }
    ensures change { (sli : ℕ) → ChangesOneName sli }

    // A read gets the bytes that the map has, and a write is done exactly where the map has room for it. The bytes that were
    // written are read back.
    ensures read { ReadsContents }
    ensures write { WritesIntoContents }
    ensures back { ReadsBack }

    // So after any calls on a new heap: a program that keeps the map by its own answers knows what each read gets.
    ensures history { (sli : ℕ) → IsLevel sli → ReadsWhatWasWritten sli }
{}
