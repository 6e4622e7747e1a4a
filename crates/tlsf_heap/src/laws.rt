ghost use Rattle.std.specs.Prelude.{◌≡◌, ◌≢◌, ◌↔◌, ℕ, ◌+◌, ◌*◌, ◌-◌, ◌<◌, ◌≤◌, List, [], Ok, Err, Option, Some, IsOk, length, map};
ghost use Rattle.std.specs.List.{AllByRecursion};
ghost use Rattle.tlsf_class.specs.Classes.{IsLevel, low, class_of};
ghost use Rattle.tlsf_heap.specs.Footprint.{IsLiveWord, IsOthersWord};
ghost use Rattle.tlsf_heap.specs.Blocks.{Block, HeapState, IsPlace, want};
ghost use Rattle.tlsf_heap.specs.Aligned.{gap_of, words_aligned, IsLeastGap, GetsAligned};
ghost use Rattle.tlsf_heap.specs.ByPlace.{name_at};
ghost use Rattle.tlsf_heap.specs.Steady.{HasPayload, IsEven, AreEvenFrom, IsPayloadWord};
ghost use Rattle.tlsf_heap.specs.Steps.{Step, stepped, after, step_of, IsRoomy, TakesBack, IsOfOtherBlocks, IsOfOthers, IsWrite, IsEvenStep};
ghost use Rattle.tlsf_heap.specs.Checks.{Begins, IsCheck, MeetDamage};
ghost use Rattle.tlsf_heap.specs.Image.{Image};
ghost use Rattle.tlsf_heap.specs.Calls.{Call, allocated, allocated_words, last_tick, opened, released, reset, resized_words, run, read_of};
ghost use Rattle.tlsf_heap.specs.GoodFit.{fits};
ghost use Rattle.tlsf_heap.specs.Lawful.{IsLawful};
ghost use Rattle.tlsf_heap.specs.Laws.{LieApart, LieInRegion, IsLive, IsTaken, IsGone};
ghost use Rattle.tlsf_heap.specs.Moved.{resized_or_moved};
ghost use Rattle.tlsf_heap.specs.Reports.{report_of, IsGrant};
ghost use Rattle.tlsf_heap.specs.WordsInUse.{words_in_use, words_at};
ghost use Rattle.tlsf_heap.specs.declared.checked.Checked.{Checked};
ghost use Rattle.tlsf_heap.specs.declared.checked.Checked.TheVariants.{Damaged};
ghost use Rattle.tlsf_heap.specs.declared.name.Name.{Name};
ghost use Rattle.tlsf_heap.specs.declared.refusal.Refusal.TheVariants.{Foreign, NoFit, Stale};

/// No word of a lawful heap lies in two blocks, and each block lies in the region.
///
/// ```text
/// blocks of 4, 16 and 44 words fill the places 0 to 3, 4 to 19 and 20 to 63
/// ```
pub fn blocks_never_overlap()
    ensures apart { (h : HeapState) → IsLawful h → (i j : ℕ) → i < j → j < length h.blocks → LieApart h i j }
    ensures within { (h : HeapState) → IsLawful h → (i : ℕ) → i < length h.blocks → LieInRegion h i }
{}

/// A list of calls leaves what its steps leave, so laws about steps in turn are laws about calls in turn. Calls by words, out of the free
/// block at a place, and of bytes that fill a payload are steps as they stand. So is a reset, which is no call of such a list.
///
/// ```text
/// allocate(100) is `Give 16 100`, release(name) is `Take name`, reset() is `Reset`, a read is `Look`
/// ```
pub fn calls_are_steps()
    ensures run { (sli : ℕ) (h : HeapState) (calls : List Call) → (run sli h calls).1 ≡ after sli h (map step_of calls) }
    ensures roomy { (calls : List Call) → AllByRecursion IsRoomy (map step_of calls) }
{}

/// A name is live from the call that gives it to the release or the reset that takes it back, and never again.
///
/// ```text
/// let name = heap.allocate(8)?;           // live, and at place 0
/// heap.release(name)?;
/// let again = heap.allocate(8)?;          // at place 0 too, under another serial: `name` stays stale
/// ```
pub fn names_live_until_released()
    // A heap keeps its number, and stays lawful through steps that ask for as many words as their bytes need.
    ensures ids { (sli : ℕ) (h : HeapState) (step : Step) → (stepped sli h step).id ≡ h.id }
    ensures lawful { (sli : ℕ) → IsLevel sli → (h : HeapState) (steps : List Step) → AllByRecursion IsRoomy steps → IsLawful h → IsLawful (after sli h steps) }

    // The name that an allocate gives is live, and was not live before.
    ensures given { (sli : ℕ) (h : HeapState) (n len : ℕ) (name : Name) → (allocated_words sli h n len).answer ≡ Ok name → IsLive (allocated_words sli h n len).heap name }
    ensures new { (sli : ℕ) (h : HeapState) (n len : ℕ) (name : Name) → IsLawful h → (allocated_words sli h n len).answer ≡ Ok name → ¬ (IsLive h name) }

    // It stays live through each step but the release or the reset that takes it back.
    ensures kept { (sli : ℕ) (h : HeapState) (name : Name) (step : Step) → ¬ (TakesBack h name step) → IsLive h name → IsLive (stepped sli h step) name }

    // Then its serial is gone, stays so whatever steps come, and no name of it is live. Law `resets_end_all_names` says so of a reset.
    ensures taken { (h : HeapState) (name : Name) → IsLawful h → IsTaken h name → IsGone (released h name).heap name.serial }
    ensures gone { (sli : ℕ) (h : HeapState) (serial : ℕ) (steps : List Step) → IsGone h serial → IsGone (after sli h steps) serial }
    ensures dead { (h : HeapState) (name : Name) → IsGone h name.serial → ¬ (IsLive h name) }

    // The release of a name of the heap that is not live is refused as Stale. The release of a live one is refused neither as Stale
    // nor as Foreign.
    ensures stale { (h : HeapState) (name : Name) → name.heap ≡ h.id → ¬ (IsLive h name) → (released h name).answer ≡ Err Stale }
    ensures known { (h : HeapState) (name : Name) → IsLive h name → ((released h name).answer ≢ Err Stale) × ((released h name).answer ≢ Err Foreign) }
{}

/// A reset ends every name. No live block is left, and no serial that was given until then is one of a later block.
///
/// ```text
/// let name = heap.allocate(8)?;           // live, and at place 0
/// heap.reset()?;
/// let again = heap.allocate(8)?;          // at place 0 too, under another serial: `name` stays stale
/// ```
pub fn resets_end_all_names()
    ensures none { (h : HeapState) (name : Name) → IsOk (reset h).answer → ¬ (IsLive (reset h).heap name) }
    ensures gone { (h : HeapState) (name : Name) → IsLawful h → IsLive h name → IsOk (reset h).answer → IsGone (reset h).heap name.serial }
    ensures serials { (h : HeapState) (serial : ℕ) → IsOk (reset h).answer → IsGone h serial → IsGone (reset h).heap serial }

    // It is refused at the last tick, and nowhere else. Then it leaves no word in use.
    ensures ok { (h : HeapState) → IsOk (reset h).answer ↔ (¬ (h.tick ≡ last_tick)) }
    ensures unused { (h : HeapState) → IsOk (reset h).answer → words_in_use (reset h).heap ≡ 0 }
{}

/// The grant of a report is the greatest length of which a request is not refused as `NoFit`. It is the payload of the least block
/// of the class that the greatest free block lies in.
///
/// ```text
/// 63 words free at level 4: class 47 begins at 62 words, so 8 * (62 - 3) = 472 bytes are served, and 473 are not
/// ```
pub fn grant_is_greatest()
    ensures greatest { (sli : ℕ) → IsLevel sli → (h : HeapState) → IsLawful h → IsGrant sli h.blocks (report_of sli h).grant }
    ensures unique { (sli : ℕ) (blocks : List Block) (g k : ℕ) → IsGrant sli blocks g → IsGrant sli blocks k → g ≡ k }
    ensures formula { (sli : ℕ) → IsLevel sli → (h : HeapState) → IsLawful h → 0 < (report_of sli h).largest → (report_of sli h).grant ≡ 8 * (low sli (class_of sli (report_of sli h).largest) - 3) }
{}

/// A request is refused as `NoFit` where no free block fits, and nowhere else: there is no other way to run out.
///
/// This holds of every heap that a history reaches. Whatever calls came before, a request that some free block may serve gets a
/// block, unless the tick is at its last value.
///
/// ```text
/// free blocks of 8 and 12 words: 72 bytes want 12 words and get them, 73 bytes want 13 and are refused
/// ```
pub fn refused_only_where_nothing_fits()
    ensures no_fit { (sli : ℕ) (h : HeapState) (n len : ℕ) → ((allocated_words sli h n len).answer ≡ Err NoFit) ↔ (fits sli n h.blocks ≡ []) }
    ensures ok { (sli : ℕ) (h : HeapState) (n len : ℕ) → IsOk (allocated_words sli h n len).answer ↔ (¬ (fits sli n h.blocks ≡ []) × ¬ (h.tick ≡ last_tick)) }
{}

/// A place is as good as the name of the block that begins there, and no two blocks begin within three words of one another.
///
/// ```text
/// a payload at word 7 or, shifted by one word, at word 8 is of the block that begins at place 4
/// ```
pub fn places_name_blocks()
    ensures found { (h : HeapState) (name : Name) → IsLawful h → IsLive h name → name_at h name.at ≡ Some name }
    ensures apart { (h : HeapState) → IsLawful h → (at k : ℕ) → IsPlace h.blocks at → 0 < k → k < 4 → ¬ (IsPlace h.blocks (at + k)) }
{}

/// The bytes that a program left in a payload stay until the block is released or the heap is reset. They stay through each
/// allocate, and each release, resize, move or write of another name.
///
/// ```text
/// let name = heap.allocate_unset(8)?;
/// heap.write(name, 0, b"12345678")?;
/// let other = heap.allocate(100)?;        // the eight bytes of `name` stay
/// heap.release(other)?;                   // and so they do here
/// ```
pub fn payloads_stay()
    // It is what a read answers.
    ensures read { (h : HeapState) (name : Name) (bytes : List ℕ) → IsLawful h → HasPayload h name bytes → read_of h name 0 (length bytes) ≡ Ok bytes }

    // It stays through steps of which none is a reset, or a release, resize or write of that name.
    ensures run { (sli : ℕ) (h : HeapState) (name : Name) (bytes : List ℕ) (steps : List Step) → AllByRecursion (IsOfOthers name) steps → HasPayload h name bytes → HasPayload (after sli h steps) name bytes }

    // A name that an allocate gives is another, and so is that which a resize or move of another answers: the payload stays through it.
    ensures given { (sli : ℕ) (h : HeapState) (n len : ℕ) (given name : Name) (bytes : List ℕ) → IsLawful h → (allocated_words sli h n len).answer ≡ Ok given → HasPayload h name bytes → given ≢ name }
    ensures moved { (sli : ℕ) (h : HeapState) (other name : Name) (len : ℕ) (bytes : List ℕ) → IsLawful h → other ≢ name → HasPayload h name bytes →
        HasPayload (resized_or_moved sli h other len).heap name bytes × ((new : Name) → (resized_or_moved sli h other len).answer ≡ Ok new → new ≢ name) }
{}

/// The words of a payload are those of no other live name. They stay its own until the block is released or resized, or the heap is
/// reset. Clauses `leaves` and `refused` of the calls speak of other blocks' words. So these are read and written by calls on this name
/// alone, through every list of calls without a reset.
///
/// ```text
/// let name = heap.allocate_unset(8)?;     // word 3 of the region
/// let other = heap.allocate(100)?;        // no word is touched there
/// heap.release(other)?;                   // nor here
/// ```
pub fn payload_words_stay()
    ensures live { (h : HeapState) (name : Name) (k : ℕ) → IsPayloadWord h name k → IsLiveWord h.blocks k }
    ensures others { (h : HeapState) (name other : Name) (k : ℕ) → IsLawful h → IsPayloadWord h name k → IsLive h other → other ≢ name → IsOthersWord h.blocks other.at k }

    // They stay through steps of which none is a reset, or a release or resize of that name.
    ensures run { (sli : ℕ) (h : HeapState) (name : Name) (k : ℕ) (steps : List Step) → AllByRecursion (IsOfOtherBlocks name) steps → IsPayloadWord h name k → IsPayloadWord (after sli h steps) name k }
{}

/// Where each call wants an even number of words, each block begins at an even place, whatever the calls. So each payload begins
/// three words later, at an odd word.
///
/// The same holds after a place of which all blocks in front are live, and stay: so no reset comes. Let live blocks of 5 words
/// stand in front for good. Then each block after them begins at an odd place, and its payload at an even word.
///
/// ```text
/// blocks of 4, 6, 8 .. words begin at places 0, 4, 10 ..: payloads at words 3, 7, 13 ..
/// behind a block of 5 words they begin at places 5, 9, 15 ..: payloads at words 8, 12, 18 ..
/// ```
pub fn even_blocks_stay_even()
    ensures opened { (id words first : ℕ) → AreEvenFrom 0 (opened id words first).blocks }
    ensures run { (from sli : ℕ) (h : HeapState) (steps : List Step) → AllByRecursion (IsEvenStep from) steps → AreEvenFrom from h.blocks → AreEvenFrom from (after sli h steps).blocks }

    // And through a resize that may move the block, and where a payload is aligned to a multiple of an even number of words.
    ensures moved { (from sli : ℕ) (h : HeapState) (name : Name) (len : ℕ) → IsEven (want len) → from ≤ name.at → AreEvenFrom from h.blocks → AreEvenFrom from (resized_or_moved sli h name len).heap.blocks }
    ensures aligned { (from sli : ℕ) (h : HeapState) (n step skew : ℕ) → IsEven n → 0 < step → IsEven step → IsEven (from + 3 + skew) → AreEvenFrom from h.blocks
        → AreEvenFrom from (words_aligned sli h n step skew).heap.blocks }
{}

/// A block whose payload is aligned has the words wanted, and three more at most. All else that `allocate_aligned` asks for is free
/// again. It moves a payload on by the fewest words that align it, where the words in front have room for a free block.
///
/// ```text
/// of a new heap of 64 words: allocate_aligned(100, 8, 0) asks for 28 words, whose payload begins at word 3
/// it moves on by 5 words to word 8, and the block has 16 words
/// ```
pub fn aligned_blocks_fit()
    ensures gets { (sli : ℕ) → IsLevel sli → (h : HeapState) (n step skew : ℕ) → IsLawful h → 0 < step → 4 ≤ n → (name : Name) → (words_aligned sli h n step skew).answer ≡ Ok name →
        GetsAligned h (words_aligned sli h n step skew).heap n step skew name }

    // The words by which it moves on: none, or four at least.
    ensures gap { (at step skew : ℕ) → 0 < step → IsLeastGap at step skew (gap_of at step skew) }
{}

/// Words that may hold anything have one answer to a check. So `check_words` says Damaged wherever a check meets damage, and never
/// elsewhere. It is the answer of which `check_blocks` speaks, of the words that are stored.
///
/// ```text
/// check_words(&mut words, 0, 100)         // Some(Checked::Damaged { at: 0 }): no other answer holds of these words
/// ```
pub fn checks_have_one_answer()
    ensures one { (m : Image) (from most : ℕ) (a b : Option Checked) → IsCheck m from most a → IsCheck m from most b → a ≡ b }

    // Where blocks are sound from a place on, up to one that is not, a check of enough blocks names that one.
    ensures told { (m : Image) (from most at : ℕ) → Begins m from → MeetDamage m from most at → (answer : Option Checked) → IsCheck m from most answer → answer ≡ Some (Damaged at) }
{}

/// The words in use, those of the live blocks with their headers, add up. An allocate adds the words of the block that it gives,
/// and a release takes off those of the block that it takes back. A resize takes off those that the block had, and adds those that
/// it has. A refused call and a write change nothing of it.
///
/// ```text
/// let name = heap.allocate(100)?;         // of a heap without a live block: 16 words in use
/// heap.resize(name, 200)?;                // 28
/// heap.release(name)?;                    // 0
/// ```
pub fn words_in_use_add_up()
    ensures allocated { (sli : ℕ) → IsLevel sli → (h : HeapState) (n len : ℕ) (name : Name) → want len ≤ n → IsLawful h → (allocated_words sli h n len).answer ≡ Ok name →
        words_in_use (allocated_words sli h n len).heap ≡ words_in_use h + words_at (allocated_words sli h n len).heap name.at }
    ensures released { (h : HeapState) (name : Name) → IsLawful h → IsTaken h name → words_in_use h ≡ words_in_use (released h name).heap + words_at h name.at }

    // Of a refused resize too, which leaves the block.
    ensures resized { (h : HeapState) (name : Name) (n len : ℕ) → want len ≤ n → IsLawful h →
        words_in_use (resized_words h name n len).heap + words_at h name.at ≡ words_in_use h + words_at (resized_words h name n len).heap name.at }

    // A resize that may move the block, and the words in use between its allocate and its release, while both blocks are live.
    ensures moved { (sli : ℕ) → IsLevel sli → (h : HeapState) (name new : Name) (len : ℕ) → IsLawful h → (resized_or_moved sli h name len).answer ≡ Ok new →
        (words_in_use (resized_or_moved sli h name len).heap + words_at h name.at ≡ words_in_use h + words_at (resized_or_moved sli h name len).heap new.at)
        × (new ≢ name → words_in_use (allocated sli h len).heap ≡ words_in_use h + words_at (resized_or_moved sli h name len).heap new.at) }

    // A request for a block whose payload is aligned.
    ensures aligned { (sli : ℕ) → IsLevel sli → (h : HeapState) (n step skew : ℕ) → IsLawful h → 0 < step → 4 ≤ n → (name : Name) → (words_aligned sli h n step skew).answer ≡ Ok name →
        words_in_use (words_aligned sli h n step skew).heap ≡ words_in_use h + words_at (words_aligned sli h n step skew).heap name.at }

    // Other bytes change nothing of it, and a block has the words that it has through steps that are not about it.
    ensures written { (sli : ℕ) (h : HeapState) (step : Step) → IsWrite step → (words_in_use (stepped sli h step) ≡ words_in_use h) × ((place : ℕ) → words_at (stepped sli h step) place ≡ words_at h place) }
    ensures kept { (sli : ℕ) → IsLevel sli → (h : HeapState) (name : Name) (steps : List Step) → AllByRecursion (λ step. IsRoomy step × IsOfOtherBlocks name step) steps → IsLawful h → IsLive h name →
        words_at (after sli h steps) name.at ≡ words_at h name.at }
    ensures opened { (id words first : ℕ) → words_in_use (opened id words first) ≡ 0 }
    ensures reported { (sli : ℕ) (h : HeapState) → (report_of sli h).live_words ≡ words_in_use h }
{}
