ghost use Rattle.std.specs.Prelude.{◌≡◌, ℕ, ◌+◌, ◌≤◌, ◌⊎◌, List, Result, Ok, Err, length, IfOk, IfErr, OnOk, OnErr, MatchResult};
ghost use Rattle.tlsf_heap.specs.Blocks.{HeapState, want};
ghost use Rattle.tlsf_heap.specs.Calls.{allocated_words, released, written, last_tick};
ghost use Rattle.tlsf_heap.specs.Footprint.{LeavesLive};
ghost use Rattle.tlsf_heap.specs.InPlace.{payload_of};
ghost use Rattle.tlsf_heap.specs.Named.{IsNamed, RefusesName};
ghost use Rattle.tlsf_heap.specs.Reports.{report_of, IsGrant};
ghost use Rattle.tlsf_heap.specs.Touched.{FollowsNoForgery};
ghost use Rattle.tlsf_heap.specs.declared.name.Name.{Name};
ghost use Rattle.tlsf_heap.specs.declared.refusal.Refusal.{Refusal};
ghost use Rattle.tlsf_heap.specs.declared.report.Report.{Report};
ghost use Rattle.tlsf_heap.specs.Shown.{seen};

pub(crate) mod counts;
pub(crate) mod ledgered;

use crate::heap::Heap;
use crate::name::Name;
use crate::refusal::Refusal;

/// The notes beside a heap: its grants and its returns, and which requests are refused by these.
///
/// A [`Ledgered`](crate::Ledgered) asks it before each allocate, and tells it of each block that was given or taken back.
pub trait Ledger<const SLI: u32>: Sized {
    /// Why an allocate is refused.
    type Why;

    /// The place that `admit` finds for `give`.
    type Place: Drop;

    /// The part of its block that a return has to have seen.
    type Seen: Drop;

    // It is a ledger of that heap, of that level.
    ghost holds: { ℕ → HeapState → Self → Type 0 };

    // How a request for this many bytes is answered, by the heap's answer.
    ghost answered: { Self → ℕ → Result Name Refusal → Result Name Self.Why };

    // Such a request is passed on to the heap.
    ghost admits: { Self → ℕ → Type 0 };

    // How many words it takes of a heap of that level, the three of the header with them.
    ghost takes: { ℕ → Self → ℕ → ℕ };

    // This was found out for it.
    ghost places: { Self → ℕ → Self.Place → Type 0 };

    // The facts that the answer tells: when it is given, and when each refusal comes.
    ghost tells: { ℕ → HeapState → Self → ℕ → Result Name Self.Why → Type 0 };

    // The facts that a report of the heap tells.
    ghost reports: { Self → Report → Type 0 };

    // The ledger before and after a grant of this many bytes, and a return of that many.
    ghost given: { Self → ℕ → Self → Type 0 };

    ghost returned: { Self → ℕ → Self → Type 0 };

    // Its limits, which no call changes, are the same.
    ghost same_limits: { Self → Self → Type 0 };

    // The facts that may be seen of the block of a name, and how many touches that takes at most.
    ghost sees: { HeapState → Name → Self.Seen → Type 0 };

    ghost look_touches: { ℕ };

    /// Whether a request is passed on, and why not.
    fn admit(&self, len: u32) -> Result<Self::Place, Self::Why>
        requires { (sli : ℕ) × (h : HeapState) × holds sli h self.now }
        ensures admits { OnOk result (admits self.now len) }
        ensures places { IfOk result (places self.now len) }
        ensures refuses { IfErr result (λ why. ¬ (admits self.now len) × ((r : Result Name Refusal) → answered self.now len r ≡ Err why)) };

    /// How many words a request takes, no fewer than its bytes want.
    fn words(&self, len: u32) -> u32
        requires admits { admits self.now len }
        requires heap { (h : HeapState) × holds SLI h self.now }
        ensures takes { result ≡ takes SLI self.now len }
        ensures enough { want len ≤ result };

    /// The ledger's reason for a refusal of the heap.
    fn refused(&self, len: u32, why: Refusal) -> Self::Why
        requires admits { admits self.now len }
        requires heap { (sli : ℕ) × (h : HeapState) × holds sli h self.now × ((allocated_words sli h (takes sli self.now len) len).answer ≡ Err why) }
        ensures { answered self.now len (Err why) ≡ Err result };

    /// Notes a grant.
    fn give(&mut self, len: u32, place: Self::Place)
        requires admits { admits self.old len }
        requires places { places self.old len place }
        requires heap { (sli : ℕ) × (h : HeapState) × (name : Name) × holds sli h self.old × (h.tick ≤ last_tick) × ((allocated_words sli h (takes sli self.old len) len).answer ≡ Ok name) }
        ensures given { given self.old len self.new }
        ensures limits { same_limits self.old self.new }
        ensures answer { (name : Name) → answered self.old len (Ok name) ≡ Ok name }
        ensures holds { (sli : ℕ) (h : HeapState) (name : Name) → holds sli h self.old → Ok name ≡ (allocated_words sli h (takes sli self.old len) len).answer → holds sli (allocated_words sli h (takes sli self.old len) len).heap self.new };

    /// Looks at the block of a name, as far as a return of it has to be noted by more than its number.
    fn look(heap: &mut Heap<SLI>, name: Name) -> Result<Self::Seen, Refusal>
        ensures answer { MatchResult result (sees heap.old.heap name) (RefusesName heap.old.heap name) }
        ensures heap { heap.new.heap ≡ heap.old.heap }
        ensures stays { heap.new.extents ≡ heap.old.extents }
        ensures leaves { LeavesLive heap.old.heap.blocks heap.old.touched heap.new.touched }
        ensures touches { heap.new.touches ≤ heap.old.touches + look_touches }
        ensures few { look_touches ≤ 4 }
        ensures rise { heap.old.touches ≤ heap.new.touches }
        ensures forged { OnErr result (FollowsNoForgery (seen heap.old) (seen heap.new) name) }
        ensures live { OnOk result ((heap.new.touches ≡ heap.old.touches) × (heap.new.touched ≡ heap.old.touched) ⊎ IsNamed heap.old.heap name) };

    /// Notes a return.
    fn take_back(&mut self, seen: Self::Seen)
        requires { (sli : ℕ) × (h : HeapState) × (name : Name) × holds sli h self.old × sees h name seen × (Ok tt ≡ (released h name).answer) }
        ensures returned { (h : HeapState) (name : Name) → sees h name seen → returned self.old (length (payload_of h name)) self.new }
        ensures limits { same_limits self.old self.new }
        ensures holds { (sli : ℕ) (h : HeapState) (name : Name) → holds sli h self.old → sees h name seen → Ok tt ≡ (released h name).answer → holds sli (released h name).heap self.new };

    /// Says what these definitions come to. It does nothing.
    fn laws()
        // The facts that the answers to requests tell, and those that a report tells.
        ensures tells { (sli : ℕ) (h : HeapState) (ledger : Self) (len : ℕ) → holds sli h ledger → tells sli h ledger len (answered ledger len (allocated_words sli h (takes sli ledger len) len).answer) }
        ensures reports { (sli : ℕ) (h : HeapState) (ledger : Self) → holds sli h ledger → IsGrant sli h.blocks (report_of sli h).grant → reports ledger (report_of sli h) }

        // A refusal leaves the limits.
        ensures limits { (ledger : Self) → same_limits ledger ledger }

        // A write leaves the ledger one of the heap.
        ensures written { (sli : ℕ) (h : HeapState) (ledger : Self) (name : Name) (at : ℕ) (bytes : List ℕ) → holds sli h ledger → holds sli (written h name at bytes).heap ledger };
}
