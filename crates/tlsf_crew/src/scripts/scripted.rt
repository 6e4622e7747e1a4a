//! Facts about a script's calls on their worker, over ports of each kind.
ghost use Rattle.std.specs.Prelude.{◌≡◌, ◌≢◌, ◌⊎◌, ◌^◌, ◌<◌, ◌≤◌, ℕ, List, Option, Some, None, Result, slice_index};
ghost use Rattle.tlsf_heap.specs.declared.name.Name.{Name};
ghost use Rattle.tlsf_calls.specs.declared.call.Call.{Call};
ghost use Rattle.tlsf_calls.specs.declared.call.Call.TheVariants.{Release, Take, Drain};
ghost use Rattle.tlsf_calls.specs.declared.crew_refusal.CrewRefusal.{CrewRefusal};
ghost use Rattle.tlsf_calls.specs.declared.crew_refusal.CrewRefusal.TheVariants.{Stranger};
ghost use Rattle.tlsf_calls.specs.declared.drained.Drained.{Drained as WasDrained};
ghost use Rattle.tlsf_calls.specs.declared.entry.Entry.{Entry};
ghost use Rattle.tlsf_calls.specs.declared.released.Released.{Released};
ghost use Rattle.tlsf_calls.specs.declared.reply.Reply.{Reply};
ghost use Rattle.tlsf_calls.specs.declared.reply.Reply.TheVariants.{Drained, Refused};
ghost use Rattle.tlsf_calls.specs.declared.target.Target.{Target};
ghost use Rattle.tlsf_calls.specs.declared.took.Took.{Took};
ghost use Rattle.tlsf_crew.specs.declared.worker.worker.Worker.{Worker};
ghost use Rattle.tlsf_crew.specs.declared.scripts.journal.Journal.{Journal};
ghost use Rattle.tlsf_crew.specs.worker.Notes.{AllNoted};
ghost use Rattle.tlsf_crew.specs.scripts.Journals.{IsAdmitted, EntersTake};
ghost use Rattle.tlsf_crew.specs.worker.Calls.{ReleasedThere};
ghost use Rattle.tlsf_crew.specs.scripts.Scripts.{reply_took, AreMoves, QuietCall, Stage, Step, TakenWithin, ScriptPromise, at_stage, stage_of, reply_released};
ghost use Rattle.tlsf_crew.specs.worker.Workers.{id_of};
ghost use Rattle.tlsf_crew.specs.model.World.{name_of};

use crate::worker::ports::Exchange;

/// Ports over which the calls of a script are made.
pub(crate) trait Scripted<R>: Exchange<R> {
    // The promise of a script's calls on such workers, and of the worlds that they leave.
    ghost promise: { (sli : ℕ) → ScriptPromise sli Self };

    // A call of a worker, one of this many, was answered in this way. The entries got longer by those of a drain's takes, and have
    // not its own yet.
    ghost steps: { (sli : ℕ) → ℕ → Stage sli Self → Call → List (Option Name) → Stage sli Self → Reply → Type 0 };

    /// How many posts of each source the calls of a script may take. They are all that may wait at its start, and one for each
    /// release of a script that may post one.
    fn limits(&self, releases: &[u32; 8]) -> [u64; 8]
        ensures limited { (sli : ℕ) → (promise sli).limited self.now releases.now result }
        ensures few { (i : ℕ) → i < 8 → slice_index result i ≤ 2 ^ 36 };

    /// Says that moves join, that a step tells its call and is a move, and what are steps. It does nothing.
    fn laws()
        ensures joins { (sli : ℕ) → AreMoves (promise sli) }
        ensures tells { (sli n : ℕ) (s t : Stage sli Self) (call : Call) (made : List (Option Name)) (reply : Reply) → steps sli n s call made t reply → Step (promise sli) n s call made t reply }

        // A call that posts and takes nothing, and is answered as the model answers it.
        ensures quiet { (sli n : ℕ) (a v : Worker sli Self) (limits : List ℕ) (call : Call) (made : List (Option Name)) (entries : List Entry) (reply : Reply) → (promise sli).knows n a → Self.keeps_yards sli a v
            → QuietCall n a v call made entries reply → steps sli n (at_stage a limits entries) call made (at_stage v limits entries) reply }

        // The answer to a post. There is a port to each other worker, and to none else.
        ensures posted { (sli n : ℕ) (a v : Worker sli Self) (limits : List ℕ) (target : Target) (name : Name) (made : List (Option Name)) (entries : List Entry) (answer : Result Released CrewRefusal) → (promise sli).knows n a
            → name_of made target ≡ Some name → name.heap ≢ id_of a → Self.reaches a.ports name.heap → ReleasedThere Self.puts a v name answer
            → steps sli n (at_stage a limits entries) (Release target) made (at_stage v limits entries) (reply_released answer) }
        ensures reached { (sli n : ℕ) (a : Worker sli Self) (j : ℕ) → (promise sli).knows n a → Self.reaches a.ports j ⊎ ((j ≢ id_of a → n ≤ j) × ¬ (Self.reaches a.ports j)) }

        // The answer to a take: it is refused where no source is that worker's.
        ensures stranger { (sli n : ℕ) (a : Worker sli Self) (limits : List ℕ) (from : ℕ) (made : List (Option Name)) (entries : List Entry) → (promise sli).knows n a → ((Self.sent_by from ≡ None) → ¬ (Self.hears a.ports from))
            → steps sli n (at_stage a limits entries) (Take from) made (at_stage a limits entries) (Refused Stranger) }
        ensures taken { (sli n : ℕ) (a v : Worker sli Self) (limits left : List ℕ) (from : ℕ) (made : List (Option Name)) (entries : List Entry) (answer : Option Took) → (promise sli).knows n a → Self.sent_by from ≡ None → Self.hears a.ports from
            → TakenWithin Self.takes a limits from v left answer → steps sli n (at_stage a limits entries) (Take from) made (at_stage v left entries) (reply_took answer) }

        // The answer to a drain.
        ensures drained { (sli n : ℕ) (a v : Worker sli Self) (x y : Journal) (most : ℕ) (made : List (Option Name)) (answer : WasDrained) → (promise sli).knows n a
            → AllNoted (record { hears = Self.hears; takes = Self.takes; stops = Self.stops; sent_by = Self.sent_by; admitted = IsAdmitted; noted = EntersTake }) a v x y (Self.sources a.ports) most answer
            → steps sli n (stage_of a x) (Drain most) made (stage_of v y) (Drained answer.taken) };
}
