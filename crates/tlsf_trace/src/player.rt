//! A trace on a yard, run line by line: the one that runs traces, whatever is made of them.
ghost use Rattle.std.specs.Prelude.{◌≡◌, ℕ, vec_len, max, IfOk, OnErr};
ghost use Rattle.tlsf_class.specs.Classes.{IsLevel};
ghost use Rattle.tlsf_crew.specs.lanes.Yard.{IsYard};
ghost use Rattle.tlsf_lines.specs.Ranges.{IsHeaderInRange};
ghost use Rattle.tlsf_lines.specs.ScriptSoFar.{IsScript};
ghost use Rattle.tlsf_lines.specs.Trace.{Trace};
ghost use Rattle.tlsf_trace.specs.Players.{PlaysOn, Stands};

use std::alloc::{AllocError, Global};
use tlsf_crew::{Entry, Event, Worker, open_yard, replay_behind};
use tlsf_heap::Name;
use tlsf_lines::Script;

/// A trace on a yard of workers that have run it up to one of its lines.
///
/// ```
/// // script is that of "tlsf 1 1 64 1\na 0 7 8\nf 0 7\n"
/// let mut player = Player::<4>::open(alloc, &script)?;
/// let entries = player.step_to(alloc, &script, 2)?;
/// // entries has the allocate, and player.workers is one worker with a live block
/// ```
#[derive(Drop)]
pub struct Player<const SLI: u32> {
    /// The workers, 1 to 8, in rising number, with their heaps as they stand, and the posts that wait.
    pub workers: Vec<Worker<SLI>>,
    /// The name that each event made so far, None where it made none. A line is one event. A phase and the end of the trace are one
    /// event for each worker.
    pub made: Vec<Option<Name>>,
    // How many events have run.
    ran: usize,
    // The events that ran last.
    part: Vec<Event>,
}

impl<const SLI: u32> Player<SLI> {
    /// Opens the yard that a script's header names, at the level of its version. No line has run.
    ///
    /// # Errors
    ///
    /// Where memory runs out.
    pub fn open(alloc: Global, script: &Script) -> Result<Player<SLI>, AllocError>
        requires level { IsLevel SLI }
        requires header { IsHeaderInRange script.now.header }
        ensures yard { IfOk result (λ player. IsYard player.workers.items) }
        ensures count { IfOk result (λ player. vec_len player.workers ≡ script.now.header.workers) }
        ensures stands { (trace : Trace) → IsScript script.now trace → IfOk result (Stands 0 trace) }
    {
        let header = script.header;
        // A header in its ranges is not of a bad size, so what is refused here is memory.
        let Ok(workers) = open_yard::<SLI>(alloc, header.workers, header.words, header.capacity)
        else {
            return Err(AllocError);
        };
        Ok(Player {
            workers,
            made: Vec::new(alloc),
            ran: 0,
            part: Vec::new(alloc),
        })
    }

    /// Runs on to a line of the script, whose header is line 1, and after the last line to the end, with the drains there. Answers
    /// what its events were answered. A player never runs back: a line that it has run already is answered no entries, and the
    /// player stands where it stood.
    ///
    /// ```
    /// let first = player.step_to(alloc, &script, 2)?;
    /// let none = player.step_to(alloc, &script, 1)?;
    /// let next = player.step_to(alloc, &script, 3)?;
    /// // none is empty, and next has the entry of line 3 alone
    /// ```
    ///
    /// # Errors
    ///
    /// Where memory runs out. The player stands where it stood, and may be asked again.
    pub fn step_to(
        &mut self,
        alloc: Global,
        script: &Script,
        line: u32,
    ) -> Result<Vec<Entry>, AllocError>
        requires { IsYard self.old.workers.items }
        ensures yard { IsYard self.new.workers.items }
        ensures count { vec_len self.new.workers ≡ vec_len self.old.workers }
        ensures plays { (from : ℕ) (trace : Trace) → IsScript script.now trace → Stands from trace self.old
            → IfOk result (λ entries. PlaysOn from (max from line) trace self.new entries.items) }
        ensures stays { (from : ℕ) (trace : Trace) → Stands from trace self.old → OnErr result (Stands from trace self.new) }
    {
        let end = script.events_by(line).min(script.events.len());
        let first = self.ran.min(end);
        self.part.clear();
        script.events.add_part(first, end - first, &mut self.part)?;
        // Each target was made by an event before, and there are few events: what is refused here is memory.
        let Ok(entries) = replay_behind(alloc, &mut self.workers, &mut self.made, &self.part) else {
            return Err(AllocError);
        };
        self.ran = self.ran.max(end);
        Ok(entries)
    }
}
