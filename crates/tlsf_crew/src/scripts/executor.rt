//! The executor: one call of a script on one worker, with its entries and the name that it made.
ghost use Rattle.std.specs.Prelude.{◌≡◌, ℕ, ◌+◌, ◌<◌, [], ◌∷◌, ◌++◌, List, Option, None, true, false, vec_len, vec_capacity};
ghost use Rattle.tlsf_heap.specs.declared.name.Name.{Name};
ghost use Rattle.tlsf_calls.specs.declared.call.Call.TheVariants.{Release, Take};
ghost use Rattle.tlsf_calls.specs.declared.entry.Entry.{Entry};
ghost use Rattle.tlsf_calls.specs.declared.target.Target.{Target};
ghost use Rattle.tlsf_crew.specs.model.World.{made_by, name_of};
ghost use Rattle.tlsf_crew.specs.model.Targets.{target_name};
ghost use Rattle.tlsf_crew.specs.model.Sums.{sum_of};
ghost use Rattle.tlsf_crew.specs.scripts.Journals.{HasTakePlaces};
ghost use Rattle.tlsf_crew.specs.scripts.Scripts.{CallMade, at_stage, stage_of, reply_released};

use crate::scripts::journal::Journal;
use crate::scripts::own_replies::{
    reply_to_own_allocate, reply_to_own_read, reply_to_own_resize, reply_to_own_write, target_name,
};
use crate::scripts::scripted::Scripted;
use crate::worker::notes::Notes;
use crate::worker::ports::Ports;
use crate::worker::worker::{Worker, drain_each, release, take_next};
use tlsf_calls::{Call, CrewRefusal, Entry, Event, Released, Reply};
use tlsf_heap::Name;

/// The name that a reply made.
fn made_name(reply: Reply) -> Option<Name>
    ensures { result ≡ made_by reply }
{
    match reply {
        Reply::Made(name) => Some(name),
        _ => None,
    }
}

/// One answer more.
pub(crate) fn answer(
    event: &Event,
    reply: Reply,
    made: &mut Vec<Option<Name>>,
    entries: &mut Vec<Entry>,
)
    requires made { vec_len made.old < vec_capacity made.old }
    requires room { vec_len entries.old < vec_capacity entries.old }
    ensures made { made.new.items ≡ made.old.items ++ made_by reply ∷ [] }
    ensures entries { entries.new.items ≡ entries.old.items ++ record { worker = event.now.worker; call = event.now.call; reply = reply } ∷ [] }
    ensures capacity { (vec_capacity made.new ≡ vec_capacity made.old) × (vec_capacity entries.new ≡ vec_capacity entries.old) }
{
    made.push_reserved(made_name(reply));
    entries.push_reserved(Entry {
        worker: event.worker,
        call: event.call,
        reply,
    });
}

/// The reply to a release that was answered so.
fn as_reply(answer: Result<Released, CrewRefusal>) -> Reply
    ensures { result ≡ reply_released answer }
{
    match answer {
        Ok(Released::Freed) => Reply::Freed,
        Ok(Released::Posted) => Reply::Posted,
        Err(why) => Reply::Refused(why),
    }
}

/// Releases what the target meant: a block of the own heap, or by a post another's.
fn reply_to_release<const SLI: u32, R, P: Scripted<R>>(
    worker: &mut Worker<SLI, P>,
    rt: &R,
    name: Option<Name>,
) -> Reply
    ensures { (n : ℕ) (limits : List ℕ) (target : Target) (made : List (Option Name)) (entries : List Entry) → name_of made target ≡ name → (P.promise SLI).knows n worker.old
        → P.steps SLI n (at_stage worker.old limits entries) (Release target) made (at_stage worker.new limits entries) result }
{
    P::heap_keeps();
    P::laws();
    let Some(name) = name else {
        return Reply::Refused(CrewRefusal::Unmade);
    };
    as_reply(release(worker, rt, name))
}

/// Whether a source is that worker's alone, and goes by its number.
fn is_source_of<P: Ports>(ports: &P, from: u32) -> bool
    ensures yes { result ≡ true → (P.sent_by from ≡ None) × P.hears ports.now from }
    ensures no { result ≡ false → P.sent_by from ≡ None → ¬ (P.hears ports.now from) }
{
    match P::sender(from) {
        Some(_) => false,
        None => ports.has_source(from as usize),
    }
}

/// Takes the next post from a worker, and counts its limit down. At a limit of 0 its source isn't asked. It is `Stranger`
/// where no source is that worker's alone.
fn reply_to_take<const SLI: u32, R, P: Scripted<R>>(
    worker: &mut Worker<SLI, P>,
    rt: &R,
    journal: &mut Journal,
    from: u32,
) -> Reply
    ensures stepped { (n : ℕ) (made : List (Option Name)) → (P.promise SLI).knows n worker.old
        → P.steps SLI n (stage_of worker.old journal.old) (Take from) made (at_stage worker.new journal.new.limits journal.old.entries.items) result }
    ensures entries { journal.new.entries ≡ journal.old.entries }
{
    P::laws();
    let source = from as usize;
    if !is_source_of(&worker.ports, from) {
        return Reply::Refused(CrewRefusal::Stranger);
    }
    if journal.admits(source, 1) == 0 {
        return Reply::Empty;
    }
    let Some(took) = take_next(worker, rt, source) else {
        return Reply::Empty;
    };
    journal.limits[source] -= 1;
    Reply::Took(took)
}

/// Makes one call, whose target means this name, and answers the reply. A drain's takes get their entries here, the call
/// gets its own later.
#[inline(always)]
pub(crate) fn reply_to<const SLI: u32, R, P: Scripted<R>>(
    worker: &mut Worker<SLI, P>,
    rt: &R,
    journal: &mut Journal,
    call: &Call,
    name: Option<Name>,
) -> Reply
    requires room { HasTakePlaces journal.old }
    ensures stepped { (n : ℕ) (made : List (Option Name)) → target_name made call.now ≡ name → (P.promise SLI).knows n worker.old
        → P.steps SLI n (stage_of worker.old journal.old) call.now made (stage_of worker.new journal.new) result }
    ensures capacity { vec_capacity journal.new.entries ≡ vec_capacity journal.old.entries }
{
    P::heap_keeps();
    P::laws();
    match call {
        Call::Allocate { len } => reply_to_own_allocate(worker, *len),
        Call::Release { .. } => reply_to_release(worker, rt, name),
        Call::Write { at, bytes, .. } => reply_to_own_write(worker, name, *at, bytes),
        Call::Read { at, n, .. } => reply_to_own_read(worker, name, *at, *n),
        Call::Resize { len, .. } => reply_to_own_resize(worker, name, *len),
        Call::Take { from } => reply_to_take(worker, rt, journal, *from),
        Call::Drain { most } => Reply::Drained(drain_each(worker, rt, *most, journal).taken),
    }
}

/// Makes one call of a worker of some yard, with its entries and the name that it made.
pub(crate) fn run_call<const SLI: u32, R, P: Scripted<R>>(
    worker: &mut Worker<SLI, P>,
    rt: &R,
    journal: &mut Journal,
    call: Call,
    made: &mut Vec<Option<Name>>,
)
    requires knows { (n : ℕ) × (P.promise SLI).knows n worker.old }
    requires names { vec_len made.old < vec_capacity made.old }
    requires room { vec_len journal.old.entries + sum_of journal.old.limits < vec_capacity journal.old.entries }
    ensures called { (n : ℕ) → (P.promise SLI).knows n worker.old
        → CallMade (P.promise SLI) n (stage_of worker.old journal.old) call made.old.items (stage_of worker.new journal.new) made.new.items }
    ensures capacity { (vec_capacity made.new ≡ vec_capacity made.old) × (vec_capacity journal.new.entries ≡ vec_capacity journal.old.entries) }
{
    P::laws();
    let name = target_name(&call, made);
    let reply = reply_to(worker, rt, journal, &call, name);
    let event = Event {
        worker: worker.id,
        call,
    };
    answer(&event, reply, made, &mut journal.entries);
}
