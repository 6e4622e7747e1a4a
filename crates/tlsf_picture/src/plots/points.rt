//! The points of a heap over the lines of its trace.
ghost use Rattle.std.specs.Prelude.{◌≡◌, ◌+◌, ◌<◌, ◌≤◌, length, vec_len, IfOk, OnOk};
ghost use Rattle.tlsf_crew.specs.lanes.Yard.{world_of, IsYard};
ghost use Rattle.tlsf_crew.specs.model.World.{heap_in};
ghost use Rattle.tlsf_heap.specs.Reports.{report_of};
ghost use Rattle.tlsf_lines.specs.ScriptSoFar.{IsScript};
ghost use Rattle.tlsf_lines.specs.Trace.{Trace};
ghost use Rattle.tlsf_picture.specs.plots.Points as told;
ghost use Rattle.tlsf_trace.specs.Players.{Stands};
ghost use Rattle.tlsf_picture.specs.Steps.{HasHeap, ShowsSame};

use crate::plots::point::Point;
use std::alloc::{AllocError, Global};
use tlsf_crew::{Entry, Reply, Worker};
use tlsf_heap::{Report, want};
use tlsf_lines::{Request, Script};
use tlsf_trace::Player;

// Whether a call was refused.
fn is_refused(reply: Reply) -> bool
    ensures { result ≡ told.is_refused reply }
{
    match reply {
        Reply::Took(took) => !took.answer.is_ok(),
        Reply::Refused(_) => true,
        _ => false,
    }
}

// Whether it is a call of this worker, and was refused.
fn is_refused_of(worker: u32, entry: &Entry) -> bool
    ensures { result ≡ told.is_refused_of worker entry.now }
{
    entry.worker == worker && is_refused(entry.reply)
}

// Whether these entries tell that a call of this worker was refused.
fn has_refusal(worker: u32, entries: &[Entry]) -> bool
    ensures { result ≡ told.has_refusal worker entries.now }
{
    let refused = entries
        .iter()
        .filter(|entry| is_refused_of(worker, entry))
        .count();
    0 < refused
}

// The bytes of a request, None where it isn't this worker's.
fn request_of(worker: u32, request: Option<Request>) -> Option<u32>
    ensures { result ≡ told.request_of worker request }
{
    match request {
        Some(request) if request.worker == worker => Some(request.len),
        _ => None,
    }
}

// The words that these want, 0 for none.
fn words_asked(request: Option<u32>) -> u32
    ensures { result ≡ told.words_asked request }
{
    match request {
        None => 0,
        Some(len) => want(len),
    }
}

// The bytes themselves, 0 for none.
fn bytes_asked(request: Option<u32>) -> u32
    ensures { result ≡ told.bytes_asked request }
{
    match request {
        None => 0,
        Some(len) => len,
    }
}

// The words that this worker asks for by the line of a number, where the header's is 0.
fn asked_by(worker: u32, requests: &[Option<Request>], number: usize) -> u32
    ensures { result ≡ told.asked_in worker requests.now number }
{
    if number == 0 {
        return 0;
    }
    let request = requests.get(number - 1).copied().flatten();
    words_asked(request_of(worker, request))
}

// The bytes of the longest of these requests that is of this worker.
fn longest_among(worker: u32, requests: &[Option<Request>]) -> u32
    ensures { result ≡ told.longest_among worker requests.now }
{
    let mut longest = 0;
    for request in requests {
        longest = longest.max(bytes_asked(request_of(worker, *request)));
    }
    longest
}

/// The bytes of the longest request of this worker in a trace.
pub fn longest_of(worker: u32, script: &Script) -> u32
    ensures { (trace : Trace) → IsScript script.now trace → result ≡ told.longest_of worker trace.lines }
{
    longest_among(worker, &script.requests)
}

// The report on a heap of a yard, which stays as it is.
fn report_on<const SLI: u32>(workers: &mut [Worker<SLI>], heap: u32) -> Report
    requires yard { IsYard workers.old }
    requires heap { heap < length workers.old }
    ensures shows { ShowsSame workers.old workers.new }
    ensures report { result ≡ report_of SLI (heap_in (world_of workers.old) heap) }
{
    workers[heap as usize].report()
}

// Runs a player on to the line of a number, where the header's is 0. Answers the point of a heap after it.
fn next_point<const SLI: u32>(
    alloc: Global,
    player: &mut Player<SLI>,
    script: &Script,
    heap: u32,
    number: usize,
) -> Result<Point, AllocError>
    requires yard { IsYard player.old.workers.items }
    requires heap { heap < vec_len player.old.workers }
    requires number { number ≤ 32769 }
    ensures yard { IsYard player.new.workers.items }
    ensures count { vec_len player.new.workers ≡ vec_len player.old.workers }
    ensures stands { (trace : Trace) → IsScript script.now trace → Stands number trace player.old → OnOk result (Stands (number + 1) trace player.new) }
    ensures point { (trace : Trace) → IsScript script.now trace → Stands number trace player.old → IfOk result (λ point. point ≡ told.point_at SLI trace heap (number + 1)) }
{
    let entries = player.step_to(alloc, script, number as u32 + 1)?;
    let asked = asked_by(heap, &script.requests, number);
    let refused = has_refusal(heap, &entries);
    Ok(Point::of(report_on(&mut player.workers, heap), asked, refused))
}

/// The points of a heap of a trace, at its level: after each line of the text, and after the drains at its end.
pub fn points_of<const SLI: u32>(
    alloc: Global,
    script: &Script,
    heap: u32,
) -> Result<Vec<Point>, AllocError>
    requires { HasHeap SLI script.now heap }
    ensures points { (trace : Trace) → IsScript script.now trace → IfOk result (λ points. points.items ≡ told.points_of SLI trace heap) }
    ensures count { IfOk result (λ points. vec_len points ≡ vec_len script.now.ends + 2) }
{
    let mut player = Player::<SLI>::open(alloc, script)?;
    let count = script.ends.len() + 2;
    let mut points = Vec::with_capacity(alloc, count)?;
    for number in 0..count {
        points.push(next_point(alloc, &mut player, script, heap, number)?)?;
    }
    Ok(points)
}
