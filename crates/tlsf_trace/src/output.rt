ghost use Rattle.std.specs.Prelude.{◌≡◌, ◌+◌, ◌++◌, ◌≤◌, length, vec_len, IfOk, OnOk, string_bytes};
ghost use Rattle.tlsf_class.specs.Classes.{IsLevel};
ghost use Rattle.tlsf_crew.specs.lanes.Yard.{IsYard};
ghost use Rattle.tlsf_lines.specs.Events.{labels_of};
ghost use Rattle.tlsf_lines.specs.Ranges.{IsHeaderInRange};
ghost use Rattle.tlsf_lines.specs.ReplyLines.{reply_text};
ghost use Rattle.tlsf_lines.specs.ScriptSoFar.{IsScript};
ghost use Rattle.tlsf_lines.specs.Trace.{Trace};
ghost use Rattle.tlsf_trace.specs.Output.{level_in, output_of, run_at};
ghost use Rattle.tlsf_trace.specs.Players.{Stands};

use crate::player::Player;
use crate::playing::{Plays, Puts};
use crate::report_lines::write_reports;
use std::alloc::{AllocError, Global};
use tlsf_lines::{Script, write_replies};

/// How many lines are run before their reply lines are written. An event has 120 bytes and an entry 200, so few are held at a time.
const PART: usize = 1024;

/// How many bytes of text are made ready for each event: most reply lines have fewer.
const REPLY_BYTES: usize = 32;

// Runs the lines of a script from a new yard on, part by part, and adds the lines of what they are answered.
fn write_run<const SLI: u32>(
    alloc: Global,
    text: &mut String,
    player: &mut Player<SLI>,
    script: &Script,
) -> Result<(), AllocError>
    requires yard { IsYard player.old.workers.items }
    requires lines { vec_len script.now.ends ≤ 32768 }
    ensures yard { IsYard player.new.workers.items }
    ensures text { (trace : Trace) → IsScript script.now trace → Stands 0 trace player.old
        → OnOk result (string_bytes text.new ≡ string_bytes text.old ++ reply_text (run_at SLI trace).entries (labels_of trace)) }
    ensures stands { (trace : Trace) → IsScript script.now trace → Stands 0 trace player.old
        → OnOk result (Stands (length trace.lines + 2) trace player.new) }
{
    let end = script.ends.len() + 2;
    let mut labels: &[Option<u32>] = &script.labels;
    let mut line = 0;
    while line < end {
        line += (end - line).min(PART);
        let entries = player.step_to(alloc, script, line as u32)?;
        labels = write_replies(text, &entries, labels)?;
    }
    Ok(())
}

/// The reply lines of a script, and a report line for each heap that it leaves.
#[derive(Drop)]
pub(crate) struct Replay;

impl Puts for Replay {
    ghost use Rattle.tlsf_trace.specs.Replay.{Replays};

    ghost puts = { λ replay. Replays };
}

impl<const SLI: u32> Plays<SLI> for Replay {
    fn output(&self, alloc: Global, script: &Script) -> Result<String, AllocError>
        requires level { IsLevel SLI }
        requires header { IsHeaderInRange script.now.header }
        requires lines { vec_len script.now.ends ≤ 32768 }
        ensures { (trace : Trace) → level_in trace.header ≡ SLI → IsScript script.now trace
            → IfOk result (λ text. string_bytes text ≡ output_of trace) }
    {
        let mut text = String::with_capacity(
            alloc,
            script.events.len().saturating_mul(REPLY_BYTES),
        )?;
        let mut player = Player::<SLI>::open(alloc, script)?;
        write_run(alloc, &mut text, &mut player, script)?;
        write_reports(&mut text, &mut player.workers)?;
        Ok(text)
    }
}
