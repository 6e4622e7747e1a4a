use std::rt::Clock;
use std::sync::atomic::{AtomicU64, Ordering};
use tlsf_crew::Gate;

// The milliseconds from the first pass to the first line, and from one line to the next.
const EVERY: u64 = 10_000;

/// A gate that says on standard error, by `rt`, that a run is alive: a line about every ten seconds, as
/// `tlsf: still racing, after 10 seconds`. They are counted from the first pass, so a run that ends sooner writes none.
///
/// Only who waits at a terminal is told. Elsewhere it stands open and writes nothing: standard error is for faults there.
/// Nothing waits for it: where the clock can't be read, or the line can't be written, there is none.
///
/// ```
/// let notice = Notice::new(&rt, "racing", rt.stderr().is_terminal());
/// let summary = race_trace(&rt, alloc, &mut reader, &mut writer, &notice)?;
/// ```
#[derive(Drop)]
pub struct Notice<'a, R> {
    rt: &'a R,
    // The word for the run.
    doing: &'static str,
    // The time of the first pass, in milliseconds of the clock.
    first: AtomicU64,
    // The time from which on a line is due; 0 before the first pass, and never where none is told.
    due: AtomicU64,
}

impl<'a, R> Notice<'a, R> {
    /// A gate that no thread has passed, of a run that this word is for, as `racing` or `searching`. Where nobody is told, it writes
    /// nothing.
    pub fn new(rt: &'a R, doing: &'static str, is_told: bool) -> Notice<'a, R> {
        let due = if is_told { 0 } else { u64::MAX };
        Notice {
            rt,
            doing,
            first: AtomicU64::new(0),
            due: AtomicU64::new(due),
        }
    }
}

impl<R: Clock + Eprint + Sync> Gate for Notice<'_, R> {
    fn pass(&self, _worker: u32, _index: u32) {
        let Ok(time) = self.rt.monotonic() else {
            return;
        };
        let whole = time.as_secs().saturating_mul(1_000);
        let now = whole.saturating_add(u64::from(time.subsec_millis()));
        let due = self.due.load(Ordering::SeqCst);
        if now < due {
            return;
        }
        if due == 0 {
            self.first.store(now, Ordering::SeqCst);
        }
        // Of the threads that see the same line due, one writes it.
        let next = now.saturating_add(EVERY);
        let claimed = self
            .due
            .compare_exchange(due, next, Ordering::SeqCst, Ordering::SeqCst);
        if due > 0 && claimed.is_ok() {
            let seconds = now.saturating_sub(self.first.load(Ordering::SeqCst)) / 1_000;
            let doing = self.doing;
            let _ = eprintln!(self.rt; "tlsf: still {doing}, after {seconds} seconds");
        }
    }
}
