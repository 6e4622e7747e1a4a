use crate::jobs::gate::Gate;

/// A job that a thread of its own does, with a runtime of this type.
///
/// The code that starts and joins the threads knows of its jobs no more than this, so that another kind of job can use it. Code
/// that starts threads has type parameters alone, since a function with a const parameter gets no proof of a call of
/// `thread::scope`.
pub(crate) trait Work<R> {
    // When the job may start.
    ghost is_ready: { Self → Type 0 };

    // The facts of the job as it was given, and as it is handed back.
    ghost is_done: { Self → Self → Type 0 };

    /// Does the job in this thread, and hands it back. The jobs that are done at once pass the same gate.
    fn run<G: Gate>(self, rt: &R, gate: &G) -> Self
        requires { is_ready self }
        ensures { is_done self result };
}
