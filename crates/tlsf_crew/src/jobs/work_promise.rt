use crate::jobs::work::Work;
use std::marker::PhantomData;
use std::snapshot::Snapshot;
use std::thread::Promise;

/// The promise of a thread on all that it hands back. It has no bytes.
#[derive(Drop)]
pub(crate) struct WorkPromise<R, W> {
    pub(crate) work: Snapshot<W>,
    pub(crate) with: PhantomData<R>,
}

impl<R, W: Work<R>> Promise<W> for WorkPromise<R, W> {
    ghost kept_by = { λ p d. W.is_done p.work.value d };
}
