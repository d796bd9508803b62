use crate::AppId;

/// What workers pass before they run a step of an application. It promises nothing and tells nothing: a test can hold
/// steps back by it.
pub trait Gate: Sync {
    /// Is called before each run of a step, which is counted from 0.
    fn before_run(&self, app: AppId, step: u64);
}

/// The gate that does nothing.
#[derive(Clone, Copy, Debug)]
pub struct FreeGate;

impl Gate for FreeGate {
    fn before_run(&self, _app: AppId, _step: u64) {}
}
