// A place where a worker waits until it may go on.

/// A place where a worker waits until it may go on, so that a test can choose the order of the workers' steps.
pub trait Gate: Sync {
    /// Returns once this worker may go on with this layer. Workers are counted from 0, and a reader beside them has the
    /// next number.
    fn pause(&self, worker: u32, layer: u32);
}

/// A gate that holds nobody.
#[derive(Clone, Copy, Debug, PartialEq, Eq)]
pub struct OpenGate;

impl Gate for OpenGate {
    fn pause(&self, _worker: u32, _layer: u32) {}
}
