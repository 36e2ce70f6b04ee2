// A gate that holds a worker.

use outside::Gate;
use std::sync::atomic::{AtomicU64, Ordering};

// It gives up after so many looks.
const LOOKS: u32 = 1 << 31;

/// Holds the second worker at its first pause until the first one has paused before a layer.
#[derive(Drop)]
pub(crate) struct HoldsSecond {
    layer: u32,
    passed: AtomicU64,
}

impl HoldsSecond {
    pub(crate) fn until(layer: u32) -> HoldsSecond {
        HoldsSecond {
            layer,
            passed: AtomicU64::new(0),
        }
    }
}

impl Gate for HoldsSecond {
    fn pause(&self, worker: u32, layer: u32) {
        if worker == 0 && layer == self.layer {
            self.passed.fetch_add(1, Ordering::SeqCst);
        }
        if worker == 1 && layer == 1 {
            for _ in 0..LOOKS {
                if self.passed.load(Ordering::SeqCst) > 0 {
                    return;
                }
            }
        }
    }
}
