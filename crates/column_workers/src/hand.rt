use bound_grid::Pass;

/// A worker: its number, and the pass that it steps with.
#[derive(Drop)]
pub(crate) struct Hand {
    pub number: u32,
    pub pass: Pass,
}
