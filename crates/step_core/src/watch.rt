/// A state to be watched while an until is computed, counted from 0, and how many brackets of it
/// are wanted.
#[derive(Clone, Copy, Debug, PartialEq, Eq)]
pub struct Watch {
    pub state: u32,
    pub count: u32,
}
