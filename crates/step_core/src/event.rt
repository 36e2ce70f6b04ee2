/// A step of one pass on a board.
///
/// Its numbers are the pass, the layer, and the state or the block. `Split` names the pass that is
/// split, and `Meet` the pass that is kept and the pass that ends. The last three name the pass.
#[derive(Clone, Copy, Debug, PartialEq, Eq)]
pub enum Event {
    /// The pass notes the lower word.
    LoadLower(u32, u32, u32),
    /// The pass notes the upper word.
    LoadUpper(u32, u32, u32),
    /// The lower word becomes at least the row value of the pass's notes of the layer before, and
    /// the pass notes it.
    Raise(u32, u32, u32),
    /// The upper word becomes at most the row value of the pass's notes of the layer before, and
    /// the pass notes it.
    Cut(u32, u32, u32),
    /// The pass notes the seal.
    SeeSeal(u32, u32, u32),
    /// Where the pass's notes of the block equal the tables, the seal is set, and the pass notes it.
    Seal(u32, u32, u32),
    /// A pass with a copy of the notes is added. It has no tickets, and gets some draws of the pass.
    Split(u32),
    /// The first pass notes the better of both notes of each word and gets the tickets and the draws
    /// of the second, which ends.
    Meet(u32, u32),
    /// The pass gets the next ticket, for one of its draws.
    Draw(u32),
    /// The stop word is set, and the pass notes it.
    Stop(u32),
    /// The pass notes the stop word.
    SeeStop(u32),
}
