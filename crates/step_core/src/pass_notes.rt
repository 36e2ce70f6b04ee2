use std::marker::Model;

// What a pass of the pure machine knows and has: whether it is live, its note of each word, the
// tickets that it drew, and how often it may draw. Contracts see the lists.
#[derive(Debug, Drop)]
pub struct PassNotes {
    pub live: bool,
    pub notes: Vec<u64>,
    pub tickets: Vec<u64>,
    pub draws: u64,
}

impl Model for PassNotes {
    ghost use Rattle.step_core.specs.CoreLists.{PassLists};

    ghost Value = { PassLists };

    ghost view = { λ p. record { live = p.live; notes = p.notes.items; tickets = p.tickets.items; draws = p.draws } };
}
