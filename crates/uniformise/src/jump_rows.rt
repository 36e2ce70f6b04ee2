// A state's row of jumps, with a divisor of its own.
ghost use Rattle.std.specs.Prelude.{◌≡◌, ℕ, ◌*◌, ◌<◌, ◌≤◌, ◌^◌, ◌++◌, IfOk, OnOk};
ghost use Rattle.ctmc_semantics.specs.Chain.{exit_rate};
ghost use Rattle.model_core.specs.Model.{model_chain};
ghost use Rattle.step_core.specs.FrameRows.{number_to};
ghost use Rattle.step_core.specs.SoundFrame.{IsSoundRow};
ghost use Rattle.uniformise.specs.JumpRow.{jump_number, times};
ghost use Rattle.uniformise.specs.UniformisedRow.{share_entry, transition_entries};

use model_core::{Model, Rate};
use round_out::Entry;
use std::alloc::{AllocError, Global};
use step_core::Row;

/// The row of the state over `total`: each of its rates, `factor` times, and for the loop what they
/// lack of the total. States are counted from 0, and the entries are in ascending order of theirs.
pub fn jump_row(
    alloc: Global,
    model: &Model,
    s: u32,
    factor: u64,
    total: u64,
) -> Result<Row, AllocError>
    requires state { s < model.now.n }
    requires some { 1 ≤ factor }
    requires within { exit_rate (model_chain model.now) s * factor ≤ total }
    requires positive { 1 ≤ total }
    requires fits { total < 2 ^ 63 }
    ensures sound { IfOk result (λ row. IsSoundRow model.now.n row) }
    ensures divisor { IfOk result (λ row. row.den ≡ total) }
    ensures numbers { IfOk result (λ row. (t : ℕ) → t < model.now.n
        → number_to row.entries t ≡ jump_number (model_chain model.now) factor total s t) }
{
    let row = model.row(s);
    let mut entries = Vec::with_capacity(alloc, row.len() + 1)?;
    let mut share = total - model.exit(s) * factor;
    for transition in row {
        push_transition(&mut entries, s, share, &times(transition, factor))?;
        share = if transition.to < s { share } else { 0 };
    }
    push_share(&mut entries, s, share)?;
    Ok(Row {
        den: total,
        entries,
    })
}

// The transition at so many times its rate.
fn times(transition: &Rate, factor: u64) -> Rate
    requires { transition.now.rate * factor < 2 ^ 63 }
    ensures { result ≡ times factor transition.now }
{
    Rate {
        rate: transition.rate * factor,
        ..*transition
    }
}

// The entry of a transition, with the share where it is the loop; past the loop, the share's own entry comes first.
fn push_transition(
    entries: &mut Vec<Entry>,
    s: u32,
    share: u64,
    transition: &Rate,
) -> Result<(), AllocError>
    requires share { share < 2 ^ 63 }
    requires rate { transition.now.rate < 2 ^ 63 }
    ensures { OnOk result (entries.new.items ≡ entries.old.items ++ transition_entries s share transition.now) }
{
    if s < transition.to {
        push_share(entries, s, share)?;
    }
    let more = if s == transition.to { share } else { 0 };
    entries.push(Entry {
        to: transition.to,
        num: transition.rate + more,
    })?;
    Ok(())
}

// The entry of the share, none where it is 0.
fn push_share(entries: &mut Vec<Entry>, s: u32, share: u64) -> Result<(), AllocError>
    ensures { OnOk result (entries.new.items ≡ entries.old.items ++ share_entry s share) }
{
    if 0 < share {
        entries.push(Entry { to: s, num: share })?;
    }
    Ok(())
}
