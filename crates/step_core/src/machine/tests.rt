// The machine on the small plan of an unbounded until: a state that stays with the probability 1/2
// and jumps to the goal or to a trap with 1/4 each, and a state that jumps to it.

ghost use Rattle.std.specs.Prelude.{IfOk};
ghost use Rattle.step_core.specs.Good.{Good};
ghost use Rattle.step_core.specs.PlanTables.{AreTablesOf};
ghost use Rattle.step_core.specs.SoundPlan.{IsSoundPlan};

use crate::draws::{MOST_DRAWS, SPLIT_DRAWS};
use crate::event::Event;
use crate::machine::Core;
use crate::one_thread::plain_tables;
use crate::one_thread::tests::four_states;
use crate::plan::Plan;
use crate::tables::Tables;
use round_out::ONE;
use std::alloc::{AllocError, Global};
use std::test::Fail;

const QUARTER: u64 = ONE / 4;

// Passes, layers, states and blocks that aren't there, layer 0, a block that isn't done, and a pass
// that meets itself.
const IDLE: [Event; 19] = [
    Event::LoadLower(1, 1, 0),
    Event::LoadUpper(0, 5, 0),
    Event::LoadLower(0, 1, 4),
    Event::Raise(1, 1, 0),
    Event::Raise(0, 0, 0),
    Event::Raise(0, 1, 4),
    Event::Cut(0, 0, 0),
    Event::Cut(0, 5, 0),
    Event::SeeSeal(0, 1, 1),
    Event::SeeSeal(1, 1, 0),
    Event::Seal(0, 0, 0),
    Event::Seal(0, 1, 1),
    Event::Seal(0, 1, 0),
    Event::Split(1),
    Event::Meet(0, 0),
    Event::Meet(0, 1),
    Event::Draw(1),
    Event::Stop(1),
    Event::SeeStop(1),
];

// Events of a pass that has ended.
const ENDED: [Event; 9] = [
    Event::LoadLower(1, 1, 1),
    Event::Raise(1, 2, 3),
    Event::Cut(1, 2, 3),
    Event::Split(1),
    Event::Meet(0, 1),
    Event::Meet(1, 0),
    Event::Draw(1),
    Event::Stop(1),
    Event::SeeStop(1),
];

// What a machine knows of a state in a layer.
#[derive(Clone, Copy, Debug, PartialEq, Eq)]
struct Seen {
    words: (u64, u64),
    notes: (u64, u64),
    sealed: bool,
    seal_noted: bool,
    live: bool,
}

// Does an event, unless there is no number for one more pass.
fn step(plan: &Plan, tables: &Tables, core: &mut Core, event: Event) -> Result<(), AllocError>
    requires sound { IsSoundPlan plan.now }
    requires tables { AreTablesOf plan.now tables.now }
    requires good { Good plan.now core.old }
    ensures { Good plan.now core.new }
{
    if core.passes() < 4294967295 {
        core.apply(plan, tables, event)?;
    }
    Ok(())
}

// The machine after some events.
fn after(alloc: Global, plan: &Plan, tables: &Tables, events: &[Event]) -> Result<Core, AllocError>
    requires sound { IsSoundPlan plan.now }
    requires tables { AreTablesOf plan.now tables.now }
    ensures { IfOk result (Good plan.now) }
{
    let mut core = Core::open(alloc, plan)?;
    for event in events {
        step(plan, tables, &mut core, *event)?;
    }
    Ok(core)
}

// What a pass and the machine know of a state in a layer, if they are there.
fn look(plan: &Plan, core: &Core, pass: u32, k: u32, s: u32) -> Option<Seen>
    requires sound { IsSoundPlan plan.now }
    requires good { Good plan.now core.now }
{
    if pass < core.passes() && k <= plan.layers && (s as usize) < plan.frame.rows.len() {
        Some(Seen {
            words: (core.lower(k, s), core.upper(k, s)),
            notes: (core.note_lower(pass, k, s), core.note_upper(pass, k, s)),
            sealed: core.seal(k, 0),
            seal_noted: core.note_seal(pass, k, 0),
            live: core.live(pass),
        })
    } else {
        None
    }
}

// Whether an event changes anything.
fn changes(
    alloc: Global,
    plan: &Plan,
    tables: &Tables,
    core: &mut Core,
    event: Event,
) -> Result<bool, AllocError>
    requires sound { IsSoundPlan plan.now }
    requires tables { AreTablesOf plan.now tables.now }
    requires good { Good plan.now core.old }
    ensures { Good plan.now core.new }
{
    let before = format!(in alloc; "{core:?}")?;
    step(plan, tables, core, event)?;
    let after = format!(in alloc; "{core:?}")?;
    Ok(before != after)
}

// How many of some events change anything after others.
fn count_changes(
    alloc: Global,
    plan: &Plan,
    tables: &Tables,
    first: &[Event],
    events: &[Event],
) -> Result<usize, AllocError>
    requires sound { IsSoundPlan plan.now }
    requires tables { AreTablesOf plan.now tables.now }
{
    let mut core = after(alloc, plan, tables, first)?;
    let mut count = 0usize;
    for event in events {
        if changes(alloc, plan, tables, &mut core, *event)? {
            count = count.saturating_add(1);
        }
    }
    Ok(count)
}

// What pass and machine know of the first state in layer 1 after some events.
fn first_seen(alloc: Global, pass: u32, events: &[Event]) -> Result<Option<Seen>, AllocError> {
    let plan = four_states(alloc)?;
    let tables = plain_tables(alloc, &plan)?;
    let core = after(alloc, &plan, &tables, events)?;
    Ok(look(&plan, &core, pass, 1, 0))
}

// How many of some events change anything after others, on the plan.
fn changing(alloc: Global, first: &[Event], events: &[Event]) -> Result<usize, AllocError> {
    let plan = four_states(alloc)?;
    let tables = plain_tables(alloc, &plan)?;
    count_changes(alloc, &plan, &tables, first, events)
}

const FRESH: Seen = Seen {
    words: (0, ONE),
    notes: (0, ONE),
    sealed: false,
    seal_noted: false,
    live: true,
};

const TIGHT: Seen = Seen {
    words: (QUARTER, 3 * QUARTER),
    notes: (QUARTER, 3 * QUARTER),
    sealed: false,
    seal_noted: false,
    live: true,
};

const TIGHTENED: [Event; 9] = [
    Event::Split(0),
    Event::Raise(0, 1, 0),
    Event::Raise(0, 1, 1),
    Event::Cut(0, 1, 0),
    Event::Cut(0, 1, 1),
    Event::Cut(0, 1, 2),
    Event::Cut(0, 1, 3),
    Event::Seal(0, 1, 0),
    Event::SeeSeal(1, 1, 0),
];

#[test]
fn a_pass_raises_and_cuts(rt: HostRuntime) -> Result<(), Fail> {
    assert_eq!(rt; first_seen(rt.alloc(), 0, &[])?, Some(FRESH));
    let events = [
        Event::Raise(0, 1, 0),
        Event::Cut(0, 1, 0),
        Event::Seal(0, 1, 0),
    ];
    assert_eq!(rt; first_seen(rt.alloc(), 0, &events)?, Some(TIGHT));
    Ok(())
}

#[test]
fn a_pass_that_is_split_off_knows_the_same(rt: HostRuntime) -> Result<(), Fail> {
    let events = [Event::Raise(0, 1, 0), Event::Cut(0, 1, 0), Event::Split(0)];
    assert_eq!(rt; first_seen(rt.alloc(), 1, &events)?, Some(TIGHT));
    Ok(())
}

#[test]
fn a_block_that_is_done_is_sealed(rt: HostRuntime) -> Result<(), Fail> {
    let sealed = Seen {
        sealed: true,
        seal_noted: true,
        ..TIGHT
    };
    assert_eq!(rt; first_seen(rt.alloc(), 0, &TIGHTENED)?, Some(sealed));
    let seal_seen = Seen {
        notes: (0, ONE),
        ..sealed
    };
    assert_eq!(rt; first_seen(rt.alloc(), 1, &TIGHTENED)?, Some(seal_seen));
    Ok(())
}

#[test]
fn passes_that_meet_know_what_both_knew(rt: HostRuntime) -> Result<(), Fail> {
    let events = [
        Event::Split(0),
        Event::Raise(0, 1, 0),
        Event::Cut(1, 1, 0),
        Event::Meet(1, 0),
    ];
    assert_eq!(rt; first_seen(rt.alloc(), 1, &events)?, Some(TIGHT));
    let ended = Seen {
        notes: (QUARTER, ONE),
        live: false,
        ..TIGHT
    };
    assert_eq!(rt; first_seen(rt.alloc(), 0, &events)?, Some(ended));
    Ok(())
}

#[test]
fn some_events_change_nothing(rt: HostRuntime) -> Result<(), Fail> {
    assert_eq!(rt; changing(rt.alloc(), &[], &IDLE)?, 0);
    Ok(())
}

#[test]
fn a_pass_that_has_ended_does_nothing(rt: HostRuntime) -> Result<(), Fail> {
    let met = [Event::Split(0), Event::Meet(0, 1)];
    assert_eq!(rt; changing(rt.alloc(), &met, &ENDED)?, 0);
    assert_eq!(rt; changing(rt.alloc(), &met, &[Event::Raise(0, 1, 0)])?, 1);
    Ok(())
}

// The tickets of a pass, its draws, the next ticket, and whether the pass and the machine know of a
// stop.
#[derive(Debug, PartialEq, Eq, Drop)]
struct Tally {
    tickets: Vec<u64>,
    draws: u64,
    next: u64,
    stops: (bool, bool),
}

// What a pass has drawn after some events, if it is there.
fn drawn(alloc: Global, pass: u32, events: &[Event]) -> Result<Option<Tally>, AllocError> {
    let plan = four_states(alloc)?;
    let tables = plain_tables(alloc, &plan)?;
    let core = after(alloc, &plan, &tables, events)?;
    if pass < core.passes() {
        Ok(Some(Tally {
            tickets: Vec::from_slice(alloc, core.tickets(pass))?,
            draws: core.draws(pass),
            next: core.ticket(),
            stops: (core.note_stop(pass), core.stopped()),
        }))
    } else {
        Ok(None)
    }
}

const DRAWS: [Event; 6] = [
    Event::Draw(0),
    Event::Split(0),
    Event::Draw(1),
    Event::Draw(0),
    Event::Draw(1),
    Event::Draw(1),
];

#[test]
fn passes_draw_tickets_that_differ(rt: HostRuntime) -> Result<(), Fail> {
    let alloc = rt.alloc();
    let first = Tally {
        tickets: vec![in alloc; 0, 2]?,
        draws: MOST_DRAWS - SPLIT_DRAWS - 2,
        next: 5,
        stops: (false, false),
    };
    assert_eq!(rt; drawn(alloc, 0, &DRAWS)?, Some(first));
    let second = Tally {
        tickets: vec![in alloc; 1, 3, 4]?,
        draws: SPLIT_DRAWS - 3,
        next: 5,
        stops: (false, false),
    };
    assert_eq!(rt; drawn(alloc, 1, &DRAWS)?, Some(second));
    Ok(())
}

#[test]
fn passes_that_meet_have_the_tickets_of_both(rt: HostRuntime) -> Result<(), Fail> {
    let alloc = rt.alloc();
    let events = [
        Event::Split(0),
        Event::Draw(1),
        Event::Draw(0),
        Event::Stop(1),
        Event::Meet(0, 1),
    ];
    let both = Tally {
        tickets: vec![in alloc; 1, 0]?,
        draws: MOST_DRAWS - 2,
        next: 2,
        stops: (true, true),
    };
    assert_eq!(rt; drawn(alloc, 0, &events)?, Some(both));
    Ok(())
}

#[test]
fn a_stop_is_seen_by_those_that_look(rt: HostRuntime) -> Result<(), Fail> {
    let alloc = rt.alloc();
    let blind = Tally {
        tickets: Vec::new(alloc),
        draws: MOST_DRAWS - SPLIT_DRAWS,
        next: 0,
        stops: (false, true),
    };
    let events = [Event::Split(0), Event::SeeStop(0), Event::Stop(1)];
    assert_eq!(rt; drawn(alloc, 0, &events)?, Some(blind));
    let events = [Event::Split(0), Event::Stop(1), Event::SeeStop(0)];
    let seen = Tally {
        tickets: Vec::new(alloc),
        draws: MOST_DRAWS - SPLIT_DRAWS,
        next: 0,
        stops: (true, true),
    };
    assert_eq!(rt; drawn(alloc, 0, &events)?, Some(seen));
    Ok(())
}

// 128 passes are split off, and have all draws: the first pass has none left.
#[test]
fn a_pass_without_draws_draws_nothing(rt: HostRuntime) -> Result<(), Fail> {
    let alloc = rt.alloc();
    let spent = vec![in alloc; Event::Split(0); 128]?;
    assert_eq!(rt; changing(alloc, &spent, &[Event::Draw(0)])?, 0);
    assert_eq!(rt; changing(alloc, &spent, &[Event::Draw(128)])?, 1);
    let last = Tally {
        tickets: Vec::new(alloc),
        draws: SPLIT_DRAWS,
        next: 0,
        stops: (false, false),
    };
    assert_eq!(rt; drawn(alloc, 128, &spent)?, Some(last));
    Ok(())
}
