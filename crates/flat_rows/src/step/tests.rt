// A step over a frame of nine states, against words that were worked out with whole numbers.
//
// Its rows have 1, 2, 3 and 9 entries, and two have other divisors. A state is the goal, one may be
// the goal, one may be live, and the last one can't reach the goal.

ghost use Rattle.std.specs.Prelude.{◌≡◌, ◌+◌, ◌<◌, ◌≤◌, All, IfOk, length};
ghost use Rattle.step_core.specs.SoundFrame.{IsSoundRow, IsSoundFrame};
ghost use Rattle.step_core.specs.WordPairs.{ArePairs};
ghost use Rattle.flat_rows.specs.StateRows.{AreStateRows};

use crate::flattening::flatten;
use crate::row_words::row_words;
use crate::state_rows::StateRows;
use crate::step::next_words;
use round_out::{Entry, ONE};
use std::alloc::{AllocError, Global};
use std::test::Fail;
use step_core::{Frame, Row, Sets, Words};

// The words of all states; those of the goal and of the last state stay as they were.
const WHOLE: [Words; 9] = [
    Words {
        low: 813_826_944_428_362_569,
        high: 813_826_944_431_362_578,
    },
    Words {
        low: 632_976_512_333_170_887,
        high: 632_976_512_335_504_228,
    },
    Words {
        low: 1_492_016_064_785_331_376,
        high: 1_492_016_064_790_831_393,
    },
    Words {
        low: 1_288_559_328_678_240_734,
        high: 1_288_559_328_682_990_749,
    },
    Words {
        low: 1_085_102_592_571_150_092,
        high: 1_085_102_592_575_150_104,
    },
    Words {
        low: 852_580_608_448_760_786,
        high: 852_580_608_451_903_654,
    },
    Words {
        low: 0,
        high: 1_898_929_537_006_512_682,
    },
    Words {
        low: 1_175_527_808_618_745_933,
        high: 4_611_686_018_427_387_904,
    },
    Words {
        low: 2_170_205_185_142_300_184,
        high: 2_170_205_185_150_300_208,
    },
];

// The words of the first four states.
const FIRST_HALF: [Words; 4] = [
    Words {
        low: 813_826_944_428_362_569,
        high: 813_826_944_431_362_578,
    },
    Words {
        low: 632_976_512_333_170_887,
        high: 632_976_512_335_504_228,
    },
    Words {
        low: 1_492_016_064_785_331_376,
        high: 1_492_016_064_790_831_393,
    },
    Words {
        low: 1_288_559_328_678_240_734,
        high: 1_288_559_328_682_990_749,
    },
];

// The words of the last five states; those of the goal and of the last state stay as they were.
const SECOND_HALF: [Words; 5] = [
    Words { low: 0, high: 0 },
    Words {
        low: 852_580_608_448_760_786,
        high: 852_580_608_451_903_654,
    },
    Words {
        low: 0,
        high: 1_898_929_537_006_512_682,
    },
    Words {
        low: 1_175_527_808_618_745_933,
        high: 4_611_686_018_427_387_904,
    },
    Words {
        low: 1_085_102_592_571_150_092,
        high: 1_085_102_592_575_150_104,
    },
];

// The entries of a row that leads to all states.
const TO_ALL: [Entry; 9] = [
    Entry { to: 0, num: 1 },
    Entry { to: 1, num: 1 },
    Entry { to: 2, num: 1 },
    Entry { to: 3, num: 1 },
    Entry { to: 4, num: 1 },
    Entry { to: 5, num: 1 },
    Entry { to: 6, num: 2 },
    Entry { to: 7, num: 2 },
    Entry { to: 8, num: 2 },
];

// Which states can reach the goal.
const REACH: [bool; 9] = [true, true, true, true, true, true, true, true, false];

fn row(alloc: Global, den: u64, entries: &[Entry]) -> Result<Row, AllocError>
    ensures { IfOk result (λ row. row ≡ record { den = den; entries = entries.now }) }
{
    Ok(Row {
        den,
        entries: Vec::from_slice(alloc, entries)?,
    })
}

fn rows(alloc: Global) -> Result<Vec<Row>, AllocError>
    ensures sound { IfOk result (λ rows. All (IsSoundRow 9) rows.items) }
    ensures states { IfOk result (λ rows. length rows.items ≡ 9) }
{
    let first = row(alloc, 12, &[Entry { to: 3, num: 12 }])?;
    let second = row(
        alloc,
        12,
        &[Entry { to: 0, num: 5 }, Entry { to: 4, num: 7 }],
    )?;
    let third = row(
        alloc,
        12,
        &[
            Entry { to: 1, num: 1 },
            Entry { to: 4, num: 4 },
            Entry { to: 7, num: 7 },
        ],
    )?;
    let fourth = row(alloc, 12, &TO_ALL)?;
    let goal = row(alloc, 12, &[Entry { to: 4, num: 12 }])?;
    let fifth = row(
        alloc,
        7,
        &[Entry { to: 2, num: 3 }, Entry { to: 4, num: 4 }],
    )?;
    let sixth = row(alloc, 1, &[Entry { to: 7, num: 1 }])?;
    let seventh = row(
        alloc,
        12,
        &[Entry { to: 2, num: 5 }, Entry { to: 6, num: 7 }],
    )?;
    let last = row(alloc, 12, &[Entry { to: 8, num: 12 }])?;
    Ok(vec![in alloc;
        first, second, third, fourth, goal, fifth, sixth, seventh, last,
    ]?)
}

fn frame(alloc: Global) -> Result<Frame, AllocError>
    ensures sound { IfOk result IsSoundFrame }
    ensures states { IfOk result (λ frame. length frame.rows ≡ 9) }
{
    let rows = rows(alloc)?;
    let sets = Sets {
        goal_must: vec![in alloc;
            false, false, false, false, true, false, false, false, false,
        ]?,
        goal_may: vec![in alloc; false, false, false, false, true, false, false, true, false]?,
        live_must: vec![in alloc; true, true, true, true, true, true, false, true, true]?,
        live_may: vec![in alloc; true, true, true, true, true, true, true, true, true]?,
    };
    Ok(Frame { rows, sets })
}

// Some words, the more the later the state.
fn layer(alloc: Global, states: usize) -> Result<Vec<Words>, AllocError>
    requires { states ≤ 9 }
    ensures states { IfOk result (λ layer. length layer.items ≡ states) }
    ensures pairs { IfOk result (λ layer. ArePairs layer.items) }
{
    let mut layer = Vec::with_capacity(alloc, states)?;
    for state in 0..states {
        let low = ONE / 17 * state as u64;
        let high = low + 1_000_003 * state as u64;
        layer.push(Words { low, high })?;
    }
    Ok(layer)
}

// The step of `count` states from `first` on, into a layer that has words already.
fn next_part(alloc: Global, first: usize, count: usize) -> Result<Vec<Words>, AllocError>
    requires { first + count ≤ 9 }
{
    let frame = frame(alloc)?;
    let flat = flatten(alloc, &frame.rows, &frame.sets, &REACH, first, count)?;
    let words = layer(alloc, 9)?;
    let mut next = layer(alloc, count)?;
    next_words(&flat, &words, &mut next);
    Ok(next)
}

// Both words of a state's row.
fn state_words(frame: &Frame, reach: &[bool], ready: &StateRows, words: &[Words], s: u32) -> Words
    requires ready { AreStateRows frame.now.rows frame.now.sets reach.now ready.now }
    requires states { length words.now ≡ length frame.now.rows }
    requires words { ArePairs words.now }
    requires state { s < length frame.now.rows }
{
    let row = ready.row(s);
    row_words(row.entries, row.divisor, words)
}

#[test]
fn a_step_has_the_words_of_all_states(rt: HostRuntime) -> Result<(), Fail> {
    let next = next_part(rt.alloc(), 0, 9)?;
    assert_eq!(rt; next.as_slice(), WHOLE.as_slice());
    Ok(())
}

#[test]
fn a_step_has_the_words_of_either_half(rt: HostRuntime) -> Result<(), Fail> {
    let first_half = next_part(rt.alloc(), 0, 4)?;
    assert_eq!(rt; first_half.as_slice(), FIRST_HALF.as_slice());
    let second_half = next_part(rt.alloc(), 4, 5)?;
    assert_eq!(rt; second_half.as_slice(), SECOND_HALF.as_slice());
    Ok(())
}

#[test]
fn the_rows_of_states_have_the_words_of_a_step(rt: HostRuntime) -> Result<(), Fail> {
    let frame = frame(rt.alloc())?;
    let ready = StateRows::new(rt.alloc(), &frame.rows, &frame.sets, &REACH)?;
    let words = layer(rt.alloc(), 9)?;
    // Rows of 1, 2 and 9 entries, and one with another divisor.
    assert_eq!(rt; state_words(&frame, &REACH, &ready, &words, 0), WHOLE[0]);
    assert_eq!(rt; state_words(&frame, &REACH, &ready, &words, 1), WHOLE[1]);
    assert_eq!(rt; state_words(&frame, &REACH, &ready, &words, 3), WHOLE[3]);
    assert_eq!(rt; state_words(&frame, &REACH, &ready, &words, 5), WHOLE[5]);
    // One that may not be live, one that may be the goal, and one that can't reach it.
    assert_eq!(rt; (ready.row(6).low, ready.row(6).high), (false, true));
    assert_eq!(rt; (ready.row(7).low, ready.row(7).high), (true, false));
    assert_eq!(rt; (ready.row(8).low, ready.row(8).high), (false, false));
    Ok(())
}
