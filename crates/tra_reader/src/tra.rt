// The whole file.
ghost use Rattle.std.specs.Prelude.{◌≡◌, ◌≢◌, ◌⊎◌, ◌≤◌, length, All, AllPairs, IfOk, IfErr, MatchResult, Ok, Err};
ghost use Rattle.model_core.specs.Files.{TraLists};
ghost use Rattle.text_lines.specs.Entries.{keys_of};
ghost use Rattle.text_lines.specs.EntryLines.{entries_of};
ghost use Rattle.text_lines.specs.LinesOf.{end_line_of};
ghost use Rattle.text_lines.specs.Told.{IsToldBy};
ghost use Rattle.text_lines.specs.WordLines.{word_lines_of};
ghost use Rattle.tra_reader.specs.Pairs.{pair_of};
ghost use Rattle.tra_reader.specs.Rates.{IsKept, IsChainOf, HasRateFault};
ghost use Rattle.tra_reader.specs.Reading.{IsWhole, IsBodyFault};
ghost use Rattle.tra_reader.specs.TraFault.{TraFaultAt};
ghost use Rattle.tra_reader.specs.TraText.{TraSays};

use crate::body::{Body, Stop, read_body};
use crate::entry::Pair;
use crate::head::read_head;
use crate::rates::{first_large, rates_of};
use crate::repeats::first_repeated;
use model_core::{MOST_STATES, MOST_TRANSITIONS, Tra};
use std::alloc::Global;
use text_lines::{EntryLine, FileFault, FileWhat, ReadFault, end_line, lines, scale_of};

/// The chain for which the bytes of a `.tra` file stand, or what is wrong with the file.
///
/// The file has a line `STATES n`, a line `TRANSITIONS m`, and then m lines, each of two states and a rate. Lines are
/// parted into words by spaces and tabs, and lines without words are passed over. `STATES` and `TRANSITIONS` are words
/// as they stand here, the rates are numbers as `decimal_text::read` takes them, and all others are whole numbers.
///
/// In the file the states are the numbers from 1 to n, and in the chain those from 0 to n - 1. The chain's scale is the
/// greatest number of decimals of the rates in normal form, 0 where there are none, and its rates are in units of
/// `10^-scale`. Transitions at rate 0 are left out; the others are in the file's order, those from a state to itself
/// among them.
///
/// The checks go line by line, and the first that fails is told. The line of a fault is its number in the file, from 1
/// and with blank lines counted. Where a line is missing, it is the number of lines plus 1.
///
/// - `Header`: the first line isn't `STATES` and a whole number, the second isn't `TRANSITIONS` and a whole number, or
///   one of them is missing.
/// - `StatesRange`: n isn't 1 to 65,536.
/// - `TransitionsRange`: m is more than 1,000,000.
/// - `Word`: a line of a transition hasn't three words, or one of the first two isn't a whole number.
/// - `StateRange`: one of its states isn't 1 to n.
/// - `Number`: its third word can't be read as a rate.
/// - `Repeated`: an earlier line has the same two states in the same order, whatever the rates.
/// - `Count`: there are fewer lines of transitions than m, or this line comes after m of them.
/// - `RateRange`: where nothing else is wrong, this is the first line at which the rates out of its state, in units of
///   `10^-scale`, add up to `2^63` or more.
///
/// `Memory` is for want of memory alone. What is taken is 24 bytes for each transition that the head allows and the
/// file is long enough for, 8 or 16 more for each that was read, and 8 for each state.
pub fn read_tra(alloc: Global, bytes: &[u8]) -> Result<Tra, ReadFault>
    ensures value { IfOk result (λ tra. TraSays bytes.now tra) }
    ensures fault { (at : FileFault) → result ≡ Err (ReadFault.At at) → TraFaultAt bytes.now at.line at.what }
    ensures says { (tra : TraLists) → TraSays bytes.now tra → (result ≡ Ok tra) ⊎ (result ≡ Err ReadFault.Memory) }
    ensures faulty { (at : FileFault) → TraFaultAt bytes.now at.line at.what
        → (result ≡ Err (ReadFault.At at)) ⊎ (result ≡ Err ReadFault.Memory) }
{
    read_lines(alloc, bytes)
}

// The chain of the lines, or the first of their faults.
fn read_lines(alloc: Global, bytes: &[u8]) -> Result<Tra, ReadFault>
    ensures value { IfOk result (λ tra. TraSays bytes.now tra) }
    ensures fault { IfErr result (IsToldBy (TraFaultAt bytes.now)) }
{
    let mut lines = lines(bytes);
    let head = read_head(bytes, &mut lines)?;
    let room = (bytes.len() / 6 + 1).min(head.transitions as usize);
    let body = read_body(alloc, &mut lines, head, room)?;
    check_body(alloc, bytes, &body)?;
    chain_of(alloc, &body.entries, head.states)
}

// Nothing, or what is wrong with the lines of transitions, the sums of their rates aside.
fn check_body(alloc: Global, bytes: &[u8], body: &Body) -> Result<(), ReadFault>
    requires { length body.now.entries.items ≤ MOST_TRANSITIONS }
    ensures { MatchResult result (λ _. IsWhole body.now)
        (IsToldBy (IsBodyFault (word_lines_of bytes.now) (end_line_of bytes.now) body.now)) }
{
    let place = first_repeated(alloc, &body.entries)?;
    if place < body.entries.len() {
        return Err(ReadFault::at(body.entries[place].line, FileWhat::Repeated));
    }
    match body.stop {
        Stop::AllRead => Ok(()),
        Stop::Missing => Err(ReadFault::at(end_line(bytes), FileWhat::Count)),
        Stop::Further(line) => Err(ReadFault::at(line, FileWhat::Count)),
        Stop::Failing(line, what) => Err(ReadFault::at(line, what)),
    }
}

// The chain of these entries, or the first line at which the rates out of its state add up to too much.
fn chain_of(alloc: Global, entries: &[EntryLine<Pair>], n: u32) -> Result<Tra, ReadFault>
    requires some { 1 ≤ n }
    requires few { n ≤ MOST_STATES }
    requires kept { All (IsKept n) entries.now }
    requires once { AllPairs ◌≢◌ (keys_of (entries_of pair_of entries.now)) }
    ensures value { IfOk result (λ tra. IsChainOf n entries.now tra) }
    ensures fault { IfErr result (IsToldBy (HasRateFault entries.now)) }
{
    let scale = scale_of(entries);
    if let Some(place) = first_large(alloc, entries, n, scale)? {
        return Err(ReadFault::at(entries[place].line, FileWhat::RateRange));
    }
    let rates = rates_of(alloc, entries, scale)?;
    Ok(Tra::new(n, scale, rates))
}
