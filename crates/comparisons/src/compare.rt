use crate::tally::{Tally, count};
use calls::{Figures, Handed, Verdict};
use listing::Listing;
use rankings::{Ranking, is_ahead};
use sheet::{PartNumber, Sheet};
use states::State;
use std::alloc::Global;
use structures::Structure;
use summation::{Sums, sum_states};

// Calls next until it hands out no more, and keeps what it handed out. Whether it ended full.
fn hand_out<S: Structure, R: Ranking>(
    listing: &mut Listing<'_, S, R>,
    handed: &mut Vec<Handed>,
) -> anyhow::Result<bool> {
    for _ in 0..4097 {
        match listing.next() {
            Ok(Some(one)) => handed.push(one)?,
            Ok(None) => return Ok(false),
            Err(_) => return Ok(true),
        }
    }
    Ok(false)
}

// Finished figures are those of the sum over all states, rounded down and up.
fn compare_figures(figures: Figures, sums: Sums, tally: &mut Tally) {
    tally.compared(figures.lower == sums.reliability());
    tally.compared(figures.upper == sums.working.div_ceil(1_000_000_000));
}

// Figures of a listing that ended full enclose the sum over all states.
fn compare_enclosure(figures: Figures, sums: Sums, tally: &mut Tally) {
    tally.compared(figures.lower.saturating_mul(1_000_000_000) <= sums.working);
    tally.compared(sums.working <= figures.upper.saturating_mul(1_000_000_000));
}

// Each verdict is what the pile says of the state.
fn compare_verdicts<S: Structure>(pile: &S, handed: &[Handed], tally: &mut Tally) {
    for one in handed {
        tally.came(one.state.number());
        tally.compared(pile.works_in(one.state) == (one.verdict == Verdict::Up));
    }
}

// Each state is ahead of the next one.
fn compare_order<R: Ranking>(ranking: &R, sheet: &Sheet, handed: &[Handed], tally: &mut Tally) {
    for (one, next) in handed.iter().zip(handed.iter().skip(1)) {
        tally.compared(is_ahead(ranking, sheet, one.state, next.state));
    }
}

// Marks a state of the sheet, and answers whether it is one and was not marked before.
fn mark(marks: &mut [bool], state: State) -> bool {
    match marks.get_mut(state.number() as usize) {
        Some(marked) => !std::mem::replace(marked, true),
        None => false,
    }
}

// No state comes twice, or from outside of the sheet. Which states came.
fn compare_marks(
    heap: Global,
    sheet: &Sheet,
    handed: &[Handed],
    tally: &mut Tally,
) -> anyhow::Result<Vec<bool>> {
    let mut marks = vec![in heap; false; 1 << sheet.count()]?;
    for one in handed {
        tally.compared(mark(&mut marks, one.state));
    }
    Ok(marks)
}

// Whether the station fails in the state, and works in each that has one failed part less.
fn is_minimal_cut<S: Structure>(pile: &S, sheet: &Sheet, state: State) -> anyhow::Result<bool> {
    for number in 1..sheet.count() as u8 + 1 {
        let part = PartNumber::try_from(number)?;
        if state.contains(part) && !pile.works_in(state.without(part)) {
            return Ok(false);
        }
    }
    Ok(!pile.works_in(state))
}

// Every working state of the sheet and every minimal cut came.
fn compare_states<S: Structure>(
    pile: &S,
    sheet: &Sheet,
    marks: &[bool],
    tally: &mut Tally,
) -> anyhow::Result<()> {
    for (number, came) in marks.iter().enumerate() {
        let state = State::new(number as u64);
        if pile.works_in(state) {
            count(&mut tally.working);
            tally.compared(*came);
        } else if is_minimal_cut(pile, sheet, state)? {
            count(&mut tally.cuts);
            tally.compared(*came);
        }
    }
    Ok(())
}

// Lists a station to its end, and compares what was handed out and the last figures with the sum over all its states.
pub(crate) fn compare<S: Structure + Drop, R: Ranking + Drop>(
    heap: Global,
    sheet: &Sheet,
    pile: S,
    ranking: R,
    tally: &mut Tally,
) -> anyhow::Result<()> {
    count(&mut tally.stations);
    let sums = sum_states(sheet, &pile)?;
    let mut handed = Vec::new(heap);
    let mut listing = Listing::open(heap, sheet, pile, ranking)?;
    let full = hand_out(&mut listing, &mut handed)?;
    let stopped = listing.stop();
    compare_verdicts(&stopped.pile, &handed, tally);
    compare_order(&stopped.ranking, sheet, &handed, tally);
    let marks = compare_marks(heap, sheet, &handed, tally)?;
    if full {
        count(&mut tally.full);
        compare_enclosure(stopped.figures, sums, tally);
        return Ok(());
    }
    compare_figures(stopped.figures, sums, tally);
    compare_states(&stopped.pile, sheet, &marks, tally)
}
