use crate::standby::Standby;
use anyhow::Context;
use sheet::{Draft, PartNumber, Sheet};
use std::alloc::Global;

// A sheet of parts with these grades.
pub(crate) fn sheet_of(heap: Global, grades: &[u8]) -> anyhow::Result<Sheet> {
    let mut draft = Draft::new(heap);
    for grade in grades {
        draft.add(*grade, 100).ok().context("a part was refused")?;
    }
    Ok(draft.seal())
}

pub(crate) fn part(number: u8) -> anyhow::Result<PartNumber> {
    Ok(PartNumber::try_from(number)?)
}

// Part 1 with the spare part 3.
pub(crate) fn standby() -> anyhow::Result<Standby> {
    Ok(Standby {
        unit: part(1)?,
        spare: part(3)?,
    })
}
