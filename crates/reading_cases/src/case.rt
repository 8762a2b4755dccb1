use anyhow::Context;
use std::alloc::Global;

// A case of the table: how many entries the list of paths has, and the text.
#[derive(Drop)]
pub(crate) struct Case {
    pub(crate) entries: u16,
    pub(crate) text: Vec<u8>,
}

impl Case {
    // The case on a line of the table: the number of entries, a blank, and the text, with a semicolon for the end of each line.
    pub(crate) fn parse(heap: Global, line: &str) -> anyhow::Result<Case> {
        let (entries, text) = line.split_once(' ').context("a case has a blank")?;
        let entries = entries.parse().context("a case begins with a number")?;
        let text = text
            .bytes()
            .map(|byte| if byte == b';' { b'\n' } else { byte })
            .collect(heap)?;
        Ok(Case { entries, text })
    }
}
