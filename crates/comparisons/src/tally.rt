// What was compared: stations, of which some ended full, states handed out, working states and minimal cuts of the others, a
// number made of the states handed out in their order, and single comparisons, of which some differ.
#[derive(Clone, Copy)]
pub(crate) struct Tally {
    pub(crate) stations: u64,
    pub(crate) full: u64,
    pub(crate) handed: u64,
    pub(crate) working: u64,
    pub(crate) cuts: u64,
    pub(crate) order: u64,
    pub(crate) comparisons: u64,
    pub(crate) differences: u64,
}

// Adds one. No count here comes near to its type's greatest.
pub(crate) fn count(counted: &mut u64) {
    *counted = counted.saturating_add(1);
}

impl Tally {
    pub(crate) fn new() -> Tally {
        Tally {
            stations: 0,
            full: 0,
            handed: 0,
            working: 0,
            cuts: 0,
            order: 0,
            comparisons: 0,
            differences: 0,
        }
    }

    // Counts a state that was handed out.
    pub(crate) fn came(&mut self, number: u64) {
        count(&mut self.handed);
        self.order = self.order.wrapping_mul(31).wrapping_add(number);
    }

    // Counts a comparison.
    pub(crate) fn compared(&mut self, agrees: bool) {
        count(&mut self.comparisons);
        if !agrees {
            count(&mut self.differences);
        }
    }

    pub(crate) fn outcome(self) -> &'static str {
        if self.differences == 0 {
            "agree"
        } else {
            "differ"
        }
    }
}
