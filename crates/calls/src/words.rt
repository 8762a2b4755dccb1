ghost use Rattle.std.specs.Prelude.{Some};
ghost use Rattle.calls.specs.Words.{verdict_word, ending_word};

use crate::answers::{Ending, Verdict};
use std::fmt;

impl fmt::Display for Verdict {
    ghost output = { λ verdict. Some (verdict_word verdict) };

    fn fmt<W: fmt::Write>(&self, f: &mut fmt::Formatter<W>) -> fmt::Result {
        f.write_str(match self {
            Verdict::Up => "up",
            Verdict::Down => "down",
        })
    }
}

impl fmt::Display for Ending {
    ghost output = { λ ending. Some (ending_word ending) };

    fn fmt<W: fmt::Write>(&self, f: &mut fmt::Formatter<W>) -> fmt::Result {
        f.write_str(match self {
            Ending::Reached => "reached",
            Ending::Finished => "finished",
            Ending::Spent => "spent",
            Ending::Full => "full",
        })
    }
}
