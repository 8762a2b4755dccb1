ghost use Rattle.std.specs.Prelude.{◌≡◌, ◌<◌, ◌≤◌, MatchResult};

// The number of a mast, 0 to 15. What holds one never checks it again. A type of its own beside grades and part numbers: by const
// parameters one type would have methods of which each serves one instance.
#[derive(Clone, Copy)]
pub(crate) struct Mast {
    number: u8,
    ghost known: { number ≤ 15 },
}

// A number above 15, which is no mast.
#[derive(Clone, Copy)]
pub(crate) struct MastTooHigh;

impl TryFrom<u8> for Mast {
    type Error = MastTooHigh;

    ghost try_from_gives = { λ number r. MatchResult r (λ mast. (mast.number ≡ number) × (number ≤ 15)) (λ _. 15 < number) };

    fn try_from(number: u8) -> Result<Mast, MastTooHigh> {
        if number > Mast::HIGHEST {
            return Err(MastTooHigh);
        }
        Ok(Mast { number })
    }
}

impl Mast {
    pub(crate) const HIGHEST: u8 = 15;

    pub(crate) fn number(self) -> u8
        ensures value { result ≡ self.number }
        ensures known { result ≤ 15 }
    {
        self.number
    }
}
