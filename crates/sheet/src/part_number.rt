ghost use Rattle.std.specs.Prelude.{◌≡◌, pred, ◌+◌, ◌<◌, ◌≤◌};

use crate::refusal::PartNumberError;

// The number of a part, 1 to 40. What holds one never checks it again. A type of its own beside other bounded numbers, as `Grade`.
#[derive(Clone, Copy)]
pub struct PartNumber {
    number: u8,
    ghost from_one: { 1 ≤ number },
    ghost to_forty: { number ≤ 40 },
}

impl TryFrom<u8> for PartNumber {
    ghost use Rattle.sheet.specs.Adding.{Numbered};

    type Error = PartNumberError;

    ghost try_from_gives = { Numbered };

    // The part of this number, which is 1 to 40 or refused.
    fn try_from(number: u8) -> Result<PartNumber, PartNumberError> {
        if number == 0 || number > PartNumber::HIGHEST {
            return Err(PartNumberError::OutOfRange);
        }
        Ok(PartNumber { number })
    }
}

impl PartNumber {
    pub const HIGHEST: u8 = 40;

    pub fn number(self) -> u8
        ensures value { result ≡ self.number }
        ensures from_one { 1 ≤ result }
        ensures to_forty { result ≤ 40 }
    {
        self.number
    }

    // The part's binary place in the number of a set of parts.
    pub fn place(self) -> usize
        ensures value { result ≡ pred self.number }
        ensures bound { result < 40 }
    {
        usize::from(self.number - 1)
    }

    // The part number that comes after so many parts.
    pub(crate) fn after(count: u8) -> PartNumber
        requires { count < 40 }
        ensures { result.number ≡ count + 1 }
    {
        PartNumber { number: count + 1 }
    }
}
