ghost use Rattle.std.specs.Prelude.{◌≡◌, ◌≤◌, true, map, length, vec_len};
ghost use Rattle.sheet.specs.Orders.{never_falls};

use crate::part::Part;

// A sealed sheet: at most 40 parts, whose grades never fall. It is moved, never copied, and nothing changes it.
#[derive(Drop)]
pub struct Sheet {
    pub(crate) parts: Vec<Part>,
    ghost few: { vec_len parts ≤ 40 },
    ghost ordered: { never_falls (map (λ p. p.grade.number) parts.items) ≡ true },
}

impl Sheet {
    ghost use Rattle.sheet.specs.Parts.{parts_of, count_of};

    // How many parts a sheet may have.
    pub const MOST: usize = 40;

    // The parts, part 1 first.
    pub fn parts(&self) -> &[Part]
        ensures value { result.now ≡ parts_of self.now }
        ensures few { length result.now ≤ 40 }
    {
        self.parts.as_slice()
    }

    // How many parts there are.
    pub fn count(&self) -> usize
        ensures value { result ≡ count_of self.now }
        ensures few { result ≤ 40 }
    {
        self.parts.len()
    }
}
