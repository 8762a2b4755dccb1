ghost use Rattle.std.specs.Prelude.{◌≡◌, ◌∷◌, [], MatchOption};
ghost use Rattle.std.specs.Iterator.{item_count};
ghost use Rattle.sheet_lines.specs.Fields.{left_of, FieldRead};

use crate::cut::first_field;

// A reader over fields with commas between them: those that are left; none after the last. Not `split` of a slice, which says by
// runs of its closure what this says by the bytes that are left.
#[derive(Drop)]
pub struct FieldReader<'a> {
    left: Option<&'a [u8]>,
}

impl<'a> FieldReader<'a> {
    // A reader at the first of these fields.
    pub fn new(fields: &'a [u8]) -> FieldReader<'a>
        ensures { left_of result ≡ 44 ∷ fields.now }
    {
        FieldReader { left: Some(fields) }
    }
}

// Its items are the fields.
impl<'a> Iterator for FieldReader<'a> {
    type Item = &'a [u8];

    ghost next_gives = { λ r item r'. MatchOption item ((left_of r ≡ []) × (r' ≡ r)) (λ field. FieldRead r field.now r') };

    ghost remaining = { item_count left_of };

    fn next(&mut self) -> Option<&'a [u8]> {
        let (field, others) = first_field(self.left?);
        self.left = others;
        Some(field)
    }
}
