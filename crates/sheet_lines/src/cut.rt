ghost use Rattle.std.specs.Prelude.{◌≡◌, ℕ, ◌<◌, length, MatchOption, ◌≢◌, slice_index};
ghost use Rattle.sheet_lines.specs.Cuts.{Free, Cut};

// The place of the first such byte.
fn find(bytes: &[u8], mark: u8) -> Option<usize>
    ensures { MatchOption result (Free mark bytes.now) (λ i. (i < length bytes.now) × (slice_index bytes.now i ≡ mark) × ((k : ℕ) → k < i → slice_index bytes.now k ≢ mark)) }
{
    bytes.iter().position(|byte| *byte == mark)
}

// What stands before the first such byte, and after it; none where there is no such byte.
pub(crate) fn cut<'a>(bytes: &'a [u8], mark: u8) -> Option<(&'a [u8], &'a [u8])>
    ensures { MatchOption result (Free mark bytes.now) (λ p. Cut mark bytes.now p.0.now p.1.now) }
{
    let place = find(bytes, mark)?;
    Some((&bytes[..place], &bytes[place + 1..]))
}

// The first of fields with commas between them, and the others; none where it is the last.
pub(crate) fn first_field<'a>(fields: &'a [u8]) -> (&'a [u8], Option<&'a [u8]>)
    ensures { MatchOption result.1 ((result.0.now ≡ fields.now) × Free 44 fields.now) (λ others. Cut 44 fields.now result.0.now others.now) }
{
    match cut(fields, b',') {
        Some((field, others)) => (field, Some(others)),
        None => (fields, None),
    }
}
