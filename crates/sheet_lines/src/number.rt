ghost use Rattle.sheet_lines.specs.Numbers.{of_length, ReadsNumber};
ghost use Rattle.std.specs.Prelude.{◌≡◌, ◌≤◌, length, MatchOption};
ghost use Rattle.std.specs.Str.Parse.{AllDigits, digits_value as worth};

// Whether a field has 1 to 8 bytes, of which the first is no 0 unless it is the only one.
fn is_of_length(field: &[u8]) -> bool
    ensures { result ≡ of_length field.now }
{
    match field {
        [] => false,
        [b'0', others @ ..] => others.is_empty(),
        _ => field.len() <= 8,
    }
}

// The number that digits write; none where there is another byte. Not the library's `parse`: it wants the bytes read as text first,
// takes a plus in front, and took twice the time.
fn digits_in(field: &[u8]) -> Option<u32>
    requires { length field.now ≤ 8 }
    ensures { MatchOption result (AllDigits 10 field.now → ⊥) (λ n. AllDigits 10 field.now × (n ≡ worth 10 field.now)) }
{
    let mut value = 0;
    for byte in field {
        if !byte.is_ascii_digit() {
            return None;
        }
        value = value * 10 + u32::from(*byte - b'0');
    }
    Some(value)
}

// The number in a field: 1 to 8 digits with no leading zero, save 0 itself. None where it is not written so.
#[tactic(auto, using(crate::proofs::Fields::other_length, crate::proofs::Fields::read_right))]
pub fn number_in(field: &[u8]) -> Option<u32>
    ensures { ReadsNumber field.now result }
{
    if !is_of_length(field) {
        return None;
    }
    digits_in(field)
}
