ghost use Rattle.std.specs.Prelude.{◌≡◌, ◌∷◌, ◌++◌, MatchOption, ◌≢◌};
ghost use Rattle.sheet_lines.specs.Cuts.{Free, marks};
ghost use Rattle.sheet_lines.specs.Tokens.{ReadsToken, TakesFields};

use crate::cut::{cut, first_field};
use crate::kind::{Kind, kind_of};
use crate::line_error::LineError;
use crate::token::Token;

// How many commas there are.
fn commas(bytes: &[u8]) -> usize
    ensures { result ≡ marks 44 bytes.now }
{
    bytes.iter().filter(|byte| **byte == b',').count()
}

// Three fields, parted by two commas.
#[tactic(auto, using(crate::proofs::Cutting::marks_free, crate::proofs::Cutting::free_marks, crate::proofs::Cutting::marks_cut))]
fn three_fields<'a>(fields: &'a [u8]) -> Option<(&'a [u8], &'a [u8], &'a [u8])>
    ensures { MatchOption result (marks 44 fields.now ≢ 2) (λ p. (fields.now ≡ p.0.now ++ (44 ∷ p.1.now ++ (44 ∷ p.2.now))) × Free 44 p.0.now × Free 44 p.1.now × Free 44 p.2.now) }
{
    let (first, others) = cut(fields, b',')?;
    let (second, third) = cut(others, b',')?;
    (commas(third) == 0).then_some((first, second, third))
}

// The token of this kind with these fields; none where they are too few or too many.
fn token_of<'a>(kind: Kind, fields: &'a [u8]) -> Option<Token<'a>>
    ensures { TakesFields kind fields.now result }
{
    match kind {
        Kind::Part => {
            let (number, grade, cents) = three_fields(fields)?;
            Some(Token::Part(number, grade, cents))
        }
        Kind::Path => (commas(fields) < 40).then_some(Token::Path(fields)),
        Kind::Feed => (commas(fields) == 0).then_some(Token::Feed(fields)),
    }
}

// The token of a line.
pub(crate) fn token_in<'a>(line: &'a [u8]) -> Result<Token<'a>, LineError>
    ensures { ReadsToken line.now result }
{
    let (word, fields) = first_field(line);
    let kind = kind_of(word).ok_or(LineError::UnknownWord)?;
    fields
        .and_then(|fields| token_of(kind, fields))
        .ok_or(LineError::WrongFieldCount)
}
