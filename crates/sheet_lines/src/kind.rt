ghost use Rattle.sheet_lines.specs.Words.{Names};

// What a line is about.
#[derive(Clone, Copy, Debug, PartialEq, Eq)]
pub enum Kind {
    Part,
    Path,
    Feed,
}

// The kind of line that a word names.
pub(crate) fn kind_of(word: &[u8]) -> Option<Kind>
    ensures { Names word.now result }
{
    let [first, second, third, fourth] = *word else {
        return None;
    };
    // By chars, and not by the bytes of a word: a rule of the project.
    match (
        char::from(first),
        char::from(second),
        char::from(third),
        char::from(fourth),
    ) {
        ('p', 'a', 'r', 't') => Some(Kind::Part),
        ('p', 'a', 't', 'h') => Some(Kind::Path),
        ('f', 'e', 'e', 'd') => Some(Kind::Feed),
        _ => None,
    }
}
