ghost use Rattle.std.specs.Prelude.{◌≡◌};
ghost use Rattle.sheet_reading.specs.Stages.{next_stage};

use sheet_lines::Kind;

// How far a text has come: among its parts, among its paths, or past its feed.
#[derive(Clone, Copy, Debug, PartialEq, Eq)]
pub enum Stage {
    Parts,
    Paths,
    Done,
}

impl Stage {
    // The stage after a line of this kind; none where that line is out of turn.
    pub fn after(self, kind: Kind) -> Option<Stage>
        ensures { result ≡ next_stage self kind }
    {
        match (self, kind) {
            (Stage::Parts, Kind::Part) => Some(Stage::Parts),
            (Stage::Parts | Stage::Paths, Kind::Path) => Some(Stage::Paths),
            (Stage::Parts | Stage::Paths, Kind::Feed) => Some(Stage::Done),
            _ => None,
        }
    }
}
