ghost use Rattle.std.specs.Prelude.{◌≡◌, ◌+◌, ◌≤◌, ◌<◌, ◌^◌, [], length, if◌then◌else◌, OnErr, nat_lt};
ghost use Rattle.sheet.specs.Parts.{figures_of, count_of};
ghost use Rattle.states.specs.Answers.{numbers};
ghost use Rattle.states.specs.Masses.{total};
ghost use Rattle.states.specs.Steps.{add_step, move_step, share};
ghost use Rattle.calls.specs.Calls.{next_said};
ghost use Rattle.calls.specs.Replies.{next_answer};
ghost use Rattle.calls.specs.Stations.{verdict_in};
ghost use Rattle.listing.specs.Listings.{sheet_of, station_of, SameStation, Advanced, Called};
ghost use Rattle.listing.specs.Verdicts.{if_up};

use super::Listing;
use calls::{Call, Full, Handed, Verdict};
use rankings::Ranking;
use sheet::Sheet;
use states::State;
use structures::Structure;

// What begins to wait as a state is handed out: what add gives of it, if the station works in it, and what move gives of it.
fn next_states(verdict: Verdict, state: State, sheet: &Sheet) -> (Option<State>, Option<State>)
    ensures added { numbers result.0 ≡ if_up verdict (add_step (count_of sheet.now) state.number) [] }
    ensures moved { numbers result.1 ≡ move_step (count_of sheet.now) state.number }
{
    let moved = state.move_step(sheet);
    match verdict {
        Verdict::Up => (state.add_step(sheet), moved),
        Verdict::Down => (None, moved),
    }
}

// The up sum once a state of this mass is handed out.
fn up_after(verdict: Verdict, up: u64, mass: u64) -> u64
    requires { (up ≤ total) × (mass ≤ total) }
    ensures { result ≡ up + if_up verdict mass 0 }
{
    match verdict {
        Verdict::Up => up + mass,
        Verdict::Down => up,
    }
}

// The down sum once a state is handed out.
fn down_after(verdict: Verdict, down: u64, state: State, sheet: &Sheet) -> u64
    requires { down ≤ total }
    ensures { result ≡ down + if_up verdict 0 (share (figures_of sheet.now) state.number) }
{
    match verdict {
        Verdict::Up => down,
        Verdict::Down => down + state.share(sheet),
    }
}

// Whether more than 1,024 would wait once the foremost is gone and these have come.
fn crowded(waiting: usize, added: Option<State>, moved: Option<State>) -> bool
    requires { waiting ≤ 1024 }
    ensures { result ≡ nat_lt 1025 (length (numbers added) + (length (numbers moved) + waiting)) }
{
    waiting + usize::from(added.is_some()) + usize::from(moved.is_some()) > 1025
}

impl<'a, S: Structure, R: Ranking> Listing<'a, S, R> {
    // What the station does in a state of the sheet.
    #[tactic(auto, using(crate::proofs::Turns::read_on_sheet))]
    fn verdict_on(&self, state: State) -> Verdict
        requires { state.number < 2 ^ count_of (sheet_of self.now) }
        ensures { result ≡ verdict_in (station_of self.now) state.number }
    {
        if self.pile.works_in(state) {
            Verdict::Up
        } else {
            Verdict::Down
        }
    }

    // Hands out the foremost waiting state, or answers none where nothing waits, or refuses.
    pub(super) fn advance(&mut self) -> Result<Option<Handed>, Full>
        ensures station { SameStation self.old self.new }
        ensures unchanged { OnErr result (self.new ≡ self.old) }
        ensures advanced { Advanced (next_answer result) self.old self.new }
    {
        // No `?`: none is an answer here, and no error.
        let Some(first) = self.queue.foremost() else {
            return Ok(None);
        };
        let state = first.state;
        let verdict = self.verdict_on(state);
        let (added, moved) = next_states(verdict, state, self.queue.sheet);
        if crowded(self.queue.len(), added, moved) {
            return Err(Full::TooManyWait);
        }
        self.up = up_after(verdict, self.up, first.mass);
        self.down = down_after(verdict, self.down, state, self.queue.sheet);
        self.handed += 1;
        self.queue.replace_foremost(added, moved);
        Ok(Some(Handed { state, verdict }))
    }

    // Hands out the foremost waiting state with its verdict, or answers none where nothing waits. Where more than 1,024 states
    // would wait then, it refuses and changes nothing.
    pub fn next(&mut self) -> Result<Option<Handed>, Full>
        ensures station { SameStation self.old self.new }
        ensures unchanged { OnErr result (self.new ≡ self.old) }
        ensures called { Called Call.Next (next_said (next_answer result)) self.old self.new }
    {
        self.advance()
    }
}
