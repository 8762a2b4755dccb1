ghost use Rattle.std.specs.Prelude.{◌≡◌, ◌≢◌, ◌+◌, ◌-◌, ◌^◌, ◌<◌, ◌≤◌, true, false, [], ◌∷◌, ◌++◌, length, slice_get, MatchBool, MatchOption, MatchResult, vec_len};
ghost use Rattle.std.specs.Option.{ForSome};
ghost use Rattle.std.specs.List.Sorted.{IsPartitionPoint};
ghost use Rattle.sheet.specs.Parts.{count_of};
ghost use Rattle.states.specs.Answers.{numbers};
ghost use Rattle.states.specs.Lists.{Same};
ghost use Rattle.rankings.specs.Orders.{ahead};
ghost use Rattle.listing.specs.Queues.{waiting_in, ForemostOf, SameBasis, Removed, Replaced};

use super::Queue;
use crate::waiting::Waiting;
use rankings::{Ranking, is_ahead_by_own_keys};
use sheet::Sheet;
use states::{State, Weighed};
use std::alloc::Global;

// The last entry; none of none.
fn last_of<K: Copy>(entries: &[Waiting<K>]) -> Option<Waiting<K>>
    ensures { result ≡ slice_get entries.now (length entries.now - 1) }
{
    entries.last().copied()
}

impl<'a, R: Ranking> Queue<'a, R> {
    // A queue in which nothing waits. Want of memory gives the ranking back.
    pub(crate) fn new(heap: Global, sheet: &'a Sheet, ranking: R) -> Result<Queue<'a, R>, R>
        ensures { MatchResult result (λ q. (q.sheet.now ≡ sheet.now) × (q.ranking ≡ ranking) × (waiting_in q ≡ [])) (λ back. back ≡ ranking) }
    {
        // No `map_err`: the ranking goes into the queue or back.
        let Ok(entries) = Vec::with_capacity(heap, 1024) else {
            return Err(ranking);
        };
        Ok(Queue {
            sheet,
            ranking,
            entries,
        })
    }

    pub(crate) fn into_ranking(self) -> R
        ensures { result ≡ self.entry.ranking }
    {
        self.ranking
    }

    // How many states wait.
    pub(crate) fn len(&self) -> usize
        ensures value { result ≡ length (waiting_in self.now) }
        ensures few { result ≤ 1024 }
    {
        self.entries.len()
    }

    pub(crate) fn is_empty(&self) -> bool
        ensures { MatchBool result (waiting_in self.now ≡ []) (waiting_in self.now ≢ []) }
    {
        self.entries.is_empty()
    }

    // The foremost entry; none where nothing waits.
    pub(crate) fn foremost(&self) -> Option<Waiting<R::Key>>
        ensures { MatchOption result (waiting_in self.now ≡ []) (λ e. ForemostOf self.now e) }
    {
        last_of(&self.entries)
    }

    // Whether the first entry is ahead of the second, by their keys, which are those of their states.
    fn is_ahead(&self, first: Waiting<R::Key>, second: Waiting<R::Key>) -> bool
        ensures { first.state.number < 2 ^ count_of self.now.sheet.now → second.state.number < 2 ^ count_of self.now.sheet.now → first.key ≡ R.Ranking.keyed self.now.ranking self.now.sheet.now first.state.number → second.key ≡ R.Ranking.keyed self.now.ranking self.now.sheet.now second.state.number → result ≡ ahead (R.Ranking.outranks self.now.ranking self.now.sheet.now) first.state.number second.state.number }
    {
        is_ahead_by_own_keys(
            &self.ranking,
            self.sheet,
            (first.state, first.key),
            (second.state, second.key),
        )
    }

    // The place for an entry: it is ahead of all before it, and of none from there on.
    fn place_for(&self, newcomer: Waiting<R::Key>) -> usize
        requires on_sheet { newcomer.state.number < 2 ^ count_of self.now.sheet.now }
        requires keyed { newcomer.key ≡ R.Ranking.keyed self.now.ranking self.now.sheet.now newcomer.state.number }
        ensures within { result ≤ vec_len self.now.entries }
        ensures place { IsPartitionPoint (λ e. ahead (R.Ranking.outranks self.now.ranking self.now.sheet.now) newcomer.state.number e.state.number ≡ true) (λ e. ahead (R.Ranking.outranks self.now.ranking self.now.sheet.now) newcomer.state.number e.state.number ≡ false) self.now.entries.items result }
    {
        // No `partition_point`: it would ask a ranking what it answers for keys that are no state's, and compares once or twice more.
        let mut low = 0;
        let mut high = self.entries.len();
        while low < high {
            let middle = low + (high - low) / 2;
            if self.is_ahead(newcomer, self.entries[middle]) {
                low = middle + 1;
            } else {
                high = middle;
            }
        }
        low
    }

    // Makes a state wait, with its mass and its key worked out once. That a state is of the sheet is asked, and is no type: each
    // entry would carry its sheet.
    pub(crate) fn insert(&mut self, state: State)
        requires on_sheet { state.number < 2 ^ count_of self.old.sheet.now }
        requires room { length (waiting_in self.old) < 1024 }
        ensures basis { SameBasis self.old self.new }
        ensures states { Same (waiting_in self.new) (state.number ∷ waiting_in self.old) }
    {
        let weighed = Weighed::new(self.sheet, state);
        let newcomer = Waiting {
            state,
            mass: weighed.mass(),
            key: self.ranking.key(weighed),
        };
        let place = self.place_for(newcomer);
        let _ = self.entries.insert(place, newcomer);
    }

    // Takes the foremost entry away.
    fn remove_foremost(&mut self)
        requires { 0 < length (waiting_in self.old) }
        ensures basis { SameBasis self.old self.new }
        ensures len { length (waiting_in self.new) + 1 ≡ length (waiting_in self.old) }
        ensures removed { Removed self.old self.new }
    {
        let _ = self.entries.pop();
    }

    // Makes a state wait, if there is one.
    fn insert_any(&mut self, state: Option<State>)
        requires on_sheet { ForSome state (λ x. x.number < 2 ^ count_of self.old.sheet.now) }
        requires room { length (numbers state) + length (waiting_in self.old) ≤ 1024 }
        ensures basis { SameBasis self.old self.new }
        ensures states { Same (waiting_in self.new) (numbers state ++ waiting_in self.old) }
    {
        if let Some(state) = state {
            self.insert(state);
        }
    }

    // Takes the foremost entry away, and makes what comes after it wait.
    pub(crate) fn replace_foremost(&mut self, added: Option<State>, moved: Option<State>)
        requires some { 0 < length (waiting_in self.old) }
        requires added_on { ForSome added (λ x. x.number < 2 ^ count_of self.old.sheet.now) }
        requires moved_on { ForSome moved (λ x. x.number < 2 ^ count_of self.old.sheet.now) }
        requires room { length (numbers added) + (length (numbers moved) + length (waiting_in self.old)) ≤ 1025 }
        ensures basis { SameBasis self.old self.new }
        ensures replaced { Replaced (numbers added) (numbers moved) self.old self.new }
    {
        self.remove_foremost();
        self.insert_any(added);
        self.insert_any(moved);
    }
}
