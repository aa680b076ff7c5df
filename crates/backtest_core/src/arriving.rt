//! A slice arrives at a core: the universe is chosen, and each security hears its bar.
ghost use Rattle.std.specs.Prelude.{◌≡◌, ◌++◌, ◌-◌, ◌≤◌, length, vec_len, nat_lt, take, unsigned_abs, map, OnOk};
ghost use Rattle.lean_fixed.specs.Ranges.{IsPrintedMoment};
ghost use Rattle.universe_state.specs.Choice.{most_active};
ghost use Rattle.clock_run.specs.Lines.{added};
ghost use Rattle.backtest_core.specs.Text.{lines_bytes};

use crate::Stop;
use crate::leaving::mark_all;
use crate::lines::append_added;
use crate::selecting::{add_new, selected_in};
use crate::standing::Core;
use crate::watchlist::arrive_all;
use lean_fixed::{Moment, NoMemory, Symbol};
use lean_items::Arrival;
use universe_state::laws::additions_come_last;

/// The most securities that are active at a time.
const MOST_ACTIVE: usize = 256;

impl Core {
    ghost use Rattle.std.specs.Prelude.{◌≡◌, ◌≤◌, [], ℕ, true, false, List, vec_len, IfOk, IfErr, OnOk};
    ghost use Rattle.std.specs.List.{IsDistinct};
    ghost use Rattle.std.specs.Option.{option_map_or};
    ghost use Rattle.lean_fixed.specs.Ranges.{IsPrintedMoment};
    ghost use Rattle.exchange_hours.specs.Sessions.{moment};
    ghost use Rattle.universe_state.specs.Active.{is_same};
    ghost use Rattle.clock_run.specs.Lines.{Line};
    ghost use Rattle.backtest_core.specs.declared.stop.Stop.TheVariants.{Securities};
    ghost use Rattle.backtest_core.specs.Standing.{Standing};
    ghost use Rattle.backtest_core.specs.Inside.{rows_in, inside, choosing, choice, arrived_with, arrived, is_too_many, has_too_many};
    ghost use Rattle.backtest_core.specs.Slices.{IsSlice};
    ghost use Rattle.backtest_core.specs.Core.{StandsFor, StandsIn, others_of, requests_of};
    ghost use Rattle.backtest_core.specs.Phases.{most_others};
    ghost use Rattle.backtest_core.specs.Calls.{StopsFor};
    ghost use Rattle.backtest_core.specs.Beginning.{Begins, heard_at};

    /// A slice arrives at a moment: the universe is chosen where there are coarse rows, and each security hears its bar.
    /// `Stop::Securities` exactly where security 257 would be active; those before it are added. The moment has a text, and it
    /// lies behind that of the call before.
    pub fn arrive(&mut self, at: Moment, slice: &[Arrival]) -> Result<(), Stop>
        requires { IsPrintedMoment at.0 }
        ensures arrived { OnOk result ((t : ℕ) (v : Standing) (lines : List Line) → StandsFor self.old v lines
            → at ≡ moment t → v.waiting ≡ [] → IsSlice t v slice.now
            → (has_too_many v slice.now ≡ false) × StandsIn self.new (arrived t slice.now v)) }
        ensures stops { IfErr result (λ stop. (t : ℕ) (v : Standing) (lines : List Line) → StandsFor self.old v lines
            → at ≡ moment t → v.waiting ≡ [] → IsSlice t v slice.now → StopsFor stop Securities
            ((has_too_many v slice.now ≡ true) × StandsIn self.new (arrived t slice.now v))) }
        ensures at { self.new.commands.at ≡ at }
        ensures others { others_of self.new ≤ most_others }
        ensures requests { requests_of self.new ≤ requests_of self.old }
    {
        self.begin_moment(at);
        self.hear_bars(slice);
        match self.choose(slice) {
            Err(_) => Err(Stop::NoMemory),
            Ok(true) => Err(Stop::Securities),
            Ok(false) => Ok(()),
        }
    }

    // A moment begins. Whatever waited for its number is given up.
    fn begin_moment(&mut self, at: Moment)
        requires { IsPrintedMoment at.0 }
        ensures begins { (t : ℕ) (v : Standing) (lines : List Line) → StandsFor self.old v lines → at ≡ moment t
            → v.waiting ≡ [] → Begins t self.new v }
        ensures waiting { vec_len self.new.waiting ≡ 0 }
        ensures at { self.new.commands.at ≡ at }
        ensures others { others_of self.new ≤ most_others }
        ensures requests { requests_of self.new ≤ requests_of self.old }
    {
        self.commands.begin(at);
        self.waiting.clear();
        self.news.clear();
        self.text.clear();
    }

    // Each security hears its bar.
    fn hear_bars(&mut self, slice: &[Arrival])
        ensures hears { (t : ℕ) (v : Standing) → Begins t self.old v → IsSlice t v slice.now
            → StandsIn self.new (heard_at t slice.now v) }
        ensures waiting { vec_len self.new.waiting ≡ vec_len self.old.waiting }
        ensures commands { self.new.commands ≡ self.old.commands }
    {
        arrive_all(&mut self.watched, slice);
    }

    // The universe is chosen, where a choice is due. Whether there is no room for one more of those that are selected.
    fn choose(&mut self, slice: &[Arrival]) -> Result<bool, NoMemory>
        requires { vec_len self.old.waiting ≡ 0 }
        ensures chooses { IfOk result (λ over. (t : ℕ) (v : Standing) → StandsIn self.old (inside t [] v)
            → StandsIn self.new (arrived_with t (choice v.setup.plan.universe (rows_in slice.now)) v)
            × (over ≡ option_map_or (is_too_many v) (choice v.setup.plan.universe (rows_in slice.now)) false)) }
        ensures commands { self.new.commands ≡ self.old.commands }
    {
        match selected_in(self.alloc, &self.plan.universe, slice)? {
            None => Ok(false),
            Some(symbols) => self.add(&symbols),
        }
    }

    // The selected symbols that are not active are added, as far as there is room, and what is not selected is marked.
    fn add(&mut self, symbols: &[Symbol]) -> Result<bool, NoMemory>
        requires { vec_len self.old.waiting ≡ 0 }
        ensures adds { IfOk result (λ over. (t : ℕ) (v : Standing) → IsDistinct is_same symbols.now → StandsIn self.old (inside t [] v)
            → StandsIn self.new (choosing t symbols.now v) × (over ≡ is_too_many v symbols.now)) }
        ensures commands { self.new.commands ≡ self.old.commands }
    {
        additions_come_last();
        let mut news = Vec::new(self.alloc);
        add_new(&self.watched, symbols, &mut news)?;
        let over = cut_news(self.watched.len(), &mut news);
        self.news = news;
        mark_all(&mut self.watched, symbols);
        tell_added(self.commands.at, &self.news, &mut self.text)?;
        Ok(over)
    }
}

// Leaves out the symbols for which there is no room beside some active securities, and tells whether there are such.
fn cut_news(active: usize, news: &mut Vec<Symbol>) -> bool
    requires { active ≤ most_active }
    ensures over { result ≡ nat_lt (most_active - active) (length news.old.items) }
    ensures news { news.new.items ≡ take (most_active - active) news.old.items }
    ensures len { vec_len news.new ≤ most_active - active }
{
    let room = MOST_ACTIVE - active;
    let over = room < news.len();
    news.truncate(room);
    over
}

// Appends the lines of the symbols that are added.
fn tell_added(at: Moment, symbols: &[Symbol], text: &mut Vec<u8>) -> Result<(), NoMemory>
    requires { IsPrintedMoment at.0 }
    ensures { OnOk result (text.new.items
        ≡ text.old.items ++ lines_bytes (map (added (unsigned_abs at.0)) symbols.now)) }
{
    for symbol in symbols {
        append_added(at, *symbol, text)?;
    }
    Ok(())
}
