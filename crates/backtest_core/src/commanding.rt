//! A core gives the commands of a moment, phase by phase, and hears the replies.
ghost use Rattle.std.specs.Prelude.{◌≡◌, ◌≤◌, ◌-◌, ◌↔◌, ◌++◌, true, length, vec_len, take, nat_lt, unsigned_abs, OnOk};
ghost use Rattle.lean_fixed.specs.Ranges.{IsPrintedMoment};
ghost use Rattle.clock_book.specs.Fitting.{IsFitting};
ghost use Rattle.clock_book.specs.Seen.{Seen, given_out};
ghost use Rattle.clock_run.specs.Moments.{most_requests};
ghost use Rattle.backtest_core.specs.Mirror.{Sees};
ghost use Rattle.backtest_core.specs.Calls.{HasText};
ghost use Rattle.backtest_core.specs.Text.{lines_bytes, lines_told};

use crate::asking::ask_rules;
use crate::lines::append_closed;
use crate::mirror::Mirror;
use crate::standing::Core;
use crate::telling::{tell_close, tell_prices};
use crate::{Phase, Stop};
use lean_fixed::ranges::LAST_PRINTED_MOMENT;
use lean_fixed::{Moment, NoMemory};
use lean_orders::{Command, Heard, Reply};
use report_lines::write_event;
use rule_strategy::{Plan, Rule};

/// The most requests of a run.
const MOST_REQUESTS: u32 = 1_000_000;

impl Core {
    ghost use Rattle.std.specs.Prelude.{◌≡◌, [], true, false, List, IfOk, IfErr, IfSome, OnOk, Some};
    ghost use Rattle.backtest_core.specs.declared.phase.Phase.TheVariants.{Prices, Rules, Close};
    ghost use Rattle.backtest_core.specs.declared.stop.Stop.TheVariants.{Requests};
    ghost use Rattle.backtest_core.specs.Inside.{Inside, begins, commands_of, is_over_in, entered, next, first_of, hearing};
    ghost use Rattle.backtest_core.specs.Core.{StandsIn, GivesNoMore, requests_of};
    ghost use Rattle.clock_run.specs.Lines.{Line};
    ghost use Rattle.backtest_core.specs.Standing.{Standing};
    ghost use Rattle.backtest_core.specs.Core.{StandsFor};
    ghost use Rattle.backtest_core.specs.Text.{lines_bytes};
    ghost use Rattle.backtest_core.specs.Calls.{StopsFor, CanHear, HasText, Gives};

    /// The next command of a phase. A phase begins with its first command, behind those before it. `None` exactly where the
    /// phase has no more; `Stop::Requests` exactly where it goes on with request 1,000,001.
    pub fn next_command(&mut self, phase: Phase) -> Result<Option<Command>, Stop>
        ensures next { IfOk result (λ command. (i : Inside) → StandsIn self.old i
            → (command ≡ first_of (entered phase i).left) × StandsIn self.new (next (entered phase i))
            × ((entered phase i).left ≡ [] → (entered phase i).over ≡ false)) }
        ensures stops { IfErr result (λ stop. (i : Inside) → StandsIn self.old i → StopsFor stop Requests
            (((entered phase i).left ≡ []) × ((entered phase i).over ≡ true) × StandsIn self.new (entered phase i))) }
        ensures gives { IfOk result (λ command. IfSome command (Gives self.old self.new)) }
        ensures numbers { GivesNoMore self.old self.new }
    {
        match self.enter(phase) {
            Err(_) => Err(Stop::NoMemory),
            Ok(()) => self.give(),
        }
    }

    // A phase begins, where it has not begun.
    fn enter(&mut self, phase: Phase) -> Result<(), NoMemory>
        ensures enters { OnOk result ((i : Inside) → StandsIn self.old i → StandsIn self.new (entered phase i)) }
        ensures at { self.new.commands.at ≡ self.old.commands.at }
        ensures numbers { GivesNoMore self.old self.new }
    {
        if !self.commands.begins(phase) {
            return Ok(());
        }
        match phase {
            Phase::Prices => self.begin_prices(),
            Phase::Rules => self.begin_rules(),
            Phase::Close => self.begin_close(),
        }
    }

    fn begin_prices(&mut self) -> Result<(), NoMemory>
        requires { begins Prices self.old.commands.phase ≡ true }
        ensures begins { OnOk result ((i : Inside) → StandsIn self.old i → StandsIn self.new
            (record i { phase = Some Prices; left = commands_of Prices i; over = is_over_in Prices i })) }
        ensures at { self.new.commands.at ≡ self.old.commands.at }
        ensures numbers { GivesNoMore self.old self.new }
    {
        self.asked.clear();
        tell_prices(&self.watched, self.commands.at, &mut self.asked)?;
        self.commands.enter(Phase::Prices, &mut self.asked, false);
        Ok(())
    }

    fn begin_rules(&mut self) -> Result<(), NoMemory>
        requires { begins Rules self.old.commands.phase ≡ true }
        ensures begins { OnOk result ((i : Inside) → StandsIn self.old i → StandsIn self.new
            (record i { phase = Some Rules; left = commands_of Rules i; over = is_over_in Rules i })) }
        ensures at { self.new.commands.at ≡ self.old.commands.at }
        ensures numbers { GivesNoMore self.old self.new }
    {
        self.asked.clear();
        ask_rules(
            &self.table.rules,
            rules_of(&self.plan),
            &self.watched,
            &self.mirror,
            self.commands.at,
            &mut self.view,
            &mut self.asked,
        )?;
        let over = cut(self.commands.requests, &mut self.asked);
        self.commands.enter(Phase::Rules, &mut self.asked, over);
        Ok(())
    }

    fn begin_close(&mut self) -> Result<(), NoMemory>
        requires { begins Close self.old.commands.phase ≡ true }
        ensures begins { OnOk result ((i : Inside) → StandsIn self.old i → StandsIn self.new
            (record i { phase = Some Close; left = commands_of Close i; over = is_over_in Close i })) }
        ensures at { self.new.commands.at ≡ self.old.commands.at }
        ensures numbers { GivesNoMore self.old self.new }
    {
        self.asked.clear();
        tell_close(&self.hours, self.commands.at, &mut self.asked)?;
        self.commands.enter(Phase::Close, &mut self.asked, false);
        Ok(())
    }

    // The next command of the phase that has begun.
    fn give(&mut self) -> Result<Option<Command>, Stop>
        ensures next { IfOk result (λ command. (i : Inside) → StandsIn self.old i
            → (command ≡ first_of i.left) × StandsIn self.new (next i) × (i.left ≡ [] → i.over ≡ false)) }
        ensures stops { IfErr result (λ stop. (i : Inside) → StandsIn self.old i → StopsFor stop Requests
            ((i.left ≡ []) × (i.over ≡ true) × StandsIn self.new i)) }
        ensures gives { IfOk result (λ command. IfSome command (Gives self.old self.new)) }
        ensures numbers { GivesNoMore self.old self.new }
    {
        match self.commands.next() {
            Some(command) => match see(&mut self.mirror, &command) {
                Ok(()) => Ok(Some(command)),
                Err(_) => Err(Stop::NoMemory),
            },
            None => {
                if self.commands.over {
                    Err(Stop::Requests)
                } else {
                    Ok(None)
                }
            }
        }
    }

    /// Hears a reply, and prints it. An event whose moment has no text is passed over, and so is a fill whose numbers are not
    /// in their ranges or that comes behind 1,000,000 others.
    pub fn hear(&mut self, heard: &Heard) -> Result<(), NoMemory>
        ensures hears { OnOk result ((i : Inside) → StandsIn self.old i → CanHear i.standing.seen heard.now.reply
            → StandsIn self.new (hearing heard.now.reply i)) }
        ensures numbers { GivesNoMore self.old self.new }
    {
        if !self.can_hear(&heard.reply) {
            return Ok(());
        }
        tell(self.commands.at, &heard.reply, &mut self.text)?;
        self.mirror.hear(&heard.reply)
    }

    fn can_hear(&self, reply: &Reply) -> bool
        ensures printed { result ≡ true → HasText reply.now }
        ensures hears { (i : Inside) → StandsIn self.now i → CanHear i.standing.seen reply.now → result ≡ true }
    {
        has_text(reply) && self.mirror.can_learn(reply)
    }

    /// The lines of the moment so far; between two moments, those of the one before.
    pub fn text(&self) -> &[u8]
        ensures between { (v : Standing) (lines : List Line) → StandsFor self.now v lines → result.now ≡ lines_bytes lines }
        ensures inside { (i : Inside) → StandsIn self.now i → result.now ≡ lines_bytes i.lines }
        ensures kept { result.now ≡ self.now.text.items }
    {
        self.text.as_slice()
    }
}

fn rules_of(plan: &Plan) -> &[Rule]
    ensures { result.now ≡ plan.now.rules }
{
    plan.rules.0.as_slice()
}

// Leaves out the requests for which there is no room behind those that were given, and tells whether there are such.
fn cut(given: u32, asked: &mut Vec<Command>) -> bool
    requires { given ≤ most_requests }
    ensures over { result ≡ nat_lt (most_requests - given) (length asked.old.items) }
    ensures asked { asked.new.items ≡ take (most_requests - given) asked.old.items }
    ensures len { vec_len asked.new ≤ most_requests - given }
{
    let room = (MOST_REQUESTS - given) as usize;
    let over = room < asked.len();
    asked.truncate(room);
    over
}

// What is known as a command is given.
fn see(mirror: &mut Mirror, command: &Command) -> Result<(), NoMemory>
    ensures { OnOk result ((seen : Seen) → Sees mirror.old seen → IsFitting command.now
        → Sees mirror.new (given_out seen command.now)) }
{
    match command {
        Command::Mark(_, symbol, bar) => mirror.mark(*symbol, bar.closing),
        Command::Match(_) => Ok(()),
        Command::Submit(_, _) => Ok(()),
        Command::Update(_, _, _) => Ok(()),
        Command::Cancel(_, _) => Ok(()),
        Command::Account(_) => Ok(()),
    }
}

fn has_text(reply: &Reply) -> bool
    ensures { (result ≡ true) ↔ HasText reply.now }
{
    match reply {
        Reply::Event(event) => is_printed(event.at),
        Reply::Account(_, _) => true,
        Reply::Done => true,
    }
}

fn is_printed(at: Moment) -> bool
    ensures { (result ≡ true) ↔ IsPrintedMoment at.0 }
{
    0 <= at.0 && at.0 <= LAST_PRINTED_MOMENT
}

// Appends the line of a reply, where it has one.
#[tactic(auto, unfolding(clock_run::specs::Lines::line_bytes))]
fn tell(at: Moment, reply: &Reply, text: &mut Vec<u8>) -> Result<(), NoMemory>
    requires at { IsPrintedMoment at.0 }
    requires reply { HasText reply.now }
    ensures { OnOk result (text.new.items ≡ text.old.items ++ lines_bytes (lines_told (unsigned_abs at.0) reply.now)) }
{
    match reply {
        Reply::Event(event) => write_event(event, text),
        Reply::Account(cash, equity) => append_closed(at, *cash, *equity, text),
        Reply::Done => Ok(()),
    }
}
