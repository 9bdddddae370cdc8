//! The replay of a schedule over the text of a file. No thread is started for it.
ghost use Rattle.std.specs.Prelude.{◌≡◌, ◌≢◌, ◌⊎◌, ◌<◌, ◌≤◌, None, true, length, option_map};
ghost use Rattle.std.specs.Prelude.{IfErr, IfOk, IfSome, string_bytes};
ghost use Rattle.nll_problem.specs.Limits.{most_owners};
ghost use Rattle.nll_cut.specs.Partition.{may_be_count};
ghost use Rattle.nll_command_line.specs.Options.{options_said};
ghost use Rattle.nll_command_line.specs.declared.task.Task.TheVariants.{Replay};
ghost use Rattle.nll_report.specs.Owners.{HasAskedCut};
ghost use Rattle.nll_report.specs.Refusal.{schedule_refusal_at};
ghost use Rattle.nll_report.specs.Replays.{IsFileReplay, IsFileReplayRefused, IsListedReplay};
ghost use Rattle.nll_report.specs.Replays.{IsListedSchedule, IsReplayRefused, IsScheduleRefused};
ghost use Rattle.nll_report.specs.Run.{IsFileRefused, IsTaskAnswer, IsTaskRefused};

use crate::file_text::{facts_of, without_text};
use crate::messages::Refusal;
use crate::owners::{AskedCut, asked_cut, cut_asked};
use crate::program::Texts;
use nll_answer::replay_text;
use nll_command_line::Line;
use nll_cut::Cut;
use nll_facts::Facts;
use nll_format::{TextError, TextKind};
use nll_lists::read_schedule;
use nll_model::Event;
use std::alloc::Global;

/// The replay of the line's schedule over the text of its file, by the owners of the cut that is
/// asked for.
pub(crate) fn replayed<T: Texts>(
    alloc: Global,
    line: Line,
    texts: &T,
) -> Result<(Vec<u8>, u8), Refusal>
    requires owners { IfSome line.owners (λ n. (0 < n) × (n ≤ most_owners)) }
    requires given { line.schedule ≢ None }
    ensures ok { IfOk result (λ r. IsTaskAnswer (T.holds texts.now) Replay
        (string_bytes line.file) (options_said line) r.0.items r.1) }
    ensures status { IfOk result (λ r. r.1 ≤ 1) }
    ensures err { IfErr result (IsTaskRefused (T.holds texts.now) (T.lacks texts.now)
        Replay (string_bytes line.file) (options_said line)) }
{
    let Line {
        task: _,
        file,
        owners,
        deal,
        cut,
        mail: _,
        schedule,
    } = line;
    match schedule {
        Some(schedule) => told_of_file(alloc, file, cut_asked(owners, deal, cut), schedule, texts),
        None => unreachable!(),
    }
}

// The replay of a schedule over the text of a file, by the owners of a cut. The file is read and
// judged before the cut file is opened.
fn told_of_file<T: Texts>(
    alloc: Global,
    file: String,
    cut: AskedCut,
    schedule: String,
    texts: &T,
) -> Result<(Vec<u8>, u8), Refusal>
    requires { may_be_count cut.count ≡ true }
    ensures ok { IfOk result (λ r. IsFileReplay (T.holds texts.now) (string_bytes file)
        cut.count cut.deal (option_map string_bytes cut.path) (string_bytes schedule)
        r.0.items r.1) }
    ensures status { IfOk result (λ r. r.1 ≤ 1) }
    ensures err { IfErr result (λ e.
        IsFileRefused (T.holds texts.now) (T.lacks texts.now) (string_bytes file) e
        ⊎ IsFileReplayRefused (T.holds texts.now) (T.lacks texts.now) (string_bytes file)
        cut.count cut.deal (option_map string_bytes cut.path) (string_bytes schedule) e) }
{
    let facts = facts_of(alloc, file, texts)?;
    let told = told_of_problem(alloc, &facts, cut, schedule, texts);
    drop(facts);
    Ok((told?, 0))
}

// The report of a replay over a problem and its labels. The cut file is read and judged before the
// schedule is opened.
fn told_of_problem<T: Texts>(
    alloc: Global,
    facts: &Facts,
    cut: AskedCut,
    schedule: String,
    texts: &T,
) -> Result<Vec<u8>, Refusal>
    requires named { length facts.now.labels.names ≡ facts.now.problem.regions }
    requires lawful { may_be_count cut.count ≡ true }
    ensures ok { IfOk result (λ report. HasAskedCut (T.holds texts.now)
        facts.now.problem.regions cut.count cut.deal (option_map string_bytes cut.path)
        (IsListedReplay (T.holds texts.now) cut.count (string_bytes schedule) report.items
        facts.now.problem facts.now.labels)) }
    ensures err { IfErr result (IsReplayRefused (T.holds texts.now) (T.lacks texts.now)
        facts.now.problem.regions cut.count cut.deal (option_map string_bytes cut.path)
        (string_bytes schedule)) }
{
    let count = cut.count;
    let cut = asked_cut(alloc, facts.problem.regions(), cut, texts)?;
    let told = told_by_cut(alloc, facts, &cut, count, schedule, texts);
    drop(cut);
    told
}

// The report of a replay over a problem and its labels, by this many owners of a cut.
fn told_by_cut<T: Texts>(
    alloc: Global,
    facts: &Facts,
    cut: &Cut,
    owners: u16,
    schedule: String,
    texts: &T,
) -> Result<Vec<u8>, Refusal>
    requires named { length facts.now.labels.names ≡ facts.now.problem.regions }
    requires cut { length cut.now.list ≡ facts.now.problem.regions }
    ensures ok { IfOk result (λ report. IsListedReplay (T.holds texts.now) owners
        (string_bytes schedule) report.items facts.now.problem facts.now.labels cut.now) }
    ensures err { IfErr result (IsScheduleRefused (T.holds texts.now) (T.lacks texts.now)
        owners (string_bytes schedule)) }
{
    let events = listed_events(alloc, owners, schedule, texts)?;
    let told = replay_text(alloc, &facts.problem, &facts.labels, cut, events.as_slice());
    drop(events);
    match told {
        Ok(report) => Ok(report),
        Err(_) => Err(Refusal::Memory),
    }
}

// The events that a schedule's file lists.
fn listed_events<T: Texts>(
    alloc: Global,
    owners: u16,
    path: String,
    texts: &T,
) -> Result<Vec<Event>, Refusal>
    ensures listed { IfOk result (λ events.
        IsListedSchedule (T.holds texts.now) (string_bytes path) owners events.items) }
    ensures err { IfErr result (IsScheduleRefused (T.holds texts.now) (T.lacks texts.now)
        owners (string_bytes path)) }
{
    match texts.get(path.as_str()) {
        Ok(text) => match read_schedule(alloc, text.as_slice(), owners) {
            Ok(events) => Ok(events),
            Err(error) => Err(refusal_of_schedule(error)),
        },
        Err(unread) => Err(without_text(unread, path)),
    }
}

// The refusal of the text of a schedule.
fn refusal_of_schedule(error: TextError) -> Refusal
    ensures { result ≡ schedule_refusal_at error.line error.kind }
{
    match error.kind {
        TextKind::Memory => Refusal::Memory,
        kind => Refusal::ScheduleText(error.line, kind),
    }
}
