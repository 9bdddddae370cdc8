//! The report that owners at work in threads find, and the cut of the regions among owners.
ghost use Rattle.std.specs.Prelude.{◌≡◌, ◌≢◌, ◌⊎◌, ◌≤◌, true, length, option_map, string_bytes};
ghost use Rattle.std.specs.Prelude.{Err, IfErr, IfOk, IsErrAnd, MatchOption, None, Ok, Some};
ghost use Rattle.nll_cut.specs.Partition.{may_be_count};
ghost use Rattle.nll_cut.specs.declared.error.CutError.{CutError};
ghost use Rattle.nll_answer.specs.Running.{IsRunAnswer, IsRunError};
ghost use Rattle.nll_report.specs.Owners.{AsksForOwners, HasAskedCut, IsAskedCut};
ghost use Rattle.nll_report.specs.Owners.{IsCutRefused, IsCutTextRefused, IsFileTold};
ghost use Rattle.nll_report.specs.Owners.{IsOwnersRefused, IsTextCut, IsWorkRefused};
ghost use Rattle.nll_report.specs.Owners.{count_of, deal_of, mail_of};
ghost use Rattle.nll_report.specs.Refusal.{IsCutRefusal, cut_refusal_at};
ghost use Rattle.nll_report.specs.Run.{IsFileRefused};

use crate::file_text::{facts_of, without_text};
use crate::messages::Refusal;
use crate::program::Texts;
use nll_answer::{AnswerError, Command, answer_run};
use nll_command_line::{Deal, MailKind};
use nll_cut::{Cut, CutError};
use nll_facts::Facts;
use nll_format::{TextError, TextKind};
use nll_ledger::WordLedger;
use nll_lists::read_cut;
use nll_mail::{QueueMail, RingMail};
use nll_run::NoGate;
use std::alloc::Global;
use std::sync::Wait;
use std::thread::Threads;

/// The cut that a line asks for.
#[derive(Drop)]
pub(crate) struct AskedCut {
    /// How many owners there are.
    pub(crate) count: u16,
    /// How the regions are assigned to them without a cut file.
    pub(crate) deal: Deal,
    /// The path of the cut file.
    pub(crate) path: Option<String>,
}

/// The owners that a line asks for.
#[derive(Drop)]
pub(crate) struct Owners {
    /// How the regions are assigned to them.
    pub(crate) cut: AskedCut,
    /// The mailboxes between them.
    pub(crate) mail: MailKind,
}

/// The cut that options ask for: by default one owner and round-robin.
pub(crate) fn cut_asked(owners: Option<u16>, deal: Option<Deal>, path: Option<String>) -> AskedCut
    ensures { (result.count ≡ count_of owners) × (result.deal ≡ deal_of deal)
        × (result.path ≡ path) }
{
    AskedCut {
        count: owners.unwrap_or(1),
        deal: deal.unwrap_or(Deal::Round),
        path,
    }
}

/// The owners that options ask for: none if neither their number is given nor a cut file; otherwise
/// by default one owner, round-robin, over queues.
pub(crate) fn owners_asked(
    owners: Option<u16>,
    deal: Option<Deal>,
    mail: Option<MailKind>,
    cut: Option<String>,
) -> Option<Owners>
    ensures { MatchOption result ((owners ≡ None) × (cut ≡ None))
        (λ o. AsksForOwners owners (option_map string_bytes cut)
        × (o.cut.count ≡ count_of owners) × (o.cut.deal ≡ deal_of deal)
        × (o.cut.path ≡ cut) × (o.mail ≡ mail_of mail)) }
{
    if owners.is_none() && cut.is_none() {
        return None;
    }
    Some(Owners {
        cut: cut_asked(owners, deal, cut),
        mail: mail.unwrap_or(MailKind::Queue),
    })
}

/// The answer to a command on the text of its file, found by owners at work in threads. The file is
/// read and judged before the cut file is opened.
pub(crate) fn answered_by_owners<R: AllocGlobal + Threads + Wait + Sync, T: Texts>(
    rt: &R,
    command: Command,
    file: String,
    owners: Owners,
    texts: &T,
) -> Result<(Vec<u8>, u8), Refusal>
    requires { may_be_count owners.cut.count ≡ true }
    ensures ok { IfOk result (λ r. IsFileTold (T.holds texts.now) (string_bytes file)
        owners.cut.count owners.cut.deal (option_map string_bytes owners.cut.path)
        (λ problem labels cut. IsRunAnswer command problem labels cut r.0.items r.1)) }
    ensures status { IfOk result (λ r. r.1 ≤ 1) }
    ensures err { IfErr result (λ e.
        IsFileRefused (T.holds texts.now) (T.lacks texts.now) (string_bytes file) e
        ⊎ IsOwnersRefused (T.holds texts.now) (T.lacks texts.now) (string_bytes file)
        owners.cut.count owners.cut.deal (option_map string_bytes owners.cut.path) e) }
{
    let facts = facts_of(rt.alloc(), file, texts)?;
    let told = told_by_owners(rt, command, &facts, owners, texts);
    drop(facts);
    told
}

// The answer to a command on a problem and its labels, by the owners of the cut that is asked for.
fn told_by_owners<R: AllocGlobal + Threads + Wait + Sync, T: Texts>(
    rt: &R,
    command: Command,
    facts: &Facts,
    owners: Owners,
    texts: &T,
) -> Result<(Vec<u8>, u8), Refusal>
    requires named { length facts.now.labels.names ≡ facts.now.problem.regions }
    requires lawful { may_be_count owners.cut.count ≡ true }
    ensures ok { IfOk result (λ r. HasAskedCut (T.holds texts.now) facts.now.problem.regions
        owners.cut.count owners.cut.deal (option_map string_bytes owners.cut.path)
        (λ cut. IsRunAnswer command facts.now.problem facts.now.labels cut r.0.items r.1)) }
    ensures status { IfOk result (λ r. r.1 ≤ 1) }
    ensures err { IfErr result (IsWorkRefused (T.holds texts.now) (T.lacks texts.now)
        facts.now.problem owners.cut.count owners.cut.deal
        (option_map string_bytes owners.cut.path)) }
{
    let Owners { cut, mail } = owners;
    let cut = asked_cut(rt.alloc(), facts.problem.regions(), cut, texts)?;
    let told = told_by_cut(rt, command, facts, &cut, mail);
    drop(cut);
    Ok(told?)
}

// The answer to a command on a problem and its labels, by the owners of a cut, over mailboxes of
// this kind.
fn told_by_cut<R: AllocGlobal + Threads + Wait + Sync>(
    rt: &R,
    command: Command,
    facts: &Facts,
    cut: &Cut,
    mail: MailKind,
) -> Result<(Vec<u8>, u8), AnswerError>
    requires named { length facts.now.labels.names ≡ facts.now.problem.regions }
    requires cut { length cut.now.list ≡ facts.now.problem.regions }
    ensures ok { IfOk result (λ r.
        IsRunAnswer command facts.now.problem facts.now.labels cut.now r.0.items r.1) }
    ensures status { IfOk result (λ r. r.1 ≤ 1) }
    ensures err { IfErr result IsRunError }
{
    let alloc = rt.alloc();
    match mail {
        MailKind::Queue => {
            let mail = QueueMail::new(rt);
            answer_run(rt, alloc, command, facts, cut, &mail, &WordLedger, &NoGate)
        }
        MailKind::Ring => {
            let mail = RingMail::new();
            answer_run(rt, alloc, command, facts, cut, &mail, &WordLedger, &NoGate)
        }
    }
}

/// The cut that is asked for, of this many regions.
pub(crate) fn asked_cut<T: Texts>(
    alloc: Global,
    regions: u32,
    asked: AskedCut,
    texts: &T,
) -> Result<Cut, Refusal>
    requires { may_be_count asked.count ≡ true }
    ensures regions { IfOk result (λ cut. length cut.list ≡ regions) }
    ensures asked { IfOk result (IsAskedCut (T.holds texts.now) regions asked.count asked.deal
        (option_map string_bytes asked.path)) }
    ensures err { IfErr result (IsCutRefused (T.holds texts.now) (T.lacks texts.now)
        regions asked.count (option_map string_bytes asked.path)) }
{
    let AskedCut { count, deal, path } = asked;
    match path {
        Some(path) => match texts.get(path.as_str()) {
            Ok(text) => listed_cut(alloc, regions, count, text),
            Err(unread) => Err(without_text(unread, path)),
        },
        None => match deal {
            Deal::Round => taken(Cut::round(alloc, regions, count)),
            Deal::Blocks => taken(Cut::blocks(alloc, regions, count)),
        },
    }
}

// The cut that a text lists. The text is freed as soon as it is read.
fn listed_cut(alloc: Global, regions: u32, count: u16, text: Vec<u8>) -> Result<Cut, Refusal>
    requires { may_be_count count ≡ true }
    ensures regions { IfOk result (λ cut. length cut.list ≡ regions) }
    ensures listed { IfOk result (IsTextCut regions count text.items) }
    ensures err { IfErr result (IsCutTextRefused regions count text.items) }
{
    let list = read_cut(alloc, text.as_slice());
    drop(text);
    match list {
        Ok(list) => taken(Cut::from_list(alloc, regions, count, list.as_slice())),
        Err(error) => Err(refusal_of_cut_text(error)),
    }
}

// The cut, or the refusal if there is none.
fn taken(cut: Result<Cut, CutError>) -> Result<Cut, Refusal>
    requires { cut ≢ Err CutError.Owners }
    ensures ok { IfOk cut (λ value. result ≡ Ok value) }
    ensures err { IfErr cut (λ error. IsErrAnd result (IsCutRefusal error)) }
{
    match cut {
        Ok(cut) => Ok(cut),
        Err(CutError::Owners) => unreachable!(),
        Err(CutError::Length) => Err(Refusal::CutLength),
        Err(CutError::NoSuchOwner(index)) => Err(Refusal::NoSuchOwner(index)),
        Err(CutError::Memory) => Err(Refusal::Memory),
    }
}

// The refusal of the text of a cut file.
fn refusal_of_cut_text(error: TextError) -> Refusal
    ensures { result ≡ cut_refusal_at error.line error.kind }
{
    match error.kind {
        TextKind::Memory => Refusal::Memory,
        kind => Refusal::CutText(error.line, kind),
    }
}
