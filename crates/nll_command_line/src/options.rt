//! The options among the arguments after a command.
ghost use Rattle.std.specs.Prelude.{◌≡◌, ◌≢◌, ◌⊎◌, ◌++◌, ◌∷◌, [], ℕ, List, map, string_bytes};
ghost use Rattle.std.specs.Prelude.{◌<◌, ◌≤◌, MatchOption, OnOk, IfOk, IfErr, None, Some, true, false};
ghost use Rattle.std.specs.Fmt.{decimal};
ghost use Rattle.nll_problem.specs.Limits.{most_owners};
ghost use Rattle.nll_command_line.specs.CommandLine as lines;
ghost use Rattle.nll_command_line.specs.CommandLine.{begins_as_option};
ghost use Rattle.nll_command_line.specs.Options.{AreOptionsRead, Given, HasOptions, IsLawfulOption};
ghost use Rattle.nll_command_line.specs.Options.{key_of};
ghost use Rattle.nll_command_line.specs.Options.{Suits, deal, mail, value_of, word_of};
ghost use Rattle.nll_command_line.specs.Taking.{AreReadJust, AreUnreadable, HasJust, HasNoOption};
ghost use Rattle.nll_command_line.specs.Taking.{IsKind, IsUnfit, IsUnfitBefore, SaysBy, said_of};

use crate::error::LineError;
use crate::task::Task;

/// How regions are assigned to owners.
#[derive(Clone, Copy, Debug, PartialEq, Eq)]
pub enum Deal {
    /// In turns.
    Round,
    /// In blocks of neighbours.
    Blocks,
}

/// What carries messages between owners.
#[derive(Clone, Copy, Debug, PartialEq, Eq)]
pub enum MailKind {
    /// Queues without a bound.
    Queue,
    /// Rings of 256 places.
    Ring,
}

/// An option.
#[derive(Clone, Copy)]
pub(crate) enum Key {
    Owners,
    Deal,
    Cut,
    Mail,
    Schedule,
}

/// What the options give.
#[derive(Clone, Copy)]
pub(crate) struct Options<'a> {
    pub(crate) owners: Option<u16>,
    pub(crate) deal: Option<Deal>,
    pub(crate) cut: Option<&'a str>,
    pub(crate) mail: Option<MailKind>,
    pub(crate) schedule: Option<&'a str>,
}

/// What an argument is.
#[derive(Clone, Copy)]
pub(crate) enum Kind<'a> {
    /// The name of an option.
    Alone(Key),
    /// That of an option and its value.
    Joined(Key, &'a str),
    /// It does not begin as an option.
    Plain,
    /// It begins as one, and is none of them.
    Last,
}

impl<'a> Options<'a> {
    // Takes an option and its value in.
    fn give(&mut self, key: Key, value: &'a str) -> Result<(), LineError>
        ensures ok { OnOk result ((given : List Given) → SaysBy given self.old
            → (g : Given) × (key_of g ≡ key) × (value_of g ≡ value.now) × IsLawfulOption g
            × SaysBy (given ++ g ∷ []) self.new) }
        ensures err { IfErr result (λ e. (e ≡ LineError.Usage)
            × ((given : List Given) → SaysBy given self.old → IsUnfit given key value.now)) }
    {
        match key {
            Key::Owners => fill(&mut self.owners, owners_of(value)),
            Key::Deal => fill(&mut self.deal, deal_of(value)),
            Key::Cut => fill(&mut self.cut, Some(value)),
            Key::Mail => fill(&mut self.mail, mail_of(value)),
            Key::Schedule => fill(&mut self.schedule, Some(value)),
        }
    }

    /// Whether the options are those of the task.
    pub(crate) fn suit(&self, task: Task) -> bool
        ensures suited { result ≡ true → Suits task (said_of self.now) }
        ensures unsuited { result ≡ false → Suits task (said_of self.now) → ⊥ }
    {
        match task {
            Task::Values | Task::Check => self.schedule.is_none(),
            Task::Replay => self.schedule.is_some() && self.mail.is_none(),
        }
    }
}

// Puts what is given in its place, where something is given and nothing is there yet.
fn fill<T: Copy>(place: &mut Option<T>, given: Option<T>) -> Result<(), LineError>
    ensures ok { OnOk result ((place.old ≡ None)
        × (x : T) × (given ≡ Some x) × (place.new ≡ Some x)) }
    ensures err { IfErr result (λ e. (e ≡ LineError.Usage)
        × ((x : T) → given ≡ Some x → (y : T) × (place.old ≡ Some y))) }
{
    if place.is_some() || given.is_none() {
        return Err(LineError::Usage);
    }
    *place = given;
    Ok(())
}

// How the value says that regions are assigned.
fn deal_of(value: &str) -> Option<Deal>
    ensures { MatchOption result ((how : Deal) → value.now ≢ value_of (deal how))
        (λ how. value.now ≡ value_of (deal how)) }
{
    match value {
        "round" => Some(Deal::Round),
        "blocks" => Some(Deal::Blocks),
        _ => None,
    }
}

// Which mailboxes the value says.
fn mail_of(value: &str) -> Option<MailKind>
    ensures { MatchOption result ((kind : MailKind) → value.now ≢ value_of (mail kind))
        (λ kind. value.now ≡ value_of (mail kind)) }
{
    match value {
        "queue" => Some(MailKind::Queue),
        "ring" => Some(MailKind::Ring),
        _ => None,
    }
}

// How many owners the value says, from 1 to 64, where it is that number as it is printed.
fn owners_of(value: &str) -> Option<u16>
    ensures { MatchOption result
        ((n : ℕ) → (0 < n) × (n ≤ most_owners) × (value.now ≡ decimal n) → ⊥)
        (λ n. (0 < n) × (n ≤ most_owners) × (value.now ≡ decimal n)) }
{
    // `parse` takes a `+` and leading zeros as well.
    let [b'1'..=b'9', ..] = value.as_bytes() else {
        return None;
    };
    match value.parse::<u16>() {
        Ok(owners) if owners <= 64 => Some(owners),
        _ => None,
    }
}

fn begins_as_option(word: &str) -> bool
    ensures { result ≡ lines.begins_as_option word.now }
{
    let bytes = word.as_bytes();
    bytes.len() > 1 && bytes[0] == b'-'
}

// The option with this name.
fn key_named(word: &str) -> Option<Key>
    ensures { MatchOption result ((k : Key) → word.now ≢ word_of k) (λ k. word.now ≡ word_of k) }
{
    match word {
        "--owners" => Some(Key::Owners),
        "--deal" => Some(Key::Deal),
        "--cut" => Some(Key::Cut),
        "--mail" => Some(Key::Mail),
        "--schedule" => Some(Key::Schedule),
        _ => None,
    }
}

// What an argument is.
fn kind_of(word: &str) -> Kind<'_>
    ensures { IsKind word.now result }
{
    if !begins_as_option(word) {
        return Kind::Plain;
    }
    if let Some(key) = key_named(word) {
        return Kind::Alone(key);
    }
    let Some((front, value)) = word.split_once('=') else {
        return Kind::Last;
    };
    match key_named(front) {
        Some(key) => Kind::Joined(key, value),
        None => Kind::Last,
    }
}

/// Takes the options out of the arguments after the first, unless that begins as an option; the
/// others go into an empty list.
pub(crate) fn part_words<'a>(
    words: &'a [String],
    options: &mut Options<'a>,
    others: &mut Vec<&'a str>,
) -> Result<(), LineError>
    requires none { SaysBy [] options.old }
    requires empty { others.old.items ≡ [] }
    ensures ok { OnOk result (AreOptionsRead (map string_bytes words.now)
        (map (λ word. word.now) others.new.items) (said_of options.new)) }
    ensures just { OnOk result (AreReadJust (map string_bytes words.now)
        (map (λ word. word.now) others.new.items) (said_of options.new)) }
    ensures err { IfErr result (λ e. (e ≡ LineError.Memory)
        ⊎ ((e ≡ LineError.Usage) × AreUnreadable (map string_bytes words.now))) }
{
    let Some((first, rest)) = words.split_first() else {
        return Ok(());
    };
    if begins_as_option(first.as_str()) {
        return push_all(words, others);
    }
    others.push(first.as_str())?;
    take_options(rest, options, others)?;
    if options.deal.is_some() && options.cut.is_some() {
        return Err(LineError::Usage);
    }
    Ok(())
}

// Takes the options out of the arguments after a command, and appends the others.
fn take_options<'a>(
    words: &'a [String],
    options: &mut Options<'a>,
    others: &mut Vec<&'a str>,
) -> Result<(), LineError>
    requires { SaysBy [] options.old }
    ensures ok { OnOk result ((given : List Given) × (more : List (List ℕ))
        × HasOptions given more (map string_bytes words.now)
        × HasJust given more (map string_bytes words.now) × SaysBy given options.new
        × (map (λ word. word.now) others.new.items
        ≡ map (λ word. word.now) others.old.items ++ more)) }
    ensures err { IfErr result (λ e. (e ≡ LineError.Memory)
        ⊎ ((e ≡ LineError.Usage) × HasNoOption (map string_bytes words.now))) }
{
    let mut left = words;
    while let Some((word, behind)) = left.split_first() {
        left = match kind_of(word.as_str()) {
            Kind::Alone(key) => give_next(key, behind, options)?,
            Kind::Joined(key, value) => {
                options.give(key, value)?;
                behind
            }
            Kind::Plain => {
                others.push(word.as_str())?;
                behind
            }
            Kind::Last => return push_all(left, others),
        };
    }
    Ok(())
}

// Takes an option whose value is the next argument, and returns the arguments after it.
fn give_next<'a>(
    key: Key,
    words: &'a [String],
    options: &mut Options<'a>,
) -> Result<&'a [String], LineError>
    ensures ok { IfOk result (λ behind. (given : List Given) → SaysBy given options.old
        → (g : Given) × (key_of g ≡ key) × (begins_as_option (value_of g) ≡ false)
        × IsLawfulOption g
        × (map string_bytes words.entry.now ≡ value_of g ∷ map string_bytes behind.now)
        × SaysBy (given ++ g ∷ []) options.new) }
    ensures err { IfErr result (λ e. (e ≡ LineError.Usage)
        × ((given : List Given) → SaysBy given options.old
        → IsUnfitBefore given key (map string_bytes words.entry.now))) }
{
    let Some((value, behind)) = words.split_first() else {
        return Err(LineError::Usage);
    };
    if begins_as_option(value.as_str()) {
        return Err(LineError::Usage);
    }
    options.give(key, value.as_str())?;
    Ok(behind)
}

// Appends arguments.
fn push_all<'a>(words: &'a [String], others: &mut Vec<&'a str>) -> Result<(), LineError>
    ensures ok { OnOk result (map (λ word. word.now) others.new.items
        ≡ map (λ word. word.now) others.old.items ++ map string_bytes words.now) }
    ensures err { IfErr result (λ e. e ≡ LineError.Memory) }
{
    for word in words {
        others.push(word.as_str())?;
    }
    Ok(())
}
