//! The words of the program, and the settings that they spell.
ghost use Rattle.std.specs.Prelude.{◌≡◌, ◌≢◌, ◌<◌, ◌^◌, ◌++◌, ◌∷◌, [], List, ℕ, MatchBool, MatchOption, codes, map, string_bytes, true};
ghost use Rattle.std.specs.Fmt.{decimal};
ghost use Rattle.session_model.specs.declared.settings.Settings.{Settings};
ghost use Rattle.mirror.specs.declared.options.Choice.{Choice};
ghost use Rattle.mirror.specs.Options.{AskForGenerated, AskForNone, HasTaken, IsChoiceOf, IsInRange, IsNumberAfter, MayBeNumber, SpellNoSettings, SpellSettings, changed, choice_word, has_kind, kind_of};

use session_model::Settings;
use transcript_generator::MOST_ROUTES;

/// One option of the program.
#[derive(Clone, Copy, Debug, PartialEq, Eq)]
pub enum Choice {
    Limit(u64),
    Peer(u32),
    Table(u32),
    Start(u32),
    Noop,
    Done,
    Ack,
}

// How many settings have an option.
const OPTION_COUNT: usize = 7;

impl Choice {
    fn kind(self) -> usize
        ensures kind { result ≡ kind_of self }
        ensures small { result < OPTION_COUNT }
    {
        match self {
            Choice::Limit(_) => 0,
            Choice::Peer(_) => 1,
            Choice::Table(_) => 2,
            Choice::Start(_) => 3,
            Choice::Noop => 4,
            Choice::Done => 5,
            Choice::Ack => 6,
        }
    }

    fn change(self, settings: &mut Settings)
        ensures { settings.new ≡ changed settings.old self }
    {
        match self {
            Choice::Limit(limit) => settings.limit = limit,
            Choice::Peer(peer) => settings.peer = peer,
            Choice::Table(table) => settings.table = table,
            Choice::Start(start) => settings.start = start,
            Choice::Noop => settings.forward_noop = true,
            Choice::Done => settings.forward_done = true,
            Choice::Ack => settings.forward_ack = true,
        }
    }
}

// The settings of the options so far, and which settings have one.
#[derive(Clone, Copy)]
struct ChosenOptions {
    settings: Settings,
    taken: [bool; OPTION_COUNT],
}

impl ChosenOptions {
    fn new() -> Self
        ensures { HasTaken [] result.settings result.taken }
    {
        ChosenOptions {
            settings: Settings::usual(),
            taken: [false; OPTION_COUNT],
        }
    }

    // Takes an option, unless its setting has one.
    fn take(&mut self, choice: Choice) -> bool
        ensures { (choices : List Choice) → HasTaken choices self.old.settings self.old.taken
            → MatchBool result (HasTaken (choices ++ choice ∷ []) self.new.settings self.new.taken)
            (has_kind (kind_of choice) choices ≡ true) }
    {
        let kind = choice.kind();
        if self.taken[kind] {
            return false;
        }
        self.taken[kind] = true;
        choice.change(&mut self.settings);
        true
    }
}

// What comes after a name, where that may be a number: digits without a leading zero, or `0`.
fn digits_after<'a>(name: &str, word: &'a str) -> Option<&'a str>
    ensures { MatchOption result ((number : ℕ) → number < 2 ^ 64 → word.now ≢ name.now ++ decimal number)
        (λ digits. (word.now ≡ name.now ++ digits.now) × MayBeNumber digits.now) }
{
    let digits = word.strip_prefix(name)?;
    let Some(first) = digits.as_bytes().first() else {
        return None;
    };
    if !first.is_ascii_digit() || *first == b'0' && digits.len() > 1 {
        return None;
    }
    Some(digits)
}

// The number below 2^64 after a name.
fn u64_after(name: &str, word: &str) -> Option<u64>
    ensures { IsNumberAfter (2 ^ 64) name.now word.now result }
{
    digits_after(name, word)?.parse().ok()
}

// The number below 2^32 after a name.
fn u32_after(name: &str, word: &str) -> Option<u32>
    ensures { IsNumberAfter (2 ^ 32) name.now word.now result }
{
    digits_after(name, word)?.parse().ok()
}

// The option without a number that a word spells.
fn read_flag(word: &str) -> Option<Choice>
    ensures { MatchOption result
        ((word.now ≢ codes "noop") × (word.now ≢ codes "done") × (word.now ≢ codes "ack"))
        (λ choice. IsInRange choice × (word.now ≡ choice_word choice)) }
{
    match word {
        "noop" => Some(Choice::Noop),
        "done" => Some(Choice::Done),
        "ack" => Some(Choice::Ack),
        _ => None,
    }
}

// The option that a word spells.
fn read_choice(word: &str) -> Option<Choice>
    ensures { IsChoiceOf word.now result }
{
    if let Some(limit) = u64_after("limit=", word) {
        return Some(Choice::Limit(limit));
    }
    if let Some(peer) = u32_after("peer=", word) {
        return Some(Choice::Peer(peer));
    }
    if let Some(table) = u32_after("table=", word) {
        return Some(Choice::Table(table));
    }
    if let Some(start) = u32_after("start=", word) {
        return Some(Choice::Start(start));
    }
    read_flag(word)
}

/// The settings that words spell: `run`, and then options in any order, at most one of each setting. They are `limit=N`,
/// `peer=N`, `table=N`, `start=N`, `noop`, `done` and `ack`; N is decimal without leading zeros.
pub fn read_words(words: &[String]) -> Option<Settings>
    ensures { MatchOption result (SpellNoSettings (map string_bytes words.now))
        (SpellSettings (map string_bytes words.now)) }
{
    let (first, choices) = words.split_first()?;
    if first.as_str() != "run" {
        return None;
    }
    let mut chosen = ChosenOptions::new();
    for word in choices {
        let choice = read_choice(word.as_str())?;
        if !chosen.take(choice) {
            return None;
        }
    }
    Some(chosen.settings)
}

/// How many routes a transcript is to be generated of, where words ask for one: `gen` and a number of at most 400,000, in
/// decimal without leading zeros.
pub fn read_count(words: &[String]) -> Option<u32>
    ensures { MatchOption result (AskForNone (map string_bytes words.now))
        (AskForGenerated (map string_bytes words.now)) }
{
    let (first, others) = words.split_first()?;
    let (number, more) = others.split_first()?;
    if first.as_str() != "gen" || !more.is_empty() {
        return None;
    }
    let count = u32_after("", number.as_str())?;
    if count > MOST_ROUTES {
        return None;
    }
    Some(count)
}
