//! The words of the command line.
ghost use Rattle.std.specs.Prelude.{option_map, string_bytes, true, false};
ghost use Rattle.std.specs.Prelude.{◌≡◌, ◌≢◌, ◌≤◌, ◌<◌, ◌^◌, codes, map, Some, None, Err, IfOk, IfSome};
ghost use Rattle.clap.specs.Words.{Text};
ghost use Rattle.clap.specs.Words.{app_of, first_value, found_of, kind_of, rule_of};
ghost use Rattle.clap.specs.declared.error.kind.ErrorKind.TheVariants.{OutOfMemory};
ghost use Rattle.ob_base.specs.Plans.{MayPad};
ghost use Rattle.ob_headline.specs.Settings.{ParsesAs, IsTaken, ParsesChanges, MeddleParses};
ghost use Rattle.ob_headline.specs.Settings.{IsTakenSaved, ParsesSaved, saved_settings_by};
ghost use Rattle.ob_headline.specs.Settings.{at_least, batch_in, may_pad, number_in, pad_in, planner_in};
ghost use Rattle.ob_headline.specs.Settings.{flight_in, flight_of, flight_spelt, flight_goes};
ghost use Rattle.ob_headline.specs.Settings.{generated_by, seed_in, seed_of};
ghost use Rattle.ob_headline.specs.Settings.{may_mark, settings_by, settings_in};
ghost use Rattle.ob_headline.specs.Usage.{common, usage, meddle_usage, flag, valued, is_set, is_traced, changes_in};
ghost use Rattle.ob_headline.specs.Usage.{default_store, is_kept, kept_usage, value_of};
ghost use Rattle.ob_headline.specs.Usage.{is_saved, saved_usage};
ghost use Rattle.ob_meddle.specs.Changes.{number};
ghost use Rattle.ob_words.specs.SavedWords.{AreFit, MayBeSaved, saved_words_by};
ghost use Rattle.ob_words.specs.WordsRead.{AreFlown, AreWithin};
ghost use Rattle.ob_words.specs.WordsRead.{words_beside, words_by};

use clap::error::ErrorKind;
use clap::{Arg, ArgAction, ArgMatches, Command, Error};
use ob_base::{Config, NoMemory, Plan, Planner};
use ob_headline::{FlightSettings, Seed};
use ob_meddle::{ChangesErr, Meddle, parse_changes, parted};
use std::alloc::{AllocError, Global};

/// The bytes of the input that are read, at most, where the words don't say.
const INPUT_LIMIT: u32 = 1_073_741_824;

/// The rows to which results are padded, at most.
const PAD_LIMIT: u32 = 1_048_576;

/// The INSERTs that are served together, at most.
const BATCH_LIMIT: u32 = 65_535;

/// The SELECTs that fly together, at most.
const FLIGHT_LIMIT: u32 = 8;

/// The name of the store, where the words give none.
const STORE: &str = "oblidb-store";

/// Why the words were not read.
#[derive(Clone, Copy, Debug, PartialEq, Eq)]
pub enum WordsErr {
    Usage,
    NoMemory,
}

/// What the words say: whether the accesses are traced, the settings of the run, how SELECTs fly, if they do, and what is
/// generated, if the input isn't read.
#[derive(Clone, Copy, Debug, PartialEq, Eq)]
pub struct Words {
    pub trace: bool,
    pub config: Config,
    pub flight: Option<FlightSettings>,
    pub generated: Option<Seed>,
}

/// The same, and which changes others make in the store.
#[derive(Drop)]
pub struct MeddleWords {
    pub common: Words,
    pub changes: Vec<Meddle>,
}

/// The same, and whether the tables are to be kept for the next run.
#[derive(Clone, Copy, Debug, PartialEq, Eq)]
pub struct KeptWords {
    pub common: Words,
    pub keep: bool,
}

/// The same, and whether the tables are to be saved after each statement that changes them: then they are kept, too, and
/// the settings say both.
#[derive(Clone, Copy, Debug, PartialEq, Eq)]
pub struct SavedWords {
    pub common: Words,
    pub keep: bool,
    pub save: bool,
}

// A flag `--NAME`.
fn flag(alloc: Global, name: &str) -> Arg<'_>
    ensures rule { rule_of result ≡ flag name.now }
    ensures local { result.global ≡ false }
{
    Arg::new(alloc, name).long(name).action(ArgAction::SetTrue)
}

// A word `--NAME VALUE`.
fn valued(alloc: Global, name: &str) -> Arg<'_>
    ensures rule { rule_of result ≡ valued name.now }
    ensures local { result.global ≡ false }
{
    Arg::new(alloc, name).long(name).action(ArgAction::Set)
}

// A command of this name, with the words of every program.
fn common<'a>(alloc: Global, name: &'a str) -> Result<Command<'a>, AllocError>
    ensures { IfOk result (λ c. app_of c ≡ common name.now) }
{
    Command::new(alloc, name)
        .arg(flag(alloc, "trace"))?
        .arg(valued(alloc, "buffer"))?
        .arg(valued(alloc, "depth"))?
        .arg(valued(alloc, "plan"))?
        .arg(valued(alloc, "pack"))?
        .arg(valued(alloc, "pad"))?
        .arg(valued(alloc, "stash"))?
        .arg(valued(alloc, "batch"))?
        .arg(valued(alloc, "flight"))?
        .arg(valued(alloc, "max-input"))?
        .arg(valued(alloc, "gen"))
}

fn command<'a>(alloc: Global) -> Result<Command<'a>, AllocError>
    ensures { IfOk result (λ c. app_of c ≡ usage) }
{
    let command = common(alloc, "oblidb")?.arg(valued(alloc, "store"))?;
    Ok(command.no_binary_name(true))
}

fn meddle_command<'a>(alloc: Global) -> Result<Command<'a>, AllocError>
    ensures { IfOk result (λ c. app_of c ≡ meddle_usage) }
{
    let command = common(alloc, "oblitrace")?.arg(valued(alloc, "meddle"))?;
    Ok(command.no_binary_name(true))
}

fn kept_command<'a>(alloc: Global) -> Result<Command<'a>, AllocError>
    ensures { IfOk result (λ c. app_of c ≡ kept_usage) }
{
    let command = common(alloc, "oblidb")?
        .arg(valued(alloc, "store"))?
        .arg(flag(alloc, "keep"))?
        .arg(valued(alloc, "mark"))?;
    Ok(command.no_binary_name(true))
}

fn saved_command<'a>(alloc: Global) -> Result<Command<'a>, AllocError>
    ensures { IfOk result (λ c. app_of c ≡ saved_usage) }
{
    let command = common(alloc, "oblidb")?
        .arg(valued(alloc, "store"))?
        .arg(flag(alloc, "keep"))?
        .arg(valued(alloc, "mark"))?
        .arg(flag(alloc, "save"))?;
    Ok(command.no_binary_name(true))
}

fn is_set(value: Option<&str>) -> bool
    ensures { result ≡ is_set (option_map (λ t. t.now) value.entry) }
{
    match value {
        Some(text) => text == "true",
        None => false,
    }
}

// The changes that the value of `--meddle` spells.
fn changes_in(alloc: Global, value: Option<&str>) -> Result<Vec<Meddle>, WordsErr>
    ensures ok { IfOk result (λ list.
        changes_in (option_map (λ t. t.now) value.entry) ≡ Some list.items) }
    ensures usage { result ≡ Err WordsErr.Usage →
        changes_in (option_map (λ t. t.now) value.entry) ≡ None }
{
    match value {
        None => Ok(Vec::new(alloc)),
        Some(text) => match parse_changes(alloc, text.as_bytes()) {
            Ok(list) => Ok(list),
            Err(ChangesErr::Malformed) => Err(WordsErr::Usage),
            Err(ChangesErr::NoMemory) => Err(WordsErr::NoMemory),
        },
    }
}

// A number from `least` to `most`, in decimal, without a sign and without leading zeros.
fn number(least: u32, most: u32, text: &[u8]) -> Option<u32>
    ensures value { result ≡ at_least least (number most text.now) }
    ensures within { IfSome result (λ n. (least ≤ n) × (n ≤ most)) }
{
    match ob_meddle::number(u64::from(most), text) {
        Some(n) if u64::from(least) <= n => Some(n as u32),
        _ => None,
    }
}

// The number of a word, from `least` to `most`; `default` where the word isn't given.
fn number_in(least: u32, most: u32, default: u32, value: Option<&str>) -> Option<u32>
    requires { (least ≤ default) × (default ≤ most) }
    ensures value { result ≡ number_in least most default (option_map (λ t. t.now) value.entry) }
    ensures within { IfSome result (λ n. (least ≤ n) × (n ≤ most)) }
{
    match value {
        None => Some(default),
        Some(text) => number(least, most, text.as_bytes()),
    }
}

// How plans are chosen; none at all where the name is neither a way to that nor a plan's.
fn planner_in(value: Option<&str>) -> Option<Planner>
    ensures { result ≡ planner_in (option_map (λ t. t.now) value.entry) }
{
    match value {
        None | Some("auto") => Some(Planner::Auto),
        Some("cheapest") => Some(Planner::Cheapest),
        Some("small") => Some(Planner::Forced(Plan::Small)),
        Some("large") => Some(Planner::Forced(Plan::Large)),
        Some("continuous") => Some(Planner::Forced(Plan::Continuous)),
        Some("hash") => Some(Planner::Forced(Plan::Hash)),
        Some(_) => None,
    }
}

// The rows to which results are padded, if they are; none at all where the value is no number from 1 to 1,048,576.
fn pad_in(value: Option<&str>) -> Option<Option<u32>>
    ensures value { result ≡ pad_in (option_map (λ t. t.now) value.entry) }
    ensures within { IfSome result (λ pad. IfSome pad (λ rows. (1 ≤ rows) × (rows ≤ 2 ^ 20))) }
{
    match value {
        None => Some(None),
        Some(text) => match number(1, PAD_LIMIT, text.as_bytes()) {
            Some(rows) => Some(Some(rows)),
            None => None,
        },
    }
}

// How many INSERTs are served together at most, if some are; none at all where the value is no number from 2 to 65,535.
fn batch_in(value: Option<&str>) -> Option<Option<u32>>
    ensures { result ≡ batch_in (option_map (λ t. t.now) value.entry) }
{
    match value {
        None => Some(None),
        Some(text) => match number(2, BATCH_LIMIT, text.as_bytes()) {
            Some(most) => Some(Some(most)),
            None => None,
        },
    }
}

// Whether plans may be chosen so, where results are padded or aren't.
fn may_pad(pad: Option<u32>, planner: Planner) -> bool
    ensures value { result ≡ may_pad pad planner }
    ensures plan { result ≡ true → IfSome pad (λ rows. MayPad planner) }
{
    match pad {
        None => true,
        Some(_) => match planner {
            Planner::Auto | Planner::Cheapest => true,
            Planner::Forced(Plan::Small | Plan::Large) => true,
            Planner::Forced(Plan::Continuous | Plan::Hash) => false,
        },
    }
}

// What is generated by `X,N`.
fn seed_of(text: &[u8]) -> Option<Seed>
    ensures { result ≡ seed_of text.now }
{
    let (start, rows) = parted(text, b',');
    match (ob_meddle::number(u64::MAX, start), rows) {
        (Some(start), Some(rows)) => match number(1, 4096, rows) {
            Some(rows) => Some(Seed { start, rows }),
            None => None,
        },
        _ => None,
    }
}

// What is generated in place of the input, if something is; none at all where the value has another form.
fn seed_in(value: Option<&str>) -> Option<Option<Seed>>
    ensures { result ≡ seed_in (option_map (λ t. t.now) value.entry) }
{
    match value {
        None => Some(None),
        Some(text) => match seed_of(text.as_bytes()) {
            Some(seed) => Some(Some(seed)),
            None => None,
        },
    }
}

// How SELECTs fly by `M,X`.
fn flight_spelt(text: &[u8]) -> Option<FlightSettings>
    ensures value { result ≡ flight_spelt text.now }
    ensures within { IfSome result (λ flight.
        (2 ≤ flight.most) × (flight.most ≤ 8) × (flight.start < 2 ^ 64)) }
{
    let (most, start) = parted(text, b',');
    match (number(2, FLIGHT_LIMIT, most), start) {
        (Some(most), Some(start)) => match ob_meddle::number(u64::MAX, start) {
            Some(start) => Some(FlightSettings { most, start }),
            None => None,
        },
        _ => None,
    }
}

// How SELECTs fly, if they do; none at all where the value has another form.
fn flight_in(value: Option<&str>) -> Option<Option<FlightSettings>>
    ensures value { result ≡ flight_in (option_map (λ t. t.now) value.entry) }
    ensures within { IfSome result (λ flight. IfSome flight (λ f.
        (2 ≤ f.most) × (f.most ≤ 8) × (f.start < 2 ^ 64))) }
{
    match value {
        None => Some(None),
        Some(text) => match flight_spelt(text.as_bytes()) {
            Some(flight) => Some(Some(flight)),
            None => None,
        },
    }
}

// Whether SELECTs may fly so, where INSERTs are served together or aren't and plans are chosen so.
fn flight_goes(flight: Option<FlightSettings>, batch: Option<u32>, planner: Planner) -> bool
    ensures value { result ≡ flight_goes flight batch planner }
    ensures alone { result ≡ true → IfSome flight (λ f. batch ≡ None) }
{
    match (flight, batch) {
        (None, _) => true,
        (Some(_), Some(_)) => false,
        (Some(_), None) => match planner {
            Planner::Auto | Planner::Cheapest | Planner::Forced(Plan::Small) => true,
            Planner::Forced(Plan::Large | Plan::Continuous | Plan::Hash) => false,
        },
    }
}

// A text of its own.
fn copied(alloc: Global, text: &str) -> Result<String, NoMemory>
    ensures { IfOk result (λ s. string_bytes s ≡ text.now) }
{
    match String::from_str(alloc, text) {
        Ok(copy) => Ok(copy),
        Err(_) => Err(NoMemory),
    }
}

// The same, of a text that is there.
fn some_copy(alloc: Global, text: &str) -> Result<Option<String>, NoMemory>
    ensures { IfOk result (λ s. option_map string_bytes s ≡ Some text.now) }
{
    match copied(alloc, text) {
        Ok(copy) => Ok(Some(copy)),
        Err(error) => Err(error),
    }
}

// The settings that the values spell, whatever other words are given.
fn settings_in(matches: &ArgMatches) -> Option<Config>
    ensures settings { result ≡ settings_in (first_value (found_of matches.now)) }
    ensures within { IfSome result AreWithin }
{
    let buffer = number_in(4, 65_536, 64, matches.get_str("buffer"))?;
    let depth = number_in(1, 8, 5, matches.get_str("depth"))?;
    let planner = planner_in(matches.get_str("plan"))?;
    let pack = number_in(1, 16, 1, matches.get_str("pack"))?;
    let pad = pad_in(matches.get_str("pad"))?;
    let stash = number_in(1, 1024, 32, matches.get_str("stash"))?;
    let batch = batch_in(matches.get_str("batch"))?;
    let max_input = number_in(1024, INPUT_LIMIT, INPUT_LIMIT, matches.get_str("max-input"))?;
    if buffer < 3 * pack + 1 {
        return None;
    }
    if !may_pad(pad, planner) {
        return None;
    }
    Some(Config {
        buffer,
        depth: depth as u8,
        pack: pack as u8,
        planner,
        pad,
        stash,
        keep: is_set(matches.get_str("keep")),
        save: false,
        batch,
        max_input: max_input as u64,
    })
}

// Whether a place of the mark may be given, where one is: the tables have to be kept.
fn may_mark(place: Option<&str>, keeps: bool) -> bool
    ensures { result ≡ may_mark (option_map (λ t. t.now) place.entry) keeps }
{
    match place {
        None => true,
        Some(_) => keeps,
    }
}

// The settings that the values spell.
fn settings(matches: &ArgMatches) -> Option<Config>
    ensures settings { result ≡ settings_by (first_value (found_of matches.now)) }
    ensures within { IfSome result AreWithin }
{
    if may_mark(matches.get_str("mark"), is_set(matches.get_str("keep"))) {
        settings_in(matches)
    } else {
        None
    }
}

// What the values spell beside these settings.
fn words_beside(matches: &ArgMatches, config: Config) -> Option<Words>
    ensures words { result ≡ words_beside config (first_value (found_of matches.now)) }
    ensures same { IfSome result (λ w. w.config ≡ config) }
    ensures flies { IfSome result (λ w. AreFlown w.flight w.config) }
{
    let generated = seed_in(matches.get_str("gen"))?;
    let flight = flight_in(matches.get_str("flight"))?;
    if !flight_goes(flight, config.batch, config.planner) {
        return None;
    }
    Some(Words {
        trace: is_set(matches.get_str("trace")),
        config,
        flight,
        generated,
    })
}

// What the values spell that every program takes.
fn common_words(matches: &ArgMatches) -> Option<Words>
    ensures words { result ≡ words_by (first_value (found_of matches.now)) }
    ensures within { IfSome result (λ w. AreWithin w.config) }
    ensures flies { IfSome result (λ w. AreFlown w.flight w.config) }
{
    let config = settings(matches)?;
    words_beside(matches, config)
}

// The settings that the values spell of a run whose tables may be saved.
fn saved_settings(matches: &ArgMatches) -> Option<Config>
    ensures settings { result ≡ saved_settings_by (first_value (found_of matches.now)) }
    ensures within { IfSome result AreFit }
    ensures saves { IfSome result (MayBeSaved
        (is_set (first_value (found_of matches.now) (codes "save")))) }
{
    if !is_set(matches.get_str("save")) {
        return settings(matches);
    }
    if is_set(matches.get_str("keep")) {
        return None;
    }
    let config = settings_in(matches)?;
    Some(Config {
        keep: true,
        save: true,
        ..config
    })
}

// What the values spell that such a run takes.
fn common_saved(matches: &ArgMatches) -> Option<Words>
    ensures words { result ≡ saved_words_by (first_value (found_of matches.now)) }
    ensures within { IfSome result (λ w. AreFit w.config) }
    ensures saves { IfSome result (λ w. MayBeSaved
        (is_set (first_value (found_of matches.now) (codes "save"))) w.config) }
    ensures flies { IfSome result (λ w. AreFlown w.flight w.config) }
{
    let config = saved_settings(matches)?;
    words_beside(matches, config)
}

// Why a command didn't take the words.
fn words_err(error: &Error) -> WordsErr
    ensures { result ≡ WordsErr.Usage → kind_of error.now ≢ OutOfMemory }
{
    if error.kind() == ErrorKind::OutOfMemory {
        WordsErr::NoMemory
    } else {
        WordsErr::Usage
    }
}

/// Reads the words of a program over a store that it is given, the program's name left out.
pub fn read_words(alloc: Global, words: &[String]) -> Result<Words, WordsErr>
    ensures ok { IfOk result (λ w. ParsesAs usage (map string_bytes words.now) w.config) }
    ensures usage { result ≡ Err WordsErr.Usage → ¬ IsTaken usage (map string_bytes words.now) }
    ensures trace { IfOk result (λ w. w.trace ≡ is_traced usage (map string_bytes words.now)) }
    ensures generated { IfOk result (λ w.
        generated_by usage (map string_bytes words.now) ≡ Some w.generated) }
    ensures flight { IfOk result (λ w.
        w.flight ≡ flight_of usage (map string_bytes words.now)) }
    ensures flies { IfOk result (λ w. AreFlown w.flight w.config) }
    ensures within { IfOk result (λ w. AreWithin w.config) }
{
    let Ok(command) = command(alloc) else {
        return Err(WordsErr::NoMemory);
    };
    let matches = match command.try_get_matches_from(words) {
        Ok(matches) => matches,
        Err(error) => return Err(words_err(&error)),
    };
    match common_words(&matches) {
        Some(words) => Ok(words),
        None => Err(WordsErr::Usage),
    }
}

/// Reads the words of a program that may keep its tables for the next run, the program's name left out.
pub fn read_kept_words(alloc: Global, words: &[String]) -> Result<KeptWords, WordsErr>
    ensures ok { IfOk result (λ w.
        ParsesAs kept_usage (map string_bytes words.now) w.common.config) }
    ensures usage { result ≡ Err WordsErr.Usage →
        ¬ IsTaken kept_usage (map string_bytes words.now) }
    ensures trace { IfOk result (λ w.
        w.common.trace ≡ is_traced kept_usage (map string_bytes words.now)) }
    ensures generated { IfOk result (λ w.
        generated_by kept_usage (map string_bytes words.now) ≡ Some w.common.generated) }
    ensures flight { IfOk result (λ w.
        w.common.flight ≡ flight_of kept_usage (map string_bytes words.now)) }
    ensures flies { IfOk result (λ w. AreFlown w.common.flight w.common.config) }
    ensures keep { IfOk result (λ w. w.keep ≡ is_kept (map string_bytes words.now)) }
    ensures within { IfOk result (λ w. AreWithin w.common.config) }
{
    let Ok(command) = kept_command(alloc) else {
        return Err(WordsErr::NoMemory);
    };
    let matches = match command.try_get_matches_from(words) {
        Ok(matches) => matches,
        Err(error) => return Err(words_err(&error)),
    };
    match common_words(&matches) {
        Some(common) => Ok(KeptWords {
            common,
            keep: is_set(matches.get_str("keep")),
        }),
        None => Err(WordsErr::Usage),
    }
}

/// Reads the words of a program that may keep its tables for the next run, or save them after each statement that changes
/// them, the program's name left out.
pub fn read_saved_words(alloc: Global, words: &[String]) -> Result<SavedWords, WordsErr>
    ensures ok { IfOk result (λ w. ParsesSaved (map string_bytes words.now) w.common.config) }
    ensures usage { result ≡ Err WordsErr.Usage → ¬ IsTakenSaved (map string_bytes words.now) }
    ensures trace { IfOk result (λ w.
        w.common.trace ≡ is_traced saved_usage (map string_bytes words.now)) }
    ensures generated { IfOk result (λ w.
        generated_by saved_usage (map string_bytes words.now) ≡ Some w.common.generated) }
    ensures flight { IfOk result (λ w.
        w.common.flight ≡ flight_of saved_usage (map string_bytes words.now)) }
    ensures flies { IfOk result (λ w. AreFlown w.common.flight w.common.config) }
    ensures keep { IfOk result (λ w.
        w.keep ≡ is_set (value_of saved_usage (map string_bytes words.now) (codes "keep"))) }
    ensures save { IfOk result (λ w. w.save ≡ is_saved (map string_bytes words.now)) }
    ensures within { IfOk result (λ w. AreFit w.common.config) }
    ensures saves { IfOk result (λ w. MayBeSaved w.save w.common.config) }
{
    let Ok(command) = saved_command(alloc) else {
        return Err(WordsErr::NoMemory);
    };
    let matches = match command.try_get_matches_from(words) {
        Ok(matches) => matches,
        Err(error) => return Err(words_err(&error)),
    };
    match common_saved(&matches) {
        Some(common) => Ok(SavedWords {
            common,
            keep: is_set(matches.get_str("keep")),
            save: is_set(matches.get_str("save")),
        }),
        None => Err(WordsErr::Usage),
    }
}

/// Reads the words of a program over a store that others change, the program's name left out.
pub fn read_meddle_words(alloc: Global, words: &[String]) -> Result<MeddleWords, WordsErr>
    ensures ok { IfOk result (λ w.
        ParsesChanges (map string_bytes words.now) w.common.config w.changes.items) }
    ensures usage { result ≡ Err WordsErr.Usage → ¬ MeddleParses (map string_bytes words.now) }
    ensures trace { IfOk result (λ w.
        w.common.trace ≡ is_traced meddle_usage (map string_bytes words.now)) }
    ensures generated { IfOk result (λ w.
        generated_by meddle_usage (map string_bytes words.now) ≡ Some w.common.generated) }
    ensures flight { IfOk result (λ w.
        w.common.flight ≡ flight_of meddle_usage (map string_bytes words.now)) }
    ensures flies { IfOk result (λ w. AreFlown w.common.flight w.common.config) }
    ensures within { IfOk result (λ w. AreWithin w.common.config) }
{
    let Ok(command) = meddle_command(alloc) else {
        return Err(WordsErr::NoMemory);
    };
    let matches = match command.try_get_matches_from(words) {
        Ok(matches) => matches,
        Err(error) => return Err(words_err(&error)),
    };
    let Some(common) = common_words(&matches) else {
        return Err(WordsErr::Usage);
    };
    match changes_in(alloc, matches.get_str("meddle")) {
        Ok(changes) => Ok(MeddleWords { common, changes }),
        Err(error) => Err(error),
    }
}

// The value that the words of a program that may keep or save its tables give a name; none where they are none that it
// takes.
fn given(alloc: Global, words: &[String], name: &str) -> Result<Option<String>, NoMemory>
    ensures given { (text : Text) → IsTakenSaved (map string_bytes words.now)
        → value_of saved_usage (map string_bytes words.now) name.now ≡ Some text
        → IfOk result (λ value. option_map string_bytes value ≡ Some text) }
    ensures none { (IsTakenSaved (map string_bytes words.now)
        → value_of saved_usage (map string_bytes words.now) name.now ≡ None)
        → IfOk result (λ value. option_map string_bytes value ≡ None) }
{
    let Ok(command) = saved_command(alloc) else {
        return Err(NoMemory);
    };
    let matches = match command.try_get_matches_from(words) {
        Ok(matches) => matches,
        Err(error) => match words_err(&error) {
            WordsErr::NoMemory => return Err(NoMemory),
            WordsErr::Usage => return Ok(None),
        },
    };
    let Some(_) = common_saved(&matches) else {
        return Ok(None);
    };
    match matches.get_str(name) {
        Some(text) => some_copy(alloc, text),
        None => Ok(None),
    }
}

/// The name of the store that the words of a program over a store give, the program's name left out; `oblidb-store`
/// where they give none, and where they are none that the program takes.
pub fn store_name(alloc: Global, words: &[String]) -> Result<String, NoMemory>
    ensures named { (name : Text) → IsTakenSaved (map string_bytes words.now)
        → value_of saved_usage (map string_bytes words.now) (codes "store") ≡ Some name
        → IfOk result (λ s. string_bytes s ≡ name) }
    ensures unnamed { (IsTakenSaved (map string_bytes words.now)
        → value_of saved_usage (map string_bytes words.now) (codes "store") ≡ None)
        → IfOk result (λ s. string_bytes s ≡ default_store) }
{
    match given(alloc, words, "store") {
        Ok(Some(name)) => Ok(name),
        Ok(None) => copied(alloc, STORE),
        Err(error) => Err(error),
    }
}

/// The place of the mark that the words of a program over a store give, the program's name left out, if they give one;
/// none where they are none that the program takes.
pub fn mark_place(alloc: Global, words: &[String]) -> Result<Option<String>, NoMemory>
    ensures placed { (place : Text) → IsTakenSaved (map string_bytes words.now)
        → value_of saved_usage (map string_bytes words.now) (codes "mark") ≡ Some place
        → IfOk result (λ p. option_map string_bytes p ≡ Some place) }
    ensures unplaced { (IsTakenSaved (map string_bytes words.now)
        → value_of saved_usage (map string_bytes words.now) (codes "mark") ≡ None)
        → IfOk result (λ p. option_map string_bytes p ≡ None) }
{
    given(alloc, words, "mark")
}
