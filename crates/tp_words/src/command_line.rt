//! The command line, as clap reads it.
ghost use Rattle.std.specs.Prelude.{◌≡◌, ℕ, List, ◌∷◌, Some, IfOk, MatchResult, MatchOption, false, map};
ghost use Rattle.std.specs.Option.{option_map_or};
ghost use Rattle.clap.specs.Words.{app_of, found_of, one_text, fault_of, matches_of, rows_of, rule_of, FailsBy};
ghost use Rattle.clap.specs.declared.builder.value_parser.ValueParser.TheVariants.{Unsigned};
ghost use Rattle.tp_words.specs.CommandLine.{program, said, alone, number_of, found_in, command_rule, option_rule, Said};
ghost use Rattle.tp_words.specs.Asked.{is_command, is_line, IsAsked, Asks};
ghost use Rattle.tp_words.specs.Given.{AnswersTo, IsNamed, IsSaid, IsNumberIn, HoldsNumbers};
ghost use Rattle.tp_words.specs.Plain.{Setting, IsPlain, settings_typed, with_settings};

use crate::command::{Command, Plan};
use crate::fault::WordsFault;
use clap::builder::ValueParser;
use clap::{Arg, ArgMatches, Error, value_parser};
use std::alloc::{AllocError, Global};
use tp_names::SiteName;

/// The command that the words after the program's name ask for. Plain words are always taken: the word
/// of a command, and then options, each once at most, as its name and a value in its range, a number in decimal without
/// leading zeros.
pub fn read(alloc: Global, words: &[&str]) -> Result<Command, WordsFault>
    // Promise 2.9: The command that the words of `tpnode` are taken for is the one that clap finds
    //   in them, with the options that it uses
    ensures ok { IfOk result (Asks (said (map (λ w. w.now) words.now))) }
    // Promise 2.10: `Usage` comes only where clap refuses the words for another cause than memory,
    //   the command is unknown, or the name is no site's
    ensures usage { result ≡ Err WordsFault.Usage → is_line (said (map (λ w. w.now) words.now)) ≡ false }

    // Plain words are always taken.
    // Promise 2.11: Plain words are always taken: a command, and then options, each at most once,
    //   as its name and a value in its range, a number in decimal without leading zeros
    ensures plain { (word : List ℕ) (settings : List Setting) → IsPlain word settings
        → map (λ w. w.now) words.now ≡ word ∷ settings_typed settings
        → MatchResult result (IsAsked (with_settings (alone word) settings)) (λ fault. fault ≡ WordsFault.NoMemory) }
{
    let given = parse(alloc, words)?;
    match asked(&given) {
        Some(command) => Ok(command),
        None => Err(WordsFault::Usage),
    }
}

// What was typed, or the default of what was left out.
#[derive(Drop)]
pub(crate) struct Given<'a> {
    pub(crate) word: &'a str,
    pub(crate) name: &'a str,
    plan: Plan,
}

// The command that is asked for, unless there is none of this word, or no site of this name.
fn asked(given: &Given) -> Option<Command>
    ensures { (s : Said) → IsSaid s given.now → AnswersTo s result }
{
    let site = SiteName::new(given.name.as_bytes())?;
    command(given.word, site, given.plan)
}

// The command with this word, with the options that it uses.
fn command(word: &str, site: SiteName, plan: Plan) -> Option<Command>
    ensures { MatchOption result (is_command word.now ≡ false) (λ c. IsNamed word.now site plan c) }
{
    let command = match word {
        "replay" => Command::Replay,
        "node" => Command::Node(site),
        "format" => Command::Format,
        "show" => Command::Show,
        "check" => Command::Check,
        "make" => Command::Make(plan),
        "trial" => Command::Trial(plan),
        "compact" => Command::Compact,
        "migrate" => Command::Migrate,
        "keys" => Command::Keys,
        "tx" => Command::Tx(site),
        "audit" => Command::Audit,
        _ => return None,
    };
    Some(command)
}

// What the words say.
pub(crate) fn parse<'a>(alloc: Global, words: &'a [&'a str]) -> Result<Given<'a>, Error>
    ensures kinds { FailsBy (fault_of program (map (λ w. w.now) words.entry.now)) result }
    ensures given { IfOk result (IsSaid (found_in (matches_of program (map (λ w. w.now) words.entry.now)))) }
{
    Ok(found(&matched(alloc, words)?))
}

fn found<'a>(matches: &ArgMatches<'a>) -> Given<'a>
    requires { HoldsNumbers (found_of matches.now) }
    ensures { IsSaid (found_in (rows_of (found_of matches.now))) result }
{
    let nodes = number(matches, "nodes", 2);
    let rounds = number(matches, "rounds", 1);
    Given {
        word: matches.get_str("command").unwrap_or(""),
        name: matches.get_str("name").unwrap_or("a"),
        plan: Plan {
            number: number(matches, "number", 1),
            nodes: nodes as u16,
            rounds: rounds as u8,
        },
    }
}

// The value of an option of whole numbers, or its default.
pub(crate) fn number(matches: &ArgMatches, option: &str, default: u64) -> u64
    requires { IsNumberIn 0 18446744073709551615 (one_text (found_of matches.now) option.now) }
    ensures { result ≡ option_map_or number_of (one_text (found_of matches.now) option.now) default }
{
    matches.get_one(option).unwrap_or(default)
}

// What clap finds in the words.
#[tactic(none)]
fn matched<'a>(alloc: Global, words: &'a [&'a str]) -> Result<ArgMatches<'a>, Error>
    ensures kinds { FailsBy (fault_of program (map (λ w. w.now) words.entry.now)) result }
    ensures rows { IfOk result (λ m. rows_of (found_of m) ≡ matches_of program (map (λ w. w.now) words.entry.now)) }
    ensures numbers { IfOk result (λ m. HoldsNumbers (found_of m)) }
{
    let mut line = command_line(alloc)?;
    line.try_get_matches_from_mut(words)
}

fn command_line<'a>(alloc: Global) -> Result<clap::Command<'a>, AllocError>
    ensures { IfOk result (λ c. app_of c ≡ program) }
{
    let numbers = value_parser!(u64);
    clap::Command::new(alloc, "tpnode")
        .no_binary_name(true)
        .arg(command_word(alloc))?
        .arg(option(alloc, "name"))?
        .arg(number_option(alloc, "number", numbers))?
        .arg(number_option(alloc, "nodes", node_counts()))?
        .arg(number_option(alloc, "rounds", round_counts()))
}

fn command_word<'a>(alloc: Global) -> Arg<'a>
    ensures rule { rule_of result ≡ command_rule }
    ensures local { result.global ≡ false }
{
    Arg::new(alloc, "command").required(true)
}

// An option with one value, of any text.
pub(crate) fn option<'a>(alloc: Global, name: &'a str) -> Arg<'a>
    ensures rule { rule_of result ≡ option_rule name.entry.now }
    ensures local { result.global ≡ false }
{
    Arg::new(alloc, name).long(name)
}

// An option whose value is one of these numbers.
pub(crate) fn number_option<'a>(alloc: Global, name: &'a str, numbers: ValueParser<'a>) -> Arg<'a>
    ensures rule { rule_of result ≡ record (option_rule name.entry.now) { parser = Some numbers.entry } }
    ensures local { result.global ≡ false }
{
    option(alloc, name).value_parser(numbers)
}

fn node_counts<'a>() -> ValueParser<'a>
    ensures { result ≡ Unsigned 2 256 }
{
    value_parser!(u64).range(2..=256)
}

fn round_counts<'a>() -> ValueParser<'a>
    ensures { result ≡ Unsigned 1 30 }
{
    value_parser!(u64).range(1..=30)
}
