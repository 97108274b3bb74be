//! The command line of `tpdrive`, as clap reads it.
ghost use Rattle.std.specs.Prelude.{◌≡◌, false, List, IfOk, MatchResult, map, codes};
ghost use Rattle.clap.specs.Words.{app_of, found_of, one_text, fault_of, matches_of, rows_of, FailsBy};
ghost use Rattle.clap.specs.declared.builder.value_parser.ValueParser.TheVariants.{Unsigned};
ghost use Rattle.tp_words.specs.Given.{IsNumberIn};
ghost use Rattle.tp_words.specs.DriveLine.{drive_program, drive_said, found_drive, is_drive, AnswersDrive, AsksDrive, IsDriveAsked};
ghost use Rattle.tp_words.specs.DrivePlain.{DriveSetting, IsPlainDrive, drive_default, drive_typed, with_drives};

use crate::command_line::{number, number_option, option};
use crate::drive::Drive;
use crate::fault::WordsFault;
use clap::builder::ValueParser;
use clap::{ArgMatches, Error, value_parser};
use std::alloc::{AllocError, Global};
use tp_names::SiteName;

/// The site and the number of workers that the words after the name of `tpdrive` ask for. Plain words are always taken: options,
/// each once at most, as its name and a value in its range.
pub fn read_drive(alloc: Global, words: &[&str]) -> Result<Drive, WordsFault>
    // Promise 7.1 [clauses ok usage plain]: Which site and how many workers the words ask for is
    //   told, and usage comes only where clap refuses the words or the name is none of a site
    ensures ok { IfOk result (AsksDrive (drive_said (map (λ w. w.now) words.now))) }
    ensures usage { result ≡ Err WordsFault.Usage → is_drive (drive_said (map (λ w. w.now) words.now)) ≡ false }

    // Plain words are always taken.
    ensures plain { (settings : List DriveSetting) → IsPlainDrive settings → map (λ w. w.now) words.now ≡ drive_typed settings
        → MatchResult result (IsDriveAsked (with_drives drive_default settings)) (λ fault. fault ≡ WordsFault.NoMemory) }
{
    match parse(alloc, words)? {
        Some(drive) => Ok(drive),
        None => Err(WordsFault::Usage),
    }
}

// What the words say, unless the name is none of a site.
pub(crate) fn parse(alloc: Global, words: &[&str]) -> Result<Option<Drive>, Error>
    ensures kinds { FailsBy (fault_of drive_program (map (λ w. w.now) words.now)) result }
    ensures given { IfOk result (AnswersDrive (found_drive (matches_of drive_program (map (λ w. w.now) words.now)))) }
{
    Ok(asked(&matched(alloc, words)?))
}

// What was typed, or the default of what was left out.
fn asked(matches: &ArgMatches) -> Option<Drive>
    requires { IsNumberIn 1 16 (one_text (found_of matches.now) (codes "workers")) }
    ensures { AnswersDrive (found_drive (rows_of (found_of matches.now))) result }
{
    let name = SiteName::new(matches.get_str("name").unwrap_or("a").as_bytes())?;
    let workers = number(matches, "workers", 1);
    Some(Drive {
        name,
        workers: workers as u16,
    })
}

// What clap finds in the words.
#[tactic(none)]
fn matched<'a>(alloc: Global, words: &'a [&'a str]) -> Result<ArgMatches<'a>, Error>
    ensures kinds { FailsBy (fault_of drive_program (map (λ w. w.now) words.entry.now)) result }
    ensures rows { IfOk result (λ m. rows_of (found_of m) ≡ matches_of drive_program (map (λ w. w.now) words.entry.now)) }
    ensures workers { IfOk result (λ m. IsNumberIn 1 16 (one_text (found_of m) (codes "workers"))) }
{
    let mut line = drive_line(alloc)?;
    line.try_get_matches_from_mut(words)
}

fn drive_line<'a>(alloc: Global) -> Result<clap::Command<'a>, AllocError>
    ensures { IfOk result (λ c. app_of c ≡ drive_program) }
{
    clap::Command::new(alloc, "tpdrive")
        .no_binary_name(true)
        .arg(option(alloc, "name"))?
        .arg(number_option(alloc, "workers", worker_counts()))
}

fn worker_counts<'a>() -> ValueParser<'a>
    ensures { result ≡ Unsigned 1 16 }
{
    value_parser!(u64).range(1..=16)
}
