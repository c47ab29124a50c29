//! The words of the command line.

ghost use Rattle.std.specs.Prelude.{◌≡◌, [], false, IfOk, IfErr, unwrap_or, map, string_bytes};
ghost use Rattle.clap.specs.Words.{FailsBy, first_of, found_of, matches_of, rows_of, rule_of};
ghost use Rattle.clap.specs.Faults.{fault_of};
ghost use Rattle.dc_serve.specs.CommandLine.{app, flag_rule, size_rule};
ghost use Rattle.dc_serve.specs.CommandLine.{IsSize, Spells, Chooses, Refuses};

use crate::{Options, OptionsFault};
use clap::{Arg, ArgAction, ArgMatches, Command, Error};
use std::alloc::Global;

/// An option with a number.
fn size_arg<'a>(alloc: Global, id: &'a str, number: &'a str, help: &'a str) -> Arg<'a>
    ensures rule { rule_of result ≡ size_rule id.now number.now }
    ensures local { result.global ≡ false }
{
    Arg::new(alloc, id)
        .long(id)
        .value_name("N")
        .help(help)
        .default_value(number)
}

/// A flag.
fn flag_arg<'a>(alloc: Global, id: &'a str, help: &'a str) -> Arg<'a>
    ensures rule { rule_of result ≡ flag_rule id.now }
    ensures local { result.global ≡ false }
{
    Arg::new(alloc, id)
        .long(id)
        .help(help)
        .action(ArgAction::SetTrue)
}

/// What clap finds among the words.
fn matches_in<'a>(alloc: Global, words: &'a [String]) -> Result<ArgMatches<'a>, Error>
    ensures ok { IfOk result (λ m.
        rows_of (found_of m) ≡ matches_of app (map string_bytes words.now)) }
    ensures err { FailsBy (fault_of app (map string_bytes words.now)) result }
{
    let (buckets_help, inodes_help, stats_help) = (
        "Buckets of the cache: a power of two from 1 to 1024",
        "How many inodes may live: from 1 to 1048576",
        "Tells how look-ups were answered, on standard error",
    );
    let buckets = size_arg(alloc, "buckets", "256", buckets_help);
    let inodes = size_arg(alloc, "inodes", "65536", inodes_help);
    let stats = flag_arg(alloc, "stats", stats_help);
    let command = Command::new(alloc, "dcserve")
        .no_binary_name(true)
        .arg(buckets)?
        .arg(inodes)?
        .arg(stats)?;
    command.try_get_matches_from(words)
}

/// The text of an option, empty if clap found none.
fn text_of<'a>(matches: &ArgMatches<'a>, id: &str) -> &'a str
    ensures { result.now ≡ unwrap_or (first_of id.now (rows_of (found_of matches.now))) [] }
{
    match matches.get_str(id) {
        Some(text) => text,
        None => "",
    }
}

/// The number that a size's text spells.
fn size(text: &str) -> Result<u64, OptionsFault>
    ensures ok { IfOk result (Spells text.now) }
    ensures err { IfErr result (λ fault. (fault ≡ OptionsFault.BadSize) × (¬ IsSize text.now)) }
{
    text.parse::<u64>().map_err(|_| OptionsFault::BadSize)
}

/// What the words after the program's name choose, if clap takes them. Whether the sizes are
/// within their limits isn't tested here. `BadSize` if the text of a size isn't what the
/// number's `parse` reads.
pub fn options(alloc: Global, words: &[String]) -> Result<Options, OptionsFault>
    ensures ok { IfOk result (Chooses (map string_bytes words.now)) }
    ensures err { IfErr result (Refuses (map string_bytes words.now)) }
{
    let matches = matches_in(alloc, words).map_err(OptionsFault::Words)?;
    Ok(Options {
        buckets: size(text_of(&matches, "buckets"))?,
        inodes: size(text_of(&matches, "inodes"))?,
        stats: text_of(&matches, "stats") == "true",
    })
}
