//! The words of the program, read by `clap`.

ghost use Rattle.std.specs.Prelude.{◌≡◌, ◌≢◌, ◌≤◌, [], None, Some, IfOk, IfSome, Err, map, option_map, true};
ghost use Rattle.clap.specs.Words.{app_of, fault_of, first_of, found_of, rows_of, subcommand_of, subcommand_rows_of, with_subcommand};
ghost use Rattle.desk.specs.declared.known_words.Unknown.TheVariants as unknown;
ghost use Rattle.desk.specs.Command.{ValuesAgree, agrees, assign_app, assign_in, assigning_app, bare_app, command_in, command_of, desk_app, file_app, gen_app, gen_in, number_in, period_app, print_named, print_of, printing_in, size_of, tables_app, with_option, with_place};
ghost use Rattle.desk.specs.Generable.{IsGenerable};
ghost use Rattle.desk.specs.KnownCommands.{KnowsCommands};

use crate::command::{AssignWords, Command};
use crate::gen_words::GenWords;
use assign::Print;
use clap::error::ErrorKind;
use clap::{Arg, ArgMatches, Command as App};
use desk_io::Name;
use gtfs_rows::whole;
use std::alloc::{AllocError, Global};

/// Why there is no command.
#[derive(Clone, Copy, Debug, Drop, PartialEq, Eq)]
pub enum Unknown {
    /// The words are no command.
    Words,
    NoMemory,
}

impl From<AllocError> for Unknown {
    ghost from_gives = { λ _ found. found ≡ unknown.NoMemory };

    fn from(_error: AllocError) -> Unknown {
        Unknown::NoMemory
    }
}

/// The command of the words, which exclude the program's own name.
///
/// docs/FORMATS.md lists the commands. `Words` where the words are none of them: also where one is
/// missing or one more is there, where an option is unknown, stands twice or has no value, where
/// what is printed does not go with the zone that is asked for, where a number is none or outside of
/// its limits, and where help is asked for. `NoMemory` may come in place of any answer.
pub fn command_of(alloc: Global, words: &[Name]) -> Result<Command, Unknown>
    ensures ok { IfOk result (λ command. command_of words.now ≡ Some command) }
    ensures agree { IfOk result ValuesAgree }
    ensures words { result ≡ Err Unknown.Words → command_of words.now ≡ None }
{
    let texts = texts_of(alloc, words)?;
    let matches = matches_of(alloc, texts.as_slice())?;
    match read_by(&matches) {
        Some((name, values)) => command_in(alloc, name, values),
        None => Err(Unknown::Words),
    }
}

/// A law above the stated words of `clap`: some words, and the command that each gives.
pub fn commands_are_known()
    ensures known { KnowsCommands }
{}

// The texts of the words.
fn texts_of<'a>(alloc: Global, words: &'a [Name]) -> Result<Vec<&'a str>, AllocError>
    ensures texts { IfOk result (λ texts. map (λ text. text.now) texts.items ≡ words.now) }
{
    let mut texts = Vec::new(alloc);
    for word in words {
        texts.push(word.as_str())?;
    }
    Ok(texts)
}

// What `clap` reads of the words.
fn matches_of<'a>(alloc: Global, words: &'a [&'a str]) -> Result<ArgMatches<'a>, Unknown>
    ensures taken { IfOk result (λ matches. fault_of desk_app (map (λ word. word.now) words.entry.now) ≡ []) }
    ensures matches { IfOk result (λ matches. subcommand_rows_of matches ≡ subcommand_of desk_app (map (λ word. word.now) words.entry.now)) }
    ensures words { result ≡ Err Unknown.Words → fault_of desk_app (map (λ word. word.now) words.entry.now) ≢ [] }
{
    let desk = desk_command(alloc)?;
    match desk.try_get_matches_from(words) {
        Ok(matches) => Ok(matches),
        Err(error) => match error.kind() {
            ErrorKind::OutOfMemory => Err(Unknown::NoMemory),
            _ => Err(Unknown::Words),
        },
    }
}

// The name and the values of the command that was read.
fn read_by<'m, 'a>(matches: &'m ArgMatches<'a>) -> Option<(&'a str, &'m ArgMatches<'a>)>
    ensures read { option_map (λ pair. (pair.0.now, rows_of (found_of pair.1.now))) result ≡ subcommand_rows_of matches.now }
{
    matches.subcommand()
}

// The command of a name and its values.
fn command_in(alloc: Global, name: &str, values: &ArgMatches<'_>) -> Result<Command, Unknown>
    ensures ok { IfOk result (λ command. command_in name.now (rows_of (found_of values.now)) ≡ Some command) }
    ensures words { result ≡ Err Unknown.Words → command_in name.now (rows_of (found_of values.now)) ≡ None }
    ensures agree { IfOk result ValuesAgree }
{
    match name {
        "assign" => Ok(Command::Assign(assign_in(alloc, values)?)),
        "check" => Ok(Command::Check(value_of(alloc, values, "file")?)),
        "solve" => Ok(Command::Solve(value_of(alloc, values, "file")?)),
        "gen" => match gen_in(values) {
            Some(words) => Ok(Command::Gen(words)),
            None => Err(Unknown::Words),
        },
        _ => Err(Unknown::Words),
    }
}

// The values of `assign`.
fn assign_in(alloc: Global, values: &ArgMatches<'_>) -> Result<AssignWords, Unknown>
    ensures ok { IfOk result (λ words. assign_in (rows_of (found_of values.now)) ≡ Some words) }
    ensures words { result ≡ Err Unknown.Words → assign_in (rows_of (found_of values.now)) ≡ None }
    ensures agree { IfOk result (λ words. agrees words.print words.to_zone ≡ true) }
{
    let (print, to_zone) = printing_in(alloc, values)?;
    Ok(AssignWords {
        folder: value_of(alloc, values, "folder")?,
        date: value_of(alloc, values, "date")?,
        from: value_of(alloc, values, "from")?,
        to: value_of(alloc, values, "to")?,
        zones: value_of(alloc, values, "zones")?,
        demand: value_of(alloc, values, "demand")?,
        walks: choice_of(alloc, values, "walks")?,
        scenario: choice_of(alloc, values, "scenario")?,
        print,
        to_zone,
    })
}

// What `assign` prints, and the zone that is asked for.
fn printing_in(alloc: Global, values: &ArgMatches<'_>) -> Result<(Print, Option<Name>), Unknown>
    ensures ok { IfOk result (λ pair. printing_in (rows_of (found_of values.now)) ≡ Some pair) }
    ensures words { result ≡ Err Unknown.Words → printing_in (rows_of (found_of values.now)) ≡ None }
    ensures agree { IfOk result (λ pair. agrees pair.0 pair.1 ≡ true) }
{
    let Some(print) = print_of(text_of(values, "print")) else {
        return Err(Unknown::Words);
    };
    let to_zone = choice_of(alloc, values, "to-zone")?;
    if agrees(print, &to_zone) {
        Ok((print, to_zone))
    } else {
        Err(Unknown::Words)
    }
}

// What is printed: without a word of `--print` the summary.
fn print_of(word: Option<&str>) -> Option<Print>
    ensures value { result ≡ print_of (option_map (λ text. text.now) word.entry) }
{
    match word {
        None => Some(Print::Summary),
        Some(word) => print_named(word),
    }
}

// What a word of `--print` asks for.
fn print_named(word: &str) -> Option<Print>
    ensures value { result ≡ print_named word.now }
{
    match word {
        "summary" => Some(Print::Summary),
        "lines" => Some(Print::Lines),
        "stops" => Some(Print::Stops),
        "segments" => Some(Print::Segments),
        "skims" => Some(Print::Skims),
        "certificate" => Some(Print::Certificate),
        _ => None,
    }
}

// Whether a zone may be asked for, or not.
fn agrees(print: Print, zone: &Option<Name>) -> bool
    ensures value { result ≡ agrees print zone.now }
{
    match print {
        Print::Certificate => zone.is_some(),
        Print::Skims => true,
        Print::Summary | Print::Lines | Print::Stops | Print::Segments | Print::All => {
            zone.is_none()
        }
    }
}

// The values of `gen`.
fn gen_in(values: &ArgMatches<'_>) -> Option<GenWords>
    ensures value { result ≡ gen_in (rows_of (found_of values.now)) }
    ensures agree { IfSome result IsGenerable }
{
    let seed = number_in(values, "seed")?;
    let stops = size_of(number_in(values, "stops"), 8, 5000)?;
    let lines = size_of(number_in(values, "lines"), 2, 500)?;
    let zones = size_of(number_in(values, "zones"), 2, 1000)?;
    Some(GenWords {
        seed,
        stops,
        lines,
        zones,
    })
}

// A number from the first to the second of two.
fn size_of(number: Option<u64>, least: u32, most: u32) -> Option<u32>
    ensures value { result ≡ size_of least most number }
    ensures within { IfSome result (λ size. (least ≤ size) × (size ≤ most)) }
{
    let number = number?;
    if u64::from(least) <= number && number <= u64::from(most) {
        Some(number as u32)
    } else {
        None
    }
}

// The number of an argument.
fn number_in(values: &ArgMatches<'_>, id: &str) -> Option<u64>
    ensures value { result ≡ number_in id.now (rows_of (found_of values.now)) }
{
    whole(text_of(values, id)?.as_bytes())
}

// The value of an argument, which is refused where there is none.
fn value_of(alloc: Global, values: &ArgMatches<'_>, id: &str) -> Result<Name, Unknown>
    ensures ok { IfOk result (λ name. first_of id.now (rows_of (found_of values.now)) ≡ Some name) }
    ensures words { result ≡ Err Unknown.Words → first_of id.now (rows_of (found_of values.now)) ≡ None }
{
    match choice_of(alloc, values, id)? {
        Some(name) => Ok(name),
        None => Err(Unknown::Words),
    }
}

// The value of an argument, or that there is none.
fn choice_of(alloc: Global, values: &ArgMatches<'_>, id: &str) -> Result<Option<Name>, AllocError>
    ensures ok { IfOk result (λ name. first_of id.now (rows_of (found_of values.now)) ≡ name) }
{
    match text_of(values, id) {
        Some(text) => Ok(Some(Name::new(String::from_str(alloc, text)?))),
        None => Ok(None),
    }
}

// The text of an argument.
fn text_of<'a>(values: &ArgMatches<'a>, id: &str) -> Option<&'a str>
    ensures text { option_map (λ text. text.now) result ≡ first_of id.now (rows_of (found_of values.now)) }
{
    values.get_str(id)
}

// The program with its commands.
fn desk_command<'a>(alloc: Global) -> Result<App<'a>, AllocError>
    ensures app { IfOk result (λ app. app_of app ≡ desk_app) }
{
    let desk = assigning_command(alloc)?;
    let desk = with_command(desk, file_command(alloc, "check")?)?;
    with_command(desk, file_command(alloc, "solve")?)
}

// The program with the commands that assign a demand.
fn assigning_command<'a>(alloc: Global) -> Result<App<'a>, AllocError>
    ensures app { IfOk result (λ app. app_of app ≡ assigning_app) }
{
    let desk = bare_command(alloc);
    let desk = with_command(desk, assign_command(alloc)?)?;
    with_command(desk, gen_command(alloc)?)
}

// The program, which wants a command, and whose words are without its own name.
fn bare_command<'a>(alloc: Global) -> App<'a>
    ensures app { app_of result ≡ bare_app }
{
    App::new(alloc, "desk")
        .no_binary_name(true)
        .subcommand_required(true)
}

// The program with one more command.
fn with_command<'a>(desk: App<'a>, command: App<'a>) -> Result<App<'a>, AllocError>
    requires plain { (app_of command).top.is_plain ≡ true }
    ensures app { IfOk result (λ app. app_of app ≡ with_subcommand (app_of desk.entry) (app_of command.entry).top) }
{
    desk.subcommand(command)
}

// `assign` with its values.
fn assign_command<'a>(alloc: Global) -> Result<App<'a>, AllocError>
    ensures app { IfOk result (λ app. app_of app ≡ assign_app) }
{
    let command = tables_command(alloc)?;
    let command = with_option(alloc, command, "print", false)?;
    with_option(alloc, command, "to-zone", false)
}

// `assign` with its folder, its period and its tables.
fn tables_command<'a>(alloc: Global) -> Result<App<'a>, AllocError>
    ensures app { IfOk result (λ app. app_of app ≡ tables_app) }
{
    let command = period_command(alloc)?;
    let command = with_option(alloc, command, "zones", true)?;
    let command = with_option(alloc, command, "demand", true)?;
    let command = with_option(alloc, command, "walks", false)?;
    with_option(alloc, command, "scenario", false)
}

// `assign` with its folder and its period.
fn period_command<'a>(alloc: Global) -> Result<App<'a>, AllocError>
    ensures app { IfOk result (λ app. app_of app ≡ period_app) }
{
    let command = App::new(alloc, "assign");
    let command = with_place(alloc, command, "folder")?;
    let command = with_option(alloc, command, "date", true)?;
    let command = with_option(alloc, command, "from", true)?;
    with_option(alloc, command, "to", true)
}

// `gen` with its numbers.
fn gen_command<'a>(alloc: Global) -> Result<App<'a>, AllocError>
    ensures app { IfOk result (λ app. app_of app ≡ gen_app) }
{
    let command = App::new(alloc, "gen");
    let command = with_place(alloc, command, "seed")?;
    let command = with_place(alloc, command, "stops")?;
    let command = with_place(alloc, command, "lines")?;
    with_place(alloc, command, "zones")
}

// A command over one file.
fn file_command<'a>(alloc: Global, name: &'a str) -> Result<App<'a>, AllocError>
    ensures app { IfOk result (λ app. app_of app ≡ file_app name.entry.now) }
{
    let command = App::new(alloc, name);
    with_place(alloc, command, "file")
}

// A command with one more word in its place.
fn with_place<'a>(alloc: Global, command: App<'a>, name: &'a str) -> Result<App<'a>, AllocError>
    ensures app { IfOk result (λ app. app_of app ≡ with_place (app_of command.entry) name.entry.now) }
{
    let place = Arg::new(alloc, name).required(true);
    command.arg(place)
}

// A command with one more option, which takes one value.
fn with_option<'a>(
    alloc: Global,
    command: App<'a>,
    name: &'a str,
    required: bool,
) -> Result<App<'a>, AllocError>
    ensures app { IfOk result (λ app. app_of app ≡ with_option (app_of command.entry) name.entry.now required) }
{
    let option = Arg::new(alloc, name).long(name).required(required);
    command.arg(option)
}
