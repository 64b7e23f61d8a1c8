//! The words of the command line, and help.

ghost use Rattle.std.specs.Prelude.{◌≡◌, ◌≢◌, true, false, Some, map, codes, option_map, IfOk, IfErr, IfSome, IfNone};
ghost use Rattle.clap.specs.Words.{app_of, kind_of, new_app, shape_of, rows_of, found_of, subcommand_rows_of, takes, with_rule};
ghost use Rattle.clap.specs.declared.builder.command.Command.TheViews.{out-Command as fields_of};
ghost use Rattle.osi_tool.specs.Words.{osi, top, judging, script, asked_of, asked_by, asked_in, is_set, options_in, words_fault, IsJob};

use crate::faults::WordsFault;
use crate::jobs::{Job, Options};
use clap::error::ErrorKind;
use clap::{Arg, ArgAction, ArgMatches, Command, Error};
use std::alloc::{AllocError, Global};
use std::convert::AsStr;

/// The number of this version, which is that of the file VERSION at the top.
const VERSION: &str = "0.2.0-dev";

/// What a script is made of.
const SCRIPTS: &str = "\
A line for each event, which ends at a line feed alone; empty lines and lines that begin with # are
skipped. The script has at most 16,777,216 octets.

  ends CALLER CALLED SIZE WINDOW      the first line: classes 0, 2 or 20 of the left end, which
                                      calls, and of the right one; TPDU size code 7 to 13;
                                      window 1 to 15
  connect UNITS SERIAL WISHES DATA    the left end asks for a connection; with A B after it, the
                                      largest TSDUs that it and the right end would send
  carry SIDE K                        K octets of a side are carried, or all if there are fewer
  break KL KR                         the connection breaks: so many octets of the left and of the
                                      right side can still be carried
  told SIDE                           a side is told of the break

  SIDE REF accept UNITS SERIAL SIDES DATA, or with A B after it
  SIDE REF refuse DATA                SIDE REF minorconfirm N DATA
  SIDE REF data DATA                  SIDE REF major DATA
  SIDE REF give TOKENS                SIDE REF majorconfirm DATA
  SIDE REF please TOKENS DATA         SIDE REF restart N WISHES DATA
  SIDE REF minor yes DATA             SIDE REF restartconfirm SIDES DATA
  SIDE REF minor no DATA              SIDE REF release DATA
  SIDE REF releaseaccept DATA         SIDE REF releaserefuse DATA
  SIDE REF abort DATA

SIDE is left or right, REF the number of a connection. DATA is hexadecimal, or - for none. SIDES has
a letter for the data, minor, major and release token: a for the side that asks, r for the side that
answers; in WISHES also c for the choice of the side that answers. A and B are 64 to 65535 octets, or
0 for no limit. TOKENS has two digits: 01 data, 04 minor, 10 major, 40 release. UNITS has four digits:
0001 half-duplex, 0002 duplex, 0008 minor, 0010 major, 0020 resynchronize, 0080 negotiated release.";

/// What a capture of one direction is.
const CAPTURE: &str = "\
Hexadecimal digits of one direction of a byte connection, two for each octet; blanks and line ends are
skipped, and # begins a comment. The text has at most 16,777,216 octets.";

/// What a capture of both sides is.
const CAPTURES: &str = "\
Lines of hexadecimal digits, blanks and # comments. Each line is a piece of one side: of the called side,
which is right, if it begins with a tab, else of the side that called, which is left. The pieces stand in
the order in which they passed, all octets of both directions from the first on. The text may have any
length, and with --script at most 16,777,216 octets:

  tshark -r run.pcap -q -z follow,tcp,raw,0 | sed -n '/^[0-9a-f\\t]*$/p' | osi judge

With --live a capture may be judged while it grows. --live and --script exclude each other:

  tail -n +1 -f capture.hex | osi judge --live

The status is 0 if both sides kept the protocol, and 1 if one broke it or left the profile, or if the
capture was not judged. With --script it is 0 if the script tells all that both sides sent, and 1 if it
stops before, as its last line says.";

/// What the option for a script does.
const SCRIPT: &str =
    "Write a script for osi pair that does what both sides did, as far as a session can do it";

/// What the option for findings does.
const LIVE: &str = "Write each finding as soon as it is certain, and the whole text at the end";

/// The job that the program's arguments name; the first of them is the program's name. A request for help or for the
/// version, and arguments that name no job, are an error of `clap`.
pub fn job<'a, S: AsStr>(alloc: Global, words: &'a [S]) -> Result<Job, Error>
    ensures named { IfOk result (λ job. asked_by (map S.text words.entry.now) ≡ Some (asked_of job)) }
    // If clap takes the arguments and they name a job's subcommand, the only possible error is out of memory.
    ensures taken { IfErr result (λ e. takes osi (map S.text words.entry.now) ≡ true →
        IsJob (asked_by (map S.text words.entry.now)) →
        kind_of e ≡ ErrorKind.OutOfMemory) }
{
    let asked = match subcommand(alloc, words) {
        Ok(asked) => asked,
        Err(error) => return Err(error),
    };
    match job_asked(asked) {
        Some(job) => Ok(job),
        None => Err(no_subcommand(alloc)?),
    }
}

/// The subcommand that the words ask for, and its options.
fn subcommand<'a, S: AsStr>(
    alloc: Global,
    words: &'a [S],
) -> Result<Option<(&'a str, Options)>, Error>
    ensures named { IfOk result (λ asked. option_map (λ p. (p.0.now, p.1)) asked ≡ asked_by (map S.text words.entry.now)) }
    ensures taken { IfErr result (λ e. takes osi (map S.text words.entry.now) ≡ true →
        kind_of e ≡ ErrorKind.OutOfMemory) }
{
    match command(alloc)?.try_get_matches_from(words) {
        Ok(matches) => Ok(asked_in(&matches)),
        Err(error) => Err(error),
    }
}

/// The subcommand that was met, and its options.
fn asked_in<'a>(matches: &ArgMatches<'a>) -> Option<(&'a str, Options)>
    ensures { option_map (λ p. (p.0.now, p.1)) result ≡ asked_in (subcommand_rows_of matches.now) }
{
    match matches.subcommand() {
        None => None,
        Some((name, inner)) => Some((name, options_in(inner))),
    }
}

/// Which options of a subcommand were met.
fn options_in(matches: &ArgMatches<'_>) -> Options
    ensures { result ≡ options_in (rows_of (found_of matches.now)) }
{
    Options {
        script: is_set(matches, "script"),
        live: is_set(matches, "live"),
    }
}

/// Whether an option of a subcommand was met.
fn is_set(matches: &ArgMatches<'_>, name: &str) -> bool
    ensures { result ≡ is_set name.now (rows_of (found_of matches.now)) }
{
    match matches.get_str(name) {
        None => false,
        Some(text) => text == "true",
    }
}

/// The error of words that ask for no subcommand.
fn no_subcommand(alloc: Global) -> Result<Error, AllocError> {
    command(alloc)?.error(ErrorKind::MissingSubcommand, "no subcommand")
}

/// The command `osi` with its subcommands.
fn command<'a>(alloc: Global) -> Result<Command<'a>, AllocError>
    ensures { IfOk result (λ command. app_of command ≡ osi) }
{
    bare_command(alloc)?
        .subcommand(show(alloc))?
        .subcommand(pair(alloc))?
        .subcommand(judge(alloc)?)
}

/// The command `osi` without its subcommands.
fn bare_command<'a>(alloc: Global) -> Result<Command<'a>, AllocError>
    ensures { IfOk result (λ command. app_of command ≡ top) }
{
    let command = Command::new(alloc, "osi")
        .about(
            "Read and judge captures of the OSI session protocol over TPKT, and run scripts on two ends",
        )
        .version(VERSION)
        .bin_name("osi")?;
    Ok(command.subcommand_required(true))
}

/// The subcommand that lists a capture.
fn show<'a>(alloc: Global) -> Command<'a>
    ensures shape { shape_of result ≡ (new_app (codes "show")).top }
    ensures local { (fields_of result).has_globals ≡ false }
{
    Command::new(alloc, "show")
        .about("List the capture on standard input")
        .after_help(CAPTURE)
}

/// The subcommand that runs a script.
fn pair<'a>(alloc: Global) -> Command<'a>
    ensures shape { shape_of result ≡ (new_app (codes "pair")).top }
    ensures local { (fields_of result).has_globals ≡ false }
{
    Command::new(alloc, "pair")
        .about("Run the script on standard input on two ends, and print what they do")
        .after_help(SCRIPTS)
}

/// The subcommand that judges a capture, with its option for a script alone.
fn judge_or_script<'a>(alloc: Global) -> Result<Command<'a>, AllocError>
    ensures app { IfOk result (λ command. app_of command ≡ with_rule (new_app (codes "judge")) script) }
    ensures local { IfOk result (λ command. (fields_of command).has_globals ≡ false) }
{
    let script = Arg::new(alloc, "script")
        .long("script")
        .action(ArgAction::SetTrue)
        .help(SCRIPT);
    Command::new(alloc, "judge")
        .about("Say which side of the capture on standard input first broke the protocol")
        .after_help(CAPTURES)
        .arg(script)
}

/// The subcommand that judges a capture.
fn judge<'a>(alloc: Global) -> Result<Command<'a>, AllocError>
    ensures shape { IfOk result (λ command. shape_of command ≡ judging.top) }
    ensures local { IfOk result (λ command. (fields_of command).has_globals ≡ false) }
{
    let live = Arg::new(alloc, "live")
        .long("live")
        .action(ArgAction::SetTrue)
        .help(LIVE);
    let command = judge_or_script(alloc)?;
    command.arg(live)
}

/// The job of a subcommand with these options. Those of `judge` exclude each other.
fn job_named(name: &str, options: Options) -> Option<Job>
    ensures some { IfSome result (λ job. (name.now, options) ≡ asked_of job) }
    ensures not_show { IfNone result ((name.now, options) ≢ asked_of Job.Show) }
    ensures not_pair { IfNone result ((name.now, options) ≢ asked_of Job.Pair) }
    ensures not_judge { IfNone result ((name.now, options) ≢ asked_of Job.Judge) }
    ensures not_live { IfNone result ((name.now, options) ≢ asked_of Job.Live) }
    ensures not_witness { IfNone result ((name.now, options) ≢ asked_of Job.Witness) }
{
    match (name, options.script, options.live) {
        ("show", false, false) => Some(Job::Show),
        ("pair", false, false) => Some(Job::Pair),
        ("judge", false, false) => Some(Job::Judge),
        ("judge", false, true) => Some(Job::Live),
        ("judge", true, false) => Some(Job::Witness),
        _ => None,
    }
}

/// The job that is asked for.
fn job_asked(asked: Option<(&str, Options)>) -> Option<Job>
    ensures some { IfSome result (λ job. option_map (λ p. (p.0.now, p.1)) asked.entry ≡ Some (asked_of job)) }
    ensures none { IfNone result (IsJob (option_map (λ p. (p.0.now, p.1)) asked.entry) → ⊥) }
{
    let Some((name, options)) = asked else {
        return None;
    };
    job_named(name, options)
}

/// The fault of words that name no job; none if they ask for help or for the version.
pub(crate) fn fault_of_error(error: &Error) -> Option<WordsFault>
    ensures { result ≡ words_fault (kind_of error.now) }
{
    match error.kind() {
        ErrorKind::DisplayHelp | ErrorKind::DisplayVersion => None,
        ErrorKind::OutOfMemory => Some(WordsFault::OutOfMemory),
        _ => Some(WordsFault::Words),
    }
}
