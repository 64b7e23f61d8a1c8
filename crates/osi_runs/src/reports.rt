//! What is reported of each file: that its result is as wanted, or the result in its place.

use crate::again::{Replay, replayed};
use crate::blame::Blame;
use crate::damaged::judge_damage;
use crate::digits::octets_in;
use crate::disputes::disputed;
use crate::fed::judge_ends;
use crate::kinds::Kind;
use crate::long::written_out;
use crate::octets::played;
use crate::output::Output;
use crate::seen::{judge_each_way, judge_runs};
use crate::texts::all_texts;
use crate::together::judge_together;
use crate::ways::{WAYS, Way, counts_left_out, script_in};
use osi_transcript::{Transcript, transcribe};
use std::alloc::Global;
use std::io::ErrorKind;

/// The largest script, in octets.
const LONGEST: usize = 16_777_216;

/// The report on a file. What is wanted is in the file itself, or in another one.
pub(crate) fn report_on(alloc: Global, kind: Kind, given: &str, wanted: &str) -> Output {
    let mut report = Output::new(alloc);
    judge(&mut report, kind, given, wanted);
    report
}

fn judge(report: &mut Output, kind: Kind, given: &str, wanted: &str) {
    match kind {
        Kind::Pair => judge_pair(report, given, wanted),
        Kind::EachWay => judge_ways(report, given, wanted),
        Kind::Again => judge_again(report, given, wanted),
        Kind::Octets => judge_octets(report, given),
        Kind::Show => judge_listing(report, given, wanted),
        Kind::Damaged => judge_damaged(report, given),
        Kind::Long => judge_long(report, given, wanted),
        Kind::Together => judge_events(report, given),
        Kind::Texts => judge_texts(report, given),
        Kind::Judge => judge_disputes(report, given),
        Kind::Seen => judge_seen(report, given),
        Kind::Runs => judge_scripts(report, given),
        Kind::Fed => judge_fed(report, given),
    }
}

/// Reports whether a result is as wanted; if not, also the result.
fn compare(report: &mut Output, came: &Output, wanted: &str) {
    report.fail_as(came);
    if is_as_wanted(came, wanted) {
        say_as_written(report, came.status);
    } else {
        say_another(report, came);
    }
}

fn is_as_wanted(came: &Output, wanted: &str) -> bool {
    came.octets() == wanted.as_bytes()
}

fn say_as_written(report: &mut Output, status: u8) {
    report.say("as it is written, status ");
    report.show(&status);
}

fn say_another(report: &mut Output, came: &Output) {
    report.push_number("GIVES SOMETHING ELSE, status", usize::from(came.status));
    report.add(came.octets());
}

fn judge_pair(report: &mut Output, script: &str, wanted: &str) {
    let came = told(report.alloc(), script);
    compare(report, &came, wanted);
}

/// The transcript of a script.
fn told(alloc: Global, script: &str) -> Output {
    let mut came = Output::new(alloc);
    tell(&mut came, script.as_bytes());
    came
}

fn tell(came: &mut Output, script: &[u8]) {
    if script.len() > LONGEST {
        came.fail(ErrorKind::InvalidInput);
        return;
    }
    match transcribe(came.alloc(), script) {
        Ok(transcript) => take(came, &transcript),
        Err(_) => came.fail(ErrorKind::OutOfMemory),
    }
}

fn take(came: &mut Output, transcript: &Transcript) {
    came.add(transcript.lines.as_slice());
    came.status = transcript.status;
}

fn judge_again(report: &mut Output, script: &str, wanted: &str) {
    let came = replayed(report.alloc(), script);
    report.fail_as(&came.lines);
    say_replay(report, &came, wanted);
}

fn say_replay(report: &mut Output, came: &Replay, wanted: &str) {
    if came.is_good && came.is_over {
        report.say("is over: an end found no memory");
    } else if came.is_good && is_as_wanted(&came.lines, wanted) {
        say_asked_again(report, came.refused, came.stopped);
    } else {
        say_another(report, &came.lines);
    }
}

fn say_asked_again(report: &mut Output, refused: u32, stopped: u32) {
    let said = format!(in report.alloc();
        "as it is written, {refused} asked again, {stopped} carried on"
    );
    report.say_made(said);
}

fn judge_octets(report: &mut Output, text: &str) {
    let wanted = written_out(report.alloc(), text);
    let came = played(report.alloc(), wanted.text());
    report.fail_as(&wanted);
    compare(report, &came, wanted.text());
}

fn judge_listing(report: &mut Output, capture: &str, wanted: &str) {
    let octets = octets_in(report, capture);
    let mut came = Output::new(report.alloc());
    came.list(octets.as_slice());
    compare(report, &came, wanted);
}

fn judge_damaged(report: &mut Output, capture: &str) {
    let octets = octets_in(report, capture);
    judge_damage(report, octets.as_slice());
}

fn judge_long(report: &mut Output, script: &str, wanted: &str) {
    let came = told_long(report.alloc(), script);
    let wanted = written_out(report.alloc(), wanted);
    report.fail_as(&came);
    report.fail_as(&wanted);
    if is_as_wanted(&came, wanted.text()) {
        say_as_written(report, came.status);
    } else {
        report.say("GIVES SOMETHING ELSE");
    }
}

/// The transcript of a script with abbreviations.
fn told_long(alloc: Global, script: &str) -> Output {
    let script = written_out(alloc, script);
    told_of(alloc, &script)
}

/// The transcript of a script that was written for it.
fn told_of(alloc: Global, script: &Output) -> Output {
    let mut came = told(alloc, script.text());
    came.fail_as(script);
    came
}

fn judge_events(report: &mut Output, text: &str) {
    let script = written_out(report.alloc(), text);
    report.fail_as(&script);
    judge_together(report, script.text());
}

fn judge_disputes(report: &mut Output, wanted: &str) {
    let came = disputed(report.alloc(), wanted);
    compare(report, &came, wanted);
}

fn judge_texts(report: &mut Output, wanted: &str) {
    let came = all_texts(report.alloc());
    compare(report, &came, wanted);
}

fn judge_seen(report: &mut Output, script: &str) {
    let mut blame = Blame::new(report.alloc());
    judge_each_way(&mut blame, script);
    say_blame(report, &mut blame);
}

fn judge_scripts(report: &mut Output, scripts: &str) {
    let mut blame = Blame::new(report.alloc());
    judge_runs(&mut blame, scripts);
    say_blame(report, &mut blame);
}

fn judge_fed(report: &mut Output, text: &str) {
    let wanted = written_out(report.alloc(), text);
    let mut blame = Blame::new(report.alloc());
    judge_ends(report.alloc(), &mut blame, wanted.text());
    report.fail_as(&wanted);
    say_blame(report, &mut blame);
}

/// Reports how many captures there are, or what is found of those in which an end is blamed.
fn say_blame(report: &mut Output, blame: &mut Blame) {
    report.fail_as(&blame.found);
    if blame.found.is_empty() {
        say_captures(report, blame.captures);
    } else {
        blame.found.status = 1;
        say_another(report, &blame.found);
    }
}

fn say_captures(report: &mut Output, captures: u32) {
    report.show(&captures);
    report.say(" captures, no end is blamed");
}

fn judge_ways(report: &mut Output, script: &str, wanted: &str) {
    let came = told(report.alloc(), script);
    report.fail_as(&came);
    if is_as_wanted(&came, wanted) {
        judge_other_ways(report, script, wanted);
    } else {
        say_another(report, &came);
    }
}

/// Reports whether the transcript is the same in each other way, or the first one that is not.
fn judge_other_ways(report: &mut Output, script: &str, wanted: &str) {
    for way in WAYS {
        if report.is_empty() {
            judge_way(report, script, way, wanted);
        }
    }
    if report.is_empty() {
        report.say("as it is written, each way");
    }
}

fn judge_way(report: &mut Output, script: &str, way: Way, wanted: &str) {
    let came = told_in(report.alloc(), script, way);
    report.fail_as(&came);
    if !is_same(report, came.text(), wanted) {
        say_another(report, &came);
    }
}

fn told_in(alloc: Global, script: &str, way: Way) -> Output {
    let script = script_in(alloc, script, way);
    told_of(alloc, &script)
}

/// Whether transcripts differ only in the numbers of octets carried.
fn is_same(report: &mut Output, lines: &str, wanted: &str) -> bool {
    let lines = counts_left_out(report.alloc(), lines);
    let wanted = counts_left_out(report.alloc(), wanted);
    report.fail_as(&lines);
    report.fail_as(&wanted);
    lines.octets() == wanted.octets()
}
