//! The text of a capture, heard piece by piece and judged while it is.

ghost use Rattle.std.specs.Prelude.{◌≡◌, ◌<◌};
ghost use Rattle.osi_report.specs.Passing.{digit_of};

use crate::disputes::{Judgement, judgement_by, pass, pass_if};
use crate::news::{News, is_decided};
use crate::openings::Opening;
use crate::places::Place;
use crate::steps::{is_plain, place_on_line, read_octets, start_of_text, step};
use osi_judge::Judge;
use osi_listing::CaptureFault;
use std::alloc::{AllocError, Global};

/// The text of a capture of both sides, heard piece by piece. You feed it the text in pieces of any size, and ask for the
/// judgement at its end. What it keeps is what the judge keeps, and at most 4,096 octets; it keeps nothing of the text.
#[derive(Drop)]
pub struct Hearing {
    alloc: Global,
    judge: Judge,
    opening: Opening,
    place: Place,
    /// Octets that pass together.
    octets: Vec<u8>,
    /// Of what something was told.
    news: News,
    /// Why it failed, if it did.
    fault: Option<CaptureFault>,
    ghost small: { digit_of place.half < 16 },
}

impl Hearing {
    ghost use Rattle.std.specs.Prelude.{◌++◌, ◌∷◌, [], ℕ, List, Err, IfErr, IfOk, OnOk, length, ◌≤◌, ◌⊎◌};
    ghost use Rattle.osi_side.specs.Captures.{Capture, piece, stream};
    ghost use Rattle.osi_side.specs.declared.directions.Direction.TheVariants.{Left};
    ghost use Rattle.osi_listing.specs.Capture.{IsNoCapture};
    ghost use Rattle.osi_listing.specs.declared.capture.CaptureFault.{CaptureFault};
    ghost use Rattle.osi_judge.specs.Standing.{HoldsState};
    ghost use Rattle.osi_judge.specs.States.{State, comes_to};
    ghost use Rattle.osi_report.specs.Disputes.{IsJudgement};
    ghost use Rattle.osi_report.specs.Hearing.{Fails, IsHeard};
    ghost use Rattle.osi_report.specs.News.{Announces};
    ghost use Rattle.osi_report.specs.Openings.{Opens};

    /// Nothing was heard.
    pub fn new(alloc: Global) -> Hearing
        ensures { (text : List ℕ) → IsHeard result text text }
    {
        Hearing {
            alloc,
            judge: Judge::new(alloc),
            opening: Opening::new(),
            place: start_of_text(),
            octets: Vec::new(alloc),
            news: News::new(alloc),
            fault: None,
        }
    }

    /// Hears the next piece of a text.
    ///
    /// Returns [`CaptureFault::BadHex`] only if the text is no capture, whatever comes after this piece. After a fault every
    /// call answers the same.
    pub fn feed(&mut self, text: &[u8]) -> Result<(), CaptureFault>
        ensures ok { OnOk result ((whole more : List ℕ) → IsHeard self.old whole (text.now ++ more) → IsHeard self.new whole more) }
        ensures bad_hex { result ≡ Err CaptureFault.BadHex → (whole more : List ℕ) → IsHeard self.old whole (text.now ++ more)
            → IsNoCapture whole }
        ensures failed { IfErr result (λ fault. Fails self.new fault) }
        ensures over { (fault : CaptureFault) → Fails self.old fault → result ≡ Err fault }
    {
        if let Some(fault) = self.fault {
            return Err(fault);
        }
        match self.hear(text) {
            Ok(()) => Ok(()),
            Err(fault) => {
                self.fault = Some(fault);
                Err(fault)
            }
        }
    }

    /// Hears the next piece of a text.
    fn hear(&mut self, text: &[u8]) -> Result<(), CaptureFault>
        ensures ok { OnOk result ((whole more : List ℕ) → IsHeard self.old whole (text.now ++ more) → IsHeard self.new whole more) }
        ensures bad_hex { result ≡ Err CaptureFault.BadHex → (whole more : List ℕ) → IsHeard self.old whole (text.now ++ more)
            → IsNoCapture whole }
    {
        let mut rest = text;
        'text: while let Some((character, behind)) = rest.split_first() {
            if let Err(fault) = self.hear_character(*character) {
                return Err(fault);
            }
            rest = self.hear_octets(behind)?;
        }
        Ok(())
    }

    /// Hears a character.
    fn hear_character(&mut self, character: u8) -> Result<(), CaptureFault>
        ensures ok { OnOk result ((whole more : List ℕ) → IsHeard self.old whole (character ∷ more) → IsHeard self.new whole more) }
        ensures bad_hex { result ≡ Err CaptureFault.BadHex → (whole more : List ℕ) → IsHeard self.old whole (character ∷ more)
            → IsNoCapture whole }
    {
        let Some(step) = step(self.place, character) else {
            return Err(CaptureFault::BadHex);
        };
        self.place = step.place;
        pass_if(&mut self.judge, &mut self.opening, step.passing)
    }

    /// Takes the side of a line from its first character, which is not heard yet.
    fn go_to_line(&mut self, text: &[u8])
        ensures { (whole more : List ℕ) → IsHeard self.old whole (text.now ++ more) → IsHeard self.new whole (text.now ++ more) }
    {
        self.place = place_on_line(self.place, text);
    }

    /// Hears octets whose digits stand side by side, and blanks between them, if the place is between two octets of a line. Returns
    /// the rest of the text.
    fn hear_octets<'t>(&mut self, text: &'t [u8]) -> Result<&'t [u8], CaptureFault>
        ensures ok { IfOk result (λ rest. (whole more : List ℕ) → IsHeard self.old whole (text.now ++ more)
            → IsHeard self.new whole (rest.now ++ more)) }
        ensures shorter { IfOk result (λ rest. length rest.now ≤ length text.now) }
        ensures memory { IfErr result (λ fault. fault ≡ CaptureFault.OutOfMemory) }
    {
        self.go_to_line(text);
        self.hear_on_line(text)
    }

    /// The same, once the side of the line is known.
    fn hear_on_line<'t>(&mut self, text: &'t [u8]) -> Result<&'t [u8], CaptureFault>
        ensures ok { IfOk result (λ rest. (whole more : List ℕ) → IsHeard self.old whole (text.now ++ more)
            → IsHeard self.new whole (rest.now ++ more)) }
        ensures shorter { IfOk result (λ rest. length rest.now ≤ length text.now) }
        ensures memory { IfErr result (λ fault. fault ≡ CaptureFault.OutOfMemory) }
    {
        if !is_plain(self.place) {
            return Ok(text);
        }
        let Ok(rest) = read_octets(&mut self.octets, text) else {
            return Err(CaptureFault::OutOfMemory);
        };
        let octets = self.octets.as_slice();
        pass(
            &mut self.judge,
            &mut self.opening,
            self.place.direction,
            octets,
        )?;
        Ok(rest)
    }

    /// Adds to a text what has become certain since the last call, a line for each finding: a session or the transport of a side
    /// broke the protocol or left the profile, or is judged no further since there are too many sessions or connections. Each is a line
    /// of the report of what has passed. The break that passed first comes first; the others come in the order of a report.
    ///
    /// Nothing is told before octets of both sides have passed, nor as long as what follows may show that the capture begins in the
    /// middle of a connection. It looks at each connection that may still get units, and once at each other. After a fault every call
    /// answers the same.
    pub fn news(&mut self, text: &mut Vec<u8>) -> Result<(), CaptureFault>
        ensures kept { OnOk result ((whole rest : List ℕ) → IsHeard self.old whole rest → IsHeard self.new whole rest) }
        ensures told { OnOk result ((whole rest : List ℕ) (heard : IsHeard self.old whole rest)
            → Announces heard.capture text.old.items text.new.items) }
        ensures failed { IfErr result (λ fault. Fails self.new fault) }
        ensures over { (fault : CaptureFault) → Fails self.old fault → result ≡ Err fault }
        ensures sound { (fault : CaptureFault) → result ≡ Err fault → (fault ≡ CaptureFault.OutOfMemory) ⊎ Fails self.old fault }
    {
        if let Some(fault) = self.fault {
            return Err(fault);
        }
        match self.add_news(text) {
            Ok(()) => Ok(()),
            Err(_) => {
                self.fault = Some(CaptureFault::OutOfMemory);
                Err(CaptureFault::OutOfMemory)
            }
        }
    }

    /// The same, if nothing has failed.
    fn add_news(&mut self, text: &mut Vec<u8>) -> Result<(), AllocError>
        ensures holds { (s : State) → HoldsState self.old.judge s → HoldsState self.new.judge s }
        ensures opening { self.new.opening ≡ self.old.opening }
        ensures place { self.new.place ≡ self.old.place }
        ensures fault { self.new.fault ≡ self.old.fault }
        ensures told { OnOk result ((capture : Capture) → HoldsState self.old.judge (comes_to capture)
            → Opens self.old.opening (stream Left capture) → Announces capture text.old.items text.new.items) }
    {
        self.judge.settle()?;
        if !is_decided(&self.judge, &self.opening) {
            return Ok(());
        }
        self.news.add(text, &self.judge)
    }

    /// The judgement of the text that was heard. Ask once, at its end.
    ///
    /// Returns [`CaptureFault::BadHex`] if the text ends within an octet. After a fault every call answers the same.
    pub fn judgement(&mut self) -> Result<Judgement, CaptureFault>
        ensures judged { IfOk result (λ j. (text : List ℕ) → IsHeard self.old text [] → IsJudgement text j.lines.items j.status) }
        ensures status { IfOk result (λ j. j.status < 2) }
        ensures bad_hex { result ≡ Err CaptureFault.BadHex → (text : List ℕ) → IsHeard self.old text [] → IsNoCapture text }
        ensures over { (fault : CaptureFault) → Fails self.old fault → result ≡ Err fault }
    {
        if let Some(fault) = self.fault {
            return Err(fault);
        }
        if self.place.half.is_some() {
            return Err(CaptureFault::BadHex);
        }
        match judgement_by(self.alloc, &mut self.judge, &self.opening) {
            Ok(judgement) => Ok(judgement),
            Err(_) => Err(CaptureFault::OutOfMemory),
        }
    }
}
