//! What a test finds, which all modules report, and TSDUs for them.

use std::alloc::{AllocError, Global};
use std::cell::Cell;
use std::test::Fail;

/// The report that an allocation failed.
pub(crate) const OUT_OF_MEMORY: &str = "out of memory";

/// The first thing that was not as it should be, if anything was.
///
/// A test goes on after a report, since each call may follow any other, and its result is that report. A `Checks` is not
/// `Drop`, so that no test forgets to end it.
pub(crate) struct Checks {
    failed: Cell<Option<&'static str>>,
}

impl Checks {
    /// Nothing has failed yet.
    pub(crate) fn new() -> Checks {
        Checks {
            failed: Cell::new(None),
        }
    }

    /// Reports what is wrong, unless this is met.
    pub(crate) fn that(&self, is_met: bool, wrong: &'static str) {
        if !is_met && self.failed.get().is_none() {
            self.failed.set(Some(wrong));
        }
    }

    /// Reports what is wrong.
    pub(crate) fn fail(&self, wrong: &'static str) {
        self.that(false, wrong);
    }

    /// Reports an allocation that failed.
    pub(crate) fn memory(&self, answer: Result<(), AllocError>) {
        self.that(answer.is_ok(), OUT_OF_MEMORY);
    }

    /// Reports an allocation that failed, or what is wrong, unless this is met.
    pub(crate) fn made(&self, is_met: Result<bool, AllocError>, wrong: &'static str) {
        match is_met {
            Ok(is_met) => self.that(is_met, wrong),
            Err(error) => self.memory(Err(error)),
        }
    }

    /// The result of the test: an error that says what was reported first, if anything was.
    pub(crate) fn end(self) -> Result<(), Fail> {
        let Checks { failed } = self;
        match failed.get() {
            None => Ok(()),
            Some(wrong) => Err(Fail::new(wrong)),
        }
    }
}

/// A TSDU of this many octets; an empty one if memory runs out.
pub(crate) fn octets(alloc: Global, count: usize, checks: &Checks) -> Vec<u8> {
    match vec![in alloc; 0x5A; count] {
        Ok(tsdu) => tsdu,
        Err(error) => {
            checks.memory(Err(error));
            Vec::new(alloc)
        }
    }
}

/// Adds a TSDU to a list, if there is memory for it.
pub(crate) fn add(tsdus: &mut Vec<Vec<u8>>, tsdu: Vec<u8>, checks: &Checks) {
    checks.that(tsdus.push(tsdu).is_ok(), OUT_OF_MEMORY);
}
