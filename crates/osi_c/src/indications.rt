//! Fetching and reading indications.

ghost use types.Logic.{sem};
ghost use Rattle.std.specs.Prelude.{◌≡◌, option_map};
ghost use Rattle.osi_c.specs.Codes.{fetched_of};
ghost use Rattle.osi_c.specs.Ends.{Fetches, told};
ghost use Rattle.osi_c.specs.Lent.{KeepsSlot};
ghost use Rattle.osi_c.specs.Told.{Tells};

use crate::codes::{CLOSED, NOTHING, OK};
use crate::handles::Contents;
use crate::slots::OsiEnd;
use crate::telling::{OsiIndication, nothing, tell};

/// Fetches the next indication, which [`osi_last`] then shows.
#[unsafe(no_mangle)]
pub extern "C" fn osi_fetch(end: &mut OsiEnd) -> u32
    ensures { Fetches (fetched_of result) end.old.inner.value end.new.inner.value }
{
    if !end.full {
        return CLOSED;
    }
    let contents = end.get_mut();
    let Some((reference, indication)) = contents.stack.next_indication() else {
        contents.last = None;
        return NOTHING;
    };
    contents.reference = reference.0;
    contents.last = Some(indication);
    OK
}

fn show<'a>(contents: Option<&'a Contents>, shown: &mut OsiIndication<'a>)
    ensures { Tells shown.new (told (option_map (λ c. c.now) contents.entry)) }
{
    let Some(contents) = contents else {
        *shown = nothing();
        return;
    };
    match &contents.last {
        None => *shown = nothing(),
        Some(indication) => tell(contents.reference, indication, shown),
    }
}

/// Describes the indication that was fetched last; its user data is lent.
#[unsafe(no_mangle)]
pub extern "C" fn osi_last<'a>(end: &'a mut OsiEnd, shown: &mut OsiIndication<'a>)
    ensures* same { sem 𝓛 (KeepsSlot end.entry) }
    ensures value { Tells shown.new (told end.old.inner.value) }
{
    show(end.get(), shown);
}
