//! Lines of a script.

ghost use Rattle.std.specs.Prelude.{◌≡◌, ◌++◌, ◌∷◌, [], OnOk, codes};
ghost use Rattle.osi_script.specs.Commands.{Ends, Connect, OfUser, Carry, command_by};
ghost use Rattle.osi_script.specs.Names.{side_name};
ghost use Rattle.osi_script.specs.Texts.{wish_letter, side_letter};
ghost use Rattle.osi_session.specs.Calls.{Accept, Give, Please, MinorConfirm, Restart, RestartConfirm, called_by};
ghost use Rattle.osi_message.specs.Tokens.{named};
ghost use Rattle.osi_spdu.specs.Fields.{bits_of, unit_bits};
ghost use Rattle.osi_spdu.specs.Sizes.{named_by};
ghost use Rattle.osi_tpdu.specs.Limits.{size_code, window_units};
ghost use Rattle.osi_witness.specs.Lines.{classes_name, data_field, units_field, sizes_field, tokens_field, wishes_field, sides_field};
ghost use Rattle.osi_witness.specs.Lines.{call_text, command_text, comment_line};

use bitflags::Flags;
use osi_listing::{push_number_field, push_octet, push_words};
use osi_message::Tokens;
use osi_script::{Classes, Command, Side};
use osi_session::{Request, Sides};
use osi_spdu::{Requirements, Serial, TokenSet, TokenSetting, TsduSizes, Wish};
use osi_tpdu::{SizeCode, Window};
use std::alloc::{AllocError, Global};

fn side_word(side: Side) -> &'static str
    ensures { result.now ≡ side_name side }
{
    match side {
        Side::Left => "left",
        Side::Right => "right",
    }
}

fn classes_word(classes: Classes) -> &'static str
    ensures { result.now ≡ classes_name classes }
{
    match classes {
        Classes::Zero => "0",
        Classes::Two => "2",
        Classes::Both => "20",
    }
}

/// Adds user data: hexadecimal digits, or a dash for none.
#[tactic(auto, unfolding(osi_script::specs::Texts::data_text))]
fn push_data(alloc: Global, text: &mut Vec<u8>, octets: &[u8]) -> Result<(), AllocError>
    ensures { OnOk result (text.new.items ≡ text.old.items ++ data_field octets.now) }
{
    if octets.is_empty() {
        return push_words(text, " -");
    }
    push_words(text, " ")?;
    let digits = hex::encode(alloc, octets)?;
    push_words(text, digits.as_str())
}

fn push_units(text: &mut Vec<u8>, requirements: Requirements) -> Result<(), AllocError>
    ensures { OnOk result (text.new.items ≡ text.old.items ++ units_field (unit_bits requirements)) }
{
    push_words(text, " ")?;
    push_octet(text, (requirements.bits() / 256) as u8)?;
    push_octet(text, (requirements.bits() % 256) as u8)
}

fn push_wish(text: &mut Vec<u8>, wish: Wish) -> Result<(), AllocError>
    ensures { OnOk result (text.new.items ≡ text.old.items ++ (wish_letter wish ∷ [])) }
{
    match wish {
        Wish::Asker => push_words(text, "a"),
        Wish::Answerer => push_words(text, "r"),
        Wish::Choice => push_words(text, "c"),
    }
}

fn push_wishes(text: &mut Vec<u8>, wishes: TokenSetting) -> Result<(), AllocError>
    ensures { OnOk result (text.new.items ≡ text.old.items ++ wishes_field wishes) }
{
    push_words(text, " ")?;
    push_wish(text, wishes.data_token)?;
    push_wish(text, wishes.minor)?;
    push_wish(text, wishes.major)?;
    push_wish(text, wishes.release)
}

fn push_holder(text: &mut Vec<u8>, side: osi_spdu::Side) -> Result<(), AllocError>
    ensures { OnOk result (text.new.items ≡ text.old.items ++ (side_letter side ∷ [])) }
{
    match side {
        osi_spdu::Side::Asker => push_words(text, "a"),
        osi_spdu::Side::Answerer => push_words(text, "r"),
    }
}

fn push_sides(text: &mut Vec<u8>, sides: Sides) -> Result<(), AllocError>
    ensures { OnOk result (text.new.items ≡ text.old.items ++ sides_field sides) }
{
    push_words(text, " ")?;
    push_holder(text, sides.data_token)?;
    push_holder(text, sides.minor)?;
    push_holder(text, sides.major)?;
    push_holder(text, sides.release)
}

/// Adds the sizes after user data, if one is not 0.
fn push_sizes(text: &mut Vec<u8>, sizes: TsduSizes) -> Result<(), AllocError>
    ensures { OnOk result (text.new.items ≡ text.old.items ++ sizes_field (named_by sizes)) }
{
    let asker = sizes.from_asker.octets();
    let answerer = sizes.from_answerer.octets();
    if asker == 0 && answerer == 0 {
        return Ok(());
    }
    push_number_field(text, " ", u64::from(asker))?;
    push_number_field(text, " ", u64::from(answerer))
}

fn push_tokens(text: &mut Vec<u8>, tokens: TokenSet) -> Result<(), AllocError>
    ensures { OnOk result (text.new.items ≡ text.old.items ++ tokens_field (named (bits_of tokens))) }
{
    push_words(text, " ")?;
    push_octet(text, Tokens::of(tokens).set().bits())
}

/// Adds a verb that has user data alone.
fn push_plain(
    alloc: Global,
    text: &mut Vec<u8>,
    verb: &str,
    user_data: &[u8],
) -> Result<(), AllocError>
    ensures { OnOk result (text.new.items ≡ text.old.items ++ (verb.now ++ data_field user_data.now)) }
{
    push_words(text, verb)?;
    push_data(alloc, text, user_data)
}

/// Adds an accept.
#[tactic(auto, unfolding(crate::specs::Lines::call_text))]
fn push_accept(
    alloc: Global,
    text: &mut Vec<u8>,
    requirements: Requirements,
    serial: Serial,
    sides: Sides,
    sizes: TsduSizes,
    user_data: &[u8],
) -> Result<(), AllocError>
    ensures { OnOk result (text.new.items ≡ text.old.items
        ++ call_text (Accept (unit_bits requirements) serial.number sides (named_by sizes) user_data.now)) }
{
    push_words(text, "accept")?;
    push_units(text, requirements)?;
    push_number_field(text, " ", u64::from(serial.number))?;
    push_sides(text, sides)?;
    push_data(alloc, text, user_data)?;
    push_sizes(text, sizes)
}

/// Adds a restart.
#[tactic(auto, unfolding(crate::specs::Lines::call_text))]
fn push_restart(
    alloc: Global,
    text: &mut Vec<u8>,
    number: u32,
    wishes: TokenSetting,
    user_data: &[u8],
) -> Result<(), AllocError>
    ensures { OnOk result (text.new.items ≡ text.old.items ++ call_text (Restart number wishes user_data.now)) }
{
    push_number_field(text, "restart ", u64::from(number))?;
    push_wishes(text, wishes)?;
    push_data(alloc, text, user_data)
}

/// Adds the answer to a restart.
#[tactic(auto, unfolding(crate::specs::Lines::call_text))]
fn push_restart_confirm(
    alloc: Global,
    text: &mut Vec<u8>,
    sides: Sides,
    user_data: &[u8],
) -> Result<(), AllocError>
    ensures { OnOk result (text.new.items ≡ text.old.items ++ call_text (RestartConfirm sides user_data.now)) }
{
    push_words(text, "restartconfirm")?;
    push_sides(text, sides)?;
    push_data(alloc, text, user_data)
}

/// Adds a call that gives tokens.
#[tactic(auto, unfolding(crate::specs::Lines::call_text))]
fn push_give(text: &mut Vec<u8>, tokens: TokenSet) -> Result<(), AllocError>
    ensures { OnOk result (text.new.items ≡ text.old.items ++ call_text (Give (named (bits_of tokens)))) }
{
    push_words(text, "give")?;
    push_tokens(text, tokens)
}

/// Adds a call that asks for tokens.
#[tactic(auto, unfolding(crate::specs::Lines::call_text))]
fn push_please(
    alloc: Global,
    text: &mut Vec<u8>,
    tokens: TokenSet,
    user_data: &[u8],
) -> Result<(), AllocError>
    ensures { OnOk result (text.new.items ≡ text.old.items ++ call_text (Please (named (bits_of tokens)) user_data.now)) }
{
    push_words(text, "please")?;
    push_tokens(text, tokens)?;
    push_data(alloc, text, user_data)
}

/// Adds the confirmation of minor points.
#[tactic(auto, unfolding(crate::specs::Lines::call_text))]
fn push_minor_confirm(
    alloc: Global,
    text: &mut Vec<u8>,
    number: u32,
    user_data: &[u8],
) -> Result<(), AllocError>
    ensures { OnOk result (text.new.items ≡ text.old.items ++ call_text (MinorConfirm number user_data.now)) }
{
    push_number_field(text, "minorconfirm ", u64::from(number))?;
    push_data(alloc, text, user_data)
}

/// Adds a call: its verb, and what follows.
#[tactic(auto, unfolding(crate::specs::Lines::call_text))]
fn push_request(alloc: Global, text: &mut Vec<u8>, request: &Request<'_>) -> Result<(), AllocError>
    ensures { OnOk result (text.new.items ≡ text.old.items ++ call_text (called_by request.now)) }
{
    match *request {
        Request::Accept {
            requirements,
            serial,
            sides,
            sizes,
            user_data,
        } => push_accept(alloc, text, requirements, serial, sides, sizes, user_data),
        Request::Refuse { refusal } => push_plain(alloc, text, "refuse", refusal.user_data()),
        Request::Data { user_data } => push_plain(alloc, text, "data", user_data),
        Request::Give { tokens } => push_give(text, tokens),
        Request::Please { tokens, user_data } => push_please(alloc, text, tokens, user_data),
        Request::Minor {
            confirm: true,
            user_data,
        } => push_plain(alloc, text, "minor yes", user_data),
        Request::Minor {
            confirm: false,
            user_data,
        } => push_plain(alloc, text, "minor no", user_data),
        Request::MinorConfirm { number, user_data } => {
            push_minor_confirm(alloc, text, number, user_data)
        }
        Request::Major { user_data } => push_plain(alloc, text, "major", user_data),
        Request::MajorConfirm { user_data } => push_plain(alloc, text, "majorconfirm", user_data),
        Request::Restart {
            number,
            wishes,
            user_data,
        } => push_restart(alloc, text, number, wishes, user_data),
        Request::RestartConfirm { sides, user_data } => {
            push_restart_confirm(alloc, text, sides, user_data)
        }
        Request::Release { user_data } => push_plain(alloc, text, "release", user_data),
        Request::ReleaseAccept { user_data } => push_plain(alloc, text, "releaseaccept", user_data),
        Request::ReleaseRefuse { user_data } => push_plain(alloc, text, "releaserefuse", user_data),
        Request::Abort { user_data } => push_plain(alloc, text, "abort", user_data),
    }
}

/// Adds the declaration of two ends.
#[tactic(auto, unfolding(crate::specs::Lines::command_text))]
fn push_ends(
    text: &mut Vec<u8>,
    caller: Classes,
    called: Classes,
    size: SizeCode,
    window: Window,
) -> Result<(), AllocError>
    ensures { OnOk result (text.new.items ≡ text.old.items ++ command_text (Ends caller called (size_code size) (window_units window))) }
{
    push_words(text, "ends ")?;
    push_words(text, classes_word(caller))?;
    push_words(text, " ")?;
    push_words(text, classes_word(called))?;
    push_number_field(text, " ", u64::from(size.code()))?;
    push_number_field(text, " ", u64::from(window.units()))
}

/// Adds a connect.
#[tactic(auto, unfolding(crate::specs::Lines::command_text))]
fn push_connect(
    alloc: Global,
    text: &mut Vec<u8>,
    requirements: Requirements,
    serial: Serial,
    wishes: TokenSetting,
    sizes: TsduSizes,
    user_data: &[u8],
) -> Result<(), AllocError>
    ensures { OnOk result (text.new.items ≡ text.old.items
        ++ command_text (Connect (unit_bits requirements) serial.number wishes (named_by sizes) user_data.now)) }
{
    push_words(text, "connect")?;
    push_units(text, requirements)?;
    push_number_field(text, " ", u64::from(serial.number))?;
    push_wishes(text, wishes)?;
    push_data(alloc, text, user_data)?;
    push_sizes(text, sizes)
}

/// Adds the call of a user.
#[tactic(auto, unfolding(crate::specs::Lines::command_text))]
fn push_call(
    alloc: Global,
    text: &mut Vec<u8>,
    side: Side,
    reference: u16,
    request: &Request<'_>,
) -> Result<(), AllocError>
    ensures { OnOk result (text.new.items ≡ text.old.items ++ command_text (OfUser side reference (called_by request.now))) }
{
    push_words(text, side_word(side))?;
    push_number_field(text, " ", u64::from(reference))?;
    push_words(text, " ")?;
    push_request(alloc, text, request)
}

/// Adds a carry.
#[tactic(auto, unfolding(crate::specs::Lines::command_text))]
fn push_carry(text: &mut Vec<u8>, side: Side, octets: u32) -> Result<(), AllocError>
    ensures { OnOk result (text.new.items ≡ text.old.items ++ command_text (Carry side octets)) }
{
    push_words(text, "carry ")?;
    push_words(text, side_word(side))?;
    push_number_field(text, " ", u64::from(octets))
}

/// Adds a command without its line end.
#[tactic(auto, unfolding(crate::specs::Lines::command_text))]
fn push_command(alloc: Global, text: &mut Vec<u8>, command: &Command<'_>) -> Result<(), AllocError>
    ensures { OnOk result (text.new.items ≡ text.old.items ++ command_text (command_by command.now)) }
{
    match *command {
        Command::Ends {
            caller,
            called,
            size,
            window,
        } => push_ends(text, caller, called, size, window),
        Command::Connect {
            requirements,
            serial,
            wishes,
            sizes,
            user_data,
        } => push_connect(alloc, text, requirements, serial, wishes, sizes, user_data),
        Command::Call {
            side,
            reference,
            request,
        } => push_call(alloc, text, side, reference, &request),
        Command::Carry { side, octets } => push_carry(text, side, octets),
        Command::Break { .. } | Command::Told { .. } => Ok(()),
    }
}

/// Adds the line of a command.
pub fn push_line(alloc: Global, text: &mut Vec<u8>, command: &Command<'_>) -> Result<(), AllocError>
    ensures { OnOk result (text.new.items ≡ text.old.items ++ command_text (command_by command.now) ++ codes "\n") }
{
    push_command(alloc, text, command)?;
    push_words(text, "\n")
}

/// Adds a comment on a packet of a side.
pub fn push_comment(
    text: &mut Vec<u8>,
    side: Side,
    offset: usize,
    what: &str,
) -> Result<(), AllocError>
    ensures { OnOk result (text.new.items ≡ text.old.items ++ comment_line side offset what.now) }
{
    push_words(text, "# ")?;
    push_words(text, side_word(side))?;
    push_number_field(text, " packet ", offset as u64)?;
    push_words(text, ": ")?;
    push_words(text, what)?;
    push_words(text, "\n")
}
