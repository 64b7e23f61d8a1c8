//! Why the rules of transport never blame an end of this library, in class 2 and in class 0. Each function does nothing:
//! its clauses are the laws.
//!
//! They join two crates that know nothing of each other: `osi_rules`, which says of each transport unit that passes whether its
//! sender was right to send it, and `osi_carrier`, which is the transport of an end. [`ends`](super::ends) has the like for sessions.
//!
//! The difficulty is time. An end acts on what it has taken, and the rules judge it by what has passed. A capture may be taken
//! anywhere between the two ends, so a unit of the end passes later than the end put it, and a unit of the other side passes
//! earlier than the end takes it.
//!
//! - **What was right stays right** if more of the other side has passed: [`what_was_right_stays_right`]. `IsLater`
//!   (`specs/transport/Later`) says what "more" is: later numbers, an AK that acknowledges DTs that were sent, an edge that has not moved
//!   down.
//! - **An end and a judge** are one model here (`specs/EndAndJudge`): the end, the units that it has put and that have not passed, what
//!   the judge knows, and the units that have passed and that the end has not taken. A line and a whole end are values of it.
//! - **A `Line`** (`specs/transport/Lines`) is one open connection: the end is its link. An `Act` is what may happen to it.
//!   Each unit of the end that passes is right, whatever the other side sends, as long as the connection is judged:
//!   [`an_open_end_is_fair`].
//! - **How a line begins**: the CC of a called end is right, and after a CC of class 2 the connection is open as a line begins, at
//!   both ends: [`a_connection_opens`]. What a called end puts before its CC has passed counts as put right after:
//!   [`what_is_put_before_the_cc_passes`].
//! - **An end is its lines**: what a carrier of class 2 does to a connection is acts of its line
//!   ([`a_carrier_follows_its_lines`]).
//! - **The judge is its lines**: what the rules find of a unit that names a connection is what its line says
//!   ([`a_unit_is_an_act_of_its_line`]), and a reference names one connection at most
//!   ([`a_reference_names_one_connection`]). So a unit that is right on its connection is not blamed, however many
//!   connections there are: [`a_right_unit_is_not_blamed`].
//! - **A line has a place**: a connection keeps its place at the judge and its name until it is over for the side that names it
//!   ([`a_connection_keeps_its_place`]), and an end puts nothing there after the unit that closes it
//!   ([`an_end_closes_last`]).
//! - **A calling end** gives each of its CRs a reference that no connection has at the judge:
//!   [`a_new_reference_is_not_in_use`], over the run of its carrier (`specs/transport/Asking`). While no class is selected, one CR at
//!   most waits for its answer there: [`one_request_waits`].
//! - **Answers without an open connection**, a DR that refuses a CR and a DC for a DR that closed nothing, are not blamed either,
//!   and each DR closed nothing that doesn't just close an open connection: [`what_belongs_to_no_open_connection`].
//!
//! - **A whole end** (`specs/transport/Wholes`): the end is its carrier, and an `Event` is what may
//!   happen to it. The units that its carrier puts are what it writes: [`what_a_carrier_puts`]. In any run of a
//!   calling end no CR is blamed, as long as it is judged: [`no_request_is_blamed`]. If it offers class 2 alone, a DR
//!   that it takes for a reference which is gone closed nothing at the judge, so the DC with which it answers is not blamed:
//!   [`a_dr_for_what_is_gone_closed_nothing`]. And no unit of it that passes is blamed, of whatever connection and whatever
//!   classes it offers, as long as the other side is judged: [`a_calling_end_is_fair`]. In class 2 each connection that is
//!   open at the judge has its line, and each line its place. After a CC that selects class 0 has passed, the end puts nothing until
//!   it takes that CC: while its CR has no answer, it asks for no other connection. From then on it puts DTs alone, on its one
//!   connection. What a carrier does with a packet, with or without enough memory, and what its user does, is such events; and so is
//!   what it does with a piece of its stream, and in any calls one after the other: [`a_packet_is_events`].
//! - **A DC for a DR that closed nothing** has for its DST-REF whatever SRC-REF that DR had, maybe that of another open connection.
//!   The rules don't take it for the answer on that connection, since its SRC-REF is not the reference that the end gave there:
//!   references rise, so the one that is gone is given to no later connection. And a DC of the other side that answers nothing is
//!   not judged either: the line of its connection takes it, and closes.
//! - **A whole called end** is fair, whatever classes it offers and whatever DRs pass: [`a_called_end_is_fair`]. Each unit that
//!   it puts in class 2 has the place of a connection at the judge, whose CR it answers or whose line it is of. A DC for a DR that
//!   closed nothing has none, and is not taken for the answer on another connection: its SRC-REF is a reference that the end has
//!   closed, and the unit which closed that one passes first. After a CC for class 0 it puts DTs alone.
//! - **A connection that has lost its judgement**, since the other side broke a rule of it in class 2, keeps its references at the judge
//!   and goes on as a line. So what a calling or a called end puts for it names it and is not judged, and what the end puts for
//!   another names that one. The other side gives these references to no other connection: a CC or a CR with one of them would end
//!   all judging.
//!
//! What is not here: what the judge reads of the octets that an end writes. The theorems on the octets of a whole end are in
//! [`laws`](super).

ghost use Rattle.std.specs.Prelude.{◌≡◌, ◌≢◌, ◌≤◌, ◌⊎◌, ◌||◌, ℕ, Bool, true, false, List, [], ◌∷◌, ◌++◌, Option, Some, None, Ok, Err};
ghost use Rattle.std.specs.Prelude.{length, option_map, position, slice_get, slice_set};
ghost use Rattle.std.specs.List.{AllByRecursion, list_all, list_any};
ghost use Rattle.osi_carrier.specs.Calls.{closed_with, fresh_state, open_link, put_closing, put_sent, put_together, sent, sent_all};
ghost use Rattle.osi_carrier.specs.Negotiation.{acceptance, agreed_size, opened_link, proposal};
ghost use Rattle.osi_carrier.specs.Orderly.{IsOrderly};
ghost use Rattle.osi_carrier.specs.Packets.{Acts as Takes, Carrying, Feeds};
ghost use Rattle.osi_carrier.specs.React.{put_for, react};
ghost use Rattle.osi_carrier.specs.Rows.{value_at};
ghost use Rattle.osi_carrier.specs.Runs.{Act as Done, Call, UserCall, put_by, user_does};
ghost use Rattle.osi_carrier.specs.State.{State, closing, linked, packets};
ghost use Rattle.osi_class.specs.Limits.{longest_tsdu};
ghost use Rattle.osi_class.specs.Link.{Standing};
ghost use Rattle.osi_class.specs.Negotiation.{accept, selected_by};
ghost use Rattle.osi_class.specs.declared.terms.Class.{Class};
ghost use Rattle.osi_class.specs.declared.terms.Class.TheVariants.{Two, Zero};
ghost use Rattle.osi_class.specs.declared.terms.Local.{Local};
ghost use Rattle.osi_blameless.specs.transport.Asking.{all_asked, all_written};
ghost use Rattle.osi_blameless.specs.transport.Calls.{AreFedFrom, IsRun, MadeAlong};
ghost use Rattle.osi_blameless.specs.transport.Naming.{HoldsOfOne, Passing, all_passed, passes};
ghost use Rattle.osi_blameless.specs.transport.Following.{Follows, IsAtPlace, JustCloses};
ghost use Rattle.osi_tpkt.specs.declared.cutting.Fed.{Fed};
ghost use Rattle.osi_tpdu.specs.Limits.{window_units};
ghost use Rattle.osi_tpdu.specs.Packet.{units_of};
ghost use Rattle.osi_tpdu.specs.declared.faults.TpduFault.{TpduFault};
ghost use Rattle.osi_tpdu.specs.Value.{Connect, IsConnect, Value, confirm, destination_of, disconnect, disconnected, request};
ghost use Rattle.osi_rules.specs.Sides.{begins, is_live, is_named, is_open, is_over, is_refused, is_silent, other, own, theirs, seen};
ghost use Rattle.osi_rules.specs.Sides.{sends, uses};
ghost use Rattle.osi_rules.specs.Traffic.{State as Traffic, asked_by, class_for, found, fresh, is_not_judged, is_stopped, offer_of};
ghost use Rattle.osi_rules.specs.Traffic.{has_disconnected, knows_disconnect, may_answer};
ghost use Rattle.osi_rules.specs.Traffic.{packet_begins, sent_on, silent_half, takes, uses_source};
ghost use Rattle.osi_rules.specs.declared.connections.Connection.{Connection};
ghost use Rattle.osi_rules.specs.declared.courses.Course.{Course};
ghost use Rattle.osi_rules.specs.declared.directions.Direction.{Direction};
ghost use Rattle.osi_rules.specs.declared.findings.Finding.{Finding};
ghost use Rattle.osi_rules.specs.declared.halves.Half.{Half};
ghost use Rattle.osi_blameless.specs.transport.Later.{IsLater, knows};
ghost use Rattle.osi_blameless.specs.transport.Lines.{Act, Acts, ActsAlong, IsFair, IsOpened, IsRight, Line, PassesNone};
ghost use Rattle.osi_blameless.specs.transport.Lines.{after_finding, answering_line, finding_of};
ghost use Rattle.osi_blameless.specs.transport.Lines.{opened_half, opened_line, passes_own};
ghost use Rattle.osi_blameless.specs.transport.Pieces.{IsFed};
ghost use Rattle.osi_blameless.specs.transport.Wholes.{Becomes, Event, HappenAlong, MayCall, Whole, begin};

/// What was right stays right if more of the other side had passed: before the packet of the unit began (`known`), or since
/// then (`passed`).
pub fn what_was_right_stays_right()
    ensures known { (d : Direction) (course : Course) (in_use : Bool) (c : Connection) (later : Half) (v : Value) →
        IsLater (own d c) (seen d c) later → found d course in_use c v ≡ Finding.Kept →
        found d course in_use (knows d later c) v ≡ Finding.Kept }
    ensures passed { (d : Direction) (course : Course) (in_use : Bool) (c : Connection) (later : Half) (v : Value) →
        IsLater (own d c) (theirs d c) later → found d course in_use c v ≡ Finding.Kept →
        found d course in_use (sends (other d) later c) v ≡ Finding.Kept }
{}

/// How a connection opens. The CC by which a called end accepts a CR is right, in both classes, if its reference is not in use
/// (`two`, `zero`); and after a CC of class 2 the connection is open as [`an_open_end_is_fair`] takes it: at the called end
/// that put the CC (`called`), and at the calling end that gets it, whatever size it selects (`calling`). `asked` says that
/// the judge knows the CR of this end as `calling` takes it.
pub fn a_connection_opens()
    ensures two { (local : Local) (c : Connect) (size : Option ℕ) (r : ℕ) (judge : Connection) (course : Course) →
        selected_by c local ≡ accept Two size → judge.offer ≡ offer_of c → judge.right ≡ silent_half →
        found Direction.Right course false judge (confirm c.source (acceptance Two size c local r)) ≡ Finding.Kept }
    ensures zero { (local : Local) (c : Connect) (size : Option ℕ) (r : ℕ) (judge : Connection) (course : Course) →
        selected_by c local ≡ accept Zero size → judge.offer ≡ offer_of c → judge.right ≡ silent_half → course.class ≡ None →
        found Direction.Right course false judge (confirm c.source (acceptance Zero size c local r)) ≡ Finding.Kept }
    ensures called { (local : Local) (c : Connect) (size : Option ℕ) (r : ℕ) (judge : Connection) → IsConnect c →
        selected_by c local ≡ accept Two size → judge.left ≡ opened_half c.source c.credit → judge.right ≡ silent_half →
        judge.seen_by_left.next ≡ 0 →
        IsOpened Direction.Right r c.source (opened_line (opened_link Two size local c.credit)
        (sent_on Direction.Right (confirm c.source (acceptance Two size c local r)) judge)) }
    ensures asked { (local : Local) (held : Option Class) (calling called : Option (List ℕ)) (r : ℕ) → local.class2 ≡ true →
        (asked_by (proposal local held calling called r)).left ≡ opened_half r (window_units local.window) }
    ensures calling { (local : Local) (c : Connect) (r : ℕ) (judge : Connection) → IsConnect c →
        judge.left ≡ opened_half r (window_units local.window) → judge.right ≡ silent_half → judge.seen_by_right.next ≡ 0 →
        IsOpened Direction.Left r c.source (opened_line (opened_link Two (agreed_size c.parameters.size local) local c.credit)
        (sent_on Direction.Right (confirm r c) judge)) }
{}

/// What an end puts on an open connection of class 2 is right. Take any list of what happens to the connection since its CC has
/// passed: its user hands in TSDUs and closes it; its link gives units when it likes, and takes what has come when it likes;
/// the judge sees packets begin and pass, of the end in their order, and of the other side whatever units that side sends for the
/// connection. Then each unit of the end that passes is for this connection and breaks no rule, as long as the other side
/// has broken none for which the connection is not judged any more.
pub fn an_open_end_is_fair()
    ensures { (d : Direction) (r peer : ℕ) (begin line : Line) (acts : List Act) → IsOpened d r peer begin →
        ActsAlong d r peer begin acts line → IsFair d line }
{}

/// An end closes a connection last: as long as a unit which it put there has not passed, the judge has seen no DR or DC of it
/// (`waits`). So its units pass at the place of the connection, which [`a_connection_keeps_its_place`] speaks of. The other side
/// keeps its reference (`peer`).
pub fn an_end_closes_last()
    ensures waits { (d : Direction) (r peer : ℕ) (begin line : Line) (acts : List Act) → IsOpened d r peer begin →
        ActsAlong d r peer begin acts line → line.judge.is_judged ≡ true → line.put ≢ [] → is_open (own d line.judge).phase ≡ true }
    ensures peer { (d : Direction) (r peer : ℕ) (begin line : Line) (acts : List Act) → IsOpened d r peer begin →
        ActsAlong d r peer begin acts line → line.judge.is_judged ≡ true → (theirs d line.judge).reference ≡ peer }
{}

/// A called end may put units right after its CC. Until the CC has passed no unit of the other side names the connection. So once
/// it has passed, the line is what the same acts make of a connection that is opened then: [`an_open_end_is_fair`] speaks of
/// what was put before, too.
pub fn what_is_put_before_the_cc_passes()
    ensures { (d : Direction) (r peer : ℕ) (link : Standing) (answer : Value) (judge : Connection) (acts : List Act) (course : Course)
        (in_use : Bool) (line after : Line) → AllByRecursion PassesNone acts →
        ActsAlong d r peer (answering_line link answer judge) acts line → Acts d r peer (passes_own course in_use) line after →
        (later : List Act) × ActsAlong d r peer (opened_line link after.judge) later after }
{}

/// What a carrier of class 2 does to one of its connections is acts of its line, and it writes the units that these put: as a
/// unit for the connection arrives (`open`, and `closing` if the end has sent a DR), as a TSDU is sent (`sent`) or several
/// together (`together`), and as the connection is closed (`closed`). What is done one after the other joins (`joined`). A unit
/// for another connection leaves this one as it is, by `a_unit_changes_one_connection` of `osi_carrier`. So
/// [`an_open_end_is_fair`] speaks of every connection of a carrier.
pub fn a_carrier_follows_its_lines()
    ensures open { (unit : Value) (s : State) (r peer : ℕ) (link : Standing) → IsOrderly s → s.class ≡ Some Two → s.ended ≡ None →
        value_at r s.live ≡ Some (linked peer link) → destination_of unit ≡ Some r →
        Follows r peer (unit ∷ []) (put_for unit s) s (react unit s) }
    ensures closing { (unit : Value) (s : State) (r peer : ℕ) → IsOrderly s → s.class ≡ Some Two → s.ended ≡ None →
        value_at r s.live ≡ Some (closing peer) → destination_of unit ≡ Some r →
        Follows r peer (unit ∷ []) (put_for unit s) s (react unit s) }
    ensures sent { (r peer : ℕ) (tsdu : List ℕ) (s : State) (link : Standing) → open_link r s ≡ Some (peer, link) →
        length tsdu ≤ longest_tsdu → Follows r peer [] (put_sent tsdu (open_link r s)) s (sent r tsdu s) }
    ensures together { (r peer : ℕ) (tsdus : List (List ℕ)) (s : State) (link : Standing) → open_link r s ≡ Some (peer, link) →
        AllByRecursion (λ tsdu. length tsdu ≤ longest_tsdu) tsdus → Follows r peer [] (put_together r tsdus s) s (sent_all r tsdus s) }
    ensures closed { (r peer reason : ℕ) (s : State) (link : Standing) → open_link r s ≡ Some (peer, link) → s.class ≡ Some Two →
        Follows r peer [] (put_closing r reason (open_link r s) s.class) s (closed_with r reason s) }
    ensures joined { (r peer : ℕ) (a b us vs : List Value) (old mid new : State) → Follows r peer a us old mid →
        Follows r peer b vs mid new → Follows r peer (a ++ b) (us ++ vs) old new }
{}

/// The rules of transport find of each unit in class 2 that names a connection what the line of this connection says (`found`),
/// and leave the connection as the line does (`after`); and at each packet they do to every connection what its line does
/// (`begins`). A unit changes no other connection, by `a_unit_changes_one_connection` of `osi_rules`.
pub fn a_unit_is_an_act_of_its_line()
    ensures found { (d : Direction) (v : Value) (s : Traffic) (n place : ℕ) (c : Connection) → IsAtPlace d s n place c →
        destination_of v ≡ Some n → (takes d v s).told.finding ≡ finding_of d s.course (uses_source d s.connections v) c v }
    ensures after { (d : Direction) (v : Value) (s : Traffic) (n place : ℕ) (c : Connection) → IsAtPlace d s n place c →
        destination_of v ≡ Some n → (takes d v s).state.connections
        ≡ slice_set s.connections place (after_finding d (finding_of d s.course (uses_source d s.connections v) c v) v c) }
    ensures begins { (d : Direction) (s : Traffic) (i : ℕ) →
        slice_get (packet_begins d s).connections i ≡ option_map (begins d) (slice_get s.connections i) }
{}

/// A reference is of one connection: at any time each side uses it for one at most of those that are judged (`used`), and a unit
/// that names it is for one at most (`named`), whatever passes. So no unit of a side is judged by what belongs to another
/// connection.
pub fn a_reference_names_one_connection()
    ensures used { (passings : List Passing) (d : Direction) (n : ℕ) → HoldsOfOne (uses d n) (all_passed passings fresh).connections }
    ensures named { (passings : List Passing) (d : Direction) (n : ℕ) →
        HoldsOfOne (is_named d n) (all_passed passings fresh).connections }
{}

/// A connection keeps its place and its name. A reference that names it for a side names it at this place until it is over for
/// this side, whatever passes (`stays`); what this side has refused or closed there, it has closed until then (`closed`). As
/// long as no connection has lost its judgement, because a side broke a rule, this is the place at which a unit with this
/// reference is judged (`place`). The reference by which the other side's units name it is the one that this side gave it
/// (`own`), so a judge and this end say of the same connection that a unit is for it.
pub fn a_connection_keeps_its_place()
    ensures stays { (passings : List Passing) (passing : Passing) (d : Direction) (n place : ℕ) (c after : Connection) →
        slice_get (all_passed passings fresh).connections place ≡ Some c →
        slice_get (passes passing (all_passed passings fresh)).connections place ≡ Some after → c.is_judged ≡ true →
        is_named d n c ≡ true → is_over d after ≡ false → is_named d n after ≡ true }
    ensures closed { (passings : List Passing) (passing : Passing) (d : Direction) (place : ℕ) (c after : Connection) →
        slice_get (all_passed passings fresh).connections place ≡ Some c →
        slice_get (passes passing (all_passed passings fresh)).connections place ≡ Some after → c.is_judged ≡ true →
        is_over d c ≡ false → (is_silent (own d c).phase || is_open (own d c).phase) ≡ false →
        (is_silent (own d after).phase || is_open (own d after).phase) ≡ false }
    ensures place { (passings : List Passing) (d : Direction) (n place : ℕ) (c : Connection) →
        slice_get (all_passed passings fresh).connections place ≡ Some c → is_named d n c ≡ true →
        (all_passed passings fresh).course.loose ≡ false →
        position (is_named d n) (all_passed passings fresh).connections ≡ Some place }
    ensures own { (passings : List Passing) (d : Direction) (n place : ℕ) (c : Connection) →
        slice_get (all_passed passings fresh).connections place ≡ Some c → c.is_judged ≡ true →
        is_named (other d) n c ≡ true → (own d c).reference ≡ n }
{}

/// The CRs of a calling end have new references. Take any run of its carrier, any calls and any octets. Its CRs pass in order.
/// The next of them gives a reference that the end uses for no connection at the judge (`unused`), and that none has which is
/// not judged any more (`judged`). So once class 2 is known to be the class, this CR is right, or there are more connections
/// than the rules look at (`right`).
pub fn a_new_reference_is_not_in_use()
    ensures unused { (local : Local) (acts : List Done) (passings : List Passing) (r : ℕ) (rest : List ℕ) →
        all_written acts (fresh_state true local) ≡ all_asked passings ++ r ∷ rest →
        list_any (uses Direction.Left r) (all_passed passings fresh).connections ≡ false }
    ensures judged { (local : Local) (acts : List Done) (passings : List Passing) (r : ℕ) (rest : List ℕ) →
        all_written acts (fresh_state true local) ≡ all_asked passings ++ r ∷ rest →
        list_any (is_not_judged r) (all_passed passings fresh).connections ≡ false }
    ensures right { (local : Local) (acts : List Done) (passings : List Passing) (c : Connect) (rest : List ℕ) →
        all_written acts (fresh_state true local) ≡ all_asked passings ++ c.source ∷ rest →
        is_stopped Direction.Left (all_passed passings fresh).course ≡ false →
        (all_passed passings fresh).course.class_seen ≡ Some Two →
        ((takes Direction.Left (request c) (all_passed passings fresh)).told.finding ≡ Finding.Kept)
        ⊎ ((takes Direction.Left (request c) (all_passed passings fresh)).told.finding ≡ Finding.TooMany) }
{}

/// While right has selected no class, one CR at most waits for its answer: of the connections that are judged, all but one are
/// over for left (`one`). Once that one has been refused and a packet of left has begun, all are (`refused`): a next CR may
/// come.
pub fn one_request_waits()
    ensures one { (passings : List Passing) → (all_passed passings fresh).course.class ≡ None →
        HoldsOfOne (is_live Direction.Left) (all_passed passings fresh).connections }
    ensures refused { (passings : List Passing) (place : ℕ) (c : Connection) → (all_passed passings fresh).course.class ≡ None →
        (all_passed passings fresh).course.loose ≡ false → slice_get (all_passed passings fresh).connections place ≡ Some c →
        is_live Direction.Left c ≡ true → is_refused c.right.phase ≡ true →
        list_all (is_over Direction.Left) (packet_begins Direction.Left (all_passed passings fresh)).connections ≡ true }
{}

/// A unit that is right on a connection is not blamed, however many connections there are and whatever has passed: the rules of
/// transport find that it is right, or that it is not judged. So the units of which [`an_open_end_is_fair`] speaks are not
/// blamed.
pub fn a_right_unit_is_not_blamed()
    ensures { (passings : List Passing) (d : Direction) (v : Value) (n place : ℕ) (c : Connection) →
        is_stopped d (all_passed passings fresh).course ≡ false → class_for d (all_passed passings fresh).course ≡ Some Two →
        destination_of v ≡ Some n → slice_get (all_passed passings fresh).connections place ≡ Some c → c.is_judged ≡ true →
        IsRight d c v → ((takes d v (all_passed passings fresh)).told.finding ≡ Finding.Kept)
        ⊎ ((takes d v (all_passed passings fresh)).told.finding ≡ Finding.NotJudged) }
{}

/// What an end answers without an open connection. A DR that refuses a CR is right (`refusal`). After a DR that closed nothing
/// no DC is blamed whose sender knows a DR of the other side (`dc`), whatever passes after it (`lasts`); a DR of the other side
/// for no connection is such a one (`stray`), and so is each DR except one that just closes an open connection which is judged
/// (`closes`). A side knows a DR if it had passed when the current packet of this side began (`begins`); each DR of a side that
/// is judged after it is noted (`noted`).
pub fn what_belongs_to_no_open_connection()
    ensures refusal { (c : Connection) (course : Course) (in_use : Bool) (destination source reason : ℕ) (user : List ℕ) →
        is_silent c.right.phase ≡ true →
        found Direction.Right course in_use c (disconnect destination source reason user) ≡ Finding.Kept }
    ensures dc { (d : Direction) (s : Traffic) (n source : ℕ) → class_for d s.course ≡ Some Two →
        may_answer d s.course.disconnects ≡ true → ((takes d (disconnected n source) s).told.finding ≡ Finding.Kept)
        ⊎ ((takes d (disconnected n source) s).told.finding ≡ Finding.NotJudged) }
    ensures lasts { (passing : Passing) (s : Traffic) → s.course.disconnects.strays ≡ true →
        (passes passing s).course.disconnects.strays ≡ true }
    ensures stray { (d : Direction) (s : Traffic) (n source reason : ℕ) (user : List ℕ) → is_stopped d s.course ≡ false →
        class_for d s.course ≡ Some Two → position (is_named d n) s.connections ≡ None →
        (takes d (disconnect n source reason user) s).state.course.disconnects.strays ≡ true }
    ensures closes { (d : Direction) (s : Traffic) (n source reason : ℕ) (user : List ℕ) → is_stopped d s.course ≡ false →
        class_for d s.course ≡ Some Two →
        ((takes d (disconnect n source reason user) s).state.course.disconnects.strays ≡ true) ⊎ JustCloses d s n source }
    ensures begins { (d : Direction) (s : Traffic) → knows_disconnect d (packet_begins d s).course.disconnects
        ≡ has_disconnected (other d) s.course.disconnects }
    ensures noted { (d : Direction) (s : Traffic) (n source reason : ℕ) (user : List ℕ) →
        is_stopped d (takes d (disconnect n source reason user) s).state.course ≡ false →
        has_disconnected d (takes d (disconnect n source reason user) s).state.course.disconnects ≡ true }
{}

/// An end sends a DC only after it was sent a DR, which had passed when the packet of the DC began. Take any run of a whole end,
/// calling or called: if a DC of the end is passing, the judge knows a DR of the other side, as long as that side is judged.
pub fn a_dc_follows_a_dr()
    ensures { (d : Direction) (is_caller : Bool) (local : Local) (events : List Event) (w : Whole) (n source : ℕ) (rest : List Value) →
        HappenAlong d (begin is_caller local) events w → w.begun ≡ true → w.put ≡ disconnected n source ∷ rest →
        is_stopped (other d) w.judge.course ≡ false → knows_disconnect d w.judge.course.disconnects ≡ true }
{}

/// The units that a carrier puts are what it writes, each in a packet of its own: as it takes a unit (`arrives`), and as its
/// user makes a call (`calls`).
pub fn what_a_carrier_puts()
    ensures arrives { (unit : Value) (s : State) → (react unit s).outgoing ≡ s.outgoing ++ packets (put_for unit s) }
    ensures calls { (call : UserCall) (s : State) → (user_does call s).outgoing ≡ s.outgoing ++ packets (put_by call s) }
{}

/// No CR of a calling end is blamed. Take any run of a whole end from its beginning (`specs/transport/Wholes`): any calls of its user,
/// whatever units the other side sends, memory that runs out at any time, and a capture taken anywhere between the two ends. Then
/// each of its CRs is right as it passes, or there are more connections than the rules look at, as long as this side is judged.
pub fn no_request_is_blamed()
    ensures { (local : Local) (events : List Event) (w : Whole) (c : Connect) (rest : List Value) →
        HappenAlong Direction.Left (begin true local) events w → w.begun ≡ true → w.put ≡ request c ∷ rest →
        is_stopped Direction.Left w.judge.course ≡ false →
        ((takes Direction.Left (request c) w.judge).told.finding ≡ Finding.Kept)
        ⊎ ((takes Direction.Left (request c) w.judge).told.finding ≡ Finding.TooMany) }
{}

/// A DR that a calling end takes for a reference which is gone closed nothing at the judge. Take any run of a whole end that
/// offers class 2 alone. If the next unit that it takes is a DR for a reference which is not live there, a DR that closed
/// nothing has passed, as long as both sides are judged, however many connections have lost their judgement. So the DC with
/// which it answers is not blamed: [`what_belongs_to_no_open_connection`], clauses `dc` and `lasts`.
pub fn a_dr_for_what_is_gone_closed_nothing()
    ensures { (local : Local) (events : List Event) (w : Whole) (n source reason : ℕ) (user : List ℕ) (more : List Value) →
        local.class0 ≡ false → local.class2 ≡ true → HappenAlong Direction.Left (begin true local) events w →
        w.coming ≡ disconnect n source reason user ∷ more → w.end.ended ≡ None → value_at n w.end.live ≡ None →
        is_stopped Direction.Left w.judge.course ≡ false → is_stopped Direction.Right w.judge.course ≡ false →
        w.judge.course.disconnects.strays ≡ true }
{}

/// A whole calling end is fair. Take any run of it, whatever classes it offers: any calls of its user, whatever units the other side
/// sends, however many connections, memory that runs out at any time, and a capture taken anywhere between the two ends. Then each
/// unit of the end that passes is right: a CR, and what it puts on an open connection of either class; or it is a CR and there are
/// more connections than the rules look at; or it is not judged, since a DR has passed that closed nothing, or a connection has lost
/// its judgement because the other side broke a rule. This holds as long as the other side is judged, however many connections have
/// lost their judgement (`judged`). In class 0 each unit of the end is right as long as the end itself is judged: also after the other
/// side has broken a rule, and isn't judged any more (`in_class_0`).
pub fn a_calling_end_is_fair()
    ensures judged { (local : Local) (events : List Event) (w : Whole) (unit : Value) (rest : List Value) →
        HappenAlong Direction.Left (begin true local) events w → w.begun ≡ true → w.put ≡ unit ∷ rest →
        is_stopped Direction.Right w.judge.course ≡ false →
        ((takes Direction.Left unit w.judge).told.finding ≡ Finding.Kept)
        ⊎ (((takes Direction.Left unit w.judge).told.finding ≡ Finding.TooMany)
        ⊎ (((takes Direction.Left unit w.judge).told.finding ≡ Finding.NotJudged)
        × ((w.judge.course.disconnects.strays ≡ true) ⊎ (w.judge.course.loose ≡ true)))) }
    ensures in_class_0 { (local : Local) (events : List Event) (w : Whole) (unit : Value) (rest : List Value) →
        HappenAlong Direction.Left (begin true local) events w → w.begun ≡ true → w.put ≡ unit ∷ rest →
        is_stopped Direction.Left w.judge.course ≡ false → w.judge.course.class ≡ Some Zero →
        (takes Direction.Left unit w.judge).told.finding ≡ Finding.Kept }
{}

/// A whole called end is fair. Take any run of it, whatever classes it offers: any calls of its user, whatever units the other side
/// sends, however many connections, memory that runs out at any time, and a capture taken anywhere between the two ends. Then each unit
/// of the end that passes is right: a CC, a DR that refuses a CR, and what it puts on an open connection of either class; or it is not
/// judged, since a DR has passed that closed nothing, or a connection has lost its judgement because the other side broke a rule. This
/// holds as long as the other side is judged, however many connections have lost their judgement (`judged`). In class 0 each unit of the
/// end is right as long as the end itself is judged and no connection has lost its judgement: also after the other side has broken a
/// rule, and isn't judged any more (`in_class_0`).
pub fn a_called_end_is_fair()
    ensures judged { (local : Local) (events : List Event) (w : Whole) (unit : Value) (rest : List Value) →
        HappenAlong Direction.Right (begin false local) events w → w.begun ≡ true → w.put ≡ unit ∷ rest →
        is_stopped Direction.Left w.judge.course ≡ false →
        ((takes Direction.Right unit w.judge).told.finding ≡ Finding.Kept)
        ⊎ (((takes Direction.Right unit w.judge).told.finding ≡ Finding.NotJudged)
        × ((w.judge.course.disconnects.strays ≡ true) ⊎ (w.judge.course.loose ≡ true))) }
    ensures in_class_0 { (local : Local) (events : List Event) (w : Whole) (unit : Value) (rest : List Value) →
        HappenAlong Direction.Right (begin false local) events w → w.begun ≡ true → w.put ≡ unit ∷ rest →
        is_stopped Direction.Right w.judge.course ≡ false → w.judge.course.loose ≡ false → w.judge.course.class ≡ Some Zero →
        (takes Direction.Right unit w.judge).told.finding ≡ Finding.Kept }
{}

/// What a carrier does with a packet, with or without enough memory, is events of its whole end: the units of the packet arrive
/// (`packet`), or it can't be read, and the carrier ends (`fault`); and so is a call of its user (`call`). What these events put
/// is what the carrier writes. It is so too as the carrier is fed a piece of its stream, however that is cut and with or without
/// enough memory: the units arrive that the packets have which the piece completes, or the carrier ends; unless it ends, it holds
/// the rest for the next piece (`piece`, over `specs/Pieces`). And it is so of any calls one after the other: the carrier is fed
/// pieces of a stream, reports events, hands over octets to send, and its user makes calls (`run`, over `specs/Calls`). The units
/// of the packets in the stream arrive, in order, and what the events put is all that the carrier writes in these calls. Its whole
/// end keeps the events that were reported and the octets that were sent: no effect depends on these. So the laws on whole ends
/// speak of every run of a carrier, with units that pass between any two of its calls.
pub fn a_packet_is_events()
    ensures packet { (d : Direction) (octets : List ℕ) (units later : List Value) (w : Whole) (new : State) → Takes w.end octets new →
        units_of octets ≡ Ok units → w.coming ≡ units ++ later → Becomes d w new }
    ensures fault { (d : Direction) (octets : List ℕ) (fault : TpduFault) (w : Whole) (new : State) → Takes w.end octets new →
        units_of octets ≡ Err fault → w.end.ended ≡ None → Becomes d w new }
    ensures call { (d : Direction) (call : UserCall) (w : Whole) → MayCall call w.end → Becomes d w (user_does call w.end) }
    ensures piece { (d : Direction) (old : Carrying) (piece : List ℕ) (new : Carrying) (fed : Fed) → Feeds old piece fed new →
        IsFed d old piece fed.used new }
    ensures run { (d : Direction) (old : Carrying) (stream : List ℕ) (calls : List Call) (new : Carrying) → MadeAlong old calls new →
        AreFedFrom stream calls → IsRun d old stream calls new }
{}
