//! Laws of the definitions that the contracts cite. Each function does nothing: its clauses are the
//! laws.

ghost use Rattle.std.specs.Prelude.{Bool, ◌≡◌, ◌+◌, ◌-◌, ◌*◌, ◌%◌, ◌<◌, ◌≤◌, ◌++◌, ◌∷◌, ℕ, ◌↔◌, ◌⊎◌, List, [], map, Some, None, Ok, Option};
ghost use Rattle.std.specs.Prelude.{is_some, length, true};
ghost use Rattle.std.specs.List.{flat_map, AllByRecursion};
ghost use Rattle.osi_class.specs.Between.{LinkPair, Turn, at_right, Turns, TurnsAlong, swapped, opposite, opened_pair, awaiting_pair};
ghost use Rattle.osi_class.specs.Between.{IsFresh, OnlySends, IsQuiet, TakesOldest, given_by, left_in, right_out, parts_under_way};
ghost use Rattle.osi_class.specs.Between.{IsShortTsdu, under_way, under_way_before, HasWholeTsdus};
ghost use Rattle.osi_class.specs.Owed.{Direction, InStep, CreditStep, CreditSteps, StepsAlong, known_after, opened, owed, restored};
ghost use Rattle.osi_class.specs.Directions.{direction, HaveFlows, TurnSteps, Agree, AgreeZero, AgreeInClass};
ghost use Rattle.osi_unit.specs.Octets.{IsOctets};
ghost use Rattle.osi_tpdu.specs.Writing.{written, Fits};
ghost use Rattle.osi_tpdu.specs.declared.limits.SizeCode.{SizeCode};
ghost use Rattle.osi_class.specs.Ends.{Ends, unit_size, fresh_ends};
ghost use Rattle.osi_class.specs.Flow.{Flow, fresh_sender, fresh_receiver, acknowledged, is_awaited, steps_before};
ghost use Rattle.osi_class.specs.Joining.{joined, with_part};
ghost use Rattle.osi_class.specs.Link.{Standing, Given, next, is_of_two, unit_of, given_in, with_tsdus, zero_standing, two_standing};
ghost use Rattle.osi_class.specs.Link.{fresh_two};
ghost use Rattle.osi_class.specs.Giving.{AllGoAtOnce, GoesWhole, left_to_give, drained, all_given, octets_of, octets_in, header_octets};
ghost use Rattle.osi_class.specs.Giving.{most_given, given_one_by_one, one_by_one};
ghost use Rattle.osi_class.specs.Runs.{Move, Moves, MovesAlong, hand_in, give_out, tsdus_in, parts_out, parts_in, tsdus_out};
ghost use Rattle.osi_class.specs.Sound.{IsSound, HasGivenInRange, TakesInRange};
ghost use Rattle.osi_class.specs.Tsdus.{Part, MakeTheSame, tsdus, tsdus_after, uncut};

/// The units that a link gave in a list of calls, followed by what it still has to give, carry the TSDUs that it had to
/// send before and those handed in, in order. If the link had nothing to send, these are exactly those handed in.
pub fn what_is_sent()
    ensures kept { (old new : Standing) (moves : List Move) → MovesAlong old moves new →
        MakeTheSame (parts_out moves ++ uncut new.ends.unsent) (uncut (old.ends.unsent ++ tsdus_in moves)) }
    ensures all { (old new : Standing) (moves : List Move) → MovesAlong old moves new → old.ends.unsent ≡ [] →
        tsdus (parts_out moves ++ uncut new.ends.unsent) ≡ tsdus_in moves }
{}

/// The TSDUs that a link handed out in a list of calls, followed by those that are queued, are those that were queued
/// before and the TSDUs of the units taken. What arrives later continues the unfinished TSDU. So nothing is handed out
/// before its EOT.
pub fn what_is_taken()
    ensures kept { (old new : Standing) (moves : List Move) (later : List Part) → MovesAlong old moves new →
        old.ends.joining.whole ++ tsdus_after old.ends.joining.begun (parts_in moves ++ later)
        ≡ tsdus_out moves ++ (new.ends.joining.whole ++ tsdus_after new.ends.joining.begun later) }
    ensures all { (old new : Standing) (moves : List Move) → MovesAlong old moves new →
        old.ends.joining.whole ≡ [] → old.ends.joining.begun ≡ [] →
        tsdus (parts_in moves) ≡ tsdus_out moves ++ new.ends.joining.whole }
{}

/// The conservation of credit, in one direction of a connection of class 2 that is open at both ends. Units written and
/// not yet taken, Acks due or in flight, and the sender's open credit add up to the receiver's window. This holds at
/// the start, and each unit written, unit taken, Ack written and Ack taken preserves it.
pub fn what_is_owed()
    ensures begins { (window : ℕ) → window ≤ 15 → InStep (opened window) 0 }
    ensures kept { (step : CreditStep) (old new : Direction) (known : ℕ) → InStep old known → CreditSteps step old new →
        InStep new (known_after step known) }
    ensures window_kept { (step : CreditStep) (old new : Direction) → CreditSteps step old new → new.receiver.window ≡ old.receiver.window }
    ensures always { (window : ℕ) (steps : List CreditStep) (d : Direction) → window ≤ 15 → StepsAlong (opened window) steps d →
        owed d ≡ window }
{}

/// Between ends in step, no unit and no Ack is refused. If nothing is in flight, the whole window is open.
pub fn nothing_is_refused()
    ensures unit { (d : Direction) (known number : ℕ) (rest : List ℕ) → InStep d known → d.units ≡ number ∷ rest →
        is_awaited d.receiver number ≡ true }
    ensures ack { (d : Direction) (known : ℕ) (ack : ℕ × ℕ) (rest : List (ℕ × ℕ)) → InStep d known → d.acks ≡ ack ∷ rest →
        acknowledged d.sender ack.0 ack.1 ≡ Ok (restored d.sender) }
    ensures all_open { (d : Direction) (known : ℕ) → InStep d known → d.units ≡ [] → d.acks ≡ [] → d.receiver.waiting ≡ 0 →
        d.sender.credit ≡ d.receiver.window }
{}

/// The protocol numbers units modulo 128, and the laws count them from the first one. The number of a unit is its
/// count modulo 128: the number after it is that of the next count (`next`), and for counts less than 128 apart the
/// distance of the numbers, modulo 128, is the distance of the counts (`earlier`, `between`).
pub fn numbers_are_counts()
    ensures next { (count : ℕ) → (count % 128 + 1) % 128 ≡ (count + 1) % 128 }
    ensures earlier { (count ahead : ℕ) → ahead < 128 → steps_before ((count + ahead) % 128) ahead ≡ count % 128 }
    ensures between { (count ahead : ℕ) → ahead < 128 → steps_before ((count + ahead) % 128) (count % 128) ≡ ahead }
{}

/// Two links and the units between them, over every list of calls at both: what was in flight from left to right,
/// followed by what is handed in at the left, is what is handed out at the right, followed by what is in flight
/// afterwards. For the other direction swap the links.
pub fn what_is_between()
    ensures kept { (old new : LinkPair) (turns : List Turn) (later : List (List ℕ)) → TurnsAlong old turns new →
        under_way_before old (flat_map left_in turns ++ later) ≡ flat_map right_out turns ++ under_way_before new later }
    ensures begins { (left right : Standing) → IsFresh left → IsFresh right →
        HasWholeTsdus (opened_pair left right) × (under_way (opened_pair left right) ≡ []) }
    ensures whole { (old new : LinkPair) (turns : List Turn) → HasWholeTsdus old → TurnsAlong old turns new →
        under_way old ++ flat_map left_in turns ≡ flat_map right_out turns ++ under_way new }
    ensures stays_whole { (old new : LinkPair) (turns : List Turn) → HasWholeTsdus old → TurnsAlong old turns new → HasWholeTsdus new }
    ensures other_way { (old new : LinkPair) (turns : List Turn) → TurnsAlong old turns new →
        TurnsAlong (swapped old) (map opposite turns) (swapped new) }
{}

/// When a link gives nothing: in class 0 exactly if nothing is to be sent; in class 2 exactly if no Ack is due and
/// either nothing is to be sent or there is no credit.
pub fn when_nothing_comes()
    ensures class_0 { (e : Ends) → (next (zero_standing e) ≡ None) ↔ (e.unsent ≡ []) }
    ensures class_2 { (e : Ends) (f : Flow) → (next (two_standing e f) ≡ None) ↔
        ((f.receiver.waiting ≡ 0) × ((e.unsent ≡ []) ⊎ (f.sender.credit ≡ 0))) }
{}

/// The calls of two links of class 2 make only the steps of [`what_is_owed`], or none. So two links that begin with the
/// receiver's window as the sender's credit agree after every list of calls, and their credit adds up to the window.
pub fn credit_between()
    ensures steps { (turn : Turn) (old new : LinkPair) (l r : Flow) → HaveFlows old l r → Turns turn old new → TurnSteps old l r new }
    ensures begins { (left right : Standing) (l r : Flow) (units : ℕ) → left.flow ≡ Some l → right.flow ≡ Some r →
        l.sender ≡ fresh_sender units → r.receiver ≡ fresh_receiver units → units ≤ 15 → Agree (opened_pair left right) units }
    ensures kept { (turns : List Turn) (old new : LinkPair) (units : ℕ) → Agree old units → TurnsAlong old turns new → Agree new units }
    ensures owed { (p : LinkPair) (units : ℕ) (a : Agree p units) → owed (direction a.left_flow p a.right_flow) ≡ units }
{}

/// Each unit that a link gives leaves less to give, so a loop over `next_out` terminates. The unit is of the link's
/// class: a DT of class 0 in class 0, and a DT of class 2 or an AK in class 2. The receiving side stays as it is.
pub fn giving_ends()
    ensures less { (old new : Standing) (given : Given) → 0 < old.ends.limit → next old ≡ Some (given, new) →
        left_to_give new < left_to_give old }
    ensures class { (old new : Standing) (given : Given) → next old ≡ Some (given, new) → is_of_two given ≡ is_some old.flow }
    ensures joining { (old new : Standing) (given : Given) → next old ≡ Some (given, new) → new.ends.joining ≡ old.ends.joining }
{}

/// All units that a link has to give, and the link after them (`drained`): none if `next_out` has no result, otherwise
/// its unit and all units after it. Then the link has no more to give. These are the results of repeated calls of
/// `next_out`, and the receiving side does not change.
pub fn all_is_given()
    ensures none { (s : Standing) → next s ≡ None → drained s ≡ record { units = []; link = s } }
    ensures some { (s t : Standing) (unit : Given) → 0 < s.ends.limit → next s ≡ Some (unit, t) →
        drained s ≡ record { units = unit ∷ (drained t).units; link = (drained t).link } }
    ensures ends { (s : Standing) → 0 < s.ends.limit → next (drained s).link ≡ None }
    ensures moves { (s : Standing) → MovesAlong s (map give_out (drained s).units) (drained s).link }
    ensures limit { (s : Standing) → (drained s).link.ends.limit ≡ s.ends.limit }
    ensures joining { (s : Standing) → (drained s).link.ends.joining ≡ s.ends.joining }
    ensures class { (s : Standing) → is_some (drained s).link.flow ≡ is_some s.flow }
{}

/// TSDUs that are handed in together are queued for sending one after the other. If a link had nothing to give before,
/// it then gives the same units as if each TSDU were handed in after all units of the one before were given, and it is
/// the same link after that.
pub fn many_go_as_one_by_one()
    ensures moves { (s : Standing) (tsdus : List (List ℕ)) → MovesAlong s (map hand_in tsdus) (with_tsdus s tsdus) }
    ensures given { (s : Standing) (tsdus : List (List ℕ)) → 0 < s.ends.limit → next s ≡ None →
        drained (with_tsdus s tsdus) ≡ record { units = given_one_by_one s tsdus; link = one_by_one s tsdus } }
{}

/// All that a link gives has at most `most_given` octets, if the headers of each unit have a given number of
/// octets. In class 2 this counts only units for which there is credit.
pub fn what_units_take()
    ensures { (headers : ℕ) (s : Standing) → 0 < s.ends.limit →
        octets_in (all_given s) + length (all_given s) * headers ≤ most_given headers s }
{}

/// Take TSDUs of which all units may be given now, with nothing to be sent before them. Then all octets of the
/// first TSDU are given, and after that all units of the others may be given.
pub fn all_go_at_once()
    ensures { (s : Standing) (tsdu : List ℕ) (others : List (List ℕ)) → 0 < s.ends.limit → AllGoAtOnce s (tsdu ∷ others) →
        GoesWhole s tsdu others }
{}

/// A new link satisfies the bounds of `IsSound`, and every call keeps them, for units whose numbers are in range. No
/// call changes its limit or its class.
pub fn a_link_keeps_its_bounds()
    ensures class_0 { (size : Option SizeCode) → IsSound (zero_standing (fresh_ends (unit_size size - 3))) }
    ensures class_2 { (size : Option SizeCode) (window credit : ℕ) → 1 ≤ window → window ≤ 15 → credit ≤ 15 →
        IsSound (two_standing (fresh_two (unit_size size) window credit).ends (fresh_two (unit_size size) window credit).flow) }
    ensures kept { (move : Move) (old new : Standing) → IsSound old → TakesInRange move → Moves move old new → IsSound new }
    ensures limit { (move : Move) (old new : Standing) → Moves move old new → new.ends.limit ≡ old.ends.limit }
    ensures class { (move : Move) (old new : Standing) → Moves move old new → is_some new.flow ≡ is_some old.flow }
{}

/// If the users of two links hand in only TSDUs of at most 1,048,576 octets, no TSDU in flight is longer, and no part
/// is refused as too long.
pub fn no_tsdu_is_too_long()
    ensures kept { (old new : LinkPair) (turns : List Turn) → HasWholeTsdus old → AllByRecursion IsShortTsdu (under_way old) →
        AllByRecursion IsShortTsdu (flat_map left_in turns) → TurnsAlong old turns new → AllByRecursion IsShortTsdu (under_way new) }
    ensures part { (p : LinkPair) (end : Bool) (octets : List ℕ) (rest : List Part) → HasWholeTsdus p →
        AllByRecursion IsShortTsdu (under_way p) →
        parts_under_way p.rightward ≡ (end, octets) ∷ rest →
        joined p.right.ends.joining end octets ≡ Ok (with_part p.right.ends.joining end octets) }
{}

/// A unit that a link gives can be written as a transport unit for any reference. The peer's link reads in that
/// transport unit exactly the unit that was given.
pub fn a_unit_says_what_was_given()
    ensures { (destination : ℕ) (unit : Given) → given_in (unit_of destination unit) ≡ unit ∷ [] }
{}

/// If its TSDUs consist of octets, a sound link gives units that are in the range of their fields, and what is left
/// consists of octets. So each unit can be written for any reference, and its octets are those of its header and data.
pub fn what_is_given_can_be_written()
    ensures range { (old new : Standing) (unit : Given) → IsSound old → AllByRecursion IsOctets old.ends.unsent →
        next old ≡ Some (unit, new) → HasGivenInRange unit }
    ensures octets { (old new : Standing) (unit : Given) → IsSound old → AllByRecursion IsOctets old.ends.unsent →
        next old ≡ Some (unit, new) → AllByRecursion IsOctets new.ends.unsent }
    ensures fits { (destination : ℕ) (unit : Given) → destination < 65536 → HasGivenInRange unit → Fits (unit_of destination unit) }
    ensures length { (destination : ℕ) (unit : Given) →
        length (written (unit_of destination unit)) ≡ header_octets unit + octets_of unit }
{}

/// Two links of class 0 with only units of class 0 between them stay so, whatever calls are made. Together with
/// [`credit_between`], which says the same of class 2, links that were opened in one class agree after every list of
/// calls.
pub fn class_0_between()
    ensures begins { (left right : Standing) → left.flow ≡ None → right.flow ≡ None → AgreeZero (opened_pair left right) }
    ensures kept { (turns : List Turn) (old new : LinkPair) → AgreeZero old → TurnsAlong old turns new → AgreeZero new }
{}

/// Between links that agree, with whole TSDUs in flight and none that is too long, the oldest unit in flight can be
/// taken: a DT or an AK, in both classes.
pub fn the_oldest_is_taken()
    ensures class_0 { (p : LinkPair) (unit : Given) (rest : List Given) (destination : ℕ) → AgreeZero p → HasWholeTsdus p →
        AllByRecursion IsShortTsdu (under_way p) → p.rightward ≡ unit ∷ rest → TakesOldest p (unit_of destination unit) rest }
    ensures class_2 { (p : LinkPair) (units back : ℕ) (unit : Given) (rest : List Given) (destination : ℕ) →
        Agree p units → Agree (swapped p) back → HasWholeTsdus p →
        AllByRecursion IsShortTsdu (under_way p) → p.rightward ≡ unit ∷ rest → TakesOldest p (unit_of destination unit) rest }
{}

/// Take two links that agree. If no unit is in flight, neither link has a unit to give, and no complete TSDU waits to
/// be handed out, then everything has arrived: over every list of calls, what was handed in at the left is what was
/// handed out at the right, nothing is unsent, and no TSDU is unfinished.
pub fn all_arrives()
    ensures handed { (old new : LinkPair) (turns : List Turn) → HasWholeTsdus old → under_way old ≡ [] → TurnsAlong old turns new →
        AgreeInClass new → IsQuiet new → flat_map left_in turns ≡ flat_map right_out turns }
    ensures unsent { (p : LinkPair) → AgreeInClass p → IsQuiet p → p.left.ends.unsent ≡ [] }
    ensures begun { (p : LinkPair) → HasWholeTsdus p → p.rightward ≡ [] → p.left.ends.unsent ≡ [] → p.right.ends.joining.begun ≡ [] }
    ensures under_way { (p : LinkPair) → p.rightward ≡ [] → p.left.ends.unsent ≡ [] → p.right.ends.joining.whole ≡ [] → under_way p ≡ [] }
{}

/// A link may send before its peer's link is opened. The pair then begins with the units that it gave in flight, as if
/// both links had been open from the start, so the other laws hold from there on.
pub fn units_before_opening()
    ensures turns { (left right new : Standing) (moves : List Move) → AllByRecursion OnlySends moves → MovesAlong right moves new →
        TurnsAlong (opened_pair left right) (map at_right moves) (awaiting_pair left new (flat_map given_by moves)) }
    ensures whole { (left right new : Standing) (moves : List Move) → IsFresh left → IsFresh right → AllByRecursion OnlySends moves →
        MovesAlong right moves new → HasWholeTsdus (awaiting_pair left new (flat_map given_by moves)) }
    ensures whole_back { (left right new : Standing) (moves : List Move) → IsFresh left → IsFresh right → AllByRecursion OnlySends moves →
        MovesAlong right moves new → HasWholeTsdus (swapped (awaiting_pair left new (flat_map given_by moves))) }
    ensures under_way { (left right new : Standing) (moves : List Move) → IsFresh left → IsFresh right → AllByRecursion OnlySends moves →
        MovesAlong right moves new → under_way (swapped (awaiting_pair left new (flat_map given_by moves))) ≡ tsdus_in moves }
{}
