//! The numbers of osi.h, under their names there.

// Why a call was refused.
pub(crate) const NO_SUCH_CONNECTION: u32 = 10;

pub(crate) const ENDED: u32 = 11;

pub(crate) const BAD_STATE: u32 = 12;

pub(crate) const NOT_SELECTED: u32 = 13;

pub(crate) const TOKEN_NOT_HELD: u32 = 14;

pub(crate) const TOKEN_ALREADY_HELD: u32 = 15;

pub(crate) const BAD_NUMBER: u32 = 16;

pub(crate) const SERIALS_USED_UP: u32 = 17;

pub(crate) const EMPTY: u32 = 18;

pub(crate) const TOO_LONG: u32 = 19;

pub(crate) const NOT_CALLER: u32 = 20;

pub(crate) const NEGOTIATING: u32 = 21;

pub(crate) const ONE_CONNECTION: u32 = 22;

pub(crate) const TOO_MANY: u32 = 23;

pub(crate) const REFERENCES_USED_UP: u32 = 24;

// Which indication.
pub(crate) const NONE: u32 = 0;

pub(crate) const CONNECT: u32 = 1;

pub(crate) const CONNECTED: u32 = 2;

pub(crate) const REFUSED_BY_TRANSPORT: u32 = 3;

pub(crate) const REFUSED_BY_SESSION: u32 = 4;

pub(crate) const DATA: u32 = 5;

pub(crate) const GIVEN: u32 = 6;

pub(crate) const ASKED: u32 = 7;

pub(crate) const MINOR: u32 = 8;

pub(crate) const MINOR_CONFIRMED: u32 = 9;

pub(crate) const MAJOR: u32 = 10;

pub(crate) const MAJOR_CONFIRMED: u32 = 11;

pub(crate) const RESTART: u32 = 12;

pub(crate) const RESTARTED: u32 = 13;

pub(crate) const RELEASE: u32 = 14;

pub(crate) const RELEASED: u32 = 15;

pub(crate) const RELEASE_REFUSED: u32 = 16;

pub(crate) const ABORTED: u32 = 17;

pub(crate) const LOST: u32 = 18;

pub(crate) const PEER_ABORT: u32 = 19;

pub(crate) const BAD_UNIT: u32 = 20;

// Why an end has ended.
pub(crate) const END_NONE: u32 = 0;

pub(crate) const END_BROKEN: u32 = 1;

pub(crate) const END_CLOSED: u32 = 2;

pub(crate) const END_PEER_CLOSED: u32 = 3;

pub(crate) const END_NO_MEMORY: u32 = 4;

pub(crate) const END_UNKNOWN_REFERENCE: u32 = 5;

pub(crate) const END_BAD_ANSWER: u32 = 6;

pub(crate) const END_UNEXPECTED_UNIT: u32 = 7;

pub(crate) const END_BAD_VERSION: u32 = 10;

pub(crate) const END_BAD_LENGTH: u32 = 11;

pub(crate) const END_NO_MEMORY_FOR_PACKET: u32 = 12;

pub(crate) const END_BAD_LI: u32 = 13;

pub(crate) const END_UNKNOWN_CODE: u32 = 14;

pub(crate) const END_BAD_PARAMETER_LENGTH: u32 = 15;

pub(crate) const END_BAD_PARAMETER_VALUE: u32 = 16;

pub(crate) const END_DUPLICATE_PARAMETER: u32 = 17;

pub(crate) const END_WRONG_FORM: u32 = 18;

pub(crate) const END_OUT_OF_SEQUENCE: u32 = 19;

pub(crate) const END_CREDIT_REDUCED: u32 = 20;

pub(crate) const END_TSDU_TOO_LONG: u32 = 21;

pub(crate) const END_NO_MEMORY_FOR_TSDU: u32 = 22;

// The phase of a connection.
pub(crate) const PHASE_NONE: u32 = 0;

pub(crate) const PHASE_WAIT_TRANSPORT: u32 = 1;

pub(crate) const PHASE_WAIT_CN: u32 = 2;

pub(crate) const PHASE_CONNECTING: u32 = 3;

pub(crate) const PHASE_ANSWERING: u32 = 4;

pub(crate) const PHASE_READY: u32 = 5;

pub(crate) const PHASE_MAJOR_ASKED: u32 = 6;

pub(crate) const PHASE_MAJOR_DUE: u32 = 7;

pub(crate) const PHASE_RELEASING: u32 = 8;

pub(crate) const PHASE_RELEASE_DUE: u32 = 9;

pub(crate) const PHASE_RESTARTING: u32 = 10;

pub(crate) const PHASE_RESTART_DUE: u32 = 11;

pub(crate) const PHASE_ABORTING: u32 = 12;

pub(crate) const PHASE_ENDED: u32 = 13;

// The rule by which a side broke the protocol, or why it is judged no further.
pub(crate) const RULE_BAD_TOKENS: u32 = 30;

pub(crate) const RULE_BAD_ENCLOSURE: u32 = 31;

pub(crate) const RULE_NO_FAULT: u32 = 32;

pub(crate) const RULE_NOTHING_TO_ANSWER: u32 = 33;

pub(crate) const RULE_OUTSIDE: u32 = 34;

pub(crate) const RULE_UNKNOWN_SI: u32 = 40;

pub(crate) const RULE_LENGTH_PAST_END: u32 = 41;

pub(crate) const RULE_MISSING_PARAMETER: u32 = 42;

pub(crate) const RULE_DUPLICATE_PARAMETER: u32 = 43;

pub(crate) const RULE_BAD_VALUE: u32 = 44;

pub(crate) const RULE_BAD_CONCATENATION: u32 = 45;

pub(crate) const RULE_TRAILING_OCTETS: u32 = 46;

pub(crate) const RULE_NO_OPENING: u32 = 50;

pub(crate) const RULE_BAD_VERSION: u32 = 54;

pub(crate) const RULE_BAD_LENGTH: u32 = 55;

pub(crate) const RULE_BAD_LI: u32 = 56;

pub(crate) const RULE_UNKNOWN_CODE: u32 = 57;

pub(crate) const RULE_BAD_TPDU_PARAMETER_LENGTH: u32 = 58;

pub(crate) const RULE_BAD_TPDU_PARAMETER_VALUE: u32 = 59;

pub(crate) const RULE_DUPLICATE_TPDU_PARAMETER: u32 = 60;

pub(crate) const RULE_UNEXPECTED_UNIT: u32 = 61;

pub(crate) const RULE_WRONG_FORM: u32 = 62;

pub(crate) const RULE_TSDU_TOO_LONG: u32 = 63;

pub(crate) const RULE_LIMIT: u32 = 70;

pub(crate) const RULE_TOO_MANY_CONNECTIONS: u32 = 71;

pub(crate) const RULE_ONE_CONNECTION: u32 = 80;

pub(crate) const RULE_NEGOTIATING: u32 = 81;

pub(crate) const RULE_REFERENCE_IN_USE: u32 = 82;

pub(crate) const RULE_UNKNOWN_REFERENCE: u32 = 83;

pub(crate) const RULE_BAD_ANSWER: u32 = 84;

pub(crate) const RULE_LARGER_SIZE: u32 = 85;

pub(crate) const RULE_CLOSED: u32 = 86;

pub(crate) const RULE_OUT_OF_SEQUENCE: u32 = 87;

pub(crate) const RULE_NO_CREDIT: u32 = 88;

pub(crate) const RULE_SIZE_EXCEEDED: u32 = 89;

pub(crate) const RULE_CREDIT_REDUCED: u32 = 90;

// What that side sent.
pub(crate) const SAID_CN: u32 = 1;

pub(crate) const SAID_AC: u32 = 2;

pub(crate) const SAID_RF: u32 = 3;

pub(crate) const SAID_DT: u32 = 4;

pub(crate) const SAID_GT: u32 = 5;

pub(crate) const SAID_PT: u32 = 6;

pub(crate) const SAID_MIP: u32 = 7;

pub(crate) const SAID_MIA: u32 = 8;

pub(crate) const SAID_MAP: u32 = 9;

pub(crate) const SAID_MAA: u32 = 10;

pub(crate) const SAID_RS: u32 = 11;

pub(crate) const SAID_RA: u32 = 12;

pub(crate) const SAID_FN: u32 = 13;

pub(crate) const SAID_DN: u32 = 14;

pub(crate) const SAID_NF: u32 = 15;

pub(crate) const SAID_AB: u32 = 16;

pub(crate) const SAID_AA: u32 = 17;

pub(crate) const SAID_TSDU: u32 = 18;

pub(crate) const SAID_TPKT: u32 = 19;

pub(crate) const SAID_TPDU: u32 = 20;

pub(crate) const SAID_TRANSPORT_DT: u32 = 21;

pub(crate) const SAID_TRANSPORT_DR: u32 = 22;

pub(crate) const SAID_TRANSPORT_CR: u32 = 23;

pub(crate) const SAID_TRANSPORT_CC: u32 = 24;

pub(crate) const SAID_TRANSPORT_DC: u32 = 25;

pub(crate) const SAID_TRANSPORT_AK: u32 = 26;

pub(crate) const SAID_TRANSPORT_ER: u32 = 27;
