//! One end of a byte connection, and the judge of a byte connection, for C: the functions that `include/osi.h` declares.
//!
//! Each function is a call of [`osi_stack::Stack`] or [`osi_judge::Judge`], and its contract says what that call's contract says, in
//! the numbers of C. The text of a judge is that of `osi_report`. `OsiEnd` and `OsiJudge` are the slots that a C program
//! holds. Every argument is allowed except a pointer to nothing: numbers that are out of range give `BAD_ARGUMENT`, and
//! an empty slot gives `CLOSED`.
//!
//! A C caller has a few duties that no contract can check (true lengths, one thread at a time): docs/GUIDE.md lists
//! them. Three functions of the header are small C functions around these, in `bindings/c/edges.c`; names and lines of text
//! are written by `bindings/c/names.c` and `bindings/c/texts.c`.
#![tactic(auto)]

mod addresses;
mod arguments;
mod asking;
mod calls;
mod codes;
mod ends;
mod fetching;
mod handles;
mod header;
mod indications;
mod judge_slots;
mod judgements;
mod judges;
mod judging;
mod notes;
mod rules;
mod slots;
mod standings;
mod streams;
mod subjects;
mod telling;
mod told;
mod traces;
mod tracing;
mod verdicts;
