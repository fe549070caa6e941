//! Tests of the store, its log and its devices, through the public calls of the crates: what neither a run of the program nor a call by C can
//! show. Then callers of laws of most crates, over any disk, any macro functions and any input, and runs of them.
//!
//! They are a crate of their own, at the top, so that no library is proved again for the sake of its tests, and that the store is compiled
//! for tests once.
//!
//! What a call ensures stays in the context of all that comes after it. So each call of a store is made in `asked` alone, and a test
//! compares the text of what its calls gave with the one that is wanted.
//!
//! - `asked`: a session over a disk in memory, and what it leaves; `lines` has the lines of that
//! - `halves`: sessions in halves with little room, with groups and without; steps one after the other
//! - `logs`: a log with no store over it; `batched`: records as bytes of the next version
//! - `disks`: disks in memory, disks that fail where they are told to, and files of the system
//!
//! Callers of laws:
//!
//! - `lives`: a store that is opened, stopped, refused once, opened again and called again
//! - `replicas`: two stores that are handed the same input
//! - `migration`: a store that is opened on files of version 1
//! - `exports`: a store that takes the export of a world; `same`: two stores with the same export
//! - `decided`: a form that is asked of a world, of which the laws on forms that decide and that change places tell
//! - `reopened`: a store that is opened with macro functions on files of a program without any
//! - `earlier`: a store that is opened on files of a program that had neither macro functions nor operators of PAZTURROK
//! - `sums`: the sum of a text, and that of the text once it is damaged
//! - `ledgers`: a session that goes out through a ledger, and what is there from the moment on at which its lines went out
//! - `again`: the store that a history goes on with after a session
//! - `rounds`: two rounds of messages, and the position after them
//! - `once`: messages that are answered in one call, and what a crash leaves of them
//! - `cuts`: the same messages in one call and in two
//! - `batches`: requests that are answered in batches, each of which ends with the bytes of its answers
//! - `room`: requests that are refused, as there is no room for what they write
//! - `fed_again`: a session over messages that are fed once more
//! - `forgotten`: a world from which the symbols went that it does not need
//! - `torn`: what a crash makes of a write without a sync
//! - `crashed`: a store on a new disk in memory, which crashes; `stopped`: the disk of it
//! - `closed`: a store that is closed and opened again
//! - `answers`: the answer to a form, and its number where it is refused
//! - `alike`: logs whose files hold the same bytes, and a look at files that nobody writes
//! - `troubled_disks`: the disks of these, and what may go wrong in them
//!
//! Lemmas in `proofs`: `Bytes`, `SameAnswers`, `Taken`.
//!
//! Want of memory ends a test of the first four with an error, wherever it comes: an assertion that fails is an answer that has changed. What a
//! run of the built program can show is in `checks/sessions`: answers, refusals and their places, words, commands, files; how it takes its input in
//! `checks/pieces`, and what it does at a terminal in `checks/terminal`. Limits, calls that stop, crashes and calls that are made again for want
//! of memory are in `checks/calls`, faults of the device and of streams in `checks/campaign`.
#![tactic(auto)]

#[cfg(test)]
mod again;
#[cfg(test)]
mod alike;
#[cfg(test)]
mod answers;
#[cfg(test)]
mod asked;
#[cfg(test)]
mod batched;
#[cfg(test)]
mod batches;
#[cfg(test)]
mod closed;
#[cfg(test)]
mod crashed;
#[cfg(test)]
mod cuts;
#[cfg(test)]
mod decided;
#[cfg(test)]
mod disks;
#[cfg(test)]
mod earlier;
#[cfg(test)]
mod exports;
#[cfg(test)]
mod fed_again;
#[cfg(test)]
mod forgotten;
#[cfg(test)]
mod halves;
#[cfg(test)]
mod ledgers;
#[cfg(test)]
mod lines;
#[cfg(test)]
mod lives;
#[cfg(test)]
mod logs;
#[cfg(test)]
mod migration;
#[cfg(test)]
mod once;
#[cfg(test)]
mod reopened;
#[cfg(test)]
mod replicas;
#[cfg(test)]
mod room;
#[cfg(test)]
mod rounds;
#[cfg(test)]
mod same;
#[cfg(test)]
mod stopped;
#[cfg(test)]
mod sums;
#[cfg(test)]
mod torn;
#[cfg(test)]
mod troubled_disks;
