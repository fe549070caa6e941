//! A disk whose calls are done later, by whoever holds its orders.
//!
//! It answers each call at once, and writes down what a device has to do: the orders, in the order in which the calls came. Whoever
//! holds them does them on two files, all of them and in turn, and reports that before anything that was answered is passed on.
//!
//! - `DeferredDisk` (module `disk`) is honest by what it was told: it was made of the bytes of two files, and these orders were done
//!   since (`specs/State.antt`). What is said of each moment of a run of calls holds between two orders of that run too:
//!   `between_orders` (module `laws`).
//! - Its bytes say the orders that were not reported yet, no more and no less (`specs/Bytes.antt`, module `order`).
//! - Of each file it keeps the length, the first byte, and all bytes until it is changed or a report comes (module `kept`). From then on
//!   it keeps the last bytes that were written at its end, which a store reads again as it takes zeros away; a store reads more than
//!   that only while it is opened.
//! - What was asked since it was made is in `past`, for clauses alone. It takes no memory.
#![tactic(auto)]

mod disk;
mod kept;
mod laws;
mod order;
mod past;

pub use disk::DeferredDisk;
pub use laws::between_orders;
