//! CRC-32C (Castagnoli), the sum by which iSCSI, ext4 and others know damage.
//!
//! - `crc32c` gives the sum of a text, and `crc32c_append` that of a text that comes in pieces (module `sum`). What the sum is stands
//!   in `specs/Register.antt`: the remainder by the polynomial, bit by bit. Module `table` takes a byte at a time.
//! - `bursts` is the law on damage: of two texts that differ in a burst of at most 32 bits, the sums differ. `known_sums` has those by
//!   which implementations are compared (module `laws`). Crates above also cite `sum_fits` of `proofs/Bits.antt` (a sum has 32 bits), which
//!   keeps its name.
#![tactic(auto)]

mod laws;
mod sum;
mod table;

pub use laws::{bursts, known_sums};
pub use sum::{crc32c, crc32c_append};
