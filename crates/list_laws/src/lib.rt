//! Lemmas on lists and numbers that name no type of the repository. The crate has no code: other
//! crates' proofs cite its `proofs/`.
//!
//! ```
//! use Rattle.list_laws.proofs.Members.{member_at}
//! let (gate, there) = member_at gates i within in .. -- from `within : i < length gates` the gate at place `i`
//! ```
#![tactic(auto)]
