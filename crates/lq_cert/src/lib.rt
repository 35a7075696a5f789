//! Certificates tested: whether a combination of facts, written down, gives a goal. And the lines of
//! proof files: read, written, and made those of version 2.
#![tactic(auto)]

mod check;
mod copy;
mod laws;
mod line;
mod locate;
mod numbers;
mod numeral;
mod proof_file;
mod reading;
mod renewal;
mod split;
mod writing;

pub use check::{MOST_MULTIPLIER, check_cert};
pub use laws::{
    bad_line_is_one, certified_goals_hold, found_certificates_are_right,
    narrow_certificates_derive, numerals_are_decimal, proof_is_one, renewals_are_proofs,
    renewals_stay,
};
pub use line::{FileVersion, Line, Part};
pub use lq_linear::{Cert, Combo, Exact};
pub use numeral::Numeral;
pub use proof_file::{Proof, ProofFault, read_proof, write_proof};
pub use renewal::renew;
