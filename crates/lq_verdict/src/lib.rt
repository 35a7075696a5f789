//! The verdict: definitions of what is accepted, of what a refusal tells, and of which proof files are right.
#![tactic(auto)]

mod laws;

pub use laws::{
    accepted_programs_meet_their_conditions, accepted_where_the_greatest_is_good,
    first_bad_entry_is_one, good_assignments_are_valid, greatest_is_one, more_items_derive_more,
    right_proofs_are_valid,
};
