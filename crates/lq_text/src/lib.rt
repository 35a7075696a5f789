//! What stands in texts, whichever they are: numbers, files with one number on a line, names, and
//! the atoms of rows and qualifiers.
#![tactic(auto)]

mod atom;
mod byte;
mod laws;
mod line;
mod literal;
mod name;
mod numbers;
mod numeral;
mod order;
mod word;

pub use atom::{Atom, Subject, is_local_name, put_atom, read_atom};
pub use byte::{is_letter, is_name_byte};
pub use laws::{
    atoms_stand_once, decimal_texts, literal_texts, one_atom, one_fault, one_list, one_value,
};
pub use literal::read_literal;
pub use name::is_name;
pub use numbers::{NumbersFault, read_numbers, read_numbers_from};
pub use numeral::{put_number, read_number};
pub use order::{Term, are_in_order};
pub use word::{is_among, is_annotation_word, is_keyword, is_unused_word};
