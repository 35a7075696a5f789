//! Tests of the public calls of the crates: what no clause says.
#![tactic(auto)]

#[cfg(test)]
mod assignment;
#[cfg(test)]
mod atoms;
#[cfg(test)]
mod cert;
#[cfg(test)]
mod cert_files;
#[cfg(test)]
mod chain;
#[cfg(test)]
mod cli;
#[cfg(test)]
mod instances;
#[cfg(test)]
mod lexer;
#[cfg(test)]
mod linear;
#[cfg(test)]
mod log;
#[cfg(test)]
mod names;
#[cfg(test)]
mod parser;
#[cfg(test)]
mod plain;
#[cfg(test)]
mod quals;
#[cfg(test)]
mod symbolic;
#[cfg(test)]
mod tally;
#[cfg(test)]
mod templates;
#[cfg(test)]
mod text;
#[cfg(test)]
mod tree;
#[cfg(test)]
mod validity;
