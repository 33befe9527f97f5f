//! Tests of the hall and of rings on examples. The crates themselves are proved for all input.
#![tactic(auto)]

#[cfg(test)]
mod examples;
#[cfg(test)]
mod own_source;
#[cfg(test)]
mod refused;
#[cfg(test)]
mod ring;
#[cfg(test)]
mod runs;
#[cfg(test)]
mod sheets;
