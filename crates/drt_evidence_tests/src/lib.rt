//! Tests of the values that texts of dossiers are read as. Texts that are none stand in `examples/cases`.
#![tactic(auto)]

#[cfg(test)]
mod evidence;
#[cfg(test)]
mod texts;
