//! Task files and canonical texts by hand: which sets they read as, field by field, and where no
//! canonical text goes on. Texts with their faults stand in `examples/cases`.
#![tactic(auto)]

#[cfg(test)]
mod fronts;
#[cfg(test)]
mod sets;
