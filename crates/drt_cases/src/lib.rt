//! What only a call of the program's top shows of a run: trails, sources and sinks that fail, the adapters over std, and
//! workers that begin together. Whole runs, with all that they write, are the lines of `examples/cases`.
#![tactic(auto)]

#[cfg(test)]
mod drawn;
#[cfg(test)]
mod failing;
#[cfg(test)]
mod racing;
#[cfg(test)]
mod running;
#[cfg(test)]
mod trails;
