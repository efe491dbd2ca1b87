//! Tests of chains, of tables, of workers alone and by hand, and of readers: what no contract says of them.
#![tactic(auto)]

#[cfg(test)]
mod assert_same;
#[cfg(test)]
mod calls;
#[cfg(test)]
mod chains;
#[cfg(test)]
mod crew;
#[cfg(test)]
mod dice;
#[cfg(test)]
mod drawn;
#[cfg(test)]
mod heaps;
#[cfg(test)]
mod held;
#[cfg(test)]
mod puts;
#[cfg(test)]
mod rows;
#[cfg(test)]
mod stepwise;
#[cfg(test)]
mod tables;
