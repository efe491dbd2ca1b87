//! What no contract says of the map in its three forms: how a map for one thread uses its pages, and what the
//! workers of a shared tree and of a forest are answered.
#![tactic(auto)]

#[cfg(test)]
mod assert_same;
#[cfg(test)]
mod forests;
#[cfg(test)]
mod maps;
#[cfg(test)]
mod shared;
