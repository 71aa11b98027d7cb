//! Worked cases of the layers above the formats: decks, trees, addresses, numbers of constants, segments, places and storage.
#![tactic(auto)]

#[cfg(test)]
mod addresses;
#[cfg(test)]
mod constants;
#[cfg(test)]
mod decks;
#[cfg(test)]
mod lists;
#[cfg(test)]
mod modules;
#[cfg(test)]
mod places;
#[cfg(test)]
mod segments;
#[cfg(test)]
mod storage;
#[cfg(test)]
mod trees;
