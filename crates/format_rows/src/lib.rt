//! Worked cases of the outside and of the formats: data sets, cards, statements, records, libraries, records from a
//! source, printed text and words.
#![tactic(auto)]

#[cfg(test)]
mod cards;
#[cfg(test)]
mod directories;
#[cfg(test)]
mod images;
#[cfg(test)]
mod libraries;
#[cfg(test)]
mod lists;
#[cfg(test)]
mod outside;
#[cfg(test)]
mod records;
#[cfg(test)]
mod samples;
#[cfg(test)]
mod statements;
#[cfg(test)]
mod streams;
#[cfg(test)]
mod texts;
#[cfg(test)]
mod words;
