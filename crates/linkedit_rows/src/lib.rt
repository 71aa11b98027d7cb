//! Worked cases of the top call: files, commands over them, and what each prints and leaves, to the letter.
#![tactic(auto)]

#[cfg(test)]
mod bytes;
#[cfg(test)]
mod failing;
#[cfg(test)]
mod fetched;
#[cfg(test)]
mod linked;
#[cfg(test)]
mod placed;
#[cfg(test)]
mod refused;
#[cfg(test)]
mod scattered;
#[cfg(test)]
mod script;
#[cfg(test)]
mod stage;
#[cfg(test)]
mod words;
