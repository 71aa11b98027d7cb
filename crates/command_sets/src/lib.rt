//! What all commands share: the data sets that the words name, the library among them, how a command ends, and
//! the answer that is put and printed.
#![tactic(auto)]

mod answer;
mod bodies;
mod ending;
mod outputs;
mod reading;
mod refusing;
mod saving;
mod status;
mod stop;

pub use answer::{Answer, Put};
pub use ending::{carry_out, printed};
pub use outputs::{names_output, new_version, output_in, output_version};
pub use reading::read_sets;
pub use refusing::{bad_words, refused, unbuilt, unbuilt_card};
pub use saving::library_answer;
pub use status::{Fault, Status};
pub use stop::Stop;
