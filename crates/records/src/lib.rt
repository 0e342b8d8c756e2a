// What the programs that replay records share: a record's words, an answer in such words, the lists that a call is lent, replaying and counting.
#![tactic(auto)]

mod answer;
mod entry;
mod record;
mod replay;
mod tally;

pub use answer::Answer;
pub use entry::{Entry, Lent};
pub use record::Record;
pub use replay::{Call, read_on, run};
