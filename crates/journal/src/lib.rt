// A survey's whole life: events, one step, and a replay of any list of them under one law.
#![tactic(auto)]

mod event;
mod replaying;
mod stepping;
mod survey;

pub use event::{Answer, Event, ReadingPlace};
pub use replaying::{Replayed, replay};
pub use stepping::step;
pub use survey::Survey;
