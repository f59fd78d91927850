// The engine: a survey's two states and the calls on them, over one exploration for shortest ways and lines filled in one after the other.
#![tactic(auto)]

mod asking;
mod awaited;
mod book;
mod circle;
mod column;
mod day_answers;
mod exploration;
mod filling;
mod future;
mod kinds_shown;
mod lower_line;
mod near;
mod next;
mod phrasing;
mod plain;
mod recording;
mod showing;
mod surrounded;
mod survey;
mod trace;
mod until;
mod words;
mod working;

pub use survey::{Open, Worked};
