// The examiner: tests a findings book of any origin, entry by entry, against the book's own words. It takes nothing from the engine.
#![tactic(auto)]

mod awaited;
mod examination;
mod false_places;
mod lowest;
mod near;
mod next;
mod surrounded;
mod until;
mod wanted;
mod words;

pub use examination::examine;
