// A survey in either of its states.
use engine::{Open, Worked};

// A survey, open or worked.
#[derive(Drop)]
pub enum Survey {
    Open(Open),
    Worked(Worked),
}
