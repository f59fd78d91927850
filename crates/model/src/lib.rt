// Floors, calendars and refusals: what the engine and the examiner both stand on.
#![tactic(auto)]

mod adjacency;
mod answers;
mod calendar;
mod chain;
mod checks;
mod floor;
mod grid;
mod kind;
mod line;
mod link_calendar;
mod link_floor;
mod links;
mod neighbours;
mod refusal;
mod survey_numbers;
mod theorems;

pub use answers::{Finding, Place, Verdict};
pub use calendar::Calendar;
pub use chain::ChainCalendar;
pub use checks::{check_line, check_lines, check_whole};
pub use floor::Floor;
pub use grid::Grid;
pub use kind::{KINDS, Kind, KindRow, Operand, kind_row};
pub use line::Line;
pub use link_calendar::LinkCalendar;
pub use link_floor::LinkFloor;
pub use neighbours::{PointsAfter, PointsBefore};
pub use refusal::Refusal;
pub use survey_numbers::SurveyNumbers;
pub use theorems::{
    awaited_means_every_future, entry_rule_has_one_solution, numbers_are_bounded,
    small_heaps_are_as_worked_by_hand, surrounded_means_no_way_out, table_means_satisfaction,
    until_means_a_beginning, what_is_shown_bears_out_the_finding,
};
