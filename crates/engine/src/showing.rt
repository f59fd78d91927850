// The call show: why an entry is not shown, and what is written of it.
ghost use Rattle.std.specs.Prelude.{◌≡◌, ◌≤◌, [], length, Some, None};
ghost use Rattle.std.specs.Result.{result_err};
ghost use Rattle.model.specs.Kinds.{kind_row};
ghost use Rattle.model.specs.Showing.{shows, strip_needed, row_show_refusal, book_trail, book_refusal, Shown};
ghost use Rattle.engine.specs.Strips.{Put};

use crate::asking::{check_entry, word_at};
use crate::kinds_shown::Entry;
use model::{Calendar, Floor, Kind, Line, Place, Refusal, SurveyNumbers, check_lines, kind_row};

// Whether there is something to show of that answer of a kind.
fn is_shown(kind: Kind, answer: bool) -> bool
    ensures { result ≡ shows kind answer }
{
    match kind {
        Kind::Surrounded => !answer,
        Kind::Until => answer,
        Kind::Awaited => !answer,
        _ => false,
    }
}

// How long a strip has to be.
fn strip_needed(kind: Kind, days: usize, steps: u32) -> usize
    requires { days ≤ 64 }
    ensures { result ≡ strip_needed kind days steps }
{
    match kind {
        Kind::Awaited => days + 1,
        _ => steps as usize + 1,
    }
}

// Whether an entry of that line with that word has something to show, and a strip of that length is long enough for it; or why not.
fn check_word(line: Line, days: usize, value: u32, room: usize) -> Result<(), Refusal>
    requires { days ≤ 64 }
    ensures { result_err result ≡ row_show_refusal (kind_row line.kind) days value room (Some []) }
{
    let row = kind_row(line.kind).ok_or(Refusal::NothingToShow)?;
    if !is_shown(row.kind, value % 2 == 1) {
        return Err(Refusal::NothingToShow);
    }
    if room < strip_needed(row.kind, days, value / 2) {
        return Err(Refusal::ShortStrip);
    }
    Ok(())
}

// An entry that is to be shown, with all that showing it reads.
#[derive(Drop)]
pub(crate) struct Asked<'a, F, C> {
    pub(crate) numbers: SurveyNumbers,
    pub(crate) floor: &'a F,
    pub(crate) calendar: &'a C,
    pub(crate) lines: &'a [Line],
    pub(crate) findings: &'a [u32],
    pub(crate) at: Place,
}

impl<F: Floor, C: Calendar> Asked<'_, F, C> {
    // Whether everything is in order for showing the entry on a strip of that length, or why not; words that fail what is to be shown come
    // later. The same order of refusals as `check_whole` of `model`, over other books and another place.
    fn check(&self, room: usize) -> Result<(), Refusal>
        ensures { result_err result ≡ book_refusal self.now.numbers.points self.now.numbers.days self.now.numbers.lines (F.Floor.points self.now.floor.now) (C.Floor.points self.now.calendar.now) self.now.lines.now self.now.findings.now self.now.at.line self.now.at.day self.now.at.point room (Some []) }
    {
        let numbers = self.numbers;
        let at = self.at;
        if self.floor.count() != numbers.points || self.calendar.count() != numbers.days {
            return Err(Refusal::OtherCounts);
        }
        if self.lines.len() < 64 {
            return Err(Refusal::ShortBook);
        }
        check_entry(numbers, self.findings.len(), at)?;
        check_lines(self.lines, numbers.lines)?;
        let value = word_at(numbers, self.findings, at);
        check_word(self.lines[at.line], numbers.days, value, room)
    }

    // Writes what there is to show of the entry, where everything is in order for it.
    fn write(&self, strip: &mut [u32]) -> Option<usize>
        requires { book_refusal self.now.numbers.points self.now.numbers.days self.now.numbers.lines (F.Floor.points self.now.floor.now) (C.Floor.points self.now.calendar.now) self.now.lines.now self.now.findings.now self.now.at.line self.now.at.day self.now.at.point (length strip.old) (Some []) ≡ None }
        ensures { Put (book_trail self.now.numbers.points (F.Floor.leads self.now.floor.now) self.now.numbers.days (C.Floor.leads self.now.calendar.now) self.now.lines.now self.now.findings.now self.now.at.line self.now.at.day self.now.at.point) strip.old strip.new result }
    {
        let line = self.lines[self.at.line];
        let row = kind_row(line.kind)?;
        let entry = Entry {
            floor: self.floor,
            calendar: self.calendar,
            findings: self.findings,
            at: self.at,
        };
        entry.show_kind(row.kind, line.left, line.right, strip)
    }

    // Writes what there is to show of the entry, by the words of the findings book; a refusal changes nothing. The answer is how many
    // numbers are written.
    pub(crate) fn show(&self, strip: &mut [u32]) -> Result<usize, Refusal>
        ensures { Shown self.now.numbers.points self.now.numbers.days self.now.numbers.lines (F.Floor.points self.now.floor.now) (F.Floor.leads self.now.floor.now) (C.Floor.points self.now.calendar.now) (C.Floor.leads self.now.calendar.now) self.now.lines.now self.now.findings.now self.now.at.line self.now.at.day self.now.at.point strip.old strip.new result }
    {
        self.check(strip.len())?;
        self.write(strip).ok_or(Refusal::FalseEntry)
    }
}
