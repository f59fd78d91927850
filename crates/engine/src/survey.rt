// The two states of a survey, moved types of their own, and so each has its own `numbers`. Neither can be copied, and their fields are out
// of other crates' hands.
ghost use Rattle.std.specs.Prelude.{◌≡◌};

use model::SurveyNumbers;

// An open survey: its readings and lines can be changed, and it can be worked.
#[derive(Drop)]
pub struct Open {
    pub(crate) numbers: SurveyNumbers,
}

// A worked survey: its findings can be asked for and shown, and it can be reopened.
#[derive(Drop)]
pub struct Worked {
    pub(crate) numbers: SurveyNumbers,
}

impl Open {
    // How many points, days and lines the survey has.
    pub fn numbers(&self) -> SurveyNumbers
        ensures { result ≡ self.now.numbers }
    {
        self.numbers
    }
}

impl Worked {
    // How many points, days and lines the survey has.
    pub fn numbers(&self) -> SurveyNumbers
        ensures { result ≡ self.now.numbers }
    {
        self.numbers
    }

    // Turns the survey into an open one; erases nothing.
    pub fn reopen(self) -> Open
        ensures { result.numbers ≡ self.numbers }
    {
        let numbers = self.numbers;
        Open { numbers }
    }
}
