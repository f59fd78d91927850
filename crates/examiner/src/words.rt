// Reading the books: a word by its number, a bit of a word, and the words of a findings book by their places.
ghost use Rattle.std.specs.Prelude.{◌≡◌, ◌+◌, slice_index};
ghost use Rattle.model.specs.Masks.{bit};
ghost use Rattle.model.specs.Table.{says_yes};

use model::{Place, SurveyNumbers};

// The word at k; 0 past the end.
pub(crate) fn word_at(words: &[u32], k: usize) -> u32
    ensures { result ≡ slice_index words.now k }
{
    words.get(k).copied().unwrap_or(0)
}

// The words from number k on; none past the end.
pub(crate) fn words_from(words: &[u32], k: usize) -> &[u32]
    ensures { slice_index result.now ≡ (λ y. slice_index words.now (k + y)) }
{
    &words[k.min(words.len())..]
}

// Whether bit a of the word is set; no word has a bit from the 32nd on.
pub(crate) fn has_bit(word: u32, a: u32) -> bool
    ensures { result ≡ bit word a }
{
    a < 32 && (word >> a) % 2 == 1
}

// The words of a findings book, which stand by the numbers of its survey.
#[derive(Clone, Copy)]
pub(crate) struct Findings<'a> {
    pub(crate) words: &'a [u32],
    pub(crate) numbers: SurveyNumbers,
}

// The words of a line at one point: the first is that of day 0, and each next day's stands so many points further.
#[derive(Clone, Copy)]
pub(crate) struct PointWords<'a> {
    words: &'a [u32],
    points: usize,
}

impl Findings<'_> {
    ghost use Rattle.examiner.specs.Read.{words_of, by_day};

    // The words of a place's line from its day on, to the end of the book.
    pub(crate) fn day_words(&self, at: Place) -> &[u32]
        ensures { slice_index result.now ≡ words_of self.now at.line at.day }
    {
        let day = at
            .line
            .saturating_mul(self.numbers.days)
            .saturating_add(at.day);
        words_from(self.words, day.saturating_mul(self.numbers.points))
    }

    // The word of a place; 0 past the end of the book.
    pub(crate) fn word(&self, at: Place) -> u32
        ensures { result ≡ words_of self.now at.line at.day at.point }
    {
        word_at(self.day_words(at), at.point)
    }

    // Whether that word is yes.
    pub(crate) fn is_yes(&self, at: Place) -> bool
        ensures { result ≡ says_yes (words_of self.now at.line at.day at.point) }
    {
        self.word(at) % 2 == 1
    }

    // The words of a place's line at its point, by the day.
    pub(crate) fn point_words(&self, at: Place) -> PointWords<'_>
        ensures { by_day result ≡ (λ e. words_of self.now at.line e at.point) }
    {
        PointWords {
            words: words_from(self.day_words(Place { day: 0, ..at }), at.point),
            points: self.numbers.points,
        }
    }
}

impl PointWords<'_> {
    ghost use Rattle.examiner.specs.Read.{by_day};

    // The word of a day; 0 past the end of the book.
    pub(crate) fn word(&self, day: usize) -> u32
        ensures { result ≡ by_day self.now day }
    {
        word_at(self.words, day.saturating_mul(self.points))
    }
}
