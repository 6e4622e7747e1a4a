ghost use Rattle.tlsf_command.specs.Arguments.{texts_of};
ghost use Rattle.tlsf_command.specs.ClassQuestions.{IsClassQuestion, IsOfNumbers};

use crate::arguments::number_given;
use clap::ArgMatches;
use tlsf_class::most_words;

/// The question that `tlsf classes` is asked.
#[derive(Clone, Copy)]
pub enum ClassQuestion {
    /// The class and the search class of this many words at level 4, 4 to 2^20.
    Coarse(u32),
    /// Those at level 5, of 4 to 2^24 words.
    Fine(u32),
    /// None: no class of the level has this many words.
    NoClass,
}

impl ClassQuestion {
    // The question about this many words at a level.
    fn of_numbers(words: u32, level: u32) -> ClassQuestion
        ensures { IsOfNumbers words level result }
    {
        if words < 4 {
            return ClassQuestion::NoClass;
        }
        if level == 4 && words <= most_words::<4>() {
            return ClassQuestion::Coarse(words);
        }
        if level == 5 && words <= most_words::<5>() {
            return ClassQuestion::Fine(words);
        }
        ClassQuestion::NoClass
    }

    /// The question of what the matches of `classes` give: a size, and the level behind `--level`, 4 where it isn't given.
    ///
    /// ```
    /// // of "460 --level 5"
    /// let question = ClassQuestion::given(&matches);     // ClassQuestion::Fine(460)
    /// ```
    pub fn given(given: &ArgMatches<'_>) -> ClassQuestion
        ensures { IsClassQuestion (texts_of given.now) result }
    {
        ClassQuestion::of_numbers(number_given(given, "N", 0), number_given(given, "level", 4))
    }
}
