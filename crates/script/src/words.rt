// The words of a line, from left to right.
ghost use Rattle.std.specs.Prelude.{◌≡◌, ℕ, List, Option, Result, [], ◌∷◌, MatchOption};
ghost use Rattle.std.specs.Iterator.{YieldsFirstRef, item_count};
ghost use Rattle.std.specs.Result.{result_ok};
ghost use Rattle.hour.specs.MarketNames.{market_of};
ghost use Rattle.weighting.specs.KindNames.{kind_of};
ghost use Rattle.script.specs.Numbers.{number_of};
ghost use Rattle.script.specs.Readings.{left, first, last, others, choice_of, end};
ghost use Rattle.script.specs.Words.{words};
ghost use Rattle.script.specs.NumberLaws.{parsed};

use hour::records::Market;
use std::str::FromStr;
use weighting::points::Kind;

const BLANKS: [char; 3] = [' ', '\t', '\r'];

// The first word of a line, and what follows it.
fn cut(line: &str) -> Option<(&str, &str)>
    ensures first { MatchOption result (words line.now ≡ []) (λ p. words line.now ≡ p.0.now ∷ words p.1.now) }
{
    let line = line.trim_start_matches(BLANKS);
    let whole = (!line.is_empty()).then_some((line, ""));
    line.split_once(BLANKS).or(whole)
}

// What a word of a script may be read as.
pub trait Word: FromStr {
    ghost of_word: { List ℕ → Option Self };

    // Reading goes by `of_word` alone.
    ghost reads: { (word : List ℕ) (r : Result Self Self.Err) → Self.from_str_gives word r → result_ok r ≡ of_word word };
}

impl Word for i64 {
    ghost of_word = { number_of };

    ghost reads = { λ word r h. parsed word r h.0 };
}

impl Word for Market {
    ghost of_word = { market_of };

    ghost reads = { λ _ _ h. h };
}

impl Word for Kind {
    ghost of_word = { kind_of };

    ghost reads = { λ _ _ h. h };
}

// What is left of a line. Not `split_ascii_whitespace`, to which a form feed is a blank too, nor a filtered `split`, which has its
// closure's type wherever it is named.
#[derive(Drop)]
pub struct Words<'a> {
    rest: &'a str,
}

impl<'a> Iterator for Words<'a> {
    type Item = &'a str;

    ghost next_gives = { YieldsFirstRef left };

    ghost remaining = { item_count left };

    fn next(&mut self) -> Option<&'a str> {
        let (word, rest) = cut(self.rest)?;
        self.rest = rest;
        Some(word)
    }
}

impl<'a> Words<'a> {
    // All words of a line.
    pub fn of(line: &'a str) -> Words<'a>
        ensures value { left result ≡ words line.now }
    {
        Words { rest: line }
    }

    // The next word, read; the cursor moves past it, as it does in each reading below.
    pub fn read<T: Word>(&mut self) -> Option<T>
    where
        T::Err: Drop,
        ensures value { result ≡ first T.of_word (left self.old) }
        ensures after { left self.new ≡ others (left self.old) }
    {
        self.next()?.parse().ok()
    }

    // The next word as a flag: true at `yes`, false at `no`.
    pub fn choice(&mut self, yes: &str, no: &str) -> Option<bool>
        ensures value { result ≡ first (choice_of yes.now no.now) (left self.old) }
        ensures after { left self.new ≡ others (left self.old) }
    {
        let word = self.next()?;
        let on = word == yes;
        (on || word == no).then_some(on)
    }

    // The last word, read, where one is left.
    pub fn last<T: Word + Drop>(mut self) -> Option<Option<T>>
    where
        T::Err: Drop,
        ensures value { result ≡ last T.of_word (left self.entry) }
    {
        let value = self.next().map(|word| word.parse::<T>()).transpose().ok()?;
        self.end(value)
    }

    // The value, where no word is left.
    pub fn end<T: Drop>(mut self, value: T) -> Option<T>
        ensures value { result ≡ end value (left self.entry) }
    {
        self.next().is_none().then_some(value)
    }
}
