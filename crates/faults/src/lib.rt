// What is wrong with a text, and where.
#![tactic(auto)]

ghost use Rattle.std.specs.Prelude.{◌≡◌, IsErrAnd, Ok, MatchResult};
ghost use Rattle.faults.specs.declared.Why.TheVariants.{Form, Value};
ghost use Rattle.faults.specs.Faults.{fault_number, refusal_of, inner_number, layer_of, letter_of, spot, in_line};

use refusals::Refusal;

#[derive(Clone, Copy, PartialEq, Eq, Debug)]
pub enum Why {
    // The memory that the answer should go to, or the file that is read, has not the right size.
    Short,
    // The letter, the number of fields, the form of a field, or the line end.
    Form,
    // A well-formed line that may not stand at its place.
    Order,
    // A value that is refused, with the refusal of it.
    Value(Refusal),
    // The last line is missing, counts wrong, or is followed by more.
    Ending,
}

// A field that has not the form of what it should write.
#[derive(Clone, Copy, PartialEq, Eq, Debug)]
pub struct Malformed;

// The text that is read.
#[derive(Clone, Copy, PartialEq, Eq, Debug)]
pub enum Source {
    Hour,
    Posting,
}

// The part of the program that found the fault: the reader of texts, the book, or the posting.
#[derive(Clone, Copy, PartialEq, Eq, Debug)]
pub enum Layer {
    Text,
    Book,
    Posting,
}

// A fault at a field of a line, counted from 1; 0 for the line as a whole, as it is printed.
#[derive(Clone, Copy, PartialEq, Eq, Debug)]
pub struct Spot {
    pub why: Why,
    pub field: u64,
}

// A fault at a line of a text, counted from 1; 0 for the text as a whole, as it is printed.
#[derive(Clone, Copy, PartialEq, Eq, Debug)]
pub struct Fault {
    pub why: Why,
    pub line: u64,
    pub field: u64,
}

impl From<Refusal> for Why {
    ghost from_gives = { λ e r. r ≡ Value e };

    fn from(e: Refusal) -> Why {
        Why::Value(e)
    }
}

// In a text it is a fault of form.
impl From<Malformed> for Why {
    ghost from_gives = { λ _ r. r ≡ Form };

    fn from(_e: Malformed) -> Why {
        Why::Form
    }
}

// A fault of a line as a whole.
impl From<Why> for Spot {
    ghost from_gives = { λ why r. r ≡ spot why 0 };

    fn from(why: Why) -> Spot {
        Spot { why, field: 0 }
    }
}

impl Why {
    // The number that a user is given for the fault.
    pub fn number(self) -> u8
        ensures { result ≡ fault_number self }
    {
        match self {
            Why::Short => 14,
            Why::Form => 15,
            Why::Order => 16,
            Why::Value(_) => 17,
            Why::Ending => 18,
        }
    }

    // The refusal that a value fault carries.
    pub fn refusal(self) -> Option<Refusal>
        ensures { result ≡ refusal_of self }
    {
        match self {
            Why::Value(refusal) => Some(refusal),
            _ => None,
        }
    }

    // The number of that refusal, printed as 0 where there is none.
    pub fn inner(self) -> u8
        ensures { result ≡ inner_number self }
    {
        self.refusal().map_or(0, |refusal| refusal.number())
    }

    // Who found the fault in this text.
    pub fn layer(self, source: Source) -> Layer
        ensures { result ≡ layer_of self source }
    {
        match (self, source) {
            (Why::Value(_), Source::Hour) => Layer::Book,
            (Why::Value(_), Source::Posting) => Layer::Posting,
            _ => Layer::Text,
        }
    }
}

impl Layer {
    // The letter that stands for the layer.
    pub fn letter(self) -> char
        ensures { result ≡ letter_of self }
    {
        match self {
            Layer::Text => 'T',
            Layer::Book => 'B',
            Layer::Posting => 'F',
        }
    }
}

// The field added to what the layer below refused, which stays whole.
pub fn at<T, E>(field: u64, r: Result<T, E>) -> Result<T, Spot>
where
    Why: From<E>,
    ensures { MatchResult result (λ x. r ≡ Ok x) (λ s. (s.field ≡ field) × IsErrAnd r (λ e. bound-1.from_gives e s.why)) }
{
    r.map_err(|e| Spot {
        why: Why::from(e),
        field,
    })
}

// The line added to a fault within it.
pub fn in_line<T>(line: u64, r: Result<T, Spot>) -> Result<T, Fault>
    ensures { result ≡ in_line line r }
{
    r.map_err(|spot| Fault {
        why: spot.why,
        line,
        field: spot.field,
    })
}
