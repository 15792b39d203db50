// The fields of a price line.
ghost use Rattle.std.specs.Prelude.{◌≡◌, ◌≤◌, [], ◌∷◌, ◌++◌, length, decimal};
ghost use Rattle.std.specs.Fmt.{signed_decimal};
ghost use Rattle.refusals.specs.Numbers.{number};
ghost use Rattle.page.specs.Pages.{Follows};
ghost use Rattle.pricing.specs.Origins.{letter};
ghost use Rattle.price_lines.specs.Adding.{longest_line};
ghost use Rattle.price_lines.specs.Lines.{kind_letter, point_fields, price_fields, line};

use crate::lines::Lines;
use pricing::origins::Origin;
use refusals::Refusal;
use weighting::points::{Kind, Point};

impl<const N: usize> Lines<N> {
    // The line of a point: its fields, and then its price or why there is none. Bytes and no `write!`: that says what it wrote only where
    // it answers `Ok`, and a page promises it always.
    pub fn push_line(&mut self, point: Point, price: Result<(i64, Origin), Refusal>)
        ensures added { Follows (line point price) self.old.page self.new.page }
        ensures short { length (line point price) ≤ longest_line }
    {
        self.push_point(point);
        self.page.push(b',');
        self.push_price(price);
        self.page.push(b'\n');
    }

    // P, the letter of the kind and the number.
    #[tactic(auto, using(crate::proofs::Lengths::signed_short))]
    fn push_point(&mut self, point: Point)
        ensures added { Follows (point_fields point) self.old.page self.new.page }
        ensures short { length (point_fields point) ≤ 24 }
    {
        self.page
            .push_all(&[b'P', b',', kind_letter(point.kind), b',']);
        self.page.push_number(point.number);
    }

    // Two fields, whether there is a price or not.
    fn push_price(&mut self, price: Result<(i64, Origin), Refusal>)
        ensures added { Follows (price_fields price) self.old.page self.new.page }
        ensures short { length (price_fields price) ≤ 22 }
    {
        match price {
            Ok((cents, origin)) => self.push_cents(cents, origin),
            Err(refusal) => self.push_refusal(refusal),
        }
    }

    #[tactic(auto, using(crate::proofs::Lengths::cents_short))]
    fn push_cents(&mut self, cents: i64, origin: Origin)
        ensures added { Follows (signed_decimal cents ++ (44 ∷ letter origin ∷ [])) self.old.page self.new.page }
        ensures short { length (signed_decimal cents ++ (44 ∷ letter origin ∷ [])) ≤ 22 }
    {
        self.page.push_number(cents);
        self.page.push(b',');
        // The letters are three of ASCII, so the cast is proved to lose nothing.
        self.page.push(origin.letter() as u8);
    }

    #[tactic(auto, using(crate::proofs::Lengths::refusal_short))]
    fn push_refusal(&mut self, refusal: Refusal)
        ensures added { Follows (82 ∷ 44 ∷ decimal (number refusal)) self.old.page self.new.page }
        ensures short { length (82 ∷ 44 ∷ decimal (number refusal)) ≤ 22 }
    {
        self.page.push_all(b"R,");
        self.page.push_number(i64::from(refusal.number()));
    }
}

fn kind_letter(kind: Kind) -> u8
    ensures { result ≡ kind_letter kind }
{
    match kind {
        Kind::Hub => b'H',
        Kind::Zone => b'Z',
        Kind::Tie => b'T',
    }
}
