// What the check of a concept keeps of the tokens that it has passed.
ghost use Rattle.std.specs.Prelude.{◌≡◌, ◌<◌};
ghost use Rattle.check_concept.specs.Scan.{HasRoom, read_token, named_by};

use crate::named::{attribute_of, class_of};
use crate::sorts::{EMPTY, Sorts};
use records::named::Named;
use records::token::{Token, is_step};

#[derive(Clone, Copy)]
pub struct Scan {
    // None once a token has taken what is not there.
    pub pile: Option<Sorts>,
    pub steps: usize,
    // The classes and attributes named.
    pub classes: u32,
    pub attributes: u32,
}

pub const START: Scan = Scan {
    pile: Some(EMPTY),
    steps: 0,
    classes: 0,
    attributes: 0,
};

impl Scan {
    pub fn read(self, token: Token) -> Scan
        requires { HasRoom self.pile × (self.steps < 64) }
        ensures { result ≡ read_token token self }
    {
        let pile = self.pile.and_then(|sorts| sorts.push(token));
        let steps = self.steps + usize::from(is_step(token));
        let classes = self.classes | class_of(token);
        let attributes = self.attributes | attribute_of(token);
        Scan {
            pile,
            steps,
            classes,
            attributes,
        }
    }

    // What the tokens passed name.
    pub fn named(self) -> Named
        ensures { result ≡ named_by self }
    {
        let count = u64::from(self.classes.count_ones());
        Named {
            classes: self.classes,
            attributes: self.attributes,
            count,
        }
    }
}
