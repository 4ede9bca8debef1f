// The sorts of the pile's items: all that the check of a concept needs of them.
ghost use Rattle.std.specs.Prelude.{◌≡◌, ◌<◌, ◌^◌};
ghost use Rattle.check_concept.specs.Scan.{put_sort, join_sorts, reach_sort, push_sort, is_concept_sort};

use records::token::Token;

// The sorts of the pile's items as bits, the top lowest: 0 a concept, 1 a path.
#[derive(Clone, Copy)]
pub struct Sorts {
    pub bits: u64,
    pub height: usize,
}

pub const EMPTY: Sorts = Sorts { bits: 0, height: 0 };

impl Sorts {
    fn put(self, sort: u64) -> Sorts
        requires { (self.bits < 2 ^ 63) × (self.height < 64) × (sort < 2) }
        ensures { result ≡ put_sort self sort }
    {
        Sorts {
            bits: 2 * self.bits + sort,
            height: self.height + 1,
        }
    }

    // Takes two items whose sorts are the bits of `want`, the top lowest, and puts one.
    fn join(self, want: u64, sort: u64) -> Option<Sorts>
        requires { (self.bits < 2 ^ 63) × (sort < 2) }
        ensures { result ≡ join_sorts self want sort }
    {
        if (self.height < 2) | (self.bits % 4 != want) {
            return None;
        }
        Some(Sorts {
            bits: 2 * (self.bits / 4) + sort,
            height: self.height - 1,
        })
    }

    // Takes a path and puts a concept.
    fn reach(self) -> Option<Sorts>
        ensures { result ≡ reach_sort self }
    {
        if (self.height < 1) | (self.bits % 2 != 1) {
            return None;
        }
        Some(Sorts {
            bits: self.bits - 1,
            height: self.height,
        })
    }

    // The pile after the token, or none where the token takes what is not there or not of that sort.
    pub fn push(self, token: Token) -> Option<Sorts>
        requires { (self.bits < 2 ^ 63) × (self.height < 64) }
        ensures { result ≡ push_sort token self }
    {
        match token {
            Token::Class(_) | Token::Everything | Token::Constant(_) | Token::Mark(_) => {
                Some(self.put(0))
            }
            Token::Both => self.join(0, 0),
            Token::Empty => Some(self.put(1)),
            Token::Forward(_) | Token::Backward(_) => self.join(2, 1),
            Token::Reached => self.reach(),
            Token::Common => self.join(3, 0),
        }
    }

    // Exactly one concept.
    pub fn is_concept(self) -> bool
        ensures { result ≡ is_concept_sort self }
    {
        (self.height == 1) & (self.bits == 0)
    }
}
