// Why a call is refused.
ghost use Rattle.std.specs.Prelude.{◌≡◌};
ghost use Rattle.records.specs.Refusal.{number};

// The papers' number of each reason stands beside it.
#[derive(Clone, Copy, Debug, PartialEq, Eq)]
pub enum Refusal {
    SchemaShape = 1,
    SchemaAxiom = 2,
    ConceptShape = 3,
    ConceptToken = 4,
    ConceptPile = 5,
    ConceptSteps = 6,
    StateShape = 7,
    StateFact = 8,
    StateOrder = 9,
    StateNames = 10,
    LentWords = 11,
    Attribute = 12,
    CatalogueLayout = 13,
    SchemaLoose = 14,
    StateClassFacts = 15,
}

impl From<Refusal> for u16 {
    ghost from_gives = { λ r n. n ≡ number r };

    fn from(refusal: Refusal) -> u16 {
        refusal as u16
    }
}
