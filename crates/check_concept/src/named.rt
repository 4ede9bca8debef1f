// Which class and which attribute a token names.
ghost use Rattle.std.specs.Prelude.{◌≡◌};
ghost use Rattle.records.specs.Finite.{set_of};
ghost use Rattle.records.specs.Layout.{max_classes, max_attributes};
ghost use Rattle.records.specs.Named.{has_class, has_attribute};

use records::named::only;
use records::schema::{MAX_ATTRIBUTES, MAX_CLASSES};
use records::token::Token;

// The set of the class that the token names.
pub fn class_of(token: Token) -> u32
    ensures { result ≡ set_of max_classes (λ A. has_class A token) }
{
    if let Token::Class(a) = token {
        only(MAX_CLASSES, a)
    } else {
        0
    }
}

// The set of the attribute that the token names.
pub fn attribute_of(token: Token) -> u32
    ensures { result ≡ set_of max_attributes (λ P. has_attribute P token) }
{
    match token {
        Token::Forward(p) | Token::Backward(p) => only(MAX_ATTRIBUTES, p),
        _ => 0,
    }
}
