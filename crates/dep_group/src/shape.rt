ghost use Rattle.std.specs.List.{list_any};
ghost use Rattle.std.specs.Prelude.{◌≡◌, false};
ghost use Rattle.dep_group.specs.Shapes.{IsCondition, asks, condition, denies, has_parenthesis};
ghost use Rattle.dep_group.specs.Shapes.{is_glued, is_parenthesis, shape, stays_inside};

/// What a word is to a text of groups.
#[derive(Debug, Drop, Clone, Copy, PartialEq, Eq)]
pub enum Shape {
    /// `(`
    Opens,
    /// `)`
    Closes,
    /// A parenthesis glued to other text, outside brackets that keep it.
    Glued,
    /// `||`
    AnyOf,
    /// `^^`
    ExactlyOne,
    /// `??`
    AtMostOne,
    /// `flag?`, or `!flag?` where it is not on. Whether the flag is a flag is not looked at.
    When { on: bool },
    /// Anything else.
    Item,
}

/// What the word is. Where words may have brackets, these keep the parentheses in them.
pub fn shape_of(word: &str, brackets: bool) -> Shape
    ensures { result ≡ shape brackets word.now }
{
    let bytes = word.as_bytes();
    if word == "(" {
        Shape::Opens
    } else if word == ")" {
        Shape::Closes
    } else if is_glued(bytes, brackets) {
        Shape::Glued
    } else if word == "||" {
        Shape::AnyOf
    } else if word == "^^" {
        Shape::ExactlyOne
    } else if word == "??" {
        Shape::AtMostOne
    } else if asks(bytes) {
        Shape::When { on: !denies(bytes) }
    } else {
        Shape::Item
    }
}

/// The flag in the condition `flag?`, or `!flag?` where it is not on.
pub fn flag_of(word: &str, on: bool) -> &str
    requires { IsCondition word.now on }
    ensures { word.now ≡ condition result.now on }
{
    let end = word.len() - 1;
    if on { &word[..end] } else { &word[1..end] }
}

fn is_glued(bytes: &[u8], brackets: bool) -> bool
    ensures { result ≡ is_glued brackets bytes.now }
{
    if brackets {
        has_parenthesis(bytes)
    } else {
        has_any_parenthesis(bytes)
    }
}

fn has_any_parenthesis(bytes: &[u8]) -> bool
    ensures { result ≡ list_any is_parenthesis bytes.now }
{
    bytes.iter().any(|b| is_parenthesis(*b))
}

/// Whether a parenthesis stands outside brackets.
fn has_parenthesis(bytes: &[u8]) -> bool
    ensures { result ≡ has_parenthesis false bytes.now }
{
    let mut inside = false;
    for b in bytes {
        if !inside && is_parenthesis(*b) {
            return true;
        }
        inside = *b == b'[' || inside && *b != b']';
    }
    false
}

fn is_parenthesis(b: u8) -> bool
    ensures { result ≡ is_parenthesis b }
{
    b == b'(' || b == b')'
}

fn asks(bytes: &[u8]) -> bool
    ensures { result ≡ asks bytes.now }
{
    match bytes {
        [.., last] => *last == b'?',
        [] => false,
    }
}

fn denies(bytes: &[u8]) -> bool
    ensures { result ≡ denies bytes.now }
{
    match bytes {
        [first, ..] => *first == b'!',
        [] => false,
    }
}
