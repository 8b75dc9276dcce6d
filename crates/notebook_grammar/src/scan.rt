//! The longest token at the front of a text: a walk through a few states.
ghost use Rattle.std.specs.Prelude.{◌≡◌};
ghost use Rattle.notebook_grammar.specs.Forms as spec;
ghost use Rattle.notebook_grammar.specs.Longest.{IsLongest};

use crate::kind::Kind;

/// The form of a token.
#[derive(Clone, Copy, Drop, Debug)]
pub enum Form {
    Word,
    /// A number without a point.
    Whole,
    /// A number with a point.
    Decimal,
    Quoted,
    Mark(Kind),
}

/// What a byte is to a token.
#[derive(Clone, Copy, Drop)]
pub enum Class {
    Letter,
    Underscore,
    Digit,
    Quote,
    Point,
    Less,
    Greater,
    Bang,
    Bar,
    Equal,
    /// A mark of one byte.
    Mark(Kind),
    Other,
}

/// What was read of a token.
#[derive(Clone, Copy, Drop)]
pub enum State {
    Start,
    Word,
    Whole,
    /// A number and its point, which is no token yet.
    Point,
    OnePlace,
    TwoPlaces,
    ThreePlaces,
    FourPlaces,
    /// Inside quotes.
    Open,
    /// After a quote, which a second one would undo.
    Shut,
    Less,
    Greater,
    Bang,
    Bar,
    Mark(Kind),
}

/// A token's form, and its number of bytes.
#[derive(Clone, Copy, Drop)]
pub struct Found {
    pub form: Form,
    pub length: usize,
}

fn class_of(byte: u8) -> Class
    ensures { result ≡ spec.class_of byte }
{
    match byte {
        b'a'..=b'z' | b'A'..=b'Z' => Class::Letter,
        b'_' => Class::Underscore,
        b'0'..=b'9' => Class::Digit,
        b'\'' => Class::Quote,
        b'.' => Class::Point,
        b'<' => Class::Less,
        b'>' => Class::Greater,
        b'!' => Class::Bang,
        b'|' => Class::Bar,
        b'=' => Class::Equal,
        b'+' => Class::Mark(Kind::Plus),
        b'-' => Class::Mark(Kind::Minus),
        b'*' => Class::Mark(Kind::Star),
        b'/' => Class::Mark(Kind::Slash),
        b'%' => Class::Mark(Kind::Percent),
        b',' => Class::Mark(Kind::Comma),
        b'(' => Class::Mark(Kind::Open),
        b')' => Class::Mark(Kind::Close),
        b';' => Class::Mark(Kind::Semicolon),
        b'{' => Class::Mark(Kind::OpenBrace),
        b'}' => Class::Mark(Kind::CloseBrace),
        _ => Class::Other,
    }
}

fn begin(class: Class) -> Option<State>
    ensures { result ≡ spec.begin class }
{
    match class {
        Class::Letter => Some(State::Word),
        Class::Digit => Some(State::Whole),
        Class::Quote => Some(State::Open),
        Class::Point => Some(State::Mark(Kind::Point)),
        Class::Less => Some(State::Less),
        Class::Greater => Some(State::Greater),
        Class::Bang => Some(State::Bang),
        Class::Bar => Some(State::Bar),
        Class::Equal => Some(State::Mark(Kind::Equal)),
        Class::Mark(kind) => Some(State::Mark(kind)),
        Class::Underscore | Class::Other => None,
    }
}

fn step(state: State, class: Class) -> Option<State>
    ensures { result ≡ spec.step state class }
{
    match (state, class) {
        (State::Start, _) => begin(class),
        (State::Word, Class::Letter | Class::Underscore | Class::Digit) => Some(State::Word),
        (State::Whole, Class::Digit) => Some(State::Whole),
        (State::Whole, Class::Point) => Some(State::Point),
        (State::Point, Class::Digit) => Some(State::OnePlace),
        (State::OnePlace, Class::Digit) => Some(State::TwoPlaces),
        (State::TwoPlaces, Class::Digit) => Some(State::ThreePlaces),
        (State::ThreePlaces, Class::Digit) => Some(State::FourPlaces),
        (State::Open, Class::Quote) => Some(State::Shut),
        (State::Open, _) => Some(State::Open),
        (State::Shut, Class::Quote) => Some(State::Open),
        (State::Less, Class::Equal) => Some(State::Mark(Kind::AtMost)),
        (State::Less, Class::Greater) => Some(State::Mark(Kind::NotEqual)),
        (State::Greater, Class::Equal) => Some(State::Mark(Kind::AtLeast)),
        (State::Bang, Class::Equal) => Some(State::Mark(Kind::NotEqual)),
        (State::Bar, Class::Bar) => Some(State::Mark(Kind::Bars)),
        _ => None,
    }
}

fn form_of(state: State) -> Option<Form>
    ensures { result ≡ spec.form_of state }
{
    match state {
        State::Word => Some(Form::Word),
        State::Whole => Some(Form::Whole),
        State::OnePlace | State::TwoPlaces | State::ThreePlaces | State::FourPlaces => {
            Some(Form::Decimal)
        }
        State::Shut => Some(Form::Quoted),
        State::Less => Some(Form::Mark(Kind::Less)),
        State::Greater => Some(Form::Mark(Kind::Greater)),
        State::Mark(kind) => Some(Form::Mark(kind)),
        State::Start | State::Point | State::Open | State::Bang | State::Bar => None,
    }
}

fn better(form: Option<Form>, best: Option<Found>, length: usize) -> Option<Found>
    ensures { result ≡ spec.better form best length }
{
    match form {
        Some(form) => Some(Found { form, length }),
        None => best,
    }
}

/// The longest token at the front, whatever its size.
pub fn longest(text: &[u8]) -> Option<Found>
    ensures { IsLongest text.now result }
{
    let mut best = None;
    let mut state = State::Start;
    let mut length = 0;
    for byte in text {
        match step(state, class_of(*byte)) {
            None => return best,
            Some(next) => {
                length += 1;
                state = next;
                best = better(form_of(next), best, length);
            }
        }
    }
    best
}
