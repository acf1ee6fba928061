// How a command takes the text behind its word.
ghost use Rattle.std.specs.Prelude.{◌≡◌};
ghost use Rattle.spec_commands.specs.Reading.{shaped};

use muck_model::{Dbref, Line};

/// Which parts a text has.
#[derive(Clone, Copy)]
pub enum Form {
    /// One part, which may be empty.
    Any,
    /// One part, which isn't empty.
    One,
    /// Two parts around the first `=`, of which the second may be empty.
    Two,
    /// Two parts around the first `=`, of which none is empty.
    Full,
    /// One part, or where there is an `=` two, of which none is empty.
    OneOrFull,
}

/// What a part is to be.
#[derive(Clone, Copy)]
pub enum Want {
    /// There is no such part.
    Nothing,
    /// A text as it is typed.
    Text,
    /// A name that an object may have.
    NewName,
    /// What is found by its name, or home.
    Found,
    /// An object that is there, found by its name.
    Object,
    /// A player of that name.
    Player,
    /// A program, found by its name.
    Program,
}

/// How a command takes the text behind its word.
#[derive(Clone, Copy)]
pub struct Shape {
    /// Which parts it has.
    pub form: Form,
    /// What the first part is to be.
    pub first: Want,
    /// What the second part is to be.
    pub second: Want,
}

impl Shape {
    /// A text of this form, with parts that are to be this.
    pub fn new(form: Form, first: Want, second: Want) -> Shape
        ensures { result ≡ shaped form first second }
    {
        Shape {
            form,
            first,
            second,
        }
    }
}

/// A part of a text, and what was found for it.
#[derive(Drop)]
pub struct Argument {
    /// The part, without the spaces at its ends.
    pub text: Line,
    /// What it means, `#-1` where nothing is to be found.
    pub object: Dbref,
}

/// The parts of a text, and what was found for them.
#[derive(Drop)]
pub struct Arguments {
    /// The first part.
    pub first: Argument,
    /// The second part, which is empty where there is one alone.
    pub second: Argument,
}
