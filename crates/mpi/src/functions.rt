// The functions, by name.
ghost use Rattle.std.specs.Prelude.{◌≡◌};
ghost use Rattle.mpi.specs.Functions.{row_of_function, shown_row, functions, function_named, takes_so_many};

/// A function of formulas.
#[derive(Clone, Copy, PartialEq, Eq, Debug)]
pub enum Function {
    /// `v`: the value of a variable.
    Value,
    /// `set`: gives a variable a value.
    Set,
    /// `with`: a text with a new variable.
    With,
    /// `lit`: a text as it is written.
    Literal,
    /// `null`: the empty text.
    Nothing,
    /// `if`: one of two texts.
    If,
    /// `and`: whether all are true.
    And,
    /// `or`: whether one is true.
    Or,
    /// `xor`: whether one of two is true and one isn't.
    Xor,
    /// `not`: whether it is false.
    Not,
    /// `eq`: whether two are equal.
    Equal,
    /// `ne`: whether they aren't.
    Unequal,
    /// `gt`: whether the first is greater.
    Greater,
    /// `lt`: whether it is less.
    Less,
    /// `ge`: whether it isn't less.
    AtLeast,
    /// `le`: whether it isn't greater.
    AtMost,
    /// `add`: the sum.
    Add,
    /// `subt`: the difference.
    Subtract,
    /// `mult`: the product.
    Multiply,
    /// `div`: the quotient.
    Divide,
    /// `mod`: the remainder.
    Modulo,
    /// `abs`: without the sign.
    Absolute,
    /// `sign`: -1, 0 or 1.
    Sign,
    /// `min`: the less of two.
    Least,
    /// `max`: the greater of two.
    Most,
    /// `inc`: adds 1 to a variable.
    Increase,
    /// `dec`: takes 1 from it.
    Decrease,
    /// `dice`: a random number from 1 on.
    Dice,
    /// `strlen`: how many bytes it has.
    Length,
    /// `toupper`: in upper case.
    Upper,
    /// `tolower`: in lower case.
    Lower,
    /// `strip`: without the spaces at its ends.
    Strip,
    /// `instr`: the first place of a text in another.
    Find,
    /// `subst`: with a text in place of another.
    Substitute,
    /// `midstr`: the bytes from a place to a place.
    Middle,
    /// `mklist`: a list.
    MakeList,
    /// `count`: how many items a list has.
    Count,
    /// `lmember`: the first place of an item.
    Member,
    /// `sublist`: the items from a place to a place.
    Sublist,
    /// `for`: a text for each number.
    For,
    /// `foreach`: a text for each item.
    Foreach,
    /// `while`: a text again and again.
    While,
    /// `parse`: the list of texts for each item.
    Parse,
    /// `filter`: the items for which a text is true.
    Filter,
    /// `name`: the name of an object.
    Name,
    /// `ref`: its number.
    Ref,
    /// `loc`: its place.
    Loc,
    /// `owner`: its owner.
    Owner,
    /// `type`: what it is.
    Kind,
    /// `flags`: its flags.
    Flags,
    /// `contents`: what is in it.
    Contents,
    /// `exits`: its exits.
    Exits,
    /// `dbeq`: whether two are one object.
    Same,
    /// `holds`: whether the second is the place of the first.
    Holds,
    /// `controls`: whether the player controls it.
    Controls,
    /// `prop`: a property, along the places upward.
    Prop,
    /// `prop!`: a property of the object alone.
    PropHere,
    /// `store`: stores a property.
    Store,
    /// `delprop`: takes a property away.
    DelProp,
    /// `propdir`: whether properties stand below a path.
    PropDir,
    /// `tell`: sends a text to a player.
    Tell,
    /// `otell`: sends a text to all others in a room.
    Otell,
}

/// How the arguments of a function are evaluated.
#[derive(Clone, Copy)]
pub enum How {
    /// From left to right; the function then needs this beside them.
    First(Group),
    /// As the function says.
    Lazy(Way),
}

/// What a function needs beside the texts of its arguments.
#[derive(Clone, Copy)]
pub enum Group {
    /// It reads or writes a variable.
    Variable,
    /// It tests texts.
    Test,
    /// It computes with numbers.
    Number,
    /// It makes a text of texts.
    Text,
    /// It asks for chance.
    Chance,
    /// It shows the number of an object.
    Reference,
    /// It compares two objects.
    Same,
    /// It asks the host.
    Ask,
    /// It has the host do something.
    Deed,
}

/// Which of its arguments a function evaluates.
#[derive(Clone, Copy)]
pub enum Way {
    /// None: they are its text as it is written.
    Literal,
    /// The first, and then one of the others.
    If,
    /// All up to the first that is false.
    All,
    /// All up to the first that is true.
    Any,
    /// The second while the first is true.
    While,
    /// The last one, with a new variable.
    With(Scope),
}

/// How often a function evaluates its last argument, and at which values of its variable.
#[derive(Clone, Copy)]
pub enum Scope {
    /// Once, at a value.
    Once,
    /// At each number of a range.
    Numbers,
    /// At each item of a list.
    Items(Keep),
}

/// What a function gives of the items of a list and of their texts.
#[derive(Clone, Copy)]
pub enum Keep {
    /// The last text.
    Last,
    /// The list of all texts.
    Texts,
    /// The list of the items whose text is true.
    Items,
}

/// What is so of a function. [`Function::row`] says it of each.
#[derive(Clone, Copy)]
pub struct Row {
    /// Its name.
    pub name: &'static [u8],
    /// The least arguments that it takes.
    pub least: usize,
    /// The most, where there is a bound.
    pub most: Option<usize>,
    /// How they are evaluated.
    pub how: How,
}

// A row of the table.
macro_rules! row {
    ($name:literal, $least:literal, $most:expr, $how:expr) => {
        Row {
            name: $name,
            least: $least,
            most: $most,
            how: $how,
        }
    };
}

impl Function {
    /// Its row in the table of all functions.
    #[inline(always)]
    pub fn row(self) -> Row
        ensures { shown_row result ≡ row_of_function self }
    {
        match self {
            Function::Value => row!(b"v", 1, Some(1), How::First(Group::Variable)),
            Function::Set => row!(b"set", 2, Some(2), How::First(Group::Variable)),
            Function::With => row!(b"with", 3, Some(3), How::Lazy(Way::With(Scope::Once))),
            Function::Literal => row!(b"lit", 0, None, How::Lazy(Way::Literal)),
            Function::Nothing => row!(b"null", 0, None, How::First(Group::Text)),
            Function::If => row!(b"if", 2, Some(3), How::Lazy(Way::If)),
            Function::And => row!(b"and", 1, None, How::Lazy(Way::All)),
            Function::Or => row!(b"or", 1, None, How::Lazy(Way::Any)),
            Function::Xor => row!(b"xor", 2, Some(2), How::First(Group::Test)),
            Function::Not => row!(b"not", 1, Some(1), How::First(Group::Test)),
            Function::Equal => row!(b"eq", 2, Some(2), How::First(Group::Test)),
            Function::Unequal => row!(b"ne", 2, Some(2), How::First(Group::Test)),
            Function::Greater => row!(b"gt", 2, Some(2), How::First(Group::Test)),
            Function::Less => row!(b"lt", 2, Some(2), How::First(Group::Test)),
            Function::AtLeast => row!(b"ge", 2, Some(2), How::First(Group::Test)),
            Function::AtMost => row!(b"le", 2, Some(2), How::First(Group::Test)),
            Function::Add => row!(b"add", 2, None, How::First(Group::Number)),
            Function::Subtract => row!(b"subt", 2, Some(2), How::First(Group::Number)),
            Function::Multiply => row!(b"mult", 2, None, How::First(Group::Number)),
            Function::Divide => row!(b"div", 2, Some(2), How::First(Group::Number)),
            Function::Modulo => row!(b"mod", 2, Some(2), How::First(Group::Number)),
            Function::Absolute => row!(b"abs", 1, Some(1), How::First(Group::Number)),
            Function::Sign => row!(b"sign", 1, Some(1), How::First(Group::Number)),
            Function::Least => row!(b"min", 2, Some(2), How::First(Group::Number)),
            Function::Most => row!(b"max", 2, Some(2), How::First(Group::Number)),
            Function::Increase => row!(b"inc", 1, Some(1), How::First(Group::Variable)),
            Function::Decrease => row!(b"dec", 1, Some(1), How::First(Group::Variable)),
            Function::Dice => row!(b"dice", 1, Some(1), How::First(Group::Chance)),
            Function::Length => row!(b"strlen", 1, Some(1), How::First(Group::Text)),
            Function::Upper => row!(b"toupper", 1, Some(1), How::First(Group::Text)),
            Function::Lower => row!(b"tolower", 1, Some(1), How::First(Group::Text)),
            Function::Strip => row!(b"strip", 1, Some(1), How::First(Group::Text)),
            Function::Find => row!(b"instr", 2, Some(2), How::First(Group::Text)),
            Function::Substitute => row!(b"subst", 3, Some(3), How::First(Group::Text)),
            Function::Middle => row!(b"midstr", 2, Some(3), How::First(Group::Text)),
            Function::MakeList => row!(b"mklist", 1, None, How::First(Group::Text)),
            Function::Count => row!(b"count", 1, Some(1), How::First(Group::Text)),
            Function::Member => row!(b"lmember", 2, Some(2), How::First(Group::Text)),
            Function::Sublist => row!(b"sublist", 3, Some(3), How::First(Group::Text)),
            Function::For => row!(b"for", 5, Some(5), How::Lazy(Way::With(Scope::Numbers))),
            Function::Foreach => row!(
                b"foreach",
                3,
                Some(3),
                How::Lazy(Way::With(Scope::Items(Keep::Last)))
            ),
            Function::While => row!(b"while", 2, Some(2), How::Lazy(Way::While)),
            Function::Parse => row!(
                b"parse",
                3,
                Some(3),
                How::Lazy(Way::With(Scope::Items(Keep::Texts)))
            ),
            Function::Filter => row!(
                b"filter",
                3,
                Some(3),
                How::Lazy(Way::With(Scope::Items(Keep::Items)))
            ),
            Function::Name => row!(b"name", 0, Some(1), How::First(Group::Ask)),
            Function::Ref => row!(b"ref", 0, Some(1), How::First(Group::Reference)),
            Function::Loc => row!(b"loc", 0, Some(1), How::First(Group::Ask)),
            Function::Owner => row!(b"owner", 0, Some(1), How::First(Group::Ask)),
            Function::Kind => row!(b"type", 0, Some(1), How::First(Group::Ask)),
            Function::Flags => row!(b"flags", 0, Some(1), How::First(Group::Ask)),
            Function::Contents => row!(b"contents", 0, Some(1), How::First(Group::Ask)),
            Function::Exits => row!(b"exits", 0, Some(1), How::First(Group::Ask)),
            Function::Same => row!(b"dbeq", 0, Some(2), How::First(Group::Same)),
            Function::Holds => row!(b"holds", 0, Some(2), How::First(Group::Ask)),
            Function::Controls => row!(b"controls", 0, Some(1), How::First(Group::Ask)),
            Function::Prop => row!(b"prop", 1, Some(2), How::First(Group::Ask)),
            Function::PropHere => row!(b"prop!", 1, Some(2), How::First(Group::Ask)),
            Function::Store => row!(b"store", 2, Some(3), How::First(Group::Deed)),
            Function::DelProp => row!(b"delprop", 1, Some(2), How::First(Group::Deed)),
            Function::PropDir => row!(b"propdir", 1, Some(2), How::First(Group::Ask)),
            Function::Tell => row!(b"tell", 1, Some(2), How::First(Group::Deed)),
            Function::Otell => row!(b"otell", 1, Some(2), How::First(Group::Deed)),
        }
    }

    /// Its name.
    pub fn name(self) -> &'static [u8]
        ensures { result.now ≡ (row_of_function self).name }
    {
        self.row().name
    }

    /// How its arguments are evaluated.
    pub fn how(self) -> How
        ensures { result ≡ (row_of_function self).how }
    {
        self.row().how
    }

    /// Whether it takes so many arguments.
    pub(crate) fn takes(self, count: usize) -> bool
        ensures { result ≡ takes_so_many self count }
    {
        let row = self.row();
        let few = match row.most {
            Some(most) => count <= most,
            None => true,
        };
        row.least <= count && few
    }

    /// The function of a name; `None` exactly where none has it.
    #[tactic(auto, unfolding(crate::specs::Functions::functions))]
    pub fn named(word: &[u8]) -> Option<Function>
        ensures { result ≡ function_named word.now }
    {
        ALL.iter().copied().find(|function| function.name() == word)
    }
}

// All functions.
const ALL: [Function; 62] = [
    Function::Value,
    Function::Set,
    Function::With,
    Function::Literal,
    Function::Nothing,
    Function::If,
    Function::And,
    Function::Or,
    Function::Xor,
    Function::Not,
    Function::Equal,
    Function::Unequal,
    Function::Greater,
    Function::Less,
    Function::AtLeast,
    Function::AtMost,
    Function::Add,
    Function::Subtract,
    Function::Multiply,
    Function::Divide,
    Function::Modulo,
    Function::Absolute,
    Function::Sign,
    Function::Least,
    Function::Most,
    Function::Increase,
    Function::Decrease,
    Function::Dice,
    Function::Length,
    Function::Upper,
    Function::Lower,
    Function::Strip,
    Function::Find,
    Function::Substitute,
    Function::Middle,
    Function::MakeList,
    Function::Count,
    Function::Member,
    Function::Sublist,
    Function::For,
    Function::Foreach,
    Function::While,
    Function::Parse,
    Function::Filter,
    Function::Name,
    Function::Ref,
    Function::Loc,
    Function::Owner,
    Function::Kind,
    Function::Flags,
    Function::Contents,
    Function::Exits,
    Function::Same,
    Function::Holds,
    Function::Controls,
    Function::Prop,
    Function::PropHere,
    Function::Store,
    Function::DelProp,
    Function::PropDir,
    Function::Tell,
    Function::Otell,
];
