// What is known at a place of a source, and what each word asks for there.
ghost use Rattle.std.specs.Prelude.{◌≡◌, ◌≤◌, IfOk, None, [], option_map, length, is_some};
ghost use Rattle.std.specs.Str.{bytes_eq};
ghost use Rattle.std.specs.Map.{lookup};
ghost use Rattle.std.specs.Option.{option_or};
ghost use Rattle.muck_model.specs.Bytes.{text_fault};
ghost use Rattle.muf_model.specs.Prims.{named_in_any_case};
ghost use Rattle.muf_compile.specs.Names.{control_of, standing_of};
ghost use Rattle.muf_compile.specs.Reading.{item_of, item_named, may_use, word_number, is_unfit, new_name_fault, wants, shared_variable, own_variable, before_bracket, titled_as, titled, offered, name_wanted, read_name, binding, header_end, argument, read_argument, read_result, declaration, read_outside, control_read, word_meant, plain_word, read_inside, word_read, nothing_known, Reads};
ghost use Rattle.muf_compile.specs.inner.Knowing.{known_of};

use crate::act::{Act, Opening, Reading};
use crate::control::{Control, control_of, standing_of};
use crate::names::{Known, Meaning, Mode, Wanted};
use crate::{CompileFault, CompileKind};
use indexmap::IndexMap;
use muck_model::{Line, NoMemory};
use muf_model::{Literal, Offer, Primitive, Text, VarId, Word};
use muf_token::{Token, TokenKind};
use std::alloc::Global;

// The most variables of a program, and of a word.
const VARIABLES_MOST: usize = 64;

// The item that a word stands for in every program.
fn common_item(name: &[u8]) -> Option<Word>
    ensures { result ≡ option_or (option_map Word.Variable (standing_of name.now)) (option_map Word.Primitive (named_in_any_case name.now)) }
{
    if let Some(variable) = standing_of(name) {
        return Some(Word::Variable(variable));
    }
    match Primitive::named_in_any_case(name) {
        Some(primitive) => Some(Word::Primitive(primitive)),
        None => None,
    }
}

// Whether programs may use an item so far.
fn may_use(word: &Word) -> bool
    ensures { result ≡ may_use word.now }
{
    match word {
        Word::Primitive(primitive) => primitive.is_there(),
        _ => true,
    }
}

// The text of a part of a text.
fn part_of(alloc: Global, bytes: &[u8]) -> Result<Line, NoMemory>
    requires { text_fault bytes.now ≡ None }
    ensures { IfOk result (λ line. line ≡ bytes.now) }
{
    Line::of_text(alloc, bytes)
}

// Whether a word can't be a name.
fn is_unfit(name: &Line) -> bool
    ensures { result ≡ is_unfit name.now }
{
    name.as_slice().is_empty() || control_of(name.as_slice()).is_some()
}

// A text that values may share.
fn text_of(alloc: Global, line: &Line) -> Result<Text, NoMemory>
    ensures { IfOk result (λ text. text ≡ line.now) }
{
    let line = line.copy(alloc)?;
    let text = Text::new(alloc, line)?;
    Ok(text)
}

/// The empty text.
pub(crate) fn empty_text(alloc: Global) -> Result<Text, NoMemory>
    ensures { IfOk result (λ text. text ≡ []) }
{
    let line = part_of(alloc, &[])?;
    let text = Text::new(alloc, line)?;
    Ok(text)
}

// The act that binds so many arguments, if any.
fn binding(count: usize) -> Act
    requires few { count ≤ 64 }
    ensures { result ≡ binding count }
{
    if count == 0 {
        Act::Wait
    } else {
        Act::Item(Word::Bind(count as u32))
    }
}

// The name before a last `[`, where there is one.
#[tactic(auto, using(crate::proofs::Titles::titles))]
fn before_bracket(alloc: Global, word: &Line) -> Result<Option<Line>, NoMemory>
    ensures { IfOk result (λ name. name ≡ before_bracket word.now) }
{
    let Some((last, name)) = word.as_slice().split_last() else {
        return Ok(None);
    };
    if *last != b'[' {
        return Ok(None);
    }
    Ok(Some(part_of(alloc, name)?))
}

impl Known {
    /// Nothing is known.
    pub fn new(alloc: Global) -> Known
        ensures { known_of result ≡ nothing_known }
    {
        Known {
            names: IndexMap::new(alloc),
            variables: 0,
            locals: IndexMap::new(alloc),
            mode: Mode::Outside,
        }
    }

    // The variable of the present word that has this name.
    fn own_item(&self, name: &Line) -> Option<Word>
        ensures { result ≡ option_map Word.Variable (lookup (bytes_eq name.now) self.now.locals.entries) }
    {
        match self.locals.get(name) {
            Some(variable) => Some(Word::Variable(*variable)),
            None => None,
        }
    }

    // The word or variable of the program that has this name.
    fn shared_item(&self, name: &Line) -> Option<Word>
        ensures { result ≡ option_map item_of (lookup (bytes_eq name.now) self.now.names.entries) }
    {
        match self.names.get(name) {
            Some(Meaning::Word(number)) => Some(Word::Call(*number)),
            Some(Meaning::Variable(variable)) => Some(Word::Variable(*variable)),
            None => None,
        }
    }

    // The item that a word stands for.
    #[tactic(auto, unfolding(crate::specs::Reading::item_named))]
    fn word_of(&self, name: &Line) -> Option<Word>
        ensures { result ≡ item_named name.now (known_of self.now) }
    {
        if let Some(word) = self.own_item(name) {
            return Some(word);
        }
        if let Some(word) = self.shared_item(name) {
            return Some(word);
        }
        common_item(name.as_slice())
    }

    // The number of the word that has this name.
    fn number_of(&self, name: &Line) -> Option<u32>
        ensures { result ≡ word_number name.now (known_of self.now) }
    {
        match self.names.get(name) {
            Some(Meaning::Word(number)) => Some(*number),
            _ => None,
        }
    }

    // Why a word can't be a new name.
    #[tactic(auto, unfolding(crate::specs::Reading::new_name_fault))]
    fn name_fault(&self, name: &Line) -> Option<CompileKind>
        ensures { result ≡ new_name_fault name.now (known_of self.now) }
    {
        if is_unfit(name) {
            return Some(CompileKind::BadHeader);
        }
        if self.word_of(name).is_some() {
            return Some(CompileKind::DoubleName);
        }
        None
    }

    // One variable more of the program.
    #[tactic(auto, unfolding(crate::specs::Reading::variables_most))]
    fn add_shared(&mut self, alloc: Global, line: u32, name: &Line) -> Result<Reading, CompileFault>
        ensures { Reads (shared_variable line name.now (known_of self.old)) result (known_of self.new) }
    {
        if let Some(kind) = self.name_fault(name) {
            return Err(CompileFault::at(line, kind));
        }
        if self.variables >= VARIABLES_MOST {
            return Err(CompileFault::at(line, CompileKind::TooLong));
        }
        let variable = VarId(4 + self.variables as u32);
        self.names
            .insert(name.copy(alloc)?, Meaning::Variable(variable))?;
        self.variables += 1;
        self.mode = Mode::Outside;
        Ok(Reading {
            line,
            act: Act::Wait,
        })
    }

    // One variable more of the present word.
    #[tactic(auto, unfolding(crate::specs::Reading::variables_most))]
    fn add_own(
        &mut self,
        alloc: Global,
        line: u32,
        name: &Line,
        mode: Mode,
    ) -> Result<VarId, CompileFault>
        ensures { Reads (own_variable line name.now mode (known_of self.old)) result (known_of self.new) }
    {
        if let Some(kind) = self.name_fault(name) {
            return Err(CompileFault::at(line, kind));
        }
        let count = self.locals.len();
        if count >= VARIABLES_MOST {
            return Err(CompileFault::at(line, CompileKind::TooLong));
        }
        let variable = VarId(68 + count as u32);
        self.locals.insert(name.copy(alloc)?, variable)?;
        self.mode = mode;
        Ok(variable)
    }

    // A word of this number and name begins.
    fn add_word(
        &mut self,
        alloc: Global,
        number: u32,
        line: u32,
        name: &Line,
        mode: Mode,
    ) -> Result<Reading, CompileFault>
        ensures { Reads (titled_as number line name.now mode (known_of self.old)) result (known_of self.new) }
    {
        if let Some(kind) = self.name_fault(name) {
            return Err(CompileFault::at(line, kind));
        }
        let title = text_of(alloc, name)?;
        self.names.insert(name.copy(alloc)?, Meaning::Word(number))?;
        self.mode = mode;
        Ok(Reading {
            line,
            act: Act::Title(title),
        })
    }

    // A word whose `:` stands at `at` begins, with a header where a `[` ends its name.
    fn title(
        &mut self,
        alloc: Global,
        number: u32,
        at: u32,
        line: u32,
        word: &Line,
    ) -> Result<Reading, CompileFault>
        ensures { Reads (titled number at line word.now (known_of self.old)) result (known_of self.new) }
    {
        match before_bracket(alloc, word)? {
            Some(name) => self.add_word(alloc, number, line, &name, Mode::Heading(at)),
            None => self.add_word(alloc, number, line, word, Mode::Inside),
        }
    }

    // A word of the program is offered.
    fn offer(&mut self, line: u32, offer: Offer, name: &Line) -> Result<Reading, CompileFault>
        ensures { Reads (offered line offer name.now (known_of self.old)) result (known_of self.new) }
    {
        if is_unfit(name) {
            return Err(CompileFault::at(line, CompileKind::BadHeader));
        }
        let Some(number) = self.number_of(name) else {
            return Err(CompileFault::at(line, CompileKind::UnknownWord));
        };
        self.mode = Mode::Outside;
        Ok(Reading {
            line,
            act: Act::Offer(number, offer),
        })
    }

    // The name that a declaration wants.
    fn name(
        &mut self,
        alloc: Global,
        number: u32,
        line: u32,
        wanted: Wanted,
        name: &Line,
    ) -> Result<Reading, CompileFault>
        ensures { Reads (name_wanted number line wanted name.now (known_of self.old)) result (known_of self.new) }
    {
        match wanted {
            Wanted::Title(at) => self.title(alloc, number, at, line, name),
            Wanted::Shared => self.add_shared(alloc, line, name),
            Wanted::Offered(offer) => self.offer(line, offer, name),
            Wanted::Own => {
                self.add_own(alloc, line, name, Mode::Inside)?;
                Ok(Reading {
                    line,
                    act: Act::Wait,
                })
            }
            Wanted::Stored(at) => {
                let variable = self.add_own(alloc, line, name, Mode::Inside)?;
                Ok(Reading {
                    line: at,
                    act: Act::Item(Word::Store(variable)),
                })
            }
        }
    }

    // A word behind a declaration.
    fn read_name(
        &mut self,
        alloc: Global,
        number: u32,
        wanted: Wanted,
        token: &Token,
    ) -> Result<Reading, CompileFault>
        ensures { Reads (read_name number token.now.line wanted token.now.kind (known_of self.old)) result (known_of self.new) }
    {
        match &token.kind {
            TokenKind::Word(name) => self.name(alloc, number, token.line, wanted, name),
            _ => Err(CompileFault::at(token.line, CompileKind::BadHeader)),
        }
    }

    // `]` ends a header whose `:` stands at `at`.
    fn end_header(&mut self, at: u32) -> Reading
        ensures { header_end at (known_of self.old) ≡ Ok (known_of self.new, result) }
    {
        self.mode = Mode::Inside;
        let count = self.locals.len();
        Reading {
            line: at,
            act: binding(count),
        }
    }

    // A word of a header: the names of arguments.
    fn argument(
        &mut self,
        alloc: Global,
        at: u32,
        line: u32,
        name: &Line,
    ) -> Result<Reading, CompileFault>
        ensures { Reads (argument at line name.now (known_of self.old)) result (known_of self.new) }
    {
        if name.as_slice() == b"]".as_slice() {
            return Ok(self.end_header(at));
        }
        if name.as_slice() == b"--".as_slice() {
            self.mode = Mode::Results(at);
            return Ok(Reading {
                line,
                act: Act::Wait,
            });
        }
        self.add_own(alloc, line, name, Mode::Heading(at))?;
        Ok(Reading {
            line,
            act: Act::Wait,
        })
    }

    // A word of a header before `--`.
    fn read_argument(
        &mut self,
        alloc: Global,
        at: u32,
        token: &Token,
    ) -> Result<Reading, CompileFault>
        ensures { Reads (read_argument at token.now.line token.now.kind (known_of self.old)) result (known_of self.new) }
    {
        match &token.kind {
            TokenKind::Word(name) => self.argument(alloc, at, token.line, name),
            _ => Err(CompileFault::at(token.line, CompileKind::BadHeader)),
        }
    }

    // A word of a header behind `--`.
    fn read_result(&mut self, at: u32, token: &Token) -> Reading
        ensures { read_result at token.now.line token.now.kind (known_of self.old) ≡ Ok (known_of self.new, result) }
    {
        if let TokenKind::Word(name) = &token.kind {
            if name.as_slice() == b"]".as_slice() {
                return self.end_header(at);
            }
        }
        Reading {
            line: token.line,
            act: Act::Wait,
        }
    }

    // First a name has to follow.
    fn want(&mut self, line: u32, wanted: Wanted) -> Reading
        ensures { wants line wanted (known_of self.old) ≡ Ok (known_of self.new, result) }
    {
        self.mode = Mode::Naming(wanted);
        Reading {
            line,
            act: Act::Wait,
        }
    }

    // A word of the structure where no word is open.
    fn declare(&mut self, line: u32, control: Option<Control>) -> Result<Reading, CompileFault>
        ensures { Reads (declaration line control (known_of self.old)) result (known_of self.new) }
    {
        match control {
            Some(Control::Colon) => Ok(self.want(line, Wanted::Title(line))),
            Some(Control::Var | Control::LVar) => Ok(self.want(line, Wanted::Shared)),
            Some(Control::Public) => Ok(self.want(line, Wanted::Offered(Offer::All))),
            Some(Control::WizCall) => Ok(self.want(line, Wanted::Offered(Offer::Wizards))),
            Some(Control::VarStore) => Err(CompileFault::at(line, CompileKind::BadHeader)),
            _ => Err(CompileFault::at(line, CompileKind::UnknownWord)),
        }
    }

    // A word where no word is open.
    fn read_outside(&mut self, token: &Token) -> Result<Reading, CompileFault>
        ensures { Reads (read_outside token.now.line token.now.kind (known_of self.old)) result (known_of self.new) }
    {
        match &token.kind {
            TokenKind::Word(name) => self.declare(token.line, control_of(name.as_slice())),
            _ => Err(CompileFault::at(token.line, CompileKind::UnknownWord)),
        }
    }

    // `;`: the variables of the word are forgotten.
    fn end_word(&mut self, line: u32) -> Reading
        ensures { control_read line Control.Semicolon (known_of self.old) ≡ Ok (known_of self.new, result) }
    {
        let count = self.locals.len();
        self.locals.clear();
        self.mode = Mode::Outside;
        Reading {
            line,
            act: Act::End(count),
        }
    }

    // A word of the structure in a word.
    fn control(&mut self, line: u32, control: Control) -> Result<Reading, CompileFault>
        ensures { Reads (control_read line control (known_of self.old)) result (known_of self.new) }
    {
        let act = match control {
            Control::Colon | Control::LVar | Control::Public | Control::WizCall => {
                return Err(CompileFault::at(line, CompileKind::BadHeader));
            }
            Control::Var => return Ok(self.want(line, Wanted::Own)),
            Control::VarStore => return Ok(self.want(line, Wanted::Stored(line))),
            Control::Semicolon => return Ok(self.end_word(line)),
            Control::If => Act::Open(Opening::If),
            Control::Else => Act::Else,
            Control::Then => Act::Then,
            Control::Try => Act::Open(Opening::Try),
            Control::Catch => Act::Catch,
            Control::EndCatch => Act::EndCatch,
            Control::Begin => Act::Open(Opening::Begin),
            Control::For => Act::Open(Opening::For),
            Control::ForEach => Act::Open(Opening::Each),
            Control::Repeat => Act::Repeat,
            Control::Until => Act::Until,
            Control::While => Act::Jump(Word::While),
            Control::Break => Act::Jump(Word::Break),
            Control::Continue => Act::Jump(Word::Continue),
            Control::Exit => Act::Item(Word::Exit),
        };
        Ok(Reading { line, act })
    }

    // A word in a word.
    fn read_word(&mut self, line: u32, name: &Line) -> Result<Reading, CompileFault>
        ensures { Reads (plain_word line name.now (control_of name.now) (known_of self.old)) result (known_of self.new) }
    {
        if let Some(control) = control_of(name.as_slice()) {
            return self.control(line, control);
        }
        match self.word_of(name) {
            Some(word) if may_use(&word) => Ok(Reading {
                line,
                act: Act::Item(word),
            }),
            _ => Err(CompileFault::at(line, CompileKind::UnknownWord)),
        }
    }

    // The address of the word that has this name.
    fn address(&self, line: u32, name: &Line) -> Result<Reading, CompileFault>
        ensures { Reads (word_meant line (option_map Word.Address (word_number name.now (known_of self.now))) (known_of self.now)) result (known_of self.now) }
    {
        match self.number_of(name) {
            Some(number) => Ok(Reading {
                line,
                act: Act::Item(Word::Address(number)),
            }),
            None => Err(CompileFault::at(line, CompileKind::UnknownWord)),
        }
    }

    // What stands in a word.
    fn read_inside(&mut self, alloc: Global, token: &Token) -> Result<Reading, CompileFault>
        ensures { Reads (read_inside token.now.line token.now.kind (known_of self.old)) result (known_of self.new) }
    {
        let line = token.line;
        let literal = match &token.kind {
            TokenKind::Word(name) => return self.read_word(line, name),
            TokenKind::Address(name) => return self.address(line, name),
            TokenKind::Text(text) => Literal::Text(text_of(alloc, text)?),
            TokenKind::Number(number) => Literal::Int(*number),
            TokenKind::Ref(object) => Literal::Object(*object),
        };
        Ok(Reading {
            line,
            act: Act::Item(Word::Literal(literal)),
        })
    }

    /// What a word asks for, where the next word of the program has this number.
    #[tactic(auto, unfolding(crate::specs::Reading::word_read))]
    pub fn read(
        &mut self,
        alloc: Global,
        number: u32,
        token: &Token,
    ) -> Result<Reading, CompileFault>
        ensures { Reads (word_read number token.now (known_of self.old)) result (known_of self.new) }
    {
        match self.mode {
            Mode::Outside => self.read_outside(token),
            Mode::Inside => self.read_inside(alloc, token),
            Mode::Naming(wanted) => self.read_name(alloc, number, wanted, token),
            Mode::Heading(at) => self.read_argument(alloc, at, token),
            Mode::Results(at) => Ok(self.read_result(at, token)),
        }
    }
}
