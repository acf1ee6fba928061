// What is known at a place of a source, and how one piece changes it.
ghost use Rattle.muf_token.specs.declared.token.Token.{Token};
ghost use Rattle.muf_token.specs.Branches.{outermost};
ghost use Rattle.std.specs.Prelude.{List, Option, ◌≡◌, ◌++◌, ◌∷◌, [], OnOk, OnErr, IfOk, not, if◌then◌else◌, true, false};
ghost use Rattle.muf_token.specs.Output.{Leads};
ghost use Rattle.muf_token.specs.Directives.{name_behind, body_at, directive_of};
ghost use Rattle.muck_model.specs.declared.dbref.Dbref.{Dbref};
ghost use Rattle.muf_token.specs.Numbers.{token_kind};
ghost use Rattle.muf_token.specs.Pieces.{source_pieces};
ghost use Rattle.muf_token.specs.inner.Spots.{spot_of, name_of, IsAnswer};
ghost use Rattle.muf_token.specs.Source.{with_definition, def_at, define_at, undef_at, is_defined, with_branch, conditional_at, else_at, endif_at, included_object, include_at, directed, word_passed, put_out, piece_taken, skipped, piece_stepped, words_unless, nothing_brought};
ghost use Rattle.muf_token.specs.inner.Readers.{state_of, LeadsTo, LeadsOn, IsRead, AreKept, Readies, SayTheSame};
ghost use Rattle.muf_token.specs.inner.Layers.{AreTaken, IsTimed, LendsOn};
ghost use Rattle.muf_token.specs.declared.includes.Definition.{Definition};

use crate::branch::{Branch, Branches};
use crate::definition::pieces_of;
use crate::directive::{Directive, Name, body_at, directive_of, name_at};
use crate::expansion::{expand, is_directive};
use crate::fault::refused;
use crate::includes::Includes;
use crate::layers::Layers;
use crate::number::kind_of;
use crate::output::Output;
use crate::piece::Piece;
use crate::place::{Found, Place};
use crate::{FaultKind, TokenFault, TokenKind, TokenList};
use muck_model::{Dbref, Line, NoMemory, Row};
use std::alloc::Global;

// How many definitions may be open at once.
const DEPTH_MOST: usize = 64;

/// What is known at a place of a source: the definitions, the conditionals that are open, and the words so far.
#[derive(Drop)]
pub(crate) struct Reader {
    pub definitions: Layers,
    pub branches: Branches,
    pub out: Output,
}

// The object that `$include` names.
fn object_of(alloc: Global, line: u32, name: &Name<'_>) -> Result<Dbref, TokenFault>
    ensures { IsAnswer (λ (d : Dbref). d) (included_object line (name_of name.now) (token_kind name.now.name)) result }
{
    match kind_of(alloc, &name.name)? {
        Some(TokenKind::Ref(object)) => Ok(object),
        Some(_) => Err(refused(line, FaultKind::BadDirective)),
        None => Err(refused(name.line, FaultKind::BadNumber)),
    }
}

impl Reader {
    /// Nothing is known.
    #[tactic(auto, using(crate::proofs::Renewals::takings))]
    pub fn new(alloc: Global) -> Result<Reader, NoMemory>
        ensures known { IfOk result (λ r. state_of r ≡ nothing_brought) }
        ensures taken { IfOk result (λ r. (lent : Dbref → Option (List Definition)) → AreTaken lent r.definitions) }
    {
        Ok(Reader {
            definitions: Layers::new(alloc),
            branches: Branches::new(alloc),
            out: Output {
                words: Row::new(alloc)?,
                uses: 0,
            },
        })
    }

    // Defines a name, in place of what it stood for.
    #[tactic(auto, using(crate::proofs::Renewals::takings))]
    fn define(&mut self, alloc: Global, name: Line, body: Row<Piece>) -> Result<(), NoMemory>
        requires { IsTimed self.old.definitions }
        ensures defined { OnOk result (SayTheSame (with_definition name body (state_of self.old)) (state_of self.new)) }
        ensures kept { OnOk result (LendsOn self.old.definitions self.new.definitions) }
    {
        self.definitions.set(alloc, name, Some(body))
    }

    // `$def name text`, up to the end of the line.
    fn take_def<'a>(
        &mut self,
        alloc: Global,
        line: u32,
        place: Place<'a>,
    ) -> Result<Place<'a>, TokenFault>
        requires { IsTimed self.old.definitions }
        ensures leads { LeadsOn (def_at line (state_of self.old) (spot_of place.entry)) result (state_of self.new) }
        ensures kept { OnOk result (LendsOn self.old.definitions self.new.definitions) }
    {
        let name = name_at(alloc, line, place)?;
        let body = pieces_of(alloc, name.behind.here)?;
        let behind = name.behind.end_of_line();
        self.define(alloc, name.name, body)?;
        Ok(behind)
    }

    // `$define name words $enddef`.
    fn take_define<'a>(
        &mut self,
        alloc: Global,
        line: u32,
        place: Place<'a>,
    ) -> Result<Place<'a>, TokenFault>
        requires { IsTimed self.old.definitions }
        ensures leads { LeadsOn (define_at line (state_of self.old) (spot_of place.entry)) result (state_of self.new) }
        ensures kept { OnOk result (LendsOn self.old.definitions self.new.definitions) }
    {
        let name = name_at(alloc, line, place)?;
        let (body, behind) = body_at(alloc, line, name.behind)?;
        self.define(alloc, name.name, body)?;
        Ok(behind)
    }

    // `$undef name`.
    #[tactic(auto, using(crate::proofs::Renewals::takings))]
    fn take_undef<'a>(
        &mut self,
        alloc: Global,
        line: u32,
        place: Place<'a>,
    ) -> Result<Place<'a>, TokenFault>
        requires { IsTimed self.old.definitions }
        ensures leads { LeadsOn (undef_at line (state_of self.old) (spot_of place.entry)) result (state_of self.new) }
        ensures kept { OnOk result (LendsOn self.old.definitions self.new.definitions) }
    {
        let name = name_at(alloc, line, place)?;
        self.definitions.set(alloc, name.name, None)?;
        Ok(name.behind)
    }

    // `$ifdef name`, where the name is to be defined, and `$ifndef name`, where it is not to be.
    fn take_ifdef<'a>(
        &mut self,
        alloc: Global,
        wanted: bool,
        line: u32,
        place: Place<'a>,
    ) -> Result<Place<'a>, TokenFault>
        ensures leads { LeadsTo (conditional_at wanted line (state_of self.old) (spot_of place.entry)) result (state_of self.new) }
        ensures same { OnOk result (AreKept self.old self.new) }
    {
        let name = name_at(alloc, line, place)?;
        let defined = self.definitions.get(&name.name).is_some();
        let taken = if wanted { defined } else { !defined };
        self.branches.open(Branch {
            line,
            taken,
            other: Some(!taken),
        })?;
        Ok(name.behind)
    }

    // `$else`.
    fn take_else(&mut self, line: u32) -> Result<(), TokenFault>
        ensures leads { Leads (else_at line (state_of self.old)) result (state_of self.new) }
        ensures same { OnOk result (AreKept self.old self.new) }
    {
        self.branches.turn(line)?;
        Ok(())
    }

    // `$endif`.
    fn take_endif(&mut self, line: u32) -> Result<(), TokenFault>
        ensures leads { Leads (endif_at line (state_of self.old)) result (state_of self.new) }
        ensures same { OnOk result (AreKept self.old self.new) }
    {
        self.branches.close(line)?;
        Ok(())
    }

    // The definitions of an object are there, which are taken where it wasn't included yet.
    #[tactic(auto, using(crate::proofs::Renewals::takings))]
    fn ready<I: Includes>(
        &mut self,
        alloc: Global,
        include: &I,
        line: u32,
        object: Dbref,
    ) -> Result<(), TokenFault>
        requires { AreTaken (I.lent include.now) self.old.definitions }
        ensures { Readies (I.lent include.now) line object self.old self.new result }
    {
        if self.definitions.knows(object) {
            return Ok(());
        }
        let Some(list) = include.defs(alloc, object)? else {
            return Err(refused(line, FaultKind::UnknownInclude));
        };
        self.definitions.lend_all(alloc, object, list.as_slice())?;
        Ok(())
    }

    // `$include #N`.
    #[tactic(auto, using(crate::proofs::Renewals::takings))]
    fn take_include<'a, I: Includes>(
        &mut self,
        alloc: Global,
        include: &I,
        line: u32,
        place: Place<'a>,
    ) -> Result<Place<'a>, TokenFault>
        requires { AreTaken (I.lent include.now) self.old.definitions }
        ensures leads { LeadsOn (include_at (I.lent include.now) line (state_of self.old) (spot_of place.entry)) result (state_of self.new) }
        ensures taken { OnOk result (AreTaken (I.lent include.now) self.new.definitions) }
    {
        let name = name_at(alloc, line, place)?;
        let object = object_of(alloc, line, &name)?;
        self.ready(alloc, include, line, object)?;
        self.definitions.renew(object)?;
        Ok(name.behind)
    }

    // A directive, where words are read.
    #[tactic(auto, using(crate::proofs::Renewals::takings))]
    fn take_directive<'a, I: Includes>(
        &mut self,
        alloc: Global,
        include: &I,
        line: u32,
        directive: Option<Directive>,
        place: Place<'a>,
    ) -> Result<Place<'a>, TokenFault>
        requires { AreTaken (I.lent include.now) self.old.definitions }
        ensures leads { LeadsOn (directed (I.lent include.now) line directive (state_of self.old) (spot_of place.entry)) result (state_of self.new) }
        ensures taken { OnOk result (AreTaken (I.lent include.now) self.new.definitions) }
    {
        match directive {
            Some(Directive::Def) => self.take_def(alloc, line, place),
            Some(Directive::Define) => self.take_define(alloc, line, place),
            Some(Directive::Undef) => self.take_undef(alloc, line, place),
            Some(Directive::Ifdef) => self.take_ifdef(alloc, true, line, place),
            Some(Directive::Ifndef) => self.take_ifdef(alloc, false, line, place),
            Some(Directive::Else) => {
                self.take_else(line)?;
                Ok(place)
            }
            Some(Directive::Endif) => {
                self.take_endif(line)?;
                Ok(place)
            }
            Some(Directive::Include) => self.take_include(alloc, include, line, place),
            None => Err(refused(line, FaultKind::BadDirective)),
        }
    }

    // A word where words aren't read.
    fn pass_word(&mut self, line: u32, word: &Line) -> Result<(), TokenFault>
        ensures leads { Leads (word_passed line (directive_of word.now) (state_of self.old)) result (state_of self.new) }
        ensures same { OnOk result (AreKept self.old self.new) }
    {
        match directive_of(word) {
            Some(Directive::Ifdef | Directive::Ifndef) => {
                self.branches.open(Branch {
                    line,
                    taken: false,
                    other: Some(false),
                })?;
                Ok(())
            }
            Some(Directive::Else) => self.take_else(line),
            Some(Directive::Endif) => self.take_endif(line),
            _ => Ok(()),
        }
    }

    // Puts out what a piece stands for.
    #[tactic(auto, unfolding(crate::specs::Source::depth_most))]
    fn put_out(&mut self, alloc: Global, line: u32, piece: &Piece) -> Result<(), TokenFault>
        ensures leads { Leads (put_out line piece.now (state_of self.old)) result (state_of self.new) }
        ensures same { OnOk result (AreKept self.old self.new) }
    {
        expand(
            alloc,
            &self.definitions,
            line,
            piece,
            DEPTH_MOST,
            &mut self.out,
        )?;
        Ok(())
    }

    // A piece where words are read.
    #[tactic(auto, using(crate::proofs::Renewals::takings))]
    fn take_here<'a, I: Includes>(
        &mut self,
        alloc: Global,
        include: &I,
        line: u32,
        piece: &Piece,
        place: Place<'a>,
    ) -> Result<Place<'a>, TokenFault>
        requires { AreTaken (I.lent include.now) self.old.definitions }
        ensures leads { LeadsOn (piece_taken (I.lent include.now) line piece.now (state_of self.old) (spot_of place.entry)) result (state_of self.new) }
        ensures taken { OnOk result (AreTaken (I.lent include.now) self.new.definitions) }
    {
        if let Piece::Word(word) = piece {
            if is_directive(word) {
                return self.take_directive(alloc, include, line, directive_of(word), place);
            }
        }
        self.put_out(alloc, line, piece)?;
        Ok(place)
    }

    // A piece where words aren't read.
    fn pass(&mut self, line: u32, piece: &Piece) -> Result<(), TokenFault>
        ensures leads { Leads (skipped line piece.now (state_of self.old)) result (state_of self.new) }
        ensures same { OnOk result (AreKept self.old self.new) }
    {
        match piece {
            Piece::Word(word) => self.pass_word(line, word),
            _ => Ok(()),
        }
    }

    // One piece of the source at this line, with what it brings; then it goes on at the place that comes back.
    #[tactic(auto, unfolding(crate::specs::Source::piece_stepped), using(crate::proofs::Renewals::takings))]
    fn take<'a, I: Includes>(
        &mut self,
        alloc: Global,
        include: &I,
        line: u32,
        piece: &Piece,
        place: Place<'a>,
    ) -> Result<Place<'a>, TokenFault>
        requires { AreTaken (I.lent include.now) self.old.definitions }
        ensures leads { LeadsOn (piece_stepped (I.lent include.now) line piece.now (state_of self.old) (spot_of place.entry)) result (state_of self.new) }
        ensures taken { OnOk result (AreTaken (I.lent include.now) self.new.definitions) }
    {
        if self.branches.is_taking() {
            return self.take_here(alloc, include, line, piece, place);
        }
        self.pass(line, piece)?;
        Ok(place)
    }

    /// Reads one piece from a place on, and says where it goes on; none where the source ends.
    #[tactic(auto, using(crate::proofs::Sources::sources, crate::proofs::Renewals::takings))]
    pub fn read<'a, I: Includes>(
        &mut self,
        alloc: Global,
        include: &I,
        place: Place<'a>,
    ) -> Result<Option<Place<'a>>, TokenFault>
        requires { AreTaken (I.lent include.now) self.old.definitions }
        ensures read { IsRead (I.lent include.now) (state_of self.old) (spot_of place.entry) result (state_of self.new) }
        ensures taken { OnOk result (AreTaken (I.lent include.now) self.new.definitions) }
    {
        let Some(
            Found {
                line,
                piece,
                behind,
            },
        ) = place.next(alloc)?
        else {
            return Ok(None);
        };
        let next = self.take(alloc, include, line, &piece, behind)?;
        Ok(Some(next))
    }

    /// The words, where no conditional is open.
    pub fn finish(self) -> Result<TokenList, TokenFault>
        ensures { IsAnswer (λ (words : List Token). words) (words_unless self.out.words (outermost self.branches)) result }
    {
        match self.branches.outermost() {
            None => Ok(self.out.words),
            Some(line) => Err(refused(line, FaultKind::BadDirective)),
        }
    }
}
