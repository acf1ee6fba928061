// A host that is held in memory.
ghost use Rattle.std.specs.Prelude.{◌≡◌, [], IfOk, Ok};
ghost use Rattle.std.specs.Option.{option_copied, unwrap_or};
ghost use Rattle.mpi.specs.Hosting.{Means, Meant};
ghost use Rattle.mpi.specs.inner.Worked.{Worked};
ghost use Rattle.mpi.specs.inner.Memory.{name_in, prop_in, stored_in, told_in};

use crate::fault::MpiFault;
use crate::host::{Ask, Deed, Host};
use muck_model::{Dbref, Line, NoMemory, Row};
use std::alloc::Global;

/// A property of an object.
#[derive(Drop)]
pub struct MemProp {
    pub object: Dbref,
    pub path: Line,
    pub text: Line,
}

/// Objects in memory, by their names from `#0` on; `#1` is the player and `#0` its place. What is told is kept, and random words are
/// those that were given.
#[derive(Drop)]
pub struct MemHost {
    names: Row<Line>,
    props: Row<MemProp>,
    told: Row<Line>,
    words: u32,
    most: u32,
}

impl MemHost {
    /// Objects with these names, where a text may have so many commands.
    pub fn new(alloc: Global, names: Row<Line>, most: u32) -> Result<MemHost, NoMemory>
        ensures { IfOk result (λ h. h ≡ record { names = names; props = []; told = []; words = 0; most = most }) }
    {
        Ok(MemHost {
            names,
            props: Row::new(alloc)?,
            told: Row::new(alloc)?,
            words: 0,
            most,
        })
    }

    /// Some texts with what they mean for such a host.
    #[tactic(auto, using(crate::proofs::Worked::worked))]
    pub fn worked()
        ensures { Worked }
    {}

    /// What was told so far.
    pub fn told(&self) -> &[Line]
        ensures { result.now ≡ self.now.told }
    {
        self.told.as_slice()
    }

    // The name of an object, if it is there.
    fn name_of(&self, d: Dbref) -> Option<&Line>
        ensures { option_copied result ≡ name_in self.now d }
    {
        if d.0 < 0 {
            return None;
        }
        self.names.get(d.0 as usize)
    }

    // The property that was stored last.
    #[tactic(auto, unfolding(crate::specs::inner::Memory::prop_in))]
    fn prop(&self, path: &Line, d: Dbref) -> Option<&Line>
        ensures { option_copied result ≡ prop_in path.now d self.now }
    {
        let mut found = None;
        for prop in self.props.as_slice() {
            if prop.object == d && prop.path == *path {
                found = Some(&prop.text);
            }
        }
        found
    }

    // Keeps a property.
    fn store(&mut self, object: Dbref, path: Line, text: Line) -> Result<(), MpiFault>
        ensures { Meant (stored_in object path text self.old) self.new result }
    {
        if path.as_slice().first() == Some(&b'~') {
            return Err(MpiFault::Denied(4));
        }
        self.props.push(MemProp { object, path, text })?;
        Ok(())
    }

    // Keeps what is told.
    fn tell(&mut self, text: Line) -> Result<(), MpiFault>
        ensures { Meant (told_in text self.old) self.new result }
    {
        self.told.push(text)?;
        Ok(())
    }
}

// The text, or the empty one.
fn text_or_empty(alloc: Global, text: Option<&Line>) -> Result<Line, MpiFault>
    ensures { Means (Ok (unwrap_or (option_copied text.entry) [])) result }
{
    match text {
        Some(text) => Ok(text.copy(alloc)?),
        None => Ok(Line::of_text(alloc, &[])?),
    }
}

impl Host for MemHost {
    ghost use Rattle.std.specs.Prelude.{◌≡◌};
    ghost use Rattle.mpi.specs.inner.Worked.{Worked};
    ghost use Rattle.mpi.specs.inner.Memory.{memory};

    type Seen = MemHost;

    ghost seen = { λ h. h };

    ghost powers = { memory };

    ghost same = { λ x y. Unit {0} };

    fn player(&self) -> Dbref {
        Dbref(1)
    }

    fn here(&self) -> Dbref {
        Dbref(0)
    }

    fn random(&mut self) -> u32 {
        self.words = self.words.wrapping_add(2);
        self.words
    }

    fn most_commands(&self) -> u32 {
        self.most
    }

    #[tactic(auto, unfolding(crate::specs::inner::Memory::named_in))]
    fn find(&self, text: &Line) -> Option<Dbref> {
        let bytes = text.as_slice();
        if bytes == b"me".as_slice() {
            return Some(Dbref(1));
        }
        if bytes == b"here".as_slice() {
            return Some(Dbref(0));
        }
        if bytes == b"home".as_slice() {
            return Some(Dbref(-3));
        }
        let d = Dbref::read(bytes)?;
        self.name_of(d)?;
        Some(d)
    }

    fn tells(&self, alloc: Global, ask: &Ask) -> Result<Line, MpiFault> {
        match ask {
            Ask::Name(d) => text_or_empty(alloc, self.name_of(*d)),
            Ask::Prop(path, d) | Ask::PropHere(path, d) => text_or_empty(
                alloc,
                self.prop(path, *d),
            ),
            _ => text_or_empty(alloc, None),
        }
    }

    fn does(&mut self, alloc: Global, deed: &Deed) -> Result<(), MpiFault> {
        match deed {
            Deed::Store { text, path, object } => {
                self.store(*object, path.copy(alloc)?, text.copy(alloc)?)
            }
            Deed::DelProp { path, object } => {
                self.store(*object, path.copy(alloc)?, Line::of_text(alloc, &[])?)
            }
            Deed::Tell { text, to: _ } => self.tell(text.copy(alloc)?),
            Deed::Otell { text, room: _ } => self.tell(text.copy(alloc)?),
        }
    }

    ghost same_self = { λ x. tt };

    ghost same_both = { λ x y z p q. tt };
}
