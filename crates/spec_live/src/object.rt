// An object, without the lists of what it holds.
ghost use Rattle.std.specs.Prelude.{◌≡◌};

use muck_model::{Dbref, Flags, Kind, Line, LineList};
use muck_prop::Props;

/// What is kept of an object. Fields that its kind doesn't use are `#-1`, empty or 0.
#[derive(Drop)]
pub struct Object {
    /// What it is.
    pub kind: Kind,
    /// Its name, of 1 to 80 bytes.
    pub name: Line,
    /// The player that owns it; a player owns itself.
    pub owner: Dbref,
    /// What it is in; a room's is its parent, an exit's is what it is attached to.
    pub place: Dbref,
    /// Of an exit, where it leads: a room, a program or home, `#-3`; of a room, where what is dropped in it goes.
    pub link: Dbref,
    /// Where a thing or a player goes home.
    pub home: Dbref,
    /// Its flags.
    pub flags: Flags,
    /// Its level, 0 to 3.
    pub level: u8,
    /// Its properties.
    pub props: Props,
    /// The source of a program.
    pub lines: LineList,
    /// The digest of a player's password: 80 hex digits, or empty.
    pub digest: Line,
}

impl Object {
    /// What it is.
    pub fn kind(&self) -> Kind
        ensures { result ≡ self.now.kind }
    {
        self.kind
    }

    /// Its name.
    pub fn name(&self) -> &Line
        ensures { result.now ≡ self.now.name }
    {
        &self.name
    }

    /// The player that owns it.
    pub fn owner(&self) -> Dbref
        ensures { result ≡ self.now.owner }
    {
        self.owner
    }

    /// What it is in, or `#-1`.
    pub fn place(&self) -> Dbref
        ensures { result ≡ self.now.place }
    {
        self.place
    }

    /// Where it leads, or `#-1`.
    pub fn link(&self) -> Dbref
        ensures { result ≡ self.now.link }
    {
        self.link
    }

    /// Its home, or `#-1`.
    pub fn home(&self) -> Dbref
        ensures { result ≡ self.now.home }
    {
        self.home
    }

    /// Its flags.
    pub fn flags(&self) -> Flags
        ensures { result ≡ self.now.flags }
    {
        self.flags
    }

    /// Its level, 0 to 3, as it is kept: that of a wizard isn't higher.
    pub fn level(&self) -> u8
        ensures { result ≡ self.now.level }
    {
        self.level
    }

    /// Its properties.
    pub fn props(&self) -> &Props
        ensures { result.now ≡ self.now.props }
    {
        &self.props
    }

    /// The source of a program.
    pub fn lines(&self) -> &LineList
        ensures { result.now ≡ self.now.lines }
    {
        &self.lines
    }

    /// The digest of a player's password.
    pub fn digest(&self) -> &Line
        ensures { result.now ≡ self.now.digest }
    {
        &self.digest
    }
}
