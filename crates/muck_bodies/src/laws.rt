// The bodies of a store and what it holds.
ghost use Rattle.muck_bodies.specs.Bodies.{LeadThere};

/// Of a store that loads, the bodies of the file that counts lead to what the store holds: each is a batch that joins those before it.
pub fn leads()
    ensures { LeadThere }
{}
