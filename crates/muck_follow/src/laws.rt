// What the mirror of a store holds.
ghost use Rattle.muck_follow.specs.Fronts.{FollowsThere};

/// Of each store that loads, over every script: its batches are batches of one generation, by rising numbers, each laid over the world of those before it, and all of
/// them make the world that the store holds; and the mirror holds the stored world of the first m of them, where m is the greatest number such that each of these
/// was fed.
pub fn follows_front()
    ensures { FollowsThere }
{}
