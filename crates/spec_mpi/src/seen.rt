// What is seen of the world.
use std::marker::Model;

/// What a formula sees of a world, and who acts in it. It is never made: contracts alone speak of it.
#[derive(Drop)]
pub struct Seen {
    never: bool,
}

impl Model for Seen {
    ghost use Rattle.spec_mpi.specs.Stages.{MpiStage, bare};

    ghost Value = { MpiStage };

    ghost use Rattle.std.specs.Coded.{codes};
    ghost use Rattle.muck_prop.specs.contracts.props.Props as props;

    ghost coded = { Prim.hlevel (codes, props.the_row.coded) };

    ghost view = { λ s. bare };
}
