// The laws of messages.
ghost use Rattle.std.specs.Prelude.{List, ℕ};
ghost use Rattle.muck_model.specs.declared.dbref.Dbref.{Dbref};
ghost use Rattle.mpi.specs.Variables.{Variables};
ghost use Rattle.spec_live.specs.Lives.{Live};
ghost use Rattle.spec_rights.specs.declared.act.Actor.{Actor};
ghost use Rattle.spec_rights.specs.Licence.{Licensed, nobody};
ghost use Rattle.spec_mpi.specs.Messages.{formula_heard};
ghost use Rattle.spec_mpi.specs.Touching.{TouchesNotes};

/// What evaluating a message changes is open to who acts, also where the message has a fault. It does nothing: its clause is the law.
pub fn messages_open()
    ensures law { (a : Actor) (this : Dbref) (text : List ℕ) (vars : Variables) (w : Live) → Licensed a nobody w (formula_heard a this text vars w).1 }
{}

/// It changes properties, what waits to be sent to connections and the state of the random numbers, and nothing else. It does nothing:
/// its clause is the law.
pub fn messages_touch()
    ensures law { (a : Actor) (this : Dbref) (text : List ℕ) (vars : Variables) (w : Live) → TouchesNotes w (formula_heard a this text vars w).1 }
{}
