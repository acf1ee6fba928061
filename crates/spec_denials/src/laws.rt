// The laws of denials.
ghost use Rattle.std.specs.Prelude.{List, Option, ℕ};
ghost use Rattle.muck_model.specs.declared.event.Entry.{Entry};
ghost use Rattle.muck_model.specs.declared.dbref.Dbref.{Dbref};
ghost use Rattle.mpi.specs.Variables.{Variables};
ghost use Rattle.spec_live.specs.Connections.{Connection};
ghost use Rattle.spec_live.specs.Lives.{Live};
ghost use Rattle.spec_rights.specs.declared.act.Actor.{Actor};
ghost use Rattle.muf_model.specs.declared.prims.Primitive.{Primitive};
ghost use Rattle.muf_model.specs.declared.prims.Primitive.TheVariants.{NextProp};
ghost use Rattle.muf_model.specs.Answer.{Scope};
ghost use Rattle.muf_model.specs.Datum.{Datum};
ghost use Rattle.muf_model.specs.Rows.{primitive};
ghost use Rattle.muf_model.specs.Source.{Source};
ghost use Rattle.muf_model.specs.Unit.{unit};
ghost use Rattle.muck_queue.specs.Queues.{Queue};
ghost use Rattle.spec_mpi.specs.Stages.{MpiStage};
ghost use Rattle.spec_mpi.specs.Messages.{formula_heard};
ghost use Rattle.spec_prims.specs.Formulas.{answers_for, is_formula};
ghost use Rattle.spec_prims.specs.Shared.{shared};
ghost use Rattle.spec_processes.specs.declared.place.Place.{Place};
ghost use Rattle.spec_processes.specs.ProcessRows.{processed};
ghost use Rattle.spec_events.specs.World.{World, connection};
ghost use Rattle.spec_events.specs.Lines.{first_line_done};
ghost use Rattle.spec_denials.specs.Plain.{NotDenied, EndsPlain};
ghost use Rattle.spec_denials.specs.Acts.{primitive_acts};
ghost use Rattle.spec_denials.specs.Asked.{first_denied, RowNames, RowLists};
ghost use Rattle.spec_denials.specs.Notes.{Request, answer_of, denies, AnswerNames, formula, FormulaNames, Breaks};
ghost use Rattle.spec_denials.specs.Processes.{process_acts, EffectNames};
ghost use Rattle.spec_denials.specs.Starts.{LineStarts};
ghost use Rattle.spec_denials.specs.Walks.{LineLocked};
ghost use Rattle.spec_denials.specs.Refusals.{LineRefused};
ghost use Rattle.spec_denials.specs.inner.RightRows.{RightRows};
ghost use Rattle.spec_denials.specs.inner.CommandRows.{CommandRows};
ghost use Rattle.spec_denials.specs.inner.PrimRows.{PrimRows};
ghost use Rattle.spec_denials.specs.inner.SendRows.{SendRows};
ghost use Rattle.spec_denials.specs.inner.EventRows.{EventRows};
ghost use Rattle.spec_denials.specs.inner.EditorRows.{EditorRows};
ghost use Rattle.spec_denials.specs.inner.QueueRows.{QueueRows};
ghost use Rattle.spec_denials.specs.Denials.{AllDenialsNamed};

/// Says what each primitive of objects, of properties and of talk asks leave for. Where it is denied, the first of these acts that is
/// denied is so by that rule; where it gives something, each of them is allowed. What NEXTPROP lists may be read. It does nothing.
#[tactic(auto, using(crate::proofs::Shared::shared_names, crate::proofs::Shared::next_lists))]
pub fn primitives_ask()
    ensures asked { (p : Primitive) (a : Actor) (descr : Option ℕ) (locked : ℕ) (stack : List Datum) (w : Live) →
        RowNames (Breaks (is_formula p) (answers_for p a w.objects) stack w) (first_denied w.objects a (primitive_acts p stack w.objects)) (shared p a descr locked stack w) }
    ensures listed { (a : Actor) (descr : Option ℕ) (locked : ℕ) (stack : List Datum) (w : Live) → RowLists a w.objects stack (shared NextProp a descr locked stack w) }
{}

/// Says the same of each primitive of processes. It does nothing.
#[tactic(auto, using(crate::proofs::Processes::processed_names))]
pub fn processes_ask()
    ensures asked { (p : Primitive) (x : Place) (a : Actor) (locked : ℕ) (stack : List Datum) (w : Live) (q : Queue) →
        EffectNames (first_denied w.objects a (process_acts p stack q)) (processed p x a locked stack w q) }
{}

/// Says what formulas ask leave for: where a question or a deed is denied, the first of its acts that is denied is so by that rule, and
/// where it is answered, each of them is allowed. A message that is denied something is denied one of these, in the world that it
/// leaves. It does nothing.
#[tactic(auto, using(crate::proofs::Requests::request_names, crate::proofs::Formulas::heard_names))]
pub fn messages_name()
    ensures asked { (request : Request) (s : MpiStage) → AnswerNames (denies s.actor s.live.objects request) (answer_of request s) }
    ensures named { (a : Actor) (this : Dbref) (text : List ℕ) (vars : Variables) (w : Live) → FormulaNames a (formula a this text vars w) (formula_heard a this text vars w).0 }
{}

/// Says that no word which needs no world is denied, and that no unit without a shared primitive ends by a denial. It does nothing.
#[tactic(auto, using(crate::proofs::Words::words_plain, crate::proofs::Local::unit_plain))]
pub fn words_deny_nothing()
    ensures words { (p : Primitive) (s : Scope) (stack : List Datum) → NotDenied (primitive p s stack) }
    ensures units { (s : Source) → EndsPlain (unit s) }
{}

/// Says of a program that a line starts that its player may start it; and of a line that walks through an exit, or takes something, that
/// nothing goes anywhere and nothing is started where its lock denies that. And of a command of builders or keepers, that its player is
/// only told so where what it asks for is denied. It does nothing.
#[tactic(auto, using(crate::proofs::Starts::line_starts, crate::proofs::Walks::line_locks, crate::proofs::Refusals::line_refused))]
pub fn lines_ask()
    ensures starts { (d : ℕ) (o : Option Connection) (w : World) → LineStarts w (first_line_done d o w) }
    ensures locks { (d : ℕ) (w : World) → LineLocked d w (first_line_done d (connection d w) w) }
    ensures refuses { (d : ℕ) (w : World) → LineRefused d w (first_line_done d (connection d w) w) }
{}

/// The worked rows of what other crates define hold. It does nothing: its clauses are the rows.
#[tactic(auto, using(crate::specs::inner::RightRows::right_rows, crate::specs::inner::CommandRows::command_rows, crate::specs::inner::PrimRows::prim_rows, crate::specs::inner::SendRows::send_rows, crate::specs::inner::EventRows::event_rows, crate::specs::inner::EditorRows::editor_rows, crate::specs::inner::QueueRows::queue_rows))]
pub fn rows_hold()
    ensures rights { RightRows }
    ensures commands { CommandRows }
    ensures prims { PrimRows }
    ensures sending { SendRows }
    ensures events { EventRows }
    ensures editors { EditorRows }
    ensures queues { QueueRows }
{}

/// Says it of each unit that slices take in a history, and of what its lines start. It does nothing.
#[tactic(auto, using(crate::proofs::Histories::all_denials_named))]
pub fn denials_named()
    ensures named { (w : World) (entries : List Entry) → AllDenialsNamed w entries }
{}
