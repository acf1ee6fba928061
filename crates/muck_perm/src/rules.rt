// The first rule of permission that denies an act.
ghost use Rattle.std.specs.Prelude.{◌≡◌, ◌<◌, Some, None};
ghost use Rattle.std.specs.Option.{option_map};
ghost use Rattle.muck_prop.specs.Paths.{class_of};
ghost use Rattle.spec_rights.specs.declared.act.Act.{Act};
ghost use Rattle.spec_rights.specs.Verdict.{verdict, when, controls, controls_or, is_near, open_place, open_target, may_build, may_take_over, is_program_at, place_or_nothing, is_below_level, is_hidden, is_kept_class, is_private, is_guarded, is_plain};
ghost use Rattle.spec_rights.specs.inner.Numbers.{denial};
ghost use Rattle.muck_perm.specs.inner.Verdicts.{IsVerdict};

use crate::levels::{controls_as, effective, flag_at, is_player_at, level_at, owner_at};
use crate::locks::opens_at;
use muck_db::Db;
use muck_model::{Dbref, Denial, Flags, Kind};
use muck_prop::{Class, Path};
use spec_live::{BUILDER, CHOWN, JUMP, LINK, WIZARD, has_flag};
use spec_rights::{Act, Actor, Rule};

const NOTHING: Dbref = Dbref(-1);

const HOME: Dbref = Dbref(-3);

/// Leave for one act of one actor, which `verdict` alone gives. Who writes by it checks that it is for that actor and
/// that act.
#[derive(Drop)]
pub struct Pass<'a> {
    actor: Actor,
    act: &'a Act,
}

/// Leave for an act, or the denial by the first rule, from `P1` to `P24`, that denies it, with the object that the rule
/// speaks of. It takes no memory.
pub fn verdict<'a>(db: &Db, actor: &Actor, act: &'a Act) -> Result<Pass<'a>, Denial>
    ensures { IsVerdict (verdict db.now actor.now act.now) actor.now act.now result }
{
    match denial_of(db, actor, act) {
        Some(denial) => Err(denial),
        None => Ok(Pass { actor: *actor, act }),
    }
}

fn denial_of(db: &Db, actor: &Actor, act: &Act) -> Option<Denial>
    ensures { result ≡ verdict db.now actor.now act.now }
{
    match act {
        Act::Shared { level } => when(actor.level < *level, Rule::P1, actor.player),
        Act::Start { program } => when(effective(db, *program) == 0, Rule::P1, *program),
        Act::Near { object } => near_denial(db, actor, *object),
        Act::Read { object, path } => read_denial(db, actor, *object, path),
        Act::Write { object, path } => write_denial(db, actor, *object, path),
        Act::Move { object, to } => move_denial(db, actor, *object, *to),
        Act::Walk { exit } => when(!opens_at(db, actor.player, *exit), Rule::P10, *exit),
        Act::Take { object } => take_denial(db, actor, *object),
        Act::Link { object, to } => link_denial(db, actor, *object, *to),
        Act::NewRoom { place } => room_denial(db, actor, *place),
        Act::NewThing { place } => thing_denial(db, actor, *place),
        Act::NewExit { place, link } => exit_denial(db, actor, *place, *link),
        Act::NewProgram => when(level_at(db, actor.user) == 0, Rule::P22, actor.player),
        Act::Edit { program } => edit_denial(db, actor, *program),
        Act::Change { object } => when(!controls(db, actor, *object), Rule::P16, *object),
        Act::Rename { object } => rename_denial(db, actor, *object),
        Act::Password { player } => when(actor.level < 4, Rule::P17, *player),
        Act::Wizard => when(actor.level < 4, Rule::P17, actor.player),
        Act::SetFlag { object, flag } => flag_denial(db, actor, *object, *flag),
        Act::SetLevel { object, level } => level_denial(db, actor, *object, *level),
        Act::Recycle { object } => when(!controls(db, actor, *object), Rule::P20, *object),
        Act::SetOwner { object, owner } => owner_denial(db, actor, *object, *owner),
        Act::EndProcess { player, program } => end_denial(db, actor, *player, *program),
        Act::Call { program } => when(!controls_or(LINK, db, actor, *program), Rule::P24, *program),
    }
}

fn when(denies: bool, rule: Rule, object: Dbref) -> Option<Denial>
    ensures { result ≡ option_map (denial rule) (when denies object) }
{
    if denies {
        Some(rule.denies(object))
    } else {
        None
    }
}

fn near_denial(db: &Db, actor: &Actor, object: Dbref) -> Option<Denial>
    ensures { result ≡ verdict db.now actor.now (Act.Near object) }
{
    when(
        actor.level == 1 && !is_near(db, actor.player, object),
        Rule::P2,
        object,
    )
}

fn read_denial(db: &Db, actor: &Actor, object: Dbref, path: &Path) -> Option<Denial>
    ensures { result ≡ verdict db.now actor.now (Act.Read object path.now) }
{
    let class = path.class();
    if matches!(class, Class::At) && actor.level < 4 {
        return Some(Rule::P3.denies(object));
    }
    when(
        matches!(class, Class::Dot) && below(3, db, actor, object),
        Rule::P5,
        object,
    )
}

fn write_denial(db: &Db, actor: &Actor, object: Dbref, path: &Path) -> Option<Denial>
    ensures { result ≡ verdict db.now actor.now (Act.Write object path.now) }
{
    match path.class() {
        Class::At => when(actor.level < 4, Rule::P3, object),
        Class::Tilde => when(actor.level < 4, Rule::P4, object),
        Class::Dot | Class::Underscore => when(below(3, db, actor, object), Rule::P6, object),
        Class::Plain => when(below(2, db, actor, object), Rule::P7, object),
    }
}

fn move_denial(db: &Db, actor: &Actor, object: Dbref, to: Dbref) -> Option<Denial>
    ensures { result ≡ verdict db.now actor.now (Act.Move object to) }
{
    if below(3, db, actor, object) {
        return Some(Rule::P8.denies(object));
    }
    when(!(to == HOME || is_open_place(db, actor, to)), Rule::P9, to)
}

fn take_denial(db: &Db, actor: &Actor, object: Dbref) -> Option<Denial>
    ensures { result ≡ verdict db.now actor.now (Act.Take object) }
{
    if !opens_at(db, actor.player, object) {
        return Some(Rule::P10.denies(object));
    }
    when(
        place_of(db, object) != place_of(db, actor.player),
        Rule::P11,
        object,
    )
}

fn link_denial(db: &Db, actor: &Actor, object: Dbref, to: Dbref) -> Option<Denial>
    ensures { result ≡ verdict db.now actor.now (Act.Link object to) }
{
    if !controls(db, actor, object) {
        return Some(Rule::P12.denies(object));
    }
    when(!is_open_target(db, actor, to), Rule::P13, to)
}

fn room_denial(db: &Db, actor: &Actor, place: Dbref) -> Option<Denial>
    ensures { result ≡ verdict db.now actor.now (Act.NewRoom place) }
{
    if !may_build(db, actor) {
        return Some(Rule::P14.denies(actor.player));
    }
    when(!controls_or(LINK, db, actor, place), Rule::P15, place)
}

fn thing_denial(db: &Db, actor: &Actor, place: Dbref) -> Option<Denial>
    ensures { result ≡ verdict db.now actor.now (Act.NewThing place) }
{
    if !is_open_place(db, actor, place) {
        return Some(Rule::P9.denies(place));
    }
    when(!may_build(db, actor), Rule::P14, actor.player)
}

fn exit_denial(db: &Db, actor: &Actor, place: Dbref, link: Dbref) -> Option<Denial>
    ensures { result ≡ verdict db.now actor.now (Act.NewExit place link) }
{
    if !is_open_target(db, actor, link) {
        return Some(Rule::P13.denies(link));
    }
    if !may_build(db, actor) {
        return Some(Rule::P14.denies(actor.player));
    }
    when(!controls(db, actor, place), Rule::P15, place)
}

fn edit_denial(db: &Db, actor: &Actor, program: Dbref) -> Option<Denial>
    ensures { result ≡ verdict db.now actor.now (Act.Edit program) }
{
    if !controls(db, actor, program) {
        return Some(Rule::P16.denies(program));
    }
    when(level_at(db, actor.user) == 0, Rule::P22, program)
}

fn rename_denial(db: &Db, actor: &Actor, object: Dbref) -> Option<Denial>
    ensures { result ≡ verdict db.now actor.now (Act.Rename object) }
{
    if !controls(db, actor, object) {
        return Some(Rule::P16.denies(object));
    }
    when(
        is_player_at(db, object) && actor.level < 4,
        Rule::P17,
        object,
    )
}

fn flag_denial(db: &Db, actor: &Actor, object: Dbref, flag: Flags) -> Option<Denial>
    ensures { result ≡ verdict db.now actor.now (Act.SetFlag object flag) }
{
    if !controls(db, actor, object) {
        return Some(Rule::P16.denies(object));
    }
    when(has_flag(WIZARD, flag) && actor.level < 4, Rule::P18, object)
}

fn level_denial(db: &Db, actor: &Actor, object: Dbref, level: u8) -> Option<Denial>
    ensures { result ≡ verdict db.now actor.now (Act.SetLevel object level) }
{
    if !controls(db, actor, object) {
        return Some(Rule::P16.denies(object));
    }
    if is_player_at(db, object) && actor.level < 4 {
        return Some(Rule::P18.denies(object));
    }
    when(
        !(is_player_at(db, object)
            || (is_program_at(db, object) && level <= level_at(db, actor.user))),
        Rule::P19,
        object,
    )
}

fn owner_denial(db: &Db, actor: &Actor, object: Dbref, owner: Dbref) -> Option<Denial>
    ensures { result ≡ verdict db.now actor.now (Act.SetOwner object owner) }
{
    when(
        actor.level < 4 && !(may_take_over(db, actor, object) && owner == actor.user),
        Rule::P21,
        object,
    )
}

fn end_denial(db: &Db, actor: &Actor, player: Dbref, program: Dbref) -> Option<Denial>
    ensures { result ≡ verdict db.now actor.now (Act.EndProcess player program) }
{
    when(
        actor.level < 4 && !(player == actor.user || owner_at(db, program) == actor.user),
        Rule::P23,
        player,
    )
}

#[tactic(auto, unfolding(spec_rights::specs::Verdict::controls))]
fn controls(db: &Db, actor: &Actor, d: Dbref) -> bool
    ensures { result ≡ controls db.now actor.now d }
{
    controls_as(db, actor.level, actor.user, d)
}

// Whether the actor controls the object, or it has the flag.
#[tactic(auto, unfolding(spec_rights::specs::Verdict::controls_or))]
fn controls_or(flag: u16, db: &Db, actor: &Actor, d: Dbref) -> bool
    requires { 0 < flag }
    ensures { result ≡ controls_or flag db.now actor.now d }
{
    controls(db, actor, d) || flag_at(flag, db, d)
}

// Whether the actor is below the level and doesn't control the object.
fn below(level: u8, db: &Db, actor: &Actor, d: Dbref) -> bool
    ensures { result ≡ is_below_level level db.now actor.now d }
{
    actor.level < level && !controls(db, actor, d)
}

fn may_build(db: &Db, actor: &Actor) -> bool
    ensures { result ≡ may_build db.now actor.now }
{
    actor.level >= 3 || flag_at(BUILDER, db, actor.user)
}

fn is_open_place(db: &Db, actor: &Actor, to: Dbref) -> bool
    ensures { result ≡ open_place db.now actor.now to }
{
    actor.level >= 3 || controls_or(JUMP, db, actor, to)
}

fn is_open_target(db: &Db, actor: &Actor, to: Dbref) -> bool
    ensures { result ≡ open_target db.now actor.now to }
{
    to == NOTHING || to == HOME || controls_or(LINK, db, actor, to)
}

fn may_take_over(db: &Db, actor: &Actor, d: Dbref) -> bool
    ensures { result ≡ may_take_over db.now actor.now d }
{
    owner_at(db, d) == actor.user || flag_at(CHOWN, db, d)
}

fn is_program_at(db: &Db, d: Dbref) -> bool
    ensures { result ≡ is_program_at db.now d }
{
    match db.get(d) {
        Some(object) => matches!(object.kind(), Kind::Program),
        None => false,
    }
}

fn place_of(db: &Db, d: Dbref) -> Dbref
    ensures { result ≡ place_or_nothing db.now d }
{
    match db.get(d) {
        Some(object) => object.place(),
        None => NOTHING,
    }
}

#[tactic(auto, unfolding(spec_rights::specs::Verdict::is_near))]
fn is_near(db: &Db, player: Dbref, d: Dbref) -> bool
    ensures { result ≡ is_near db.now player d }
{
    let here = place_of(db, player);
    player == d || here == d || here == place_of(db, d) || player == place_of(db, d)
}
