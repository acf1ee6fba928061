// The flags by name.
ghost use Rattle.std.specs.Prelude.{◌≡◌, ◌<◌};
ghost use Rattle.spec_live.specs.Flags.{has_flag, flag_of};

use muck_model::Flags;

/// B: a player may build; a program starts in preempt where a command starts it.
pub const BUILDER: u16 = 2;

/// C: anyone may take ownership.
pub const CHOWN: u16 = 4;

/// D: not shown in contents to those who don't control it.
pub const DARK: u16 = 8;

/// H: a program that runs for the owner of what started it; with S, one that another program called runs for its caller.
pub const HAVEN: u16 = 16;

/// J: a room that is open as a place to move to.
pub const JUMP: u16 = 32;

/// L: open as a target of links; a program that anyone may call.
pub const LINK: u16 = 128;

/// Q: a player on whom W has no effect.
pub const QUELL: u16 = 256;

/// S: a program that runs as its owner.
pub const SETUID: u16 = 512;

/// V: a thing that players may be inside.
pub const VEHICLE: u16 = 1024;

/// W: a wizard.
pub const WIZARD: u16 = 2048;

/// Whether a flag, given by the value of its bit, is set.
pub fn has_flag(flag: u16, flags: Flags) -> bool
    requires { 0 < flag }
    ensures { result ≡ has_flag flag flags }
{
    flags.0 / flag % 2 == 1
}

/// The flag of one of the letters ABCDHJKLQSVWXZ, by the value of its bit.
pub fn flag_of(letter: u8) -> u16
    ensures value { result ≡ flag_of letter }
    ensures some { 0 < result }
{
    match letter {
        b'A' => 1,
        b'B' => BUILDER,
        b'C' => CHOWN,
        b'D' => DARK,
        b'H' => HAVEN,
        b'J' => JUMP,
        b'K' => 64,
        b'L' => LINK,
        b'Q' => QUELL,
        b'S' => SETUID,
        b'V' => VEHICLE,
        b'W' => WIZARD,
        b'X' => 4096,
        _ => 8192,
    }
}
