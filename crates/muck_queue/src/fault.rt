// Why a process can't be added, or sent an event.
use muck_model::NoMemory;

/// Why a process can't be added, or sent an event.
#[derive(Clone, Copy, Debug, PartialEq, Eq)]
pub enum QueueFault {
    /// There are as many processes as may be, in all or of this player, or no number is left.
    ProcessLimit,
    /// The process has as many events as may wait.
    TooManyEvents,
    /// Memory was wanted.
    NoMemory,
}

impl From<NoMemory> for QueueFault {
    ghost use Rattle.std.specs.Prelude.{◌≡◌};
    ghost use Rattle.muck_queue.specs.declared.fault.QueueFault.TheVariants as refused;

    ghost from_gives = { λ _ e. e ≡ refused.NoMemory };

    fn from(_: NoMemory) -> Self {
        QueueFault::NoMemory
    }
}
