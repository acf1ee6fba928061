// The words of commands.
use spec_live::Message;

/// What players do.
#[derive(Clone, Copy, Debug, PartialEq, Eq)]
pub enum PlayWord {
    Look,
    Say,
    Pose,
    Page,
    Whisper,
    Go,
    Get,
    Drop,
    Inventory,
    Home,
    Examine,
    Who,
    Quit,
}

/// What builders do.
#[derive(Clone, Copy, Debug, PartialEq, Eq)]
pub enum BuildWord {
    Dig,
    Create,
    Open,
    Action,
    Link,
    Unlink,
    Name,
    Set(Message),
    Lock,
    Unlock,
    Teleport,
    Recycle,
    Chown,
    Assign,
    Find,
    Program,
    Edit,
    List,
    Run,
}
