// The kinds of values.
ghost use Rattle.std.specs.Prelude.{◌≡◌};
ghost use Rattle.muf_model.specs.inner.View.{view};
ghost use Rattle.muf_model.specs.Kinds.{kind_of_item};

use crate::Value;

/// What kind of value an item is.
#[derive(Clone, Copy, PartialEq, Eq)]
pub enum ItemKind {
    Int,
    Text,
    Object,
    Variable,
    Address,
    Lock,
    List,
    Dictionary,
    Mark,
}

impl Value {
    /// Its kind.
    pub fn kind(&self) -> ItemKind
        ensures { result ≡ kind_of_item (view self.now) }
    {
        match self {
            Value::Int(_) => ItemKind::Int,
            Value::Str(_) => ItemKind::Text,
            Value::Ref(_) => ItemKind::Object,
            Value::Var(_) => ItemKind::Variable,
            Value::Addr { .. } => ItemKind::Address,
            Value::Key(_) => ItemKind::Lock,
            Value::Items(_) => ItemKind::List,
            Value::Dict(_) => ItemKind::Dictionary,
            Value::Mark => ItemKind::Mark,
        }
    }
}
