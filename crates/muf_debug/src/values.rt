// Values in order.
ghost use Rattle.std.specs.Prelude.{◌≡◌, length, map};
ghost use Rattle.muf_model.specs.inner.View.{view};

use muf_model::Value;
use std::marker::Model;

/// Values in order, however heavy they are together. Contracts see it as their data.
#[derive(Drop)]
pub struct ValueRow {
    items: Vec<Value>,
}

impl Model for ValueRow {
    ghost use Rattle.std.specs.Prelude.{List, map};
    ghost use Rattle.muf_model.specs.Datum.{Datum};
    ghost use Rattle.muf_model.specs.inner.Codes.{values_code};
    ghost use Rattle.muf_model.specs.inner.View.{view as seen};

    ghost Value = { List Datum };

    ghost coded = { values_code };

    ghost view = { λ r. map seen r.items.items };
}

impl ValueRow {
    /// These values, without memory.
    pub fn of(items: Vec<Value>) -> ValueRow
        ensures { result ≡ map view items.items }
    {
        ValueRow { items }
    }

    /// The values.
    pub fn as_slice(&self) -> &[Value]
        ensures { map view result.now ≡ self.now }
    {
        &self.items
    }
}
