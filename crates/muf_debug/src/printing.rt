// A view as a line.
ghost use Rattle.std.specs.Prelude.{◌≡◌, ◌++◌, map, codes, IfOk, OnOk};
ghost use Rattle.std.specs.Fmt.{signed_decimal};
ghost use Rattle.muf_model.specs.inner.View.{view};
ghost use Rattle.muf_debug.specs.Printed.{numbers_text, head_text, item_text, values_text, top_of, scope_text, view_printed};
ghost use Rattle.muf_debug.specs.inner.Printing.{AreInside};

use crate::view::View;
use muck_model::{Line, NoMemory, TEXT_MOST};
use muf_model::{Text, Value};
use std::alloc::Global;

// The most items of a stack that are shown.
const ITEMS_MOST: usize = 8;

fn print_int(alloc: Global, n: i32) -> Result<Vec<u8>, NoMemory>
    ensures text { IfOk result (λ bytes. bytes.items ≡ signed_decimal n) }
    ensures inside { IfOk result (λ bytes. AreInside bytes.items) }
{
    let text = format!(in alloc; "{n}")?;
    Ok(text.into_bytes())
}

fn print_object(alloc: Global, n: i32) -> Result<Vec<u8>, NoMemory>
    ensures text { IfOk result (λ bytes. bytes.items ≡ codes "#" ++ signed_decimal n) }
    ensures inside { IfOk result (λ bytes. AreInside bytes.items) }
{
    let text = format!(in alloc; "#{n}")?;
    Ok(text.into_bytes())
}

// A text in quotes.
fn print_text(alloc: Global, text: &Text) -> Result<Vec<u8>, NoMemory>
    ensures text { IfOk result (λ bytes. bytes.items ≡ codes "\"" ++ (text.now ++ codes "\"")) }
    ensures inside { IfOk result (λ bytes. AreInside bytes.items) }
{
    let mut bytes = b"\"".to_vec(alloc)?;
    bytes.extend_from_slice(text.as_slice())?;
    bytes.extend_from_slice(b"\"")?;
    Ok(bytes)
}

// A value.
fn print_value(alloc: Global, value: &Value) -> Result<Vec<u8>, NoMemory>
    ensures text { IfOk result (λ bytes. bytes.items ≡ item_text (view value.now)) }
    ensures inside { IfOk result (λ bytes. AreInside bytes.items) }
{
    match value {
        Value::Int(n) => print_int(alloc, *n),
        Value::Str(text) => print_text(alloc, text),
        Value::Ref(d) => print_object(alloc, d.0),
        Value::Var(_) => Ok(b"var".to_vec(alloc)?),
        Value::Addr { .. } => Ok(b"addr".to_vec(alloc)?),
        Value::Key(_) => Ok(b"lock".to_vec(alloc)?),
        Value::Items(_) => Ok(b"list".to_vec(alloc)?),
        Value::Dict(_) => Ok(b"dict".to_vec(alloc)?),
        Value::Mark => Ok(b"mark".to_vec(alloc)?),
    }
}

// Values, each behind a space.
fn push_values(alloc: Global, bytes: &mut Vec<u8>, values: &[Value]) -> Result<(), NoMemory>
    ensures ok { OnOk result (bytes.new.items ≡ bytes.old.items ++ values_text (map view values.now)) }
    ensures inside { OnOk result (AreInside (values_text (map view values.now))) }
{
    let mut at = 0;
    while at < values.len() {
        let text = print_value(alloc, &values[at])?;
        bytes.extend_from_slice(b" ")?;
        bytes.extend_from_slice(&text)?;
        at += 1;
    }
    Ok(())
}

// The variables of a call, where it has any.
fn push_scope(alloc: Global, bytes: &mut Vec<u8>, values: &[Value]) -> Result<(), NoMemory>
    ensures ok { OnOk result (bytes.new.items ≡ bytes.old.items ++ scope_text (map view values.now)) }
    ensures inside { OnOk result (AreInside (scope_text (map view values.now))) }
{
    if values.is_empty() {
        return Ok(());
    }
    bytes.extend_from_slice(b" |")?;
    push_values(alloc, bytes, values)
}

// A process, its program and line, and how many items are on its stack.
fn print_numbers(
    alloc: Global,
    pid: i32,
    program: i32,
    line: u32,
    depth: usize,
) -> Result<Vec<u8>, NoMemory>
    ensures text { IfOk result (λ bytes. bytes.items ≡ numbers_text pid program line depth) }
    ensures inside { IfOk result (λ bytes. AreInside bytes.items) }
{
    let text = format!(in alloc; "! {pid} #{program} {line} {depth}")?;
    Ok(text.into_bytes())
}

fn print_head(alloc: Global, view: &View) -> Result<Vec<u8>, NoMemory>
    ensures text { IfOk result (λ bytes. bytes.items ≡ head_text view.now) }
    ensures inside { IfOk result (λ bytes. AreInside bytes.items) }
{
    let pid = view.pid;
    let program = view.program.0;
    let line = view.line;
    let depth = view.stack.as_slice().len();
    print_numbers(alloc, pid, program, line, depth)
}

// The items at the top.
fn top_of(values: &[Value]) -> &[Value]
    ensures { map view result.now ≡ top_of (map view values.now) }
{
    values.split_at(values.len().saturating_sub(ITEMS_MOST)).1
}

/// A view as it is shown.
pub fn print_view(alloc: Global, view: &View) -> Result<Line, NoMemory>
    ensures { IfOk result (λ line. line ≡ view_printed view.now) }
{
    let mut bytes = print_head(alloc, view)?;
    push_values(alloc, &mut bytes, top_of(view.stack.as_slice()))?;
    push_scope(alloc, &mut bytes, view.scope.as_slice())?;
    bytes.truncate(TEXT_MOST);
    Ok(Line::of_text_vec(bytes))
}
