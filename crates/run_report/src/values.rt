//! What cells hold, as text.

ghost use Rattle.std.specs.Prelude.{◌≡◌, ◌∷◌, ◌++◌, codes, OnOk};
ghost use Rattle.std.specs.Fmt.{decimal, signed_decimal};
ghost use Rattle.run_report.specs.Report.{name_of, value_text};

use itoa::Buffer;
use sc_base::Value;
use sc_layout::Layout;
use sc_tree::Names;
use std::alloc::AllocError;

/// The name of the object with this number.
pub fn name_of<'a>(names: &'a Names, layout: &Layout, object: u32) -> &'a [u8]
    ensures { result.now ≡ name_of names.now layout.now object }
{
    if object >= layout.count() {
        return &[];
    }
    match names.text(layout.shape(object).name) {
        Some(text) => text,
        None => &[],
    }
}

/// Adds the number with the mark before it.
pub fn add_marked(to: &mut Vec<u8>, mark: u8, number: u32) -> Result<(), AllocError>
    ensures { OnOk result (to.new.items ≡ to.old.items ++ (mark ∷ decimal number)) }
{
    to.push(mark)?;
    let mut buffer = Buffer::new();
    to.extend_from_slice(buffer.format(number).as_bytes())
}

fn add_int(to: &mut Vec<u8>, value: i64) -> Result<(), AllocError>
    ensures { OnOk result (to.new.items ≡ to.old.items ++ signed_decimal value) }
{
    let mut buffer = Buffer::new();
    to.extend_from_slice(buffer.format(value).as_bytes())
}

/// Adds the value.
pub fn add_value(
    to: &mut Vec<u8>,
    names: &Names,
    layout: &Layout,
    value: Value,
) -> Result<(), AllocError>
    ensures { OnOk result (to.new.items ≡ to.old.items ++ value_text names.now layout.now value) }
{
    match value {
        Value::Int(number) => add_int(to, number),
        Value::Null => to.extend_from_slice(b"null"),
        Value::Ptr {
            object,
            node,
            offset,
        } => {
            to.extend_from_slice(name_of(names, layout, object))?;
            add_marked(to, b'@', node)?;
            add_marked(to, b'+', offset)
        }
    }
}

/// Adds the value with a blank before it.
pub fn add_cell(
    to: &mut Vec<u8>,
    names: &Names,
    layout: &Layout,
    value: Value,
) -> Result<(), AllocError>
    ensures { OnOk result (to.new.items ≡ to.old.items ++ (codes " " ++ value_text names.now layout.now value)) }
{
    to.push(b' ')?;
    add_value(to, names, layout, value)
}
