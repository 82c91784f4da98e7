//! The text of a value.
ghost use Rattle.std.specs.Prelude.{◌≡◌, [], OnOk, IfOk};
ghost use Rattle.std.specs.Fmt.{signed_decimal};
ghost use Rattle.ob_items.specs.Properties.{entries_of};
ghost use Rattle.ob_values.specs.Inspect as spec;
ghost use Rattle.ob_values.specs.Inspect.{write, print_parts};

use crate::page::Page;
use itoa::Buffer;
use ob_base::{NoMemory, Text};
use ob_items::{Properties, Property};
use ob_values::{Body, Regions, Value};
use std::alloc::Global;

/// The most values that are printed.
const MAX_VALUES: u32 = 200;

/// The depth from which arrays and objects are not opened.
const MAX_DEPTH: u32 = 6;

/// The text of a value, in UTF-8: at most 200 values, opened to depth 6, with texts and keys to 100
/// units each. The form is this project's own. It reads what it prints and no more.
///
/// # Errors
/// `NoMemory` where an allocation is refused.
pub fn inspect(alloc: Global, regions: &Regions, value: Value) -> Result<Text, NoMemory>
    ensures { IfOk result (λ text. text ≡ spec.inspect_text regions.now value) }
{
    let mut page = Page::new(alloc, MAX_VALUES);
    print_value(alloc, &mut page, regions, value, MAX_DEPTH)?;
    Ok(Text::from_string(page.into_text()))
}

// Prints a value, where `depth` more levels of arrays and objects are opened.
#[cycle(print)]
fn print_value(
    alloc: Global,
    page: &mut Page,
    regions: &Regions,
    value: Value,
    depth: u32,
) -> Result<(), NoMemory>
    ensures { OnOk result (page.new ≡ spec.print_value (spec.print_at depth regions.now) value page.old) }
{
    page.take_one();
    match value {
        Value::Undefined => page.write("undefined"),
        Value::Null => page.write("null"),
        Value::Bool(true) => page.write("true"),
        Value::Bool(false) => page.write("false"),
        Value::Int(number) => put_number(page, number),
        Value::Builtin(number) => put_builtin(page, number),
        Value::Holder(_) => page.write("undefined"),
        Value::Ref(r) => match regions.find(r) {
            Some(body) => print_body(alloc, page, regions, body, depth),
            None => page.write("undefined"),
        },
    }
}

fn put_number(page: &mut Page, number: i64) -> Result<(), NoMemory>
    ensures { OnOk result (page.new ≡ write (signed_decimal number) page.old) }
{
    let mut buffer = Buffer::new();
    page.write(buffer.format(number))
}

fn put_builtin(page: &mut Page, number: u16) -> Result<(), NoMemory>
    ensures { OnOk result (page.new ≡ write (spec.builtin_text number) page.old) }
{
    if number < 3 {
        page.write("builtin")
    } else if number == 8 {
        page.write("invalidation")
    } else {
        page.write("function")
    }
}

#[cycle(print)]
fn print_body(
    alloc: Global,
    page: &mut Page,
    regions: &Regions,
    body: &Body,
    depth: u32,
) -> Result<(), NoMemory>
    ensures { OnOk result (page.new ≡ spec.print_body depth regions.now body.now page.old) }
{
    if depth == 0 {
        page.write_item(regions, body)
    } else {
        print_opened(alloc, page, regions, body, depth - 1)
    }
}

#[cycle(print)]
fn print_opened(
    alloc: Global,
    page: &mut Page,
    regions: &Regions,
    body: &Body,
    depth: u32,
) -> Result<(), NoMemory>
    ensures { OnOk result (page.new ≡ spec.print_opened (spec.print_value (spec.print_at depth regions.now)) regions.now body.now page.old) }
{
    match body {
        Body::Array(values) => {
            page.write("[")?;
            print_elements(alloc, page, regions, values.as_slice(), depth)?;
            page.write("]")
        }
        Body::Object(properties) => {
            page.write("{")?;
            print_object(alloc, page, regions, properties, depth)?;
            page.write("}")
        }
        _ => page.write_item(regions, body),
    }
}

// The elements of an array, with commas between them.
#[cycle(print)]
#[tactic(auto, using(crate::proofs::PrintLemmas::parts_stop))]
fn print_elements(
    alloc: Global,
    page: &mut Page,
    regions: &Regions,
    values: &[Value],
    depth: u32,
) -> Result<(), NoMemory>
    ensures { OnOk result (page.new ≡ print_parts (spec.print_value (spec.print_at depth regions.now)) [] values.now page.old) }
{
    let mut begun = false;
    for value in values {
        page.write_separator(begun)?;
        if page.is_used_up() {
            return page.write("...");
        }
        print_value(alloc, page, regions, *value, depth)?;
        begun = true;
    }
    Ok(())
}

// The properties of an object: as many as may be printed, and one more, in whose place the dots stand.
#[cycle(print)]
fn print_object(
    alloc: Global,
    page: &mut Page,
    regions: &Regions,
    properties: &Properties,
    depth: u32,
) -> Result<(), NoMemory>
    ensures { OnOk result (page.new ≡ print_parts (spec.print_property (spec.print_value (spec.print_at depth regions.now))) [] (entries_of properties.now) page.old) }
{
    let entries = properties.first(alloc, page.left() as usize + 1)?;
    print_properties(alloc, page, regions, entries.as_slice(), depth)
}

// Properties, with commas between them.
#[cycle(print)]
#[tactic(auto, using(crate::proofs::PrintLemmas::parts_stop))]
fn print_properties(
    alloc: Global,
    page: &mut Page,
    regions: &Regions,
    entries: &[Property],
    depth: u32,
) -> Result<(), NoMemory>
    ensures { OnOk result (page.new ≡ print_parts (spec.print_property (spec.print_value (spec.print_at depth regions.now))) [] entries.now page.old) }
{
    let mut begun = false;
    for property in entries {
        page.write_separator(begun)?;
        if page.is_used_up() {
            return page.write("...");
        }
        print_property(alloc, page, regions, property, depth)?;
        begun = true;
    }
    Ok(())
}

#[cycle(print)]
fn print_property(
    alloc: Global,
    page: &mut Page,
    regions: &Regions,
    property: &Property,
    depth: u32,
) -> Result<(), NoMemory>
    ensures { OnOk result (page.new ≡ spec.print_property (spec.print_value (spec.print_at depth regions.now)) property.now page.old) }
{
    page.write_key(property.key.as_slice())?;
    page.write(": ")?;
    print_value(alloc, page, regions, property.value, depth)
}
