//! Whether two values are equal.
ghost use Rattle.std.specs.Prelude.{◌≡◌, ◌↔◌, IsTrue};
ghost use Rattle.serde_json.specs.View.{view, number_view, items_view, members_view};

use serde_json::{Map, Number, Value};
use std::num::f64_to_bits_with_nan;

/// Whether two values are one value. `0.0` and `-0.0` are two.
#[cycle(is_equal)]
pub fn is_equal(one: &Value, other: &Value) -> bool
    ensures { IsTrue result ↔ (view one.now ≡ view other.now) }
{
    match one {
        Value::Null => other.is_null(),
        Value::Bool(yes) => other.as_bool() == Some(*yes),
        Value::Number(number) => match other.as_number() {
            Some(other) => is_equal_number(number, other),
            None => false,
        },
        Value::String(text) => match other.as_str() {
            Some(other) => text.as_str() == other,
            None => false,
        },
        Value::Array(items) => match other.as_array() {
            Some(other) => has_equal_items(items, other),
            None => false,
        },
        Value::Object(members) => match other.as_object() {
            Some(other) => has_equal_members(members, other),
            None => false,
        },
    }
}

#[cycle(is_equal)]
fn has_equal_items(one: &Vec<Value>, other: &Vec<Value>) -> bool
    ensures { IsTrue result ↔ (items_view one.now.items ≡ items_view other.now.items) }
{
    let mut others = other.iter();
    for item in one {
        match others.next() {
            Some(other) if is_equal(item, other) => {}
            _ => return false,
        }
    }
    others.next().is_none()
}

#[cycle(is_equal)]
fn has_equal_members(one: &Map<String, Value>, other: &Map<String, Value>) -> bool
    ensures { IsTrue result ↔ (members_view one.now.entries ≡ members_view other.now.entries) }
{
    let mut others = other.iter();
    for (name, value) in one.iter() {
        match others.next() {
            Some((other_name, other)) => {
                if name.as_str() != other_name.as_str() || !is_equal(value, other) {
                    return false;
                }
            }
            None => return false,
        }
    }
    others.next().is_none()
}

fn is_equal_number(one: &Number, other: &Number) -> bool
    ensures { IsTrue result ↔ (number_view one.now ≡ number_view other.now) }
{
    if one.is_f64() && other.is_f64() {
        return match (one.as_f64(), other.as_f64()) {
            (Some(one), Some(other)) => is_equal_float(one, other),
            _ => false,
        };
    }
    one.is_f64() == other.is_f64()
        && one.as_u64() == other.as_u64()
        && one.as_i64() == other.as_i64()
}

fn is_equal_float(one: f64, other: f64) -> bool
    ensures { IsTrue result ↔ (one ≡ other) }
{
    f64_to_bits_with_nan(one) == f64_to_bits_with_nan(other)
}
