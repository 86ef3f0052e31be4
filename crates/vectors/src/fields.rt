//! Reading the fields of a vector.
ghost use Rattle.std.specs.Prelude.{◌≡◌, Some, None, IsSome, IfOk, IfErr, OnErr, option_map, option_and_then};
ghost use Rattle.std.specs.Result.{result_ok};
ghost use Rattle.serde_json.specs.Find.{get, at, as_bool, as_str, as_array, as_object};
ghost use Rattle.serde_json.specs.View.{view, items_view, members_view};
ghost use Rattle.vectors.specs.Vectors.{named_field, text_in, object_in};

use crate::trouble::Trouble;
use serde_json::{Map, Value};

/// The member of this name.
pub fn field<'v>(value: &'v Value, name: &'static str) -> Result<&'v Value, Trouble>
    ensures value { option_map (λ v. view v.now) (result_ok result) ≡ get name.now (view value.now) }
    ensures reported { IfErr result (λ t. named_field t ≡ Some name.now) }
{
    value.get(name).ok_or(Trouble::Field(name))
}

/// The text that the member of this name is.
pub fn text<'v>(value: &'v Value, name: &'static str) -> Result<&'v str, Trouble>
    ensures value { option_map (λ s. s.now) (result_ok result)
        ≡ text_in name.now (view value.now) }
    ensures reported { IfErr result (λ t. named_field t ≡ Some name.now) }
{
    let found = value.get(name).and_then(Value::as_str);
    found.ok_or(Trouble::Field(name))
}

/// The truth value that the member of this name is.
pub fn flag(value: &Value, name: &'static str) -> Result<bool, Trouble>
    ensures value { result_ok result ≡ option_and_then as_bool (get name.now (view value.now)) }
    ensures reported { IfErr result (λ t. named_field t ≡ Some name.now) }
{
    let found = value.get(name).and_then(Value::as_bool);
    found.ok_or(Trouble::Field(name))
}

/// The items of the list that the member of this name is.
pub fn list<'v>(value: &'v Value, name: &'static str) -> Result<&'v [Value], Trouble>
    ensures value { option_map (λ l. items_view l.now) (result_ok result)
        ≡ option_and_then as_array (get name.now (view value.now)) }
    ensures reported { IfErr result (λ t. named_field t ≡ Some name.now) }
{
    match value.get(name).and_then(Value::as_array) {
        Some(items) => Ok(items.as_slice()),
        None => Err(Trouble::Field(name)),
    }
}

/// The members of the object that the member of this name is.
pub fn members<'v>(value: &'v Value, name: &'static str) -> Result<&'v Map<String, Value>, Trouble>
    ensures value { option_map (λ m. members_view m.now.entries) (result_ok result)
        ≡ object_in name.now (view value.now) }
    ensures reported { IfErr result (λ t. named_field t ≡ Some name.now) }
{
    let found = value.get(name).and_then(Value::as_object);
    found.ok_or(Trouble::Field(name))
}

/// The member of this name, which is an object.
pub fn object<'v>(value: &'v Value, name: &'static str) -> Result<&'v Value, Trouble>
    ensures value { IfOk result (λ v. get name.now (view value.now) ≡ Some (view v.now)) }
    ensures about { IfOk result (λ v. IsSome (as_object (view v.now))) }
    ensures none { OnErr result (object_in name.now (view value.now) ≡ None) }
    ensures reported { IfErr result (λ t. named_field t ≡ Some name.now) }
{
    match value.get(name) {
        Some(member) if member.is_object() => Ok(member),
        _ => Err(Trouble::Field(name)),
    }
}

/// The item at a place of a list, which stands in the field of this name.
pub fn item<'v>(list: &'v Value, place: usize, name: &'static str) -> Result<&'v Value, Trouble>
    ensures value { option_map (λ v. view v.now) (result_ok result) ≡ at place (view list.now) }
    ensures reported { IfErr result (λ t. named_field t ≡ Some name.now) }
{
    list.get(place).ok_or(Trouble::Field(name))
}

/// The text at a place of a list, which stands in the field of this name.
pub fn text_at<'v>(list: &'v Value, place: usize, name: &'static str) -> Result<&'v str, Trouble>
    ensures value { option_map (λ s. s.now) (result_ok result)
        ≡ option_and_then as_str (at place (view list.now)) }
    ensures reported { IfErr result (λ t. named_field t ≡ Some name.now) }
{
    let found = list.get(place).and_then(Value::as_str);
    found.ok_or(Trouble::Field(name))
}

/// The truth value at a place of a list, which stands in the field of this name.
pub fn flag_at(list: &Value, place: usize, name: &'static str) -> Result<bool, Trouble>
    ensures value { result_ok result ≡ option_and_then as_bool (at place (view list.now)) }
    ensures reported { IfErr result (λ t. named_field t ≡ Some name.now) }
{
    let found = list.get(place).and_then(Value::as_bool);
    found.ok_or(Trouble::Field(name))
}
