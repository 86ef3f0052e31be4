//! Comparing an answer with the one that is wanted.
ghost use Rattle.std.specs.Prelude.{◌≡◌, ◌↔◌, IsTrue, IsSome, Contains, map, option_map};
ghost use Rattle.serde_json.specs.Find.{get_member};
ghost use Rattle.serde_json.specs.View.{view, members_view};
ghost use Rattle.vectors.specs.Agrees.{Agrees, EachMember, Stands};

use crate::equal::is_equal;
use serde_json::{Map, Value};

/// Whether an answer is the one that is wanted: an object that has each wanted field with an equal
/// value, and no other. Only the fields that are waiting for their calls may be missing.
pub fn agrees(wanted: &Map<String, Value>, answer: &Value, waiting: &[&str]) -> bool
    ensures { IsTrue result
        ↔ Agrees (members_view wanted.now.entries) (view answer.now) (map (λ w. w.now) waiting.now) }
{
    match answer.as_object() {
        Some(fields) => has_wanted(wanted, fields, waiting) && has_no_other(wanted, fields),
        None => false,
    }
}

fn has_wanted(wanted: &Map<String, Value>, fields: &Map<String, Value>, waiting: &[&str]) -> bool
    ensures { IsTrue result
        ↔ EachMember (Stands (members_view fields.now.entries) (map (λ w. w.now) waiting.now)) (members_view wanted.now.entries) }
{
    for (name, value) in wanted.iter() {
        if !has_field(name.as_str(), value, fields, waiting) {
            return false;
        }
    }
    true
}

fn has_field(name: &str, value: &Value, fields: &Map<String, Value>, waiting: &[&str]) -> bool
    ensures { IsTrue result
        ↔ Stands (members_view fields.now.entries) (map (λ w. w.now) waiting.now) name.now (view value.now) }
{
    match member(fields, name) {
        Some(answered) => is_equal(answered, value),
        None => is_among(name, waiting),
    }
}

fn has_no_other(wanted: &Map<String, Value>, fields: &Map<String, Value>) -> bool
    ensures { IsTrue result
        ↔ EachMember (λ name _. IsSome (get_member name (members_view wanted.now.entries))) (members_view fields.now.entries) }
{
    for (name, _) in fields.iter() {
        if member(wanted, name.as_str()).is_none() {
            return false;
        }
    }
    true
}

/// The value of this name, if there is one.
fn member<'m>(members: &'m Map<String, Value>, name: &str) -> Option<&'m Value>
    ensures { option_map (λ v. view v.now) result ≡ get_member name.now (members_view members.now.entries) }
{
    members.get(name)
}

fn is_among(name: &str, names: &[&str]) -> bool
    ensures { IsTrue result ↔ Contains (map (λ n. n.now) names.now) name.now }
{
    names.contains(&name)
}
