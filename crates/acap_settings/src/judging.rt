//! Which values each key may have.
ghost use Rattle.std.specs.Prelude.{◌≡◌, option_map};
ghost use Rattle.std.specs.List.{list_all, list_any};
ghost use Rattle.acap_settings.specs.Keys as rule;
ghost use Rattle.acap_settings.specs.Members.{all_entries, member_at};
ghost use Rattle.toml.specs.View.{view};

use acap_entries::is_user_name;
use toml::{Table, Value};

/// What stands at a key.
pub(crate) fn value_at<'a>(table: &'a Table, key: &str) -> Option<&'a Value>
    ensures { option_map (λ value. view value.now) result ≡ member_at key.now table.now }
{
    table.get(key)
}

/// Whether a value is a text.
pub(crate) fn is_text(value: &Value) -> bool
    ensures { result ≡ rule.is_text (view value.now) }
{
    matches!(value, Value::String(_))
}

/// Whether a value is a whole number in these bounds, themselves included.
pub(crate) fn is_number(value: &Value, least: u32, most: u32) -> bool
    ensures { result ≡ rule.is_number least most (view value.now) }
{
    match value {
        Value::Integer(number) => i64::from(least) <= *number && *number <= i64::from(most),
        _ => false,
    }
}

// Whether a value is the name of a user.
fn is_user(value: &Value) -> bool
    ensures { result ≡ rule.is_user (view value.now) }
{
    match value {
        Value::String(name) => is_user_name(name.as_bytes()),
        _ => false,
    }
}

// Whether values are names of users.
fn are_users(names: &[Value]) -> bool
    ensures { result ≡ list_all (λ name. rule.is_user (view name)) names.now }
{
    names.iter().all(|name| is_user(name))
}

/// Whether a value is a list of names of users.
pub(crate) fn is_user_list(value: &Value) -> bool
    ensures { result ≡ rule.is_user_list (view value.now) }
{
    match value {
        Value::Array(names) => are_users(names),
        _ => false,
    }
}

// Whether members are names of users with a secret each.
fn are_secrets(users: &Table) -> bool
    ensures { result ≡ all_entries rule.is_secret users.now }
{
    users.iter().all(|(name, secret)| is_user_name(name.as_bytes()) && is_text(secret))
}

/// Whether a value is a table of names of users with a secret each.
pub(crate) fn is_secret_table(value: &Value) -> bool
    ensures { result ≡ rule.is_secret_table (view value.now) }
{
    match value {
        Value::Table(users) => are_secrets(users),
        _ => false,
    }
}

// Whether members are names of groups with a list of names of users each.
fn are_groups(groups: &Table) -> bool
    ensures { result ≡ all_entries rule.is_group groups.now }
{
    groups.iter().all(|(name, users)| is_user_name(name.as_bytes()) && is_user_list(users))
}

/// Whether a value is a table of names of groups with a list of names of users each.
pub(crate) fn is_group_table(value: &Value) -> bool
    ensures { result ≡ rule.is_group_table (view value.now) }
{
    match value {
        Value::Table(groups) => are_groups(groups),
        _ => false,
    }
}

// Whether a value is the text `root`.
fn is_root(value: &Value) -> bool
    ensures { result ≡ rule.is_root (view value.now) }
{
    match value {
        Value::String(name) => name.as_str() == "root",
        _ => false,
    }
}

// Whether `root` is one of some values.
fn have_root(names: &[Value]) -> bool
    ensures { result ≡ list_any (λ name. rule.is_root (view name)) names.now }
{
    names.iter().any(|name| is_root(name))
}

/// Whether a value is a list with the text `root`.
pub(crate) fn has_root(value: &Value) -> bool
    ensures { result ≡ rule.has_root (view value.now) }
{
    match value {
        Value::Array(names) => have_root(names),
        _ => false,
    }
}
