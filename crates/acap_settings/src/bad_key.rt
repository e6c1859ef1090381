//! Finds the first key of a settings file that is missing, wrong or unknown.
ghost use Rattle.std.specs.Prelude.{◌≡◌, option_map, codes, string_bytes, find, not};
ghost use Rattle.std.specs.Option.{option_copied};
ghost use Rattle.std.specs.BTreeMap.{keys};
ghost use Rattle.acap_settings.specs.Keys as rule;
ghost use Rattle.acap_settings.specs.Members.{administrators_in, member_at};
ghost use Rattle.toml.specs.View.{table_view};

use crate::judging::{
    has_root, is_group_table, is_number, is_secret_table, is_text, is_user_list, value_at,
};
use crate::settings::MOST;
use toml::Table;

// Whether a text stands at a key.
fn text_is_good(table: &Table, key: &str) -> bool
    ensures { result ≡ rule.is_there_and_good rule.is_text (member_at key.now table.now) }
{
    match value_at(table, key) {
        Some(value) => is_text(value),
        None => false,
    }
}

// Whether a number in these bounds stands at a key.
fn number_is_good(table: &Table, key: &str, least: u32, most: u32) -> bool
    ensures { result ≡ rule.is_there_and_good (rule.is_number least most) (member_at key.now table.now) }
{
    match value_at(table, key) {
        Some(value) => is_number(value, least, most),
        None => false,
    }
}

fn administrators_are_good(table: &Table) -> bool
    ensures { result ≡ rule.is_there_and_good rule.is_user_list (administrators_in table.now) }
{
    match value_at(table, "administrators") {
        Some(value) => is_user_list(value),
        None => false,
    }
}

fn users_are_good(table: &Table) -> bool
    ensures { result ≡ rule.is_there_and_good rule.is_secret_table (member_at (codes "users") table.now) }
{
    match value_at(table, "users") {
        Some(value) => is_secret_table(value),
        None => false,
    }
}

// Whether root is an administrator.
fn root_is_there(table: &Table) -> bool
    ensures { result ≡ rule.is_there_and_good rule.has_root (administrators_in table.now) }
{
    match value_at(table, "administrators") {
        Some(value) => has_root(value),
        None => false,
    }
}

fn start_is_good(table: &Table) -> bool
    ensures { result ≡ rule.start_is_good (table_view table.now) }
{
    match value_at(table, "start") {
        Some(value) => is_text(value) && root_is_there(table),
        None => true,
    }
}

fn groups_are_good(table: &Table) -> bool
    ensures { result ≡ rule.is_good_if_there rule.is_group_table (member_at (codes "groups") table.now) }
{
    match value_at(table, "groups") {
        Some(value) => is_group_table(value),
        None => true,
    }
}

// The first of the nine keys that isn't good.
fn first_failing(table: &Table) -> Option<&'static str>
    ensures { option_map (λ key. key.now) result ≡ rule.failing_key (table_view table.now) }
{
    if !text_is_good(table, "listen") {
        Some("listen")
    } else if !text_is_good(table, "host") {
        Some("host")
    } else if !number_is_good(table, "workers", 1, 16) {
        Some("workers")
    } else if !number_is_good(table, "turns", 1, MOST) {
        Some("turns")
    } else if !number_is_good(table, "sessions", 0, MOST) {
        Some("sessions")
    } else if !administrators_are_good(table) {
        Some("administrators")
    } else if !users_are_good(table) {
        Some("users")
    } else if !start_is_good(table) {
        Some("start")
    } else if !groups_are_good(table) {
        Some("groups")
    } else {
        None
    }
}

// Whether it is one of the nine keys.
fn is_known(key: &str) -> bool
    ensures { result ≡ rule.is_known key.now }
{
    matches!(
        key,
        "listen"
            | "host"
            | "workers"
            | "turns"
            | "sessions"
            | "administrators"
            | "users"
            | "start"
            | "groups"
    )
}

// The first key that is none of these, as it stands in the table.
fn find_unknown(table: &Table) -> Option<&String>
    ensures { option_copied result ≡ find (λ key. not (rule.is_known (string_bytes key))) (keys table.now) }
{
    table.keys().find(|key| !is_known(key.as_str()))
}

// The first key that is none of these, in ascending order.
#[tactic(auto, using(crate::proofs::Views::unknown_some, crate::proofs::Views::unknown_none))]
fn first_unknown(table: &Table) -> Option<&str>
    ensures { option_map (λ key. key.now) result ≡ rule.first_unknown (table_view table.now) }
{
    match find_unknown(table) {
        Some(key) => Some(key.as_str()),
        None => None,
    }
}

/// The first bad key: of the nine in their order, else the first that is none of them. Takes no memory.
pub(crate) fn bad_key(table: &Table) -> Option<&str>
    ensures { option_map (λ key. key.now) result ≡ rule.bad_key (table_view table.now) }
{
    match first_failing(table) {
        Some(key) => Some(key),
        None => first_unknown(table),
    }
}
