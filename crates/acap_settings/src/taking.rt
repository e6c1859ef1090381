//! Makes settings of a document whose keys are all good.
ghost use Rattle.std.specs.Prelude.{◌≡◌, pos, IfOk, true, codes, map, option_map, string_bytes};
ghost use Rattle.std.specs.List.{AllPass};
ghost use Rattle.acap_entries.specs.Names.{is_user_name};
ghost use Rattle.acap_settings.specs.Keys as rule;
ghost use Rattle.acap_settings.specs.Settings.{AreGroups, group_table, name_list};
ghost use Rattle.acap_settings.specs.Settings.{said_group, said_user, secret_table};
ghost use Rattle.acap_settings.specs.Members.{administrators_in, member_of, member_at, octets_and_data};
ghost use Rattle.toml.specs.Data.{string, integer};
ghost use Rattle.toml.specs.View.{table_view, view};

use crate::judging::value_at;
use acap_entries::{Memory, NameFault, Octets, Sequence, UserName};
use acap_login::Users;
use acap_rights::{Group, Groups};
use std::alloc::Global;
use toml::{Table, Value};

// The text of a value that is one.
fn text_of(alloc: Global, value: &Value) -> Result<Octets, Memory>
    requires { rule.is_text (view value.now) ≡ true }
    ensures { IfOk result (λ text. view value.now ≡ string text) }
{
    match value {
        Value::String(text) => Octets::from_slice(alloc, text.as_bytes()),
        _ => unreachable!(),
    }
}

/// The text at a key that has one.
pub(crate) fn text_at(alloc: Global, settings: &Table, key: &str) -> Result<Octets, Memory>
    requires { rule.is_there_and_good rule.is_text (member_at key.now settings.now) ≡ true }
    ensures { IfOk result (λ text. member_at key.now settings.now ≡ Some (string text)) }
{
    match value_at(settings, key) {
        Some(value) => text_of(alloc, value),
        None => unreachable!(),
    }
}

// The number of a value that is one.
fn number_of(value: &Value, least: u32, most: u32) -> u32
    requires { rule.is_number least most (view value.now) ≡ true }
    ensures { view value.now ≡ integer (pos result) }
{
    match value {
        Value::Integer(number) => *number as u32,
        _ => unreachable!(),
    }
}

/// The number at a key that has one.
pub(crate) fn number_at(settings: &Table, key: &str, least: u32, most: u32) -> u32
    requires { rule.is_there_and_good (rule.is_number least most) (member_at key.now settings.now) ≡ true }
    ensures { member_at key.now settings.now ≡ Some (integer (pos result)) }
{
    match value_at(settings, key) {
        Some(value) => number_of(value, least, most),
        None => unreachable!(),
    }
}

// The name that octets are which are a user's.
fn read_user(alloc: Global, name: &[u8]) -> Result<UserName, Memory>
    requires { is_user_name name.now ≡ true }
    ensures { IfOk result (λ made. made ≡ name.now) }
{
    match UserName::read(alloc, name) {
        Ok(name) => Ok(name),
        Err(NameFault::Memory) => Err(Memory),
        Err(NameFault::BadName) => unreachable!(),
    }
}

// The name of a value that is one.
fn user_of(alloc: Global, value: &Value) -> Result<UserName, Memory>
    requires { rule.is_user (view value.now) ≡ true }
    ensures { IfOk result (λ name. view value.now ≡ string name) }
{
    match value {
        Value::String(name) => read_user(alloc, name.as_bytes()),
        _ => unreachable!(),
    }
}

// The names of values that are names of users.
fn users_of(alloc: Global, names: &[Value]) -> Result<Sequence<UserName>, Memory>
    requires { AllPass (λ name. rule.is_user (view name)) names.now }
    ensures { IfOk result (λ users. map view names.now ≡ map string users) }
{
    let mut users = Sequence::new(alloc);
    for name in names {
        users.push(user_of(alloc, name)?)?;
    }
    Ok(users)
}

// The names in a list of users.
#[tactic(auto, using(crate::proofs::TakingLemmas::users_pass, crate::proofs::TakingLemmas::users_said))]
fn user_list_of(alloc: Global, value: &Value) -> Result<Sequence<UserName>, Memory>
    requires { rule.is_user_list (view value.now) ≡ true }
    ensures { IfOk result (λ users. view value.now ≡ name_list users) }
{
    match value {
        Value::Array(names) => users_of(alloc, names),
        _ => unreachable!(),
    }
}

/// The names at the key of the administrators, where a list of users stands.
pub(crate) fn administrators_at(
    alloc: Global,
    settings: &Table,
) -> Result<Sequence<UserName>, Memory>
    requires { rule.is_there_and_good rule.is_user_list (administrators_in settings.now) ≡ true }
    ensures { IfOk result (λ users. administrators_in settings.now ≡ Some (name_list users)) }
{
    match value_at(settings, "administrators") {
        Some(value) => user_list_of(alloc, value),
        None => unreachable!(),
    }
}

// The members of a table, in its order.
fn members_of<'a>(alloc: Global, table: &'a Table) -> Result<Vec<(&'a String, &'a Value)>, Memory>
    ensures { IfOk result (λ members. map member_of members.items ≡ table.now.entries) }
{
    Ok(table.iter().collect(alloc)?)
}

// The names and secrets of members that are users with a text each.
fn secrets_of(
    alloc: Global,
    members: &[(&String, &Value)],
) -> Result<Vec<(UserName, Vec<u8>)>, Memory>
    requires { AllPass (λ pair. rule.is_secret (string_bytes pair.0.now) (view pair.1.now)) members.now }
    ensures { IfOk result (λ users. map octets_and_data members.now ≡ map said_user users.items) }
{
    let mut users = Vec::with_capacity(alloc, members.len())?;
    for (name, secret) in members {
        let secret = text_of(alloc, secret)?.into_vec();
        users.push((read_user(alloc, name.as_bytes())?, secret))?;
    }
    Ok(users)
}

// The groups of members that are names with a list of users each.
fn groups_of(alloc: Global, members: &[(&String, &Value)]) -> Result<Groups, Memory>
    requires { AllPass (λ pair. rule.is_group (string_bytes pair.0.now) (view pair.1.now)) members.now }
    ensures { IfOk result (λ groups. map octets_and_data members.now ≡ map said_group groups) }
{
    let mut groups = Groups::new(alloc);
    for (name, value) in members {
        let members = user_list_of(alloc, value)?;
        let name = read_user(alloc, name.as_bytes())?;
        groups.push(Group { name, members })?;
    }
    Ok(groups)
}

// The users of a table of secrets.
fn secret_table_of(alloc: Global, value: &Value) -> Result<Users, Memory>
    requires { rule.is_secret_table (view value.now) ≡ true }
    ensures { IfOk result (λ users. view value.now ≡ secret_table users) }
{
    match value {
        Value::Table(table) => {
            let members = members_of(alloc, table)?;
            Ok(Users::new(secrets_of(alloc, &members)?))
        }
        _ => unreachable!(),
    }
}

/// The users with their secrets, where a table of secrets stands at their key.
pub(crate) fn users_at(alloc: Global, settings: &Table) -> Result<Users, Memory>
    requires { rule.is_there_and_good rule.is_secret_table (member_at (codes "users") settings.now) ≡ true }
    ensures { IfOk result (λ users. member_at (codes "users") settings.now ≡ Some (secret_table users)) }
{
    match value_at(settings, "users") {
        Some(value) => secret_table_of(alloc, value),
        None => unreachable!(),
    }
}

// The groups of a table of groups.
fn group_table_of(alloc: Global, value: &Value) -> Result<Groups, Memory>
    requires { rule.is_group_table (view value.now) ≡ true }
    ensures { IfOk result (λ groups. view value.now ≡ group_table groups) }
{
    match value {
        Value::Table(table) => {
            let members = members_of(alloc, table)?;
            groups_of(alloc, &members)
        }
        _ => unreachable!(),
    }
}

/// The groups, where a table of groups stands at their key or nothing.
pub(crate) fn groups_at(alloc: Global, settings: &Table) -> Result<Groups, Memory>
    requires { rule.is_good_if_there rule.is_group_table (member_at (codes "groups") settings.now) ≡ true }
    ensures { IfOk result (λ groups. AreGroups (member_at (codes "groups") settings.now) groups) }
{
    match value_at(settings, "groups") {
        Some(value) => group_table_of(alloc, value),
        None => Ok(Groups::new(alloc)),
    }
}

/// The start file, where a text stands at its key or nothing.
pub(crate) fn start_at(alloc: Global, settings: &Table) -> Result<Option<Octets>, Memory>
    requires { rule.start_is_good (table_view settings.now) ≡ true }
    ensures { IfOk result (λ start. member_at (codes "start") settings.now ≡ option_map string start) }
{
    match value_at(settings, "start") {
        Some(value) => Ok(Some(text_of(alloc, value)?)),
        None => Ok(None),
    }
}
