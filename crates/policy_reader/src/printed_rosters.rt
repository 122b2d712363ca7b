//! Writes the users with their roles, and the relations between them.
ghost use Rattle.std.specs.Prelude.{◌≡◌, ◌<◌, ◌+◌, ℕ, length, true, IfOk, OnOk, Some, None};
ghost use Rattle.rbac_state.specs.Laws.Rosters.{has_role};
ghost use Rattle.policy_book.specs.Laws.Facts.{AreOfUsers};
ghost use Rattle.user_relations.specs.Laws.Relations.{complement_of, known_names};
ghost use Rattle.toml.specs.Data.{string};
ghost use Rattle.user_relations.specs.Laws.Soundness.{AreSoundRelations};
ghost use Rattle.toml.specs.View.{view, table_view};
ghost use Rattle.wf_names.specs.Names.{is_name};
ghost use Rattle.wf_names.specs.Table.{AreNames};
ghost use Rattle.policy_reader.specs.Relations.{first_declared};
ghost use Rattle.policy_reader.specs.Documents as spec;

use crate::printed_parts::{pairs_value, push_name, put, put_word};
use rbac_state::Roster;
use std::alloc::{AllocError, Global};
use toml::Value;
use toml::value::Table;
use user_relations::Relations;
use wf_names::{Name, NameTable, RelId, RoleId, UserId};

/// An array of the roles of a user.
#[tactic(auto, using(crate::proofs::Writing::chosen_more, crate::proofs::Writing::chosen_skip))]
fn held_value(alloc: Global, roster: &Roster, u: UserId) -> Result<Value, AllocError>
    ensures { IfOk result (λ v. view v ≡ spec.names_where roster.now.roles
        (has_role roster.now u)) }
{
    let mut values = Vec::new(alloc);
    'roles: for r in 0..roster.roles().len() {
        if roster.has(u, RoleId(r as u8))
            && push_name(alloc, &mut values, roster.roles(), r).is_err()
        {
            return Err(AllocError);
        }
    }
    Ok(Value::Array(values))
}

/// A table of the users with their roles.
#[tactic(auto, using(crate::proofs::Writing::table_more))]
pub(crate) fn users_value(alloc: Global, roster: &Roster) -> Result<Value, AllocError>
    ensures value { IfOk result (λ v. view v ≡ spec.users_data roster.now) }
    ensures named { AreNames roster.now.users }
{
    let mut table = Table::new(alloc);
    'users: for u in 0..roster.users().len() {
        if put_user(alloc, &mut table, roster, UserId(u)).is_err() {
            return Err(AllocError);
        }
    }
    Ok(Value::Table(table))
}

#[tactic(auto, using(crate::proofs::Writing::name_found))]
fn put_user(alloc: Global, table: &mut Table, roster: &Roster, u: UserId) -> Result<(), AllocError>
    requires { u < length roster.now.users }
    ensures { OnOk result (table_view table.new
        ≡ spec.with_member (spec.user_entry roster.now u).0 (spec.user_entry roster.now u).1
        (table_view table.old)) }
{
    let held = held_value(alloc, roster, u)?;
    let name = roster.users().name(u.0);
    put(alloc, table, name.as_str(), held)
}

/// The name of a relation.
#[tactic(auto, using(crate::proofs::Writing::name_found))]
fn relation_name(relations: &Relations, rho: RelId) -> Name
    requires { rho < length relations.now + 2 }
    ensures { result ≡ spec.name_at (known_names relations.now) rho }
{
    relations.name(rho)
}

/// Puts the name of a relation into a table at a key.
pub(crate) fn put_related(
    alloc: Global,
    table: &mut Table,
    key: &str,
    relations: &Relations,
    rho: RelId,
) -> Result<(), AllocError>
    requires { rho < length relations.now + 2 }
    ensures { OnOk result (table_view table.new ≡ spec.with_member key.now
        (string (spec.name_at (known_names relations.now) rho)) (table_view table.old)) }
{
    let name = relation_name(relations, rho);
    put_word(alloc, table, key, name.as_str())
}

#[tactic(auto, unfolding(crate::specs::Documents::kind_members))]
fn complement_table(
    alloc: Global,
    users: &NameTable,
    relations: &Relations,
    rho: RelId,
    other: RelId,
) -> Result<Table, AllocError>
    requires { other < length relations.now + 2 }
    ensures { IfOk result (λ t. table_view t
        ≡ spec.kind_members users.now.names relations.now rho (Some other)) }
{
    let mut table = Table::new(alloc);
    put_related(alloc, &mut table, "complement", relations, other)?;
    Ok(table)
}

#[tactic(auto, unfolding(crate::specs::Documents::kind_members))]
fn listed_table(
    alloc: Global,
    users: &NameTable,
    relations: &Relations,
    rho: RelId,
) -> Result<Table, AllocError>
    requires { AreOfUsers (length users.now.names) relations.now }
    ensures { IfOk result (λ t. table_view t
        ≡ spec.kind_members users.now.names relations.now rho None) }
{
    let mut table = Table::new(alloc);
    let pairs = relations.pairs(rho)?;
    let listed = pairs_value(alloc, users, &pairs)?;
    put(alloc, &mut table, "pairs", listed)?;
    Ok(table)
}

/// The table of a relation: its pairs, or the name of the one whose complement it is.
#[tactic(auto, using(crate::proofs::Writing::other_within))]
fn kind_table(
    alloc: Global,
    users: &NameTable,
    relations: &Relations,
    rho: RelId,
) -> Result<Table, AllocError>
    requires users { AreOfUsers (length users.now.names) relations.now }
    requires sound { AreSoundRelations relations.now }
    ensures { IfOk result (λ t. table_view t
        ≡ spec.kind_members users.now.names relations.now rho (complement_of relations.now rho)) }
{
    match relations.complement_of(rho) {
        Some(other) => complement_table(alloc, users, relations, rho, other),
        None => listed_table(alloc, users, relations, rho),
    }
}

fn put_relation(
    alloc: Global,
    table: &mut Table,
    users: &NameTable,
    relations: &Relations,
    rho: RelId,
) -> Result<(), AllocError>
    requires users { AreOfUsers (length users.now.names) relations.now }
    requires sound { AreSoundRelations relations.now }
    requires within { rho < length relations.now + 2 }
    ensures form { OnOk result (is_name (spec.name_at (known_names relations.now) rho) ≡ true) }
    ensures put { OnOk result (table_view table.new
        ≡ spec.with_member (spec.relation_entry users.now.names relations.now rho).0
        (spec.relation_entry users.now.names relations.now rho).1 (table_view table.old)) }
{
    let kind = kind_table(alloc, users, relations, rho)?;
    let name = relation_name(relations, rho);
    put(alloc, table, name.as_str(), Value::Table(kind))
}

/// A table of the relations.
#[tactic(auto, using(crate::proofs::Writing::number_fits))]
pub(crate) fn relations_value(
    alloc: Global,
    users: &NameTable,
    relations: &Relations,
) -> Result<Value, AllocError>
    requires { AreOfUsers (length users.now.names) relations.now }
    ensures value { IfOk result (λ v. view v ≡ spec.relations_data users.now.names relations.now) }
    ensures named { IfOk result (λ _. AreNames (known_names relations.now)) }
    ensures sound { AreSoundRelations relations.now }
{
    let mut table = Table::new(alloc);
    'relations: for n in 0..relations.count() {
        if let Err(fault) = put_relation(alloc, &mut table, users, relations, RelId(2 + n)) {
            return Err(fault);
        }
    }
    Ok(Value::Table(table))
}
