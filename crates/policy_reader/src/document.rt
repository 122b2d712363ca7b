//! Writes a policy as TOML.
ghost use Rattle.std.specs.Prelude.{◌≡◌, ◌<◌, ◌≤◌, ◌+◌, List, ℕ, Ok, IfOk, OnOk, codes, length};
ghost use Rattle.std.specs.Prelude.{string_bytes};
ghost use Rattle.toml.specs.Data.{no_members, string};
ghost use Rattle.user_relations.specs.Laws.Relations.{known_names};
ghost use Rattle.user_relations.specs.Laws.Soundness.{AreSoundRelations};
ghost use Rattle.policy_book.specs.Laws.Facts.{IsSoundPolicy};
ghost use Rattle.policy_book.specs.Policies.{flow_at};
ghost use Rattle.toml.specs.View.{table_view};
ghost use Rattle.policy_reader.specs.Documents as spec;
ghost use Rattle.policy_reader.specs.Files.{document_in, policy_of_file};
ghost use Rattle.wf_names.specs.Table.{AreNames};
ghost use Rattle.policy_reader.specs.Laws.Printable.{IsPrintable};
ghost use Rattle.policy_reader.specs.Named.{IsNamedPolicy, IsNamedWorkflow};

use crate::printed_flows::flows_value;
use crate::printed_parts::{put, put_name, put_names};
use crate::printed_rosters::{relations_value, users_value};
use crate::written::written_format;
use policy_book::Policy;
use rbac_state::Roster;
use std::alloc::{AllocError, Global};
use toml::Value;
use toml::ser::Error;
use toml::value::Table;
use workflow_schema::laws::order_is_chained;

fn put_users(alloc: Global, table: &mut Table, roster: &Roster) -> Result<(), AllocError>
    ensures put { OnOk result (table_view table.new
        ≡ spec.with_member (codes "users") (spec.users_data roster.now) (table_view table.old)) }
    ensures named { AreNames roster.now.users }
{
    let users = users_value(alloc, roster)?;
    put(alloc, table, "users", users)
}

fn put_relations(alloc: Global, table: &mut Table, policy: &Policy) -> Result<(), AllocError>
    ensures put { OnOk result (table_view table.new
        ≡ spec.with_member (codes "relations")
        (spec.relations_data policy.now.roster.users policy.now.relations) (table_view table.old)) }
    ensures named { OnOk result (AreNames (known_names policy.now.relations)) }
    ensures sound { AreSoundRelations policy.now.relations }
{
    let relations = relations_value(alloc, policy.roster().users(), policy.relations())?;
    put(alloc, table, "relations", relations)
}

fn put_flows(alloc: Global, table: &mut Table, policy: &Policy) -> Result<(), AllocError>
    ensures put { OnOk result (table_view table.new
        ≡ spec.with_member (codes "flows") (spec.flows_data policy.now) (table_view table.old)) }
    ensures names { AreNames policy.now.flow_names }
    ensures named { OnOk result ((f : ℕ) → f < length policy.now.flows
        → IsNamedWorkflow (flow_at policy.now f)) }
{
    let flows = flows_value(alloc, policy)?;
    put(alloc, table, "flows", flows)
}

fn put_admin(alloc: Global, table: &mut Table, policy: &Policy) -> Result<(), AllocError>
    ensures put { OnOk result (table_view table.new
        ≡ spec.with_member (codes "admin")
        (string (spec.name_at policy.now.roster.roles policy.now.admin)) (table_view table.old)) }
    ensures sound { IsSoundPolicy policy.now }
{
    let roles = policy.roster().roles();
    put_name(alloc, table, "admin", roles, policy.admin().0 as u16)
}

/// Fills an empty table with the document that a policy is written as.
#[tactic(auto, unfolding(crate::specs::Documents::document_of))]
fn fill(alloc: Global, table: &mut Table, policy: &Policy) -> Result<(), AllocError>
    requires { table_view table.old ≡ no_members }
    ensures document { OnOk result (table_view table.new ≡ spec.document_of policy.now) }
    ensures named { OnOk result (IsNamedPolicy policy.now) }
{
    let roster = policy.roster();
    put_users(alloc, table, roster)?;
    put_names(alloc, table, "roles", roster.roles())?;
    put_relations(alloc, table, policy)?;
    put(
        alloc,
        table,
        "format",
        Value::Integer(written_format(policy).number()),
    )?;
    put_flows(alloc, table, policy)?;
    put_admin(alloc, table, policy)
}

/// The document that a policy is written as.
fn document(alloc: Global, policy: &Policy) -> Result<Table, AllocError>
    ensures document { IfOk result (λ t. table_view t ≡ spec.document_of policy.now) }
    ensures named { IfOk result (λ _. IsNamedPolicy policy.now) }
{
    let mut table = Table::new(alloc);
    match fill(alloc, &mut table, policy) {
        Ok(()) => Ok(table),
        Err(_) => Err(AllocError),
    }
}

/// A policy as TOML. What is written of a policy that can be printed, as each is that a file gave,
/// reads as that policy; the layout is that of the `toml` crate.
pub fn print(alloc: Global, p: &Policy) -> Result<String, AllocError>
    ensures document { IfOk result (λ text. document_in (string_bytes text)
        ≡ Ok (spec.document_of p.now)) }
    ensures reads_back { IfOk result (λ text. IsPrintable p.now
        → policy_of_file (string_bytes text) ≡ Ok p.now) }
{
    order_is_chained();
    let table = document(alloc, p)?;
    match toml::table_to_string(alloc, &table) {
        Ok(text) => Ok(text),
        Err(Error::OutOfMemory) => Err(AllocError),
        Err(Error::DateInvalid) => unreachable!(),
    }
}
