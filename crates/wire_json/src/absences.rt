//! Writing what is found of a workflow that has to do without some users.
ghost use Rattle.std.specs.Prelude.{◌≡◌, ◌++◌, IfOk, OnOk};
ghost use Rattle.serde_json.specs.Written.{compact_text};
ghost use Rattle.refutation_tree.specs.Laws.Views.{shape_of};
ghost use Rattle.wire_json.specs.Entries.{plan_data, user_data};
ghost use Rattle.wire_json.specs.Absences.{absence_data, absence_line, family_line};

use crate::denial::push_tree_in;
use crate::list::{Item, push_list, push_list_in};
use crate::text::{push, push_name, push_plan};
use policy_book::{Plan, Policy};
use refutation_tree::Tree;
use std::alloc::{AllocError, Global};
use wf_names::{FlowId, UserId};

/// The line that is written for a family of plans, with its line end.
#[tactic(auto, unfolding(crate::specs::Absences::family_line, json::specs::Print::escape_byte))]
pub fn write_family(alloc: Global, p: &Policy, plans: &[Plan]) -> Result<Vec<u8>, AllocError>
    ensures { IfOk result (λ line. line.items ≡ family_line p.now plans.now) }
{
    let mut out = Vec::new(alloc);
    push_list_in(&mut out, b"{\"plans\":", p, plans)?;
    push(&mut out, b"\n")?;
    Ok(out)
}

/// The line that is written for users who are absent, and a tree over a workflow's steps, with its
/// line end.
#[tactic(auto, unfolding(crate::specs::Absences::absence_line))]
pub fn write_absence(
    alloc: Global,
    p: &Policy,
    f: FlowId,
    absent: &[UserId],
    tree: &Tree,
) -> Result<Vec<u8>, AllocError>
    ensures { IfOk result (λ line. line.items
        ≡ absence_line p.now f absent.now (shape_of tree.now)) }
{
    let mut out = Vec::new(alloc);
    push_absence(&mut out, p, f, absent, tree)?;
    push(&mut out, b"\n")?;
    Ok(out)
}

fn push_absence(
    out: &mut Vec<u8>,
    p: &Policy,
    f: FlowId,
    absent: &[UserId],
    tree: &Tree,
) -> Result<(), AllocError>
    ensures { OnOk result (out.new.items ≡ out.old.items ++ compact_text
        (absence_data p.now f absent.now (shape_of tree.now))) }
{
    push(out, b"{\"absent\":")?;
    push_list(out, p, absent)?;
    push_tree_in(out, b",\"tree\":", p, f, tree)?;
    Ok(())
}

impl Item for Plan {
    ghost item_data = { λ p plan. plan_data p.roster.users plan };

    fn push_item(&self, out: &mut Vec<u8>, p: &Policy) -> Result<(), AllocError> {
        push_plan(out, p.roster().users(), self)
    }
}

impl Item for UserId {
    ghost item_data = { user_data };

    fn push_item(&self, out: &mut Vec<u8>, p: &Policy) -> Result<(), AllocError> {
        push_name(out, p.roster().users(), self.0)
    }
}
