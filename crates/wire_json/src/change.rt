//! Reading a request of a change of the policy, by the keys of its edit.
ghost use Rattle.std.specs.Prelude.{Some, codes, option_and_then, if◌then◌else◌};
ghost use Rattle.basics.specs.Laws.Reading.{Gives, or_fault};
ghost use Rattle.wf_talk.specs.declared.request.Bad.TheVariants as bad;
ghost use Rattle.wire_json.specs.Requests as read;
ghost use Rattle.wire_json.specs.Objects.{data_of, members_in};
ghost use Rattle.wire_json.specs.Words.{edit_by, row_of_edit};

use crate::object::Object;
use crate::request::{key_fault, name_at, no_others};
use crate::word::EditWord;
use wf_talk::{Bad, Edit, Request};

/// To change the policy.
#[tactic(auto, unfolding(wf_names::specs::Names::is_name))]
pub(crate) fn change_in(word: EditWord, object: &Object<'_>) -> Result<Request, Bad>
    ensures { Gives Some (λ r. r) result (read.change_by (row_of_edit word) (data_of object.now)
        (members_in (data_of object.now))) }
{
    let by = name_at(object, "by")?;
    let edit = edit_in(word, object)?;
    no_others(object, &["do", "lane", "by"], word.keys())?;
    Ok(Request::Change { by, edit })
}

/// To see what a change of the policy would strand.
#[tactic(auto, unfolding(crate::specs::Requests::what_if_in))]
pub(crate) fn what_if_in(object: &Object<'_>) -> Result<Request, Bad>
    ensures { Gives Some (λ r. r) result (read.what_if_in (data_of object.now)
        (members_in (data_of object.now))) }
{
    let word = edit_word_in(object)?;
    what_if_by(word, object)
}

// The word at the key edit.
#[tactic(auto, unfolding(wf_names::specs::Names::is_name))]
fn edit_word_in(object: &Object<'_>) -> Result<EditWord, Bad>
    ensures { Gives Some row_of_edit result
        (or_fault (option_and_then (read.row_of read.edits)
        (read.text_at (codes "edit") (data_of object.now))) (bad.Key (codes "edit"))) }
{
    let Some(text) = object.text_at("edit") else {
        return Err(key_fault("edit"));
    };
    match EditWord::read(text) {
        Some(word) => Ok(word),
        None => Err(key_fault("edit")),
    }
}

#[tactic(auto, unfolding(wf_names::specs::Names::is_name))]
fn what_if_by(word: EditWord, object: &Object<'_>) -> Result<Request, Bad>
    ensures { Gives Some (λ r. r) result (read.what_if_by (row_of_edit word) (data_of object.now)
        (members_in (data_of object.now))) }
{
    let by = name_at(object, "by")?;
    let edit = edit_in(word, object)?;
    no_others(object, &["do", "lane", "edit", "by"], word.keys())?;
    Ok(Request::WhatIf { by, edit })
}

// The edit of a word.
fn edit_in(word: EditWord, object: &Object<'_>) -> Result<Edit, Bad>
    ensures { Gives Some (λ e. e) result (edit_by (row_of_edit word) (data_of object.now)) }
{
    match word {
        EditWord::AddUser => add_user_in(object),
        EditWord::Leave => leave_in(object),
        EditWord::Enrol => member_in(true, object),
        EditWord::Dismiss => member_in(false, object),
        EditWord::Relate => pair_in(true, object),
        EditWord::Unrelate => pair_in(false, object),
        EditWord::Permit => permission_in(true, object),
        EditWord::Forbid => permission_in(false, object),
        EditWord::Retire => retire_in(object),
    }
}

// To add a user.
#[tactic(auto, unfolding(wf_names::specs::Names::is_name))]
fn add_user_in(object: &Object<'_>) -> Result<Edit, Bad>
    ensures { Gives Some (λ e. e) result
        (edit_by (row_of_edit EditWord.AddUser) (data_of object.now)) }
{
    let user = name_at(object, "user")?;
    Ok(Edit::AddUser { user })
}

// To take all roles away from a user.
#[tactic(auto, unfolding(wf_names::specs::Names::is_name))]
fn leave_in(object: &Object<'_>) -> Result<Edit, Bad>
    ensures { Gives Some (λ e. e) result
        (edit_by (row_of_edit EditWord.Leave) (data_of object.now)) }
{
    let user = name_at(object, "user")?;
    Ok(Edit::Leave { user })
}

// To give a user a role, or to take it away.
#[tactic(auto, unfolding(wf_names::specs::Names::is_name))]
fn member_in(enrols: bool, object: &Object<'_>) -> Result<Edit, Bad>
    ensures { Gives Some (λ e. e) result
        (edit_by (row_of_edit (if enrols then EditWord.Enrol else EditWord.Dismiss))
        (data_of object.now)) }
{
    let role = name_at(object, "role")?;
    let user = name_at(object, "user")?;
    if enrols {
        Ok(Edit::Enrol { role, user })
    } else {
        Ok(Edit::Dismiss { role, user })
    }
}

// To put a pair of users into a relation, or to take it out.
#[tactic(auto, unfolding(wf_names::specs::Names::is_name))]
fn pair_in(relates: bool, object: &Object<'_>) -> Result<Edit, Bad>
    ensures { Gives Some (λ e. e) result
        (edit_by (row_of_edit (if relates then EditWord.Relate else EditWord.Unrelate))
        (data_of object.now)) }
{
    let first = name_at(object, "first")?;
    let relation = name_at(object, "relation")?;
    let second = name_at(object, "second")?;
    if relates {
        Ok(Edit::Relate {
            first,
            relation,
            second,
        })
    } else {
        Ok(Edit::Unrelate {
            first,
            relation,
            second,
        })
    }
}

// To permit a step to a role, or to forbid it.
#[tactic(auto, unfolding(wf_names::specs::Names::is_name))]
fn permission_in(permits: bool, object: &Object<'_>) -> Result<Edit, Bad>
    ensures { Gives Some (λ e. e) result
        (edit_by (row_of_edit (if permits then EditWord.Permit else EditWord.Forbid))
        (data_of object.now)) }
{
    let flow = name_at(object, "flow")?;
    let role = name_at(object, "role")?;
    let step = name_at(object, "step")?;
    if permits {
        Ok(Edit::Permit { flow, role, step })
    } else {
        Ok(Edit::Forbid { flow, role, step })
    }
}

// To open no more cases of a workflow.
#[tactic(auto, unfolding(wf_names::specs::Names::is_name))]
fn retire_in(object: &Object<'_>) -> Result<Edit, Bad>
    ensures { Gives Some (λ e. e) result
        (edit_by (row_of_edit EditWord.Retire) (data_of object.now)) }
{
    let flow = name_at(object, "flow")?;
    Ok(Edit::Retire { flow })
}
