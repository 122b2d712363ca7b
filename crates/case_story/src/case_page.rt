//! The page of a case, taken together entry by entry.
ghost use Rattle.std.specs.Prelude.{◌≡◌, is_some, true, IfOk};
ghost use Rattle.case_story.specs.Pages.{has_page};

use crate::head::{END, FRONT, HISTORY, STYLE};
use crate::html::{Html, Part};
use crate::picture::put_picture;
use crate::shown::Shown;
use crate::standing::{put_plan, put_rules, put_standing};
use crate::steps::put_steps;
use constraint_forms::Plan;
use grant_table::Cases;
use plain_words::{flow_name, text_of};
use policy_book::{Course, Policy};
use std::alloc::{AllocError, Global};
use std::marker::Model;
use story_words::{Told, push_answer, push_ask, push_reasons, push_reply, subject};
use wf_names::CaseId;
use wf_talk::{Ask, Denial, Entry, Reply, Request};

/// The page of a case so far. Contracts see the number of the case.
///
/// It keeps the rows of the history alone: the other parts tell how the case stands in the end.
#[derive(Drop)]
pub struct Page {
    case: CaseId,
    rows: Html,
    /// How often the policy was changed before the case was opened.
    edits: u32,
}

impl Model for Page {
    ghost use Rattle.std.specs.Prelude.{ℕ};

    ghost Value = { ℕ };

    ghost view = { λ page. page.case };
}

impl Page {
    /// The page of the case with this number, before the first entry.
    pub fn new(alloc: Global, case: CaseId) -> Page
        ensures { result ≡ case }
    {
        Page {
            case,
            rows: Html::new(alloc),
            edits: 0,
        }
    }

    /// Takes an entry. One that is about another case costs no more than a look.
    pub fn take(&mut self, told: &Told<'_>) -> Result<(), AllocError>
        ensures { self.new ≡ self.old }
    {
        let reply = &told.entry.reply;
        if subject(&told.entry.ask, reply) == Some(self.case) {
            return put_row(&mut self.rows, told);
        }
        if !matches!(reply, Reply::Edited { .. }) {
            return Ok(());
        }
        match told.cases.case(self.case) {
            None => {
                self.edits = self.edits.saturating_add(1);
                Ok(())
            }
            Some(case) if case.phase().is_live() => { put_row(&mut self.rows, told) }
            Some(_) => Ok(()),
        }
    }

    /// The whole page, with the policy and the cases behind the last entry, and what an audit says
    /// of them; none where there is no such case.
    pub fn finish<'a>(
        &self,
        alloc: Global,
        p: &'a Policy,
        cases: &'a Cases,
        verdict: &str,
    ) -> Result<Option<String>, AllocError>
        ensures { IfOk result (λ page. is_some page ≡ has_page p.now cases.now self.now) }
    {
        let Some(case) = cases.case(self.case) else {
            return Ok(None);
        };
        if p.flows().len() <= case.flow().0 as u16 {
            return Ok(None);
        }
        let shown = Shown {
            course: Course {
                policy: p,
                number: case.flow(),
            },
            case,
        };
        let mut out = Html::new(alloc);
        self.put_parts(&mut out, &shown, cases.plan(self.case), verdict)?;
        Ok(Some(out.into_text()))
    }

    fn put_parts(
        &self,
        out: &mut Html,
        shown: &Shown<'_>,
        plan: Option<Plan>,
        verdict: &str,
    ) -> Result<(), AllocError> {
        self.put_front(out, shown, verdict)?;
        put_steps_of(out, shown, plan)?;
        put_rules(out, shown)?;
        self.put_history(out)
    }

    // What stands above the steps.
    fn put_front(
        &self,
        out: &mut Html,
        shown: &Shown<'_>,
        verdict: &str,
    ) -> Result<(), AllocError> {
        let flow = flow_name(&shown.course);
        self.put_name(out, FRONT, text_of(&flow))?;
        self.put_name(out, STYLE, text_of(&flow))?;
        out.put(&[Part::Mark("</h1>\n")])?;
        put_standing(out, shown.case)?;
        out.put(&[
            Part::Mark("<p class=\"told\">"),
            Part::Value(verdict),
            Part::Mark("</p>\n"),
        ])
    }

    // Adds the name of the case behind some marks.
    fn put_name(&self, out: &mut Html, marks: &'static str, flow: &str) -> Result<(), AllocError> {
        out.put(&[
            Part::Mark(marks),
            Part::Mark("Case "),
            Part::Number(self.case.0 as u32),
            Part::Mark(" of "),
            Part::Value(flow),
        ])
    }

    fn put_history(&self, out: &mut Html) -> Result<(), AllocError> {
        out.put(&[Part::Mark("<h2>History</h2>\n")])?;
        if 0 < self.edits {
            out.put(&[
                Part::Mark("<p>Changes of the policy before the case was opened: "),
                Part::Number(self.edits),
                Part::Mark(".</p>\n"),
            ])?;
        }
        out.put(&[Part::Mark(HISTORY)])?;
        out.join(&self.rows)?;
        out.put(&[Part::Mark(END)])
    }
}

// Adds the steps: as a picture and as a table, and for an open case a way to finish it.
fn put_steps_of(out: &mut Html, shown: &Shown<'_>, plan: Option<Plan>) -> Result<(), AllocError> {
    out.put(&[Part::Mark("<h2>Steps</h2>\n")])?;
    put_picture(out, shown)?;
    put_steps(out, shown)?;
    match plan {
        Some(plan) => put_plan(out, shown, &plan),
        None => Ok(()),
    }
}

// Adds the row of an entry.
fn put_row(rows: &mut Html, told: &Told<'_>) -> Result<(), AllocError> {
    put_asked(rows, told.entry)?;
    if has_tree(&told.entry.reply) {
        put_tree(rows, told)?;
    } else {
        put_answer(rows, told)?;
    }
    rows.put(&[Part::Mark("</td></tr>\n")])
}

// Adds the beginning of a row, with what was asked.
fn put_asked(rows: &mut Html, entry: &Entry) -> Result<(), AllocError> {
    let mut ask = String::new(rows.allocator());
    push_ask(&mut ask, &entry.ask)?;
    rows.put(&[
        Part::Mark(row_start(&entry.reply)),
        Part::Number(entry.at),
        Part::Mark("</th><td>"),
        Part::Number(entry.line),
        Part::Mark("</td><td>"),
        Part::Mark(badge(&entry.ask)),
        Part::Value(ask.as_str()),
        Part::Mark("</td><td>"),
    ])
}

fn put_answer(rows: &mut Html, told: &Told<'_>) -> Result<(), AllocError> {
    let mut answer = String::new(rows.allocator());
    push_answer(&mut answer, told)?;
    rows.put(&[Part::Value(answer.as_str())])
}

// The kind of a row: of a change of the policy, of what was not done, and of the others.
fn row_start(reply: &Reply) -> &'static str {
    match reply {
        Reply::Edited { .. } => "<tr class=\"edit\"><th scope=\"row\">",
        Reply::Denied(_) | Reply::Again { .. } | Reply::NoMemory | Reply::Bad(_) => {
            "<tr class=\"no\"><th scope=\"row\">"
        }
        _ => "<tr><th scope=\"row\">",
    }
}

// What marks a change of the policy in words too.
fn badge(ask: &Ask) -> &'static str {
    match ask {
        Ask::Request(Request::Change { .. }) => "<b>policy</b> ",
        _ => "",
    }
}

fn has_tree(reply: &Reply) -> bool {
    matches!(
        reply,
        Reply::Denied(Denial::Stranded { .. } | Denial::Strands { .. })
    )
}

// Adds an answer, and why nobody could finish the case.
fn put_tree(rows: &mut Html, told: &Told<'_>) -> Result<(), AllocError> {
    let alloc = rows.allocator();
    let (mut answer, mut why) = (String::new(alloc), String::new(alloc));
    push_reply(&mut answer, told)?;
    push_reasons(&mut why, told)?;
    rows.put(&[
        Part::Value(answer.as_str()),
        Part::Mark("<details open><summary>why</summary><pre>"),
        Part::Value(why.as_str()),
        Part::Mark("</pre></details>"),
    ])
}
