//! The words of requests and of edits.
ghost use Rattle.std.specs.Prelude.{◌≡◌, option_map, map};
ghost use Rattle.wire_json.specs.Requests.{edits, reading_of, row_of};
ghost use Rattle.wire_json.specs.Words.{reading_of_word, row_of_edit};

/// The word of a request.
#[derive(Clone, Copy)]
pub(crate) enum Word {
    Open,
    Claim,
    Finish,
    GiveBack,
    Release,
    Withdraw,
    View,
    Worklist,
    WhatIf,
    Change(EditWord),
}

/// The word of an edit.
#[derive(Clone, Copy)]
pub(crate) enum EditWord {
    AddUser,
    Leave,
    Enrol,
    Dismiss,
    Relate,
    Unrelate,
    Permit,
    Forbid,
    Retire,
}

impl Word {
    /// The word that a text is.
    pub(crate) fn read(text: &str) -> Option<Word>
        ensures { option_map reading_of_word result ≡ reading_of text.now }
    {
        match text {
            "what_if" => Some(Word::WhatIf),
            "open" => Some(Word::Open),
            "claim" => Some(Word::Claim),
            "finish" => Some(Word::Finish),
            "give_back" => Some(Word::GiveBack),
            "release" => Some(Word::Release),
            "withdraw" => Some(Word::Withdraw),
            "view" => Some(Word::View),
            "worklist" => Some(Word::Worklist),
            _ => Some(Word::Change(EditWord::read(text)?)),
        }
    }
}

impl EditWord {
    /// The word that a text is.
    pub(crate) fn read(text: &str) -> Option<EditWord>
        ensures { option_map row_of_edit result ≡ row_of edits text.now }
    {
        match text {
            "add_user" => Some(EditWord::AddUser),
            "leave" => Some(EditWord::Leave),
            "enrol" => Some(EditWord::Enrol),
            "dismiss" => Some(EditWord::Dismiss),
            "relate" => Some(EditWord::Relate),
            "unrelate" => Some(EditWord::Unrelate),
            "permit" => Some(EditWord::Permit),
            "forbid" => Some(EditWord::Forbid),
            "retire" => Some(EditWord::Retire),
            _ => None,
        }
    }

    /// The keys of the edit besides `by`.
    pub(crate) fn keys(self) -> &'static [&'static str]
        ensures { map (λ k. k.now) result.now ≡ (row_of_edit self).keys }
    {
        match self {
            EditWord::AddUser | EditWord::Leave => &["user"],
            EditWord::Enrol | EditWord::Dismiss => &["role", "user"],
            EditWord::Relate | EditWord::Unrelate => &["first", "relation", "second"],
            EditWord::Permit | EditWord::Forbid => &["flow", "role", "step"],
            EditWord::Retire => &["flow"],
        }
    }
}
