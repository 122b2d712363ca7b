//! The forms of a rule. A further one is a row here, one in `specs/Forms.antt`, and what is read
//! and written of it.
ghost use Rattle.std.specs.Prelude.{◌≡◌, map};
ghost use Rattle.policy_reader.specs.Forms as spec;

use crate::Format;

/// The form of a rule.
#[derive(Clone, Copy)]
pub enum Form {
    /// Over two steps.
    Pair,
    /// Over some step of a group.
    SomeOf,
    /// Over every step of a group.
    AllOf,
    /// Over some step of a group, read the other way.
    SomeTo,
    /// Over every step of a group, read the other way.
    AllTo,
    /// So many users at most.
    AtMost,
    /// So many users at least.
    AtLeast,
}

impl Form {
    /// The word for the form in a policy file.
    pub fn word(&self) -> &'static str
        ensures { result.now ≡ spec.form_word self.now }
    {
        match self {
            Form::Pair => "pair",
            Form::SomeOf => "some",
            Form::AllOf => "all",
            Form::SomeTo => "some_to",
            Form::AllTo => "all_to",
            Form::AtMost => "at_most",
            Form::AtLeast => "at_least",
        }
    }

    /// The keys of a rule of the form.
    pub(crate) fn keys(&self) -> &'static [&'static str]
        ensures { map (λ k. k.now) result.now ≡ spec.form_keys self.now }
    {
        match self {
            Form::Pair => &["first", "form", "relation", "second"],
            Form::SomeOf => &["form", "group", "relation", "step"],
            Form::AllOf => &["form", "group", "relation", "step"],
            Form::SomeTo => &["form", "group", "relation", "step"],
            Form::AllTo => &["form", "group", "relation", "step"],
            Form::AtMost => &["form", "group", "limit"],
            Form::AtLeast => &["form", "group", "limit"],
        }
    }

    /// The form of a format with a word.
    pub(crate) fn read(format: Format, text: &str) -> Option<Form>
        ensures { result ≡ spec.form_of_word format text.now }
    {
        match Form::with(text) {
            Some(form) if form.is_in(format) => Some(form),
            _ => None,
        }
    }

    // Whether a format has the form.
    fn is_in(&self, format: Format) -> bool
        ensures { result ≡ spec.knows_form format self.now }
    {
        match format {
            Format::First => self.is_first(),
            Format::Second => true,
        }
    }

    /// Whether the first format has the form.
    pub fn is_first(&self) -> bool
        ensures { result ≡ spec.is_first_form self.now }
    {
        match self {
            Form::Pair | Form::SomeOf | Form::AllOf => true,
            Form::SomeTo | Form::AllTo | Form::AtMost | Form::AtLeast => false,
        }
    }

    // The form with a word.
    fn with(text: &str) -> Option<Form>
        ensures { result ≡ spec.any_form_of_word text.now }
    {
        match text {
            "pair" => Some(Form::Pair),
            "some" => Some(Form::SomeOf),
            "all" => Some(Form::AllOf),
            "some_to" => Some(Form::SomeTo),
            "all_to" => Some(Form::AllTo),
            "at_most" => Some(Form::AtMost),
            "at_least" => Some(Form::AtLeast),
            _ => None,
        }
    }
}
