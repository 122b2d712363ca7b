//! The law of escaping. The function does nothing; its contract is the law.
ghost use Rattle.case_story.specs.Escape.{ValuesHaveNoMarks};

/// A value as it is written has no `<`, `>`, `"` or `'`.
pub fn values_have_no_marks()
    ensures { ValuesHaveNoMarks }
{}
