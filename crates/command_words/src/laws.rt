//! The forms of the usage are read.
//!
//! The functions do nothing; their contracts are the laws.
ghost use Rattle.std.specs.Prelude.{◌≡◌, ◌<◌, ◌≤◌, ◌^◌, ℕ, [], ◌∷◌, Option, None, Some, codes};
ghost use Rattle.std.specs.Fmt.{decimal};
ghost use Rattle.clap.specs.Words.{Text};
ghost use Rattle.command_words.specs.declared.command.TheConstants.{ABSENCE_LIMIT};
ghost use Rattle.command_words.specs.Laws.Words.{AreOptions, audit, cnf, command_of, plan};
ghost use Rattle.command_words.specs.Laws.Words.{resilience};
ghost use Rattle.command_words.specs.Laws.Words.{resume, serve, show, solve, trial};
ghost use Rattle.command_words.specs.Laws.Usage.{IsPlain, option_words, options_with};

/// The words of each command without options, in the form that a usage text shows, are read as that
/// command.
pub fn usage_is_read()
    ensures plan { (policy flow : Text) → IsPlain policy → IsPlain flow
        → command_of (codes "plan" ∷ policy ∷ flow ∷ []) ≡ Some (plan policy flow) }
    ensures show { (policy : Text) → IsPlain policy
        → command_of (codes "show" ∷ policy ∷ []) ≡ Some (show policy) }
    ensures solve { (policy : Text) → IsPlain policy
        → command_of (codes "solve" ∷ policy ∷ []) ≡ Some (solve policy) }
    ensures resilience { (policy flow : Text) (absences : ℕ) → IsPlain policy → IsPlain flow
        → absences ≤ ABSENCE_LIMIT
        → command_of (codes "resilience" ∷ policy ∷ flow ∷ decimal absences ∷ [])
        ≡ Some (resilience policy flow absences) }
    ensures cnf { (policy flow : Text) → IsPlain policy → IsPlain flow
        → command_of (codes "cnf" ∷ policy ∷ flow ∷ []) ≡ Some (cnf policy flow None) }
    ensures model { (policy flow file : Text) → IsPlain policy → IsPlain flow → IsPlain file
        → command_of (codes "cnf" ∷ policy ∷ flow ∷ file ∷ []) ≡ Some
        (cnf policy flow (Some file)) }
    ensures trial { (seed : ℕ) → seed < 2 ^ 64
        → command_of (codes "trial" ∷ decimal seed ∷ []) ≡ Some (trial seed) }
{}

/// The words of each command with options, in the form that a usage text shows, are read as that
/// command.
pub fn usage_with_options_is_read()
    ensures serve { (policy : Text) (lanes rounds : Option ℕ) → IsPlain policy
        → AreOptions (options_with lanes rounds)
        → command_of (codes "serve" ∷ policy ∷ option_words lanes rounds)
        ≡ Some (serve policy (options_with lanes rounds)) }
    ensures audit { (policy requests : Text) (lanes rounds : Option ℕ)
        → IsPlain policy → IsPlain requests → AreOptions (options_with lanes rounds)
        → command_of (codes "audit" ∷ policy ∷ requests ∷ option_words lanes rounds)
        ≡ Some (audit policy requests (options_with lanes rounds)) }
    ensures resume { (policy requests transcript : Text) (lanes rounds : Option ℕ)
        → IsPlain policy → IsPlain requests → IsPlain transcript
        → AreOptions (options_with lanes rounds)
        → command_of (codes "resume" ∷ policy ∷ requests ∷ transcript
        ∷ option_words lanes rounds)
        ≡ Some (resume policy requests transcript (options_with lanes rounds)) }
{}
