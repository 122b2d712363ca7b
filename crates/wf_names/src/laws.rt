//! The figures of the limits.
//!
//! The function does nothing; its contract is the law.
ghost use Rattle.std.specs.Prelude.{◌≡◌};
ghost use Rattle.wf_names.specs.declared.limits.TheConstants.{BATCH_LINE_LIMIT, CASE_LIMIT};
ghost use Rattle.wf_names.specs.declared.limits.TheConstants.{CASE_NUMBER_LIMIT, DEFAULT_LANES};
ghost use Rattle.wf_names.specs.declared.limits.TheConstants.{DEFAULT_ROUNDS, FLOW_LIMIT};
ghost use Rattle.wf_names.specs.declared.limits.TheConstants.{LANE_LIMIT, LINE_LIMIT, NAME_LIMIT};
ghost use Rattle.wf_names.specs.declared.limits.TheConstants.{OPEN_CASE_LIMIT, PAIR_LIMIT};
ghost use Rattle.wf_names.specs.declared.limits.TheConstants.{POLICY_FILE_LIMIT, RELATION_LIMIT};
ghost use Rattle.wf_names.specs.declared.limits.TheConstants.{REQUESTS_FILE_LIMIT, ROLE_LIMIT};
ghost use Rattle.wf_names.specs.declared.limits.TheConstants.{ROUND_LIMIT, RULE_LIMIT};
ghost use Rattle.wf_names.specs.declared.limits.TheConstants.{SESSION_LINE_LIMIT, STEP_LIMIT};
ghost use Rattle.wf_names.specs.declared.limits.TheConstants.{TRANSCRIPT_LINE_LIMIT, USER_LIMIT};

/// Each limit is this figure.
pub fn limits_have_their_figures()
    ensures policies { (USER_LIMIT ≡ 4096) × (ROLE_LIMIT ≡ 64) × (RELATION_LIMIT ≡ 32)
        × (PAIR_LIMIT ≡ 65536) }
    ensures workflows { (FLOW_LIMIT ≡ 32) × (STEP_LIMIT ≡ 24) × (RULE_LIMIT ≡ 64) }
    ensures cases { (OPEN_CASE_LIMIT ≡ 1024) × (CASE_LIMIT ≡ 65535) × (CASE_NUMBER_LIMIT ≡ 65535) }
    ensures files { (POLICY_FILE_LIMIT ≡ 4194304) × (REQUESTS_FILE_LIMIT ≡ 67108864) }
    ensures texts { (NAME_LIMIT ≡ 40) × (LINE_LIMIT ≡ 16384) × (TRANSCRIPT_LINE_LIMIT ≡ 16777216) }
    ensures sessions { (SESSION_LINE_LIMIT ≡ 200000) × (BATCH_LINE_LIMIT ≡ 1024) }
    ensures lanes { (LANE_LIMIT ≡ 8) × (DEFAULT_LANES ≡ 1) }
    ensures rounds { (ROUND_LIMIT ≡ 8) × (DEFAULT_ROUNDS ≡ 2) }
{}
