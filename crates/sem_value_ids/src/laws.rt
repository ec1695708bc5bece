//! Laws of tokens: each is the contract of a function with an empty body.

ghost use Rattle.sem_value_ids.specs.Parts.{PartsHaveOneToken};
ghost use Rattle.sem_value_ids.specs.Pullback.{AgreementPullsBack, SharingPullsBack, TokensPullBack};
ghost use Rattle.sem_value_ids.specs.Trace.{RunsTakePaths, TokensNameValues};

/// Along a run from a state with all physical registers written, each token has one value, and whatever has the token
/// holds it, a part of a variable its low bytes.
pub fn tokens_name_values()
    ensures { TokensNameValues }
{}

/// A run takes a path of the control graph, with that path's tokens.
pub fn runs_take_paths()
    ensures { RunsTakePaths }
{}

/// The tokens after items are those of the pull-backs before them.
pub fn tokens_pull_back()
    ensures { TokensPullBack }
{}

/// On a path, two entities have one token after items, or both none, exactly if their pull-backs agree before them.
pub fn agreement_pulls_back()
    ensures { AgreementPullsBack }
{}

/// On a path, two entities share a token after items exactly if their pull-backs share one before them.
pub fn sharing_pulls_back()
    ensures { SharingPullsBack }
{}

/// On a path, of two different parts of a variable that overlap, at most one has a token.
pub fn parts_have_one_token()
    ensures { PartsHaveOneToken }
{}
