//! Laws of the code rule: each is the contract of a function with an empty body.

ghost use Rattle.pass_trait.specs.Code.{HasOneResult, SeesCodeAlone};
ghost use Rattle.copyprop_rule.specs.Rule.{IsCopied};
ghost use Rattle.copyprop_rule.specs.CodeRule.{CodeIsCopied, CopiesKeepSizes};

/// The rule is functional, and doesn't depend on debug items.
pub fn copies_make_code_alone()
    ensures one { HasOneResult IsCopied }
    ensures same { SeesCodeAlone IsCopied }
{}

/// Without debug items, the function without its redundant copies is what the rule makes of the function without debug
/// items.
pub fn code_is_copied()
    ensures { CodeIsCopied }
{}

/// A function without its redundant copies is within the size bounds of a pass with factor 1 and count 1.
pub fn copies_keep_sizes()
    ensures { CopiesKeepSizes }
{}
