//! Laws of tallies. Each function computes nothing: its contract is the law.
ghost use Rattle.std.specs.Prelude.{◌≡◌, ℕ, List, length};
ghost use Rattle.std.specs.List.{AllByRecursion, flat_map};
ghost use Rattle.drill_case.specs.Tallies.{lines_in, IsReplyText};

/// Replies one after another are as many lines.
pub fn lines_of_replies()
    ensures { (replies : List (List ℕ)) → AllByRecursion IsReplyText replies → length (lines_in (flat_map (λ reply. reply) replies)) ≡ length replies }
{}
