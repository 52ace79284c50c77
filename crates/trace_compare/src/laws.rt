//! Laws of differences, and of what a sink tells. Each function does nothing; its contract is the law, which holds of all texts.

ghost use Rattle.std.specs.Prelude.{◌≡◌, ◌↔◌, ℕ, List, [], ◌∷◌, ◌++◌, None, Some};
ghost use Rattle.tk_model.specs.TextLines.{text_lines};
ghost use Rattle.trace_compare.specs.Comparisons.{Comparison, Took, told};
ghost use Rattle.trace_compare.specs.Differences.{Difference, IsFound, difference_of};

/// Two texts have no difference exactly where their lines are the same.
pub fn same()
    ensures { (written given : List ℕ) → (difference_of written given ≡ None) ↔ (text_lines written ≡ text_lines given) }
{}

/// A difference is the first place at which the lines aren't the same, and what stands there in each text.
pub fn differing()
    ensures { (written given : List ℕ) (found : Difference) → (difference_of written given ≡ Some found) ↔ IsFound 1 found (text_lines written) (text_lines given) }
{}

/// A line that was written whole, with its line feed, and differs decides: whatever follows, the texts differ so.
pub fn decided()
    ensures { (front given more line : List ℕ) (found : Difference) → difference_of (front ++ 10 ∷ []) given ≡ Some found → found.want ≡ Some line
        → difference_of ((front ++ 10 ∷ []) ++ more) given ≡ Some found }
{}

/// A sink that tells more bytes than before took them, and compares with the same text as before.
pub fn telling()
    ensures { (old new : Comparison) (bytes : List ℕ) → told new ≡ told old ++ bytes → Took old new bytes }
{}
