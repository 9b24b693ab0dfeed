//! Laws over the definitions. Each function does nothing: its contract is the law.
ghost use Rattle.tree_type.specs.Laws.{SoundIsUnbroken, OneRefusal, SoundOrBroken};
ghost use Rattle.tree_type.specs.SideLaws.{TwoSumsSeparate, ThreeSumsSeparate, TwoSumsHaveChildren, ThreeSumsHaveChildren};

/// A tree is sound or broken, never both and never neither. In a broken tree, the first node that breaks a rule is unique, and
/// so is the first rule that it breaks.
pub fn one_answer()
    ensures unbroken { SoundIsUnbroken }
    ensures one { OneRefusal }
    ensures either { SoundOrBroken }
{}

/// If the sides of a two-sum or a three-sum keep the rules, the lines of the node have this separation, and its children are
/// the children of the separation.
pub fn sums_separate()
    ensures two { TwoSumsSeparate }
    ensures three { ThreeSumsSeparate }
    ensures two_children { TwoSumsHaveChildren }
    ensures three_children { ThreeSumsHaveChildren }
{}
